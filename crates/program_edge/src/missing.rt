//! A source that isn't there.
ghost use Rattle.std.specs.Prelude.{◌≡◌, IsErr};
ghost use Rattle.bus_port.specs.Source.{Reads};
ghost use Rattle.program_edge.specs.NamedSources.{missing_source};

use basics::count_fault;
use bus_port::{PortFailed, Source};
use std::marker::Model;

/// A source each of whose reads fails. Clauses see it as its count of faults.
#[derive(Debug, Drop)]
pub struct MissingSource {
    faults: u64,
}

impl Model for MissingSource {
    ghost use Rattle.std.specs.Prelude.{ℕ};

    ghost Value = { ℕ };

    ghost view = { λ s. s.faults };
}

impl MissingSource {
    /// A source that no read was asked of.
    pub fn new() -> MissingSource
        ensures { result ≡ 0 }
    {
        MissingSource { faults: 0 }
    }
}

impl Source for MissingSource {
    ghost state = { missing_source };

    fn read(&mut self, out: &mut [u8]) -> Result<usize, PortFailed>
        ensures fails { IsErr result }
        ensures reads { Reads (missing_source self.old) (missing_source self.new) out.old out.new result }
    {
        count_fault(&mut self.faults);
        Err(PortFailed)
    }
}
