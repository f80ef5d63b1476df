//! What a command is to do, once all is read.
use crate::events::canonical;
use crate::questions::answers;
use crate::words::WorldCommand;
use bus_config::BusConfig;
use bus_script::Event;
use secoc_words::{FrameLine, JudgeLine};
use std::alloc::{AllocError, Global};

/// What is to be done.
#[derive(Drop)]
pub enum Job {
    /// To print what lines come to.
    Lines(LineJob),
    /// To run a bus over disks.
    World(WorldJob),
}

/// What is to be printed.
#[derive(Drop)]
pub enum LineJob {
    /// The Secured I-PDU of each line.
    Frames(Vec<FrameLine>),
    /// The verdict on the PDU of each line.
    Judgements(Vec<JudgeLine>),
    /// The events, which are of this bus, in canonical form.
    Events(BusConfig, Vec<Event>),
}

/// What is to be run.
#[derive(Drop)]
pub struct WorldJob {
    /// What is printed of the run.
    pub command: WorldCommand,
    /// The bus that runs.
    pub bus: BusConfig,
    /// Its events.
    pub events: Vec<Event>,
}

impl LineJob {
    ghost use Rattle.std.specs.Prelude.{IfOk};
    ghost use Rattle.bus_commands.specs.Steps.{IsWholeLines, TellsLines};

    /// The text that is printed.
    pub fn text(&self, alloc: Global) -> Result<Vec<u8>, AllocError>
        requires { IsWholeLines self.now }
        ensures { IfOk result (λ text. TellsLines self.now text.items) }
    {
        match self {
            LineJob::Frames(lines) => answers(alloc, lines.as_slice()),
            LineJob::Judgements(lines) => answers(alloc, lines.as_slice()),
            LineJob::Events(bus, events) => canonical(alloc, bus, events.as_slice()),
        }
    }
}
