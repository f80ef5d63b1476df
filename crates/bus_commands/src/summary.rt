//! The summary of a run: how many of its lines tell what.
ghost use Rattle.std.specs.Prelude.{◌≡◌, ◌++◌, OnOk};
ghost use Rattle.bus_commands.specs.declared.summary.Summary.{Summary};
ghost use Rattle.bus_commands.specs.Summaries.{number_line};
ghost use Rattle.bus_commands.specs.SummarySteps.{summary_with, CountsFew};

use bus_machine::Line;
use run_driver::Tally;
use std::alloc::{AllocError, Global};

/// How many events a run had, and how many of their lines tell what.
#[derive(Clone, Copy, Debug, PartialEq, Eq, Drop)]
pub struct Summary {
    /// All events.
    pub events: u32,
    /// The lines of PDUs that were sent.
    pub sent: u32,
    /// The lines of PDUs that were accepted.
    pub accepted: u32,
    /// The lines of a freshness or a verification that failed.
    pub failures: u32,
    /// The lines of key updates that were made and taken.
    pub keyed: u32,
    /// The lines of nodes that are up again after a power cut.
    pub cuts: u32,
    /// The lines of refusals.
    pub refused: u32,
}

impl Summary {
    ghost use Rattle.std.specs.Prelude.{◌≡◌, IfOk};
    ghost use Rattle.bus_commands.specs.Summaries.{summary_text};
    ghost use Rattle.bus_commands.specs.SummarySteps.{no_lines};

    /// The summary of no lines.
    pub fn none() -> Summary
        ensures { result ≡ no_lines }
    {
        Summary {
            events: 0,
            sent: 0,
            accepted: 0,
            failures: 0,
            keyed: 0,
            cuts: 0,
            refused: 0,
        }
    }

    /// The seven lines of the summary, a name and a number each.
    pub fn text(self, alloc: Global) -> Result<Vec<u8>, AllocError>
        ensures { IfOk result (λ text. text.items ≡ summary_text self) }
    {
        let mut text = Vec::new(alloc);
        push_count(alloc, &mut text, "events", self.events)?;
        push_count(alloc, &mut text, "sent", self.sent)?;
        push_count(alloc, &mut text, "accepted", self.accepted)?;
        push_count(alloc, &mut text, "failures", self.failures)?;
        push_count(alloc, &mut text, "keyed", self.keyed)?;
        push_count(alloc, &mut text, "cuts", self.cuts)?;
        push_count(alloc, &mut text, "refused", self.refused)?;
        Ok(text)
    }
}

/// Adds a line: a name, a space and a number.
fn push_count(alloc: Global, text: &mut Vec<u8>, name: &str, number: u32) -> Result<(), AllocError>
    ensures { OnOk result (text.new.items ≡ text.old.items ++ number_line name.now number) }
{
    let line = format!(in alloc; "{name} {number}\n")?;
    text.extend_from_slice(line.as_bytes())
}

impl Tally<Line> for Summary {
    ghost State = { Summary };

    ghost state = { λ summary. summary };

    ghost ready = { CountsFew };

    ghost counts = { summary_with };

    fn count(&mut self, _number: u32, line: Line) {
        self.events += 1;
        match line {
            Line::Sent { .. } => self.sent += 1,
            Line::Accepted { .. } => self.accepted += 1,
            Line::FreshnessFailure | Line::VerificationFailure => self.failures += 1,
            Line::Keyed { .. } => self.keyed += 1,
            Line::Up => self.cuts += 1,
            Line::Refused(_) => self.refused += 1,
            Line::Loaded { .. } | Line::Boot { .. } | Line::Armed | Line::NoFrame => {}
        }
    }
}
