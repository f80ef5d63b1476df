//! What the lines of a log count as.
ghost use Rattle.std.specs.Prelude.{◌≡◌, ◌+◌, ◌++◌, OnOk, Some};
ghost use Rattle.text_lines.specs.Room.{AddsAtMost};
ghost use Rattle.endpoint_commands.specs.Counting.{counts_line, counts_with, kind_told};

use bus_machine::Line;
use bus_script::pushing::push_numbered;
use std::alloc::AllocError;

/// What a line of a log counts as.
#[derive(Clone, Copy, Debug, PartialEq, Eq)]
pub enum LineKind {
    /// A frame that was sent.
    Sent,
    /// A frame whose payload was accepted.
    Accepted,
    /// A mapped frame with a comment.
    Refused,
    /// A line that asks for nothing, and isn't skipped.
    Other,
}

impl LineKind {
    /// What a mapped frame counts as, by what is told of it.
    pub fn of_told(told: &Line) -> LineKind
        ensures { result ≡ kind_told told.now }
    {
        match told {
            Line::Sent { .. } => LineKind::Sent,
            Line::Accepted { .. } => LineKind::Accepted,
            Line::FreshnessFailure => LineKind::Refused,
            Line::VerificationFailure => LineKind::Refused,
            Line::Keyed { .. } => LineKind::Refused,
            Line::Loaded { .. } => LineKind::Refused,
            Line::Boot { .. } => LineKind::Refused,
            Line::Up => LineKind::Refused,
            Line::Armed => LineKind::Refused,
            Line::NoFrame => LineKind::Refused,
            Line::Refused(_) => LineKind::Refused,
        }
    }
}

/// How many lines count as each kind. A count stands still at its type's end.
#[derive(Clone, Copy, Debug, PartialEq, Eq)]
pub struct EndpointCounts {
    /// Frames that were sent.
    pub sent: u64,
    /// Frames whose payload was accepted.
    pub accepted: u64,
    /// Mapped frames with a comment.
    pub refused: u64,
    /// Other lines.
    pub others: u64,
}

impl EndpointCounts {
    /// Before the log.
    pub fn none() -> EndpointCounts
        ensures { result ≡ record { sent = 0; accepted = 0; refused = 0; others = 0 } }
    {
        EndpointCounts {
            sent: 0,
            accepted: 0,
            refused: 0,
            others: 0,
        }
    }

    /// Counts a line.
    pub fn count(&mut self, kind: LineKind)
        ensures { self.new ≡ counts_with (Some kind) self.old }
    {
        match kind {
            LineKind::Sent => self.sent = self.sent.saturating_add(1),
            LineKind::Accepted => self.accepted = self.accepted.saturating_add(1),
            LineKind::Refused => self.refused = self.refused.saturating_add(1),
            LineKind::Other => self.others = self.others.saturating_add(1),
        }
    }

    /// Adds the line of the counts, in room for 250 bytes without taking memory.
    pub fn push_line(&self, text: &mut Vec<u8>) -> Result<(), AllocError>
        ensures line { OnOk result (text.new.items ≡ text.old.items ++ counts_line self.now) }
        ensures room { AddsAtMost 250 text.old text.new result }
    {
        text.push(b'#')?;
        push_numbered(text, b"sent", self.sent)?;
        push_numbered(text, b"accepted", self.accepted)?;
        push_numbered(text, b"refused", self.refused)?;
        push_numbered(text, b"other", self.others)?;
        text.push(b'\n')?;
        Ok(())
    }
}
