//! How many lines tell what.
ghost use Rattle.std.specs.Prelude.{◌≡◌, ◌≤◌, length, count_by};
ghost use Rattle.chart_commands.specs.Counts.{is_counted};

use bus_machine::Line;

/// What a line is counted for.
#[derive(Clone, Copy, Debug, PartialEq, Eq, Drop)]
pub enum CountedKind {
    /// A PDU that was sent.
    Sent,
    /// A PDU that was accepted.
    Accepted,
    /// A freshness or a verification that failed.
    Failures,
    /// A key update that was made and taken.
    Keyed,
    /// A node that is up again after a power cut.
    Cuts,
    /// A refusal.
    Refused,
}

/// How many of these lines tell this.
pub fn count_lines(kind: CountedKind, lines: &[Line]) -> usize
    ensures count { result ≡ count_by (is_counted kind) lines.now }
    ensures few { result ≤ length lines.now }
{
    let mut count = 0;
    for line in lines {
        if is_of_kind(kind, line) {
            count += 1;
        }
    }
    count
}

// Whether a line tells this.
fn is_of_kind(kind: CountedKind, line: &Line) -> bool
    ensures { result ≡ is_counted kind line.now }
{
    match kind {
        CountedKind::Sent => matches!(line, Line::Sent { .. }),
        CountedKind::Accepted => matches!(line, Line::Accepted { .. }),
        CountedKind::Failures => {
            matches!(line, Line::FreshnessFailure | Line::VerificationFailure)
        }
        CountedKind::Keyed => matches!(line, Line::Keyed { .. }),
        CountedKind::Cuts => matches!(line, Line::Up),
        CountedKind::Refused => matches!(line, Line::Refused(_)),
    }
}
