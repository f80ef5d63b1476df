//! The summary of lines that no trial has. Those that one has are rows of checks/, as are the words of a trial.
use crate::comparing::holds;
use basics::Pdu;
use bus_commands::Summary;
use bus_machine::{Line, Refusal};
use run_driver::Tally;
use std::alloc::Global;

/// A PDU that no event sent.
fn foreign() -> Option<Line> {
    Some(Line::Accepted {
        id: 1,
        freshness: 2,
        payload: Pdu::of(&[1])?,
        from: None,
    })
}

/// A boot counts as an event alone, what a store is refused for as a refusal, and what is accepted from none as
/// accepted.
fn summary(foreign: Line) -> Summary {
    let mut summary = Summary::none();
    summary.count(1, Line::Boot { good: true });
    summary.count(2, Line::Refused(Refusal::NotFormatted));
    summary.count(3, Line::Refused(Refusal::Damaged(3)));
    summary.count(4, foreign);
    summary
}

fn has_text(alloc: Global, summary: Summary, text: &str) -> bool {
    match summary.text(alloc) {
        Ok(bytes) => bytes.as_slice() == text.as_bytes(),
        Err(_) => false,
    }
}

fn is_summed(alloc: Global, text: &str) -> bool {
    match foreign() {
        Some(line) => has_text(alloc, summary(line), text),
        None => false,
    }
}

#[test]
fn lines_that_no_trial_has_are_counted_by_what_they_tell(rt: HostRuntime) {
    let text = "events 4\nsent 0\naccepted 1\nfailures 0\nkeyed 0\ncuts 0\nrefused 2\n";
    holds(&rt, "text", is_summed(rt.alloc(), text));
}
