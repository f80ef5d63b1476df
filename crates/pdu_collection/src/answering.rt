//! What is said of each line of a script of pairs.
ghost use Rattle.std.specs.Prelude.{◌≡◌, ◌≤◌, ◌++◌, ℕ, OnOk, IfOk, IfSome, List};
ghost use Rattle.pdu_collection.specs.Joining.{Kind};
ghost use Rattle.pdu_collection.specs.Joined.{JoinerState};
ghost use Rattle.pdu_collection.specs.Answering.{TellsPairs};
ghost use Rattle.pdu_collection.specs.Receiving.{Answers, Arrived, AnswersArrival, AddsMade};
ghost use Rattle.pdu_collection.specs.Receiving.{IsPairScript, AreEntries, TellsEntries};

use crate::joiner::{BadLength, Joiner};
use crate::pair_lines::{Entry, Head, PairLine};
use secoc_words::verdicts::push_bad_length;
use secoc_words::{WIDEST_WINDOW, push_verdict};
use she_aes::{Schedule, expand};
use std::alloc::{AllocError, Global};
use text_lines::pushing::{push_digits, push_line};

/// What changes from line to line: the arrivals that wait, and the freshness that was accepted last.
#[derive(Drop)]
pub struct Receiver {
    joiner: Joiner,
    counter: u64,
}

/// What is said of all lines, one after the other.
pub fn answers(alloc: Global, lines: &[PairLine]) -> Result<Vec<u8>, AllocError>
    requires { IsPairScript lines.now }
    ensures { IfOk result (λ text. TellsPairs lines.now text.items) }
{
    match lines.split_first() {
        Some((PairLine::Head(head), entries)) => entry_answers(alloc, head, entries),
        _ => Ok(Vec::new(alloc)),
    }
}

/// What is said of each line after the head.
fn entry_answers(alloc: Global, head: &Head, lines: &[PairLine]) -> Result<Vec<u8>, AllocError>
    requires { AreEntries lines.now }
    ensures { IfOk result (λ text. TellsEntries head.now lines.now text.items) }
{
    let mut text = Vec::new(alloc);
    let schedule = expand(&head.key);
    let mut receiver = Receiver {
        joiner: Joiner::new(head.place),
        counter: head.counter,
    };
    for line in lines {
        match line {
            PairLine::Entry(entry) => {
                receiver.push_answer(head, &schedule, entry, &mut text)?;
            }
            PairLine::Head(_) => {}
        }
    }
    Ok(text)
}

impl Receiver {
    /// Adds what is said of a line.
    fn push_answer(
        &mut self,
        head: &Head,
        schedule: &Schedule,
        entry: &Entry,
        text: &mut Vec<u8>,
    ) -> Result<(), AllocError>
        requires key { schedule.now ≡ head.now.key }
        requires place { self.old.joiner.place ≡ head.now.place }
        ensures { OnOk result (Answers head.now self.old self.new entry.now text.old.items text.new.items) }
    {
        let mut joined = [0; 64];
        match entry {
            Entry::Authentic(pdu) => {
                let arrived = self.joiner.authentic(pdu.bytes(), &mut joined);
                self.push_arrival(head, schedule, arrived, &joined, text)
            }
            Entry::Cryptographic(pdu) => {
                let arrived = self.joiner.cryptographic(pdu.bytes(), &mut joined);
                self.push_arrival(head, schedule, arrived, &joined, text)
            }
            Entry::Secured { freshness, payload } => {
                push_made(head, schedule, *freshness, payload.bytes(), text)
            }
        }
    }

    /// Adds what is said of an arrival: its bad length, that it waits, or the verdict on the PDU that it joined.
    fn push_arrival(
        &mut self,
        head: &Head,
        schedule: &Schedule,
        arrived: Result<Option<usize>, BadLength>,
        joined: &[u8; 64],
        text: &mut Vec<u8>,
    ) -> Result<(), AllocError>
        requires key { schedule.now ≡ head.now.key }
        requires size { IfOk arrived (λ size. IfSome size (λ n. (5 ≤ n) × (n ≤ 64))) }
        ensures { OnOk result ((before : JoinerState) (kind : Kind) (pdu : List ℕ) → before.place ≡ head.now.place
            → Arrived before self.old.joiner kind pdu joined.now arrived
            → AnswersArrival head.now (record { joiner = before; counter = self.old.counter }) self.new kind pdu
            text.old.items text.new.items) }
    {
        let size = match arrived {
            Ok(size) => size,
            Err(BadLength) => return push_bad_length(text),
        };
        match size {
            Some(size) => push_verdict(
                schedule,
                head.id,
                WIDEST_WINDOW,
                &mut self.counter,
                &joined[..size],
                text,
            ),
            None => push_line(text, b"waiting"),
        }
    }
}

/// Adds the two PDUs of a payload and a freshness, or its bad length.
fn push_made(
    head: &Head,
    schedule: &Schedule,
    freshness: u64,
    payload: &[u8],
    text: &mut Vec<u8>,
) -> Result<(), AllocError>
    requires { schedule.now ≡ head.now.key }
    ensures { OnOk result (AddsMade head.now freshness payload.now text.old.items text.new.items) }
{
    let mut part = [0; 8];
    match head
        .place
        .part(schedule, head.id, payload, freshness, &mut part)
    {
        Some(size) => {
            push_digits(text, payload)?;
            text.push(b' ')?;
            push_digits(text, &part[..size])?;
            text.push(b'\n')?;
            Ok(())
        }
        None => push_bad_length(text),
    }
}
