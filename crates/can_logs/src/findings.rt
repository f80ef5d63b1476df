//! What is found of a line of a log.
ghost use Rattle.std.specs.Prelude.{◌≡◌, ◌≤◌, ◌++◌, length, map as each, OnOk, IfOk};
ghost use Rattle.text_lines.specs.Room.{AddsAtMost};
ghost use Rattle.can_logs.specs.Findings.{front_text, is_other_tally, is_accepted_tally};
ghost use Rattle.can_logs.specs.FindingSteps.{AddsFinding, AddsDataVerdict};

use crate::frames::{OtherLine, dataless_line, log_frame, unheard_line};
use crate::map_lines::MapLine;
use crate::map_tables::MapTable;
use itoa::Buffer;
use secoc_words::push_verdict;
use secoc_words::verdicts::push_bad_length;
use she_aes::Schedule;
use std::alloc::{AllocError, Global};
use text_lines::words::Words;

/// What a line of a log counts as.
#[derive(Clone, Copy, Debug, PartialEq, Eq)]
pub enum FrameTally {
    /// One that no line of the map judges.
    Other(OtherLine),
    /// A frame that was accepted, and the place of the map's line, counted from 0.
    Accepted(usize),
    /// A frame that wasn't, and the place of the map's line: it is too short, or its freshness or verification failed.
    Failed(usize),
}

impl FrameTally {
    /// Whether it is a frame that was accepted.
    pub fn is_accepted(self) -> bool
        ensures { result ≡ is_accepted_tally self }
    {
        matches!(self, FrameTally::Accepted(_))
    }

    /// Whether the map has no line for it.
    pub fn is_other(self) -> bool
        ensures { result ≡ is_other_tally self }
    {
        matches!(self, FrameTally::Other(_))
    }
}

/// The counters of the lines of the map before the log.
pub fn counters_of(alloc: Global, map: &[MapLine]) -> Result<Vec<u64>, AllocError>
    ensures { IfOk result (λ counters. counters.items ≡ each (λ line. line.counter) map.now) }
{
    let mut counters = Vec::new(alloc);
    for line in map {
        counters.push(line.counter)?;
    }
    Ok(counters)
}

/// Adds what is found of a line of the log, and tells what it counts as. In room for 232 bytes it takes no memory.
pub fn push_finding(
    map: &MapTable,
    counters: &mut [u64],
    number: u64,
    words: &Words<'_>,
    text: &mut Vec<u8>,
) -> Result<FrameTally, AllocError>
    requires { length counters.old ≡ length map.now }
    ensures finds { IfOk result (AddsFinding map.now counters.old counters.new
        (record { number = number; words = words.now }) text.old.items text.new.items) }
    ensures room { AddsAtMost 232 text.old text.new result }
{
    let Some(frame) = log_frame(words) else {
        return Ok(FrameTally::Other(dataless_line(words)));
    };
    let Some(place) = map.place_for(frame.can.digits(), words.word(2)) else {
        return Ok(FrameTally::Other(unheard_line(&frame)));
    };
    let lines = map.lines();
    let line = &lines[place];
    push_front(number, line.head(), text)?;
    push_data_verdict(
        line,
        map.schedule(place),
        place,
        &mut counters[place],
        frame.bytes.bytes(),
        text,
    )
}

/// Adds the number of a line and what is printed of the map's line, each with a space after it.
pub fn push_front(number: u64, head: &[u8], text: &mut Vec<u8>) -> Result<(), AllocError>
    requires { length head.now ≤ 32 }
    ensures front { OnOk result (text.new.items ≡ text.old.items ++ front_text number head.now) }
    ensures room { AddsAtMost 74 text.old text.new result }
{
    let mut digits = Buffer::new();
    text.extend_from_slice(digits.format(number).as_bytes())?;
    text.push(b' ')?;
    text.extend_from_slice(head)?;
    text.push(b' ')?;
    Ok(())
}

/// Adds the verdict on the data of a frame without its padding, or its bad length, and tells what it counts as for the
/// map's line at this place. If it is accepted, the counter is its freshness: an accepted frame, and no other, moves
/// it.
fn push_data_verdict(
    line: &MapLine,
    schedule: &Schedule,
    place: usize,
    counter: &mut u64,
    bytes: &[u8],
    text: &mut Vec<u8>,
) -> Result<FrameTally, AllocError>
    requires { schedule.now ≡ line.now.key }
    ensures verdict { IfOk result (AddsDataVerdict line.now place counter.old counter.new bytes.now
        text.old.items text.new.items) }
    ensures room { AddsAtMost 158 text.old text.new result }
{
    let size = line.size.get() + 4;
    if bytes.len() < size {
        push_bad_length(text)?;
        return Ok(FrameTally::Failed(place));
    }
    let before = *counter;
    push_verdict(
        schedule,
        line.id,
        line.window.get(),
        counter,
        &bytes[..size],
        text,
    )?;
    if *counter == before {
        return Ok(FrameTally::Failed(place));
    }
    Ok(FrameTally::Accepted(place))
}
