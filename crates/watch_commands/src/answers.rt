//! The answer to a frame, as it is printed.
ghost use Rattle.std.specs.Prelude.{◌≡◌, ◌≤◌, ◌<◌, ◌+◌, ◌*◌, ◌++◌, true, length, vec_len, vec_capacity};
ghost use Rattle.can_logs.specs.Findings.{Finding};
ghost use Rattle.watch_commands.specs.Watching.{told_text};
ghost use Rattle.watch_commands.specs.Answers.{IsAnswerTo, IsAnswerIn, judged_place};
ghost use Rattle.watch_commands.specs.Answers.{front_object, said_object, said_values, accepted_values};

use crate::options::WatchOptions;
use crate::stamps::{Stamp, add_lead};
use crate::task::WatchTask;
use can_logs::FrameTally;
use itoa::Buffer;
use line_stream::add_bytes;

/// Adds what is printed of the answer to the line with this number of the log, in room for 368 bytes, and for 6 bytes
/// for each byte of the line's stamp. The answer is empty if no line of the map judged it. It takes no memory.
pub fn add_answer(
    text: &mut Vec<u8>,
    map: &WatchTask,
    number: u64,
    tally: FrameTally,
    stamp: &Stamp<'_>,
    answer: &[u8],
)
    requires room { vec_len text.old + 368 + 6 * (length stamp.now.time + length stamp.now.channel)
        ≤ vec_capacity text.old }
    requires answer { length answer.now ≤ 232 }
    requires answers { (finding : Finding) × IsAnswerIn map.now.lines number tally answer.now finding }
    ensures told { (finding : Finding) → IsAnswerIn map.now.lines number tally answer.now finding → text.new.items
        ≡ text.old.items ++ told_text map.now.options (record { finding = finding; stamp = stamp.now }) }
    ensures few { vec_len text.new
        ≤ vec_len text.old + 368 + 6 * (length stamp.now.time + length stamp.now.channel) }
    ensures capacity { vec_capacity text.old ≤ vec_capacity text.new }
{
    let Some(place) = judging_place(tally) else {
        return;
    };
    let head = map.lines()[place].head();
    add_judged(
        text,
        map.options(),
        number,
        head,
        tally.is_accepted(),
        stamp,
        answer,
    );
}

/// The place of the map's line that judged a frame.
fn judging_place(tally: FrameTally) -> Option<usize>
    ensures { result ≡ judged_place tally }
{
    match tally {
        FrameTally::Accepted(place) => Some(place),
        FrameTally::Failed(place) => Some(place),
        FrameTally::Other(_) => None,
    }
}

/// Adds what is printed of the answer to a frame that a line of the map with this head judged: of an accepted one
/// nothing if these are left out; else its time and channel if they are asked for, and an object of JSON or the answer
/// itself.
fn add_judged(
    text: &mut Vec<u8>,
    options: WatchOptions,
    number: u64,
    head: &[u8],
    accepted: bool,
    stamp: &Stamp<'_>,
    answer: &[u8],
)
    requires room { vec_len text.old + 368 + 6 * (length stamp.now.time + length stamp.now.channel)
        ≤ vec_capacity text.old }
    requires head { length head.now ≤ 32 }
    requires answer { length answer.now ≤ 232 }
    requires answers { (finding : Finding) × IsAnswerTo number head.now accepted answer.now finding }
    ensures told { (finding : Finding) → IsAnswerTo number head.now accepted answer.now finding → text.new.items
        ≡ text.old.items ++ told_text options (record { finding = finding; stamp = stamp.now }) }
    ensures few { vec_len text.new
        ≤ vec_len text.old + 368 + 6 * (length stamp.now.time + length stamp.now.channel) }
    ensures capacity { vec_capacity text.old ≤ vec_capacity text.new }
{
    if accepted && options.quiet {
        return;
    }
    add_lead(text, options, stamp);
    if !options.json {
        add_bytes(text, answer);
        return;
    }
    let mut buffer = Buffer::new();
    let digits = buffer.format(number).as_bytes();
    let said = &answer[digits.len() + head.len() + 2..answer.len() - 1];
    add_front(text, digits, head);
    add_said(text, accepted, said);
}

/// Adds the number of a frame's line in these digits and the head of the map's line, in room for 30 bytes more.
fn add_front(text: &mut Vec<u8>, digits: &[u8], head: &[u8])
    requires room { vec_len text.old + length digits.now + length head.now + 30 ≤ vec_capacity text.old }
    ensures front { text.new.items ≡ text.old.items ++ front_object digits.now head.now }
    ensures few { vec_len text.new ≤ vec_len text.old + length digits.now + length head.now + 30 }
    ensures capacity { vec_capacity text.old ≤ vec_capacity text.new }
{
    add_bytes(text, b"\"frame\":");
    add_bytes(text, digits);
    add_bytes(text, b",\"name\":\"");
    add_bytes(text, head);
    add_bytes(text, b"\",\"verdict\":\"");
}

/// Adds what is said of a frame, and if it was accepted its freshness and payload, in room for 31 bytes more.
fn add_said(text: &mut Vec<u8>, accepted: bool, said: &[u8])
    requires accepted { accepted ≡ true → 37 ≤ length said.now }
    requires room { vec_len text.old + length said.now + 31 ≤ vec_capacity text.old }
    ensures said { text.new.items ≡ text.old.items ++ said_object accepted said.now }
    ensures few { vec_len text.new ≤ vec_len text.old + length said.now + 31 }
    ensures capacity { vec_capacity text.old ≤ vec_capacity text.new }
{
    add_values(text, accepted, said);
    add_bytes(text, b"\"}\n");
}

/// Adds the values of what is said of a frame, and the names of the second and the third.
fn add_values(text: &mut Vec<u8>, accepted: bool, said: &[u8])
    requires accepted { accepted ≡ true → 37 ≤ length said.now }
    requires room { vec_len text.old + length said.now + 26 ≤ vec_capacity text.old }
    ensures values { text.new.items ≡ text.old.items ++ said_values accepted said.now }
    ensures few { vec_len text.new ≤ vec_len text.old + length said.now + 26 }
    ensures capacity { vec_capacity text.old ≤ vec_capacity text.new }
{
    if accepted {
        add_accepted(text, said);
    } else {
        add_bytes(text, said);
    }
}

/// Adds the word, the freshness and the payload of an accepted frame.
fn add_accepted(text: &mut Vec<u8>, said: &[u8])
    requires long { 37 ≤ length said.now }
    requires room { vec_len text.old + length said.now + 26 ≤ vec_capacity text.old }
    ensures values { text.new.items ≡ text.old.items ++ accepted_values said.now }
    ensures few { vec_len text.new ≤ vec_len text.old + length said.now + 26 }
    ensures capacity { vec_capacity text.old ≤ vec_capacity text.new }
{
    add_bytes(text, &said[..19]);
    add_bytes(text, b"\",\"freshness\":\"");
    add_bytes(text, &said[20..36]);
    add_bytes(text, b"\",\"payload\":\"");
    add_bytes(text, &said[37..]);
}
