//! How far one text is the same as another.
ghost use Rattle.std.specs.Prelude.{◌≡◌, ◌≤◌, ◌<◌, ◌+◌, ◌==◌, ◌^◌, ◌++◌, if◌then◌else◌, length, min, take, drop, position};
ghost use Rattle.std.specs.Prelude.{IfSome, vec_len, vec_capacity};
ghost use Rattle.std.specs.List.{slice_get};
ghost use Rattle.watch_expect.specs.Comparing.{Parts, line_number, last_line, first_line, told_line, difference_text};
ghost use Rattle.watch_expect.specs.CompareSteps.{FollowsKept, EndsAsKept};

use itoa::Buffer;
use line_stream::add_bytes;

/// The most bytes of a line that are told on each side of a difference.
const TOLD_MOST: usize = 4096;

/// How many first bytes two texts have in common.
fn count_same(text: &[u8], other: &[u8]) -> usize
    ensures text { result ≤ length text.now }
    ensures other { result ≤ length other.now }
    ensures same { take result text.now ≡ take result other.now }
    ensures parts { result < length other.now → Parts (slice_get text.now result) (slice_get other.now result) }
{
    let size = text.len().min(other.len());
    for place in 0..size {
        if text[place] != other[place] {
            return place;
        }
    }
    size
}

/// Where a kept text and what is printed part.
#[derive(Clone, Copy)]
pub struct Difference {
    /// Behind so many first bytes of the kept text.
    pub place: usize,
    /// What is printed there stands behind so many bytes of what was found last.
    pub from: usize,
}

/// A place, or the end if it is less.
fn within(at: usize, end: usize) -> usize
    ensures { result ≡ min at end }
{
    if end < at {
        return end;
    }
    at
}

/// Follows a text behind its first bytes by what is found: how many first bytes are the same then, or behind how many
/// the texts part.
pub fn follow(text: &[u8], at: usize, found: &[u8]) -> Result<usize, Difference>
    ensures { FollowsKept text.now at found.now result }
{
    let first = within(at, text.len());
    let count = count_same(&text[first..], found);
    if count < found.len() {
        return Err(Difference {
            place: first + count,
            from: count,
        });
    }
    Ok(first + count)
}

/// The same if nothing is found behind it: where the texts part, if they do.
pub fn follow_to_end(text: &[u8], at: usize, found: &[u8]) -> Option<Difference>
    ensures { EndsAsKept text.now at found.now result }
{
    match follow(text, at, found) {
        Ok(next) => {
            if next == text.len() {
                return None;
            }
            Some(Difference {
                place: next,
                from: found.len(),
            })
        }
        Err(difference) => Some(difference),
    }
}

/// The number of the line of a text that goes on behind its first bytes, counted from 1.
pub fn line_at(text: &[u8], count: usize) -> u64
    requires within { count ≤ length text.now }
    requires short { length text.now < 2 ^ 32 }
    ensures { result ≡ line_number text.now count }
{
    let mut line = 1;
    for place in 0..count {
        if text[place] == b'\n' {
            line += 1;
        }
    }
    line
}

/// What stands behind the last line feed of a text.
fn last_line(text: &[u8]) -> &[u8]
    requires { length text.now < 2 ^ 32 }
    ensures { result.now ≡ last_line text.now }
{
    let mut start = 0;
    for place in 0..text.len() {
        start = start_behind(text[place], place, start);
    }
    &text[start..]
}

/// Where a line begins behind this byte at a place, if it began here before.
fn start_behind(byte: u8, place: usize, start: usize) -> usize
    requires { place < 2 ^ 32 }
    ensures { result ≡ (if byte == 10 then place + 1 else start) }
{
    if byte == b'\n' { place + 1 } else { start }
}

/// What stands before the first line feed of a text.
fn first_line(text: &[u8]) -> &[u8]
    ensures { result.now ≡ first_line text.now }
{
    match place_of_feed(text) {
        Some(at) => &text[..at],
        None => text,
    }
}

/// The place of the first line feed, counted from 0; `None` if there is none.
fn place_of_feed(text: &[u8]) -> Option<usize>
    ensures exact { result ≡ position (λ byte. byte == 10) text.now }
    ensures within { IfSome result (λ at. at < length text.now) }
{
    text.iter().position(|byte| *byte == b'\n')
}

/// The first bytes of a text, 4,096 at most.
fn first_bytes(text: &[u8]) -> &[u8]
    ensures bytes { result.now ≡ take 4096 text.now }
    ensures few { length result.now ≤ 4096 }
{
    if text.len() <= TOLD_MOST {
        return text;
    }
    &text[..TOLD_MOST]
}

/// What stands behind the first bytes of a text; nothing if it has no more.
pub fn rest_behind(text: &[u8], from: usize) -> &[u8]
    ensures { result.now ≡ drop from text.now }
{
    if from >= text.len() {
        return &[];
    }
    &text[from..]
}

/// Adds the line of a text that has these bytes before a place and behind it, in room for 8,195 bytes.
fn add_told(line: &mut Vec<u8>, mark: &'static [u8], before: &[u8], behind: &[u8])
    requires mark { length mark.now ≤ 2 }
    requires short { length before.now < 2 ^ 32 }
    requires room { vec_len line.old + 8195 ≤ vec_capacity line.old }
    ensures told { line.new.items ≡ line.old.items ++ told_line mark.now before.now behind.now }
    ensures few { vec_len line.new ≤ vec_len line.old + 8195 }
    ensures capacity { vec_capacity line.old ≤ vec_capacity line.new }
{
    add_bytes(line, mark);
    add_bytes(line, first_bytes(last_line(before)));
    add_bytes(line, first_bytes(first_line(behind)));
    add_bytes(line, b"\n");
}

/// Puts what is told of a difference behind the first bytes of a kept text, where this came instead, into room for
/// 16,444 bytes. It takes no memory.
pub fn put_difference(line: &mut Vec<u8>, text: &[u8], place: usize, came: &[u8])
    requires room { 16444 ≤ vec_capacity line.old }
    requires within { place ≤ length text.now }
    requires short { length text.now < 2 ^ 32 }
    ensures { line.new.items ≡ difference_text text.now place came.now }
{
    let mut digits = Buffer::new();
    let number = line_at(text, place);
    line.clear();
    add_bytes(line, b"expect: line ");
    add_bytes(line, digits.format(number).as_bytes());
    add_bytes(line, b"\n");
    add_told(line, b"- ", &text[..place], &text[place..]);
    add_told(line, b"+ ", &text[..place], came);
}
