//! How many lines of a log count as what, and how many frames the lines of a map accepted.
ghost use Rattle.std.specs.Prelude.{◌≡◌, ◌≤◌, ◌+◌, ◌++◌, [], length, vec_len, vec_capacity};
ghost use Rattle.hex.specs.Hex.{encode_lower};
ghost use Rattle.watch_commands.specs.States.{counts_after};
ghost use Rattle.watch_commands.specs.WatchTotals.{counts_of, named, before_value, count_text, counts_text};
ghost use Rattle.watch_commands.specs.WatchTotals.{can_text, line_head, last_text, total_line};
ghost use Rattle.watch_commands.specs.WatchTotals.{values_counted, missed_of, missed_share_of, does_pass, silence_limit};

use crate::limits::{Limits, is_within, limit_reached, share_of};
use crate::times::Silence;
use can_logs::{FrameTally, MapLine, OtherLine};
use itoa::Buffer;
use line_stream::add_bytes;
use text_lines::pushing::push_digits;

/// The numbers of a log, each in 64 bits.
#[derive(Clone, Copy)]
pub struct WatchCounts {
    /// Mapped frames that were accepted.
    pub accepted: u64,
    /// Mapped frames that weren't.
    pub failed: u64,
    /// Data frames that no line of the map hears.
    pub unmapped: u64,
    /// Remote frames, error frames and frames of CAN XL.
    pub other_frames: u64,
    /// All other lines.
    pub malformed: u64,
}

impl WatchCounts {
    /// Before the log.
    pub fn none() -> WatchCounts
        ensures { result ≡ counts_of [] }
    {
        WatchCounts {
            accepted: 0,
            failed: 0,
            unmapped: 0,
            other_frames: 0,
            malformed: 0,
        }
    }

    /// Counts a line by what it counts as; `None` if it is skipped.
    pub fn count(&mut self, tally: Option<FrameTally>)
        ensures { self.new ≡ counts_after tally self.old }
    {
        match tally {
            Some(FrameTally::Accepted(_)) => self.accepted = self.accepted.saturating_add(1),
            Some(FrameTally::Failed(_)) => self.failed = self.failed.saturating_add(1),
            Some(FrameTally::Other(OtherLine::Unmapped)) => {
                self.unmapped = self.unmapped.saturating_add(1);
            }
            Some(FrameTally::Other(OtherLine::OtherFrame)) => {
                self.other_frames = self.other_frames.saturating_add(1);
            }
            Some(FrameTally::Other(OtherLine::Malformed)) => {
                self.malformed = self.malformed.saturating_add(1);
            }
            None => (),
        }
    }
}

/// What stands before a value: in an object of JSON, or in a line of words.
pub fn before_value(json: bool, object: &'static [u8], words: &'static [u8]) -> &'static [u8]
    requires { length words.now ≤ length object.now }
    ensures text { result.now ≡ before_value json object.now words.now }
    ensures few { length result.now ≤ length object.now }
{
    if json { object } else { words }
}

/// Adds a name of at most 16 bytes and a number, in room for 56 bytes. It takes no memory.
pub fn add_number(text: &mut Vec<u8>, name: &[u8], number: u64)
    requires name { length name.now ≤ 16 }
    requires room { vec_len text.old + 56 ≤ vec_capacity text.old }
    ensures number { text.new.items ≡ text.old.items ++ named name.now number }
    ensures few { vec_len text.new ≤ vec_len text.old + 56 }
    ensures capacity { vec_capacity text.old ≤ vec_capacity text.new }
{
    let mut digits = Buffer::new();
    add_bytes(text, name);
    add_bytes(text, digits.format(number).as_bytes());
}

/// Adds the digits of at most 8 bytes, two a byte, in room for 16 bytes. It takes no memory.
fn add_digits(text: &mut Vec<u8>, bytes: &[u8])
    requires few { length bytes.now ≤ 8 }
    requires room { vec_len text.old + 16 ≤ vec_capacity text.old }
    ensures digits { text.new.items ≡ text.old.items ++ encode_lower bytes.now }
    ensures few { vec_len text.new ≤ vec_len text.old + 16 }
    ensures capacity { vec_capacity text.old ≤ vec_capacity text.new }
{
    push_digits(text, bytes).unwrap();
}

/// Adds one of the numbers of a log, in room for 57 bytes. It takes no memory.
fn add_count(
    text: &mut Vec<u8>,
    json: bool,
    object: &'static [u8],
    words: &'static [u8],
    number: u64,
)
    requires name { length object.now ≤ 16 }
    requires shorter { length words.now ≤ length object.now }
    requires room { vec_len text.old + 57 ≤ vec_capacity text.old }
    ensures count { text.new.items ≡ text.old.items ++ count_text json object.now words.now number }
    ensures few { vec_len text.new ≤ vec_len text.old + 57 }
    ensures capacity { vec_capacity text.old ≤ vec_capacity text.new }
{
    add_number(text, before_value(json, object, words), number);
    if !json {
        text.push_reserved(b'\n');
    }
}

/// Adds a line for each number of a log, or an object of them, in room for 300 bytes. It takes no memory.
pub fn add_counts(text: &mut Vec<u8>, json: bool, counts: &WatchCounts)
    requires { vec_len text.old + 300 ≤ vec_capacity text.old }
    ensures lines { text.new.items ≡ text.old.items ++ counts_text json counts.now }
    ensures few { vec_len text.new ≤ vec_len text.old + 300 }
    ensures capacity { vec_capacity text.old ≤ vec_capacity text.new }
{
    add_bytes(text, before_value(json, b"{\"kind\":\"log\"", b""));
    add_count(text, json, b",\"accepted\":", b"accepted ", counts.accepted);
    add_count(text, json, b",\"failed\":", b"failed ", counts.failed);
    add_count(text, json, b",\"unmapped\":", b"unmapped ", counts.unmapped);
    add_count(
        text,
        json,
        b",\"other_frames\":",
        b"other frames ",
        counts.other_frames,
    );
    add_count(
        text,
        json,
        b",\"malformed\":",
        b"malformed ",
        counts.malformed,
    );
    add_bytes(text, before_value(json, b"}\n", b""));
}

/// The numbers of a line of a map.
#[derive(Clone, Copy)]
pub struct LineCounts {
    /// The number of the line in the map.
    pub number: u64,
    /// The frames that it accepted.
    pub accepted: u64,
    /// The frames that it didn't accept.
    pub failed: u64,
    /// The freshness that it accepted last.
    pub last: u64,
    /// Its longest silence.
    pub silence: Silence,
}

impl LineCounts {
    /// How many values of freshness above the map's and up to the last one it has.
    fn values(&self, entry: &MapLine) -> u64
        ensures { result ≡ values_counted entry.now self.now }
    {
        self.last.saturating_sub(entry.counter)
    }

    /// How many of these it didn't accept.
    pub fn missed(&self, entry: &MapLine) -> u64
        ensures { result ≡ missed_of entry.now self.now }
    {
        self.values(entry).saturating_sub(self.accepted)
    }

    /// Their share in percent, rounded up.
    pub fn missed_share(&self, entry: &MapLine) -> u64
        ensures { result ≡ missed_share_of entry.now self.now }
    {
        share_of(self.missed(entry), self.values(entry))
    }

    /// Whether the line is optional or accepted a frame, and is within its limits.
    pub fn does_pass(&self, entry: &MapLine, limits: &Limits) -> bool
        ensures { result ≡ does_pass limits.now self.now entry.now }
    {
        let silent = silence_limit(limits, entry);
        (entry.optional || self.accepted > 0)
            && is_within(limits.missed, self.missed(entry))
            && is_within(limits.missed_share, self.missed_share(entry))
            && (entry.optional || limit_reached(silent, self.silence.lasts()).is_none())
    }
}

/// The silence that is too long for a line of a map, in microseconds: its own, or that of the options.
pub fn silence_limit(limits: &Limits, entry: &MapLine) -> Option<u64>
    ensures { result ≡ silence_limit limits.now entry.now }
{
    entry.own_silence().or(limits.silent)
}

/// Adds these numbers of a line of a map, in room for 360 bytes. It takes no memory.
pub fn add_line_counts(text: &mut Vec<u8>, json: bool, entry: &MapLine, counts: &LineCounts)
    requires { vec_len text.old + 360 ≤ vec_capacity text.old }
    ensures line { text.new.items ≡ text.old.items ++ total_line json counts.now entry.now }
    ensures few { vec_len text.new ≤ vec_len text.old + 360 }
    ensures capacity { vec_capacity text.old ≤ vec_capacity text.new }
{
    add_bytes(text, before_value(json, b"{\"kind\":\"line\",", b""));
    add_line_head(text, json, entry, counts.number);
    add_number(
        text,
        before_value(json, b"\",\"accepted\":", b" accepted "),
        counts.accepted,
    );
    add_number(
        text,
        before_value(json, b",\"failed\":", b" failed "),
        counts.failed,
    );
    add_number(
        text,
        before_value(json, b",\"missed\":", b" missed "),
        counts.missed(entry),
    );
    add_last(text, json, counts.last);
}

/// Adds the freshness that was accepted last, in room for 28 bytes. It takes no memory.
fn add_last(text: &mut Vec<u8>, json: bool, last: u64)
    requires { vec_len text.old + 28 ≤ vec_capacity text.old }
    ensures last { text.new.items ≡ text.old.items ++ last_text json last }
    ensures few { vec_len text.new ≤ vec_len text.old + 28 }
    ensures capacity { vec_capacity text.old ≤ vec_capacity text.new }
{
    add_bytes(text, before_value(json, b",\"last\":\"", b" last "));
    add_digits(text, &last.to_be_bytes());
    add_bytes(text, before_value(json, b"\"}\n", b"\n"));
}

/// Adds the number of a line of a map, its name or CAN identifier, in an object this identifier, and its Data ID, in
/// room for 140 bytes. It takes no memory.
pub fn add_line_head(text: &mut Vec<u8>, json: bool, entry: &MapLine, number: u64)
    requires { vec_len text.old + 140 ≤ vec_capacity text.old }
    ensures head { text.new.items ≡ text.old.items ++ line_head json number entry.now }
    ensures few { vec_len text.new ≤ vec_len text.old + 140 }
    ensures capacity { vec_capacity text.old ≤ vec_capacity text.new }
{
    add_number(text, before_value(json, b"\"line\":", b"line "), number);
    add_bytes(text, before_value(json, b",\"name\":\"", b" "));
    add_bytes(text, entry.head());
    add_can(text, json, entry);
    add_bytes(text, before_value(json, b"\",\"id\":\"", b" "));
    add_digits(text, &entry.id.to_be_bytes());
}

/// Adds the CAN identifier of a line of a map, if the text is an object, in room for 17 bytes. It takes no memory.
fn add_can(text: &mut Vec<u8>, json: bool, entry: &MapLine)
    requires { vec_len text.old + 17 ≤ vec_capacity text.old }
    ensures can { text.new.items ≡ text.old.items ++ can_text json entry.now }
    ensures few { vec_len text.new ≤ vec_len text.old + 17 }
    ensures capacity { vec_capacity text.old ≤ vec_capacity text.new }
{
    if json {
        add_bytes(text, b"\",\"can\":\"");
        add_bytes(text, entry.can.digits());
    }
}
