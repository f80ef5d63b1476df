//! The time and the channel of a line of a log, as they stand before its answer.
ghost use Rattle.std.specs.Prelude.{◌≡◌, ◌≤◌, ◌<◌, ◌+◌, ◌*◌, ◌++◌, if◌then◌else◌, length, vec_len, vec_capacity};
ghost use Rattle.text_lines.specs.Readings.{nth_word};
ghost use Rattle.watch_commands.specs.Stamps.{stamp_of, within_ends, is_plain_ascii, escaped_byte, escaped};
ghost use Rattle.watch_commands.specs.Stamps.{stamp_words, stamp_object, lead_text};
ghost use Rattle.can_logs.specs.Seconds.{seconds_form};

use crate::options::WatchOptions;
use can_logs::seconds;
use line_stream::add_bytes;
use std::marker::Model;
use text_lines::pushing::push_digits;
use text_lines::words::Words;

/// The time and the channel of a line of a log: its first word, with its parentheses, and its second. Each is empty if
/// the line hasn't the word.
#[derive(Drop)]
pub struct Stamp<'a> {
    time: &'a [u8],
    channel: &'a [u8],
}

impl<'a> Model for Stamp<'a> {
    ghost use Rattle.watch_commands.specs.Stamps.{LineStamp};

    ghost Value = { LineStamp };

    ghost view = { λ s. record { time = s.time.now; channel = s.channel.now } };
}

impl<'a> Stamp<'a> {
    /// That of a line of these words.
    pub fn of(words: &Words<'a>) -> Stamp<'a>
        ensures { result ≡ stamp_of words.now }
    {
        Stamp {
            time: word_or_empty(words, 1),
            channel: word_or_empty(words, 2),
        }
    }

    /// The time in microseconds, if it is one of seconds.
    pub fn seconds(&self) -> Option<u64>
        ensures { result ≡ seconds_form (within_ends self.now.time) }
    {
        seconds(inside_ends(self.time))
    }
}

/// A word by its number, counted from 1; empty if there is none.
fn word_or_empty<'a>(words: &Words<'a>, number: usize) -> &'a [u8]
    requires { 0 < number }
    ensures { result.now ≡ nth_word words.now number }
{
    if number > words.len() {
        return &[];
    }
    words.word(number)
}

/// Adds what stands before an answer, in room for 39 bytes, and for 6 bytes for each byte of the stamp.
pub fn add_lead(text: &mut Vec<u8>, options: WatchOptions, stamp: &Stamp<'_>)
    requires { vec_len text.old + 39 + 6 * (length stamp.now.time + length stamp.now.channel) ≤ vec_capacity text.old }
    ensures lead { text.new.items ≡ text.old.items ++ lead_text options stamp.now }
    ensures few { vec_len text.new
        ≤ vec_len text.old + 39 + 6 * (length stamp.now.time + length stamp.now.channel) }
    ensures capacity { vec_capacity text.old ≤ vec_capacity text.new }
{
    if options.time {
        add_stamp(text, options.json, stamp);
    } else if options.json {
        add_bytes(text, b"{\"kind\":\"frame\",");
    }
}

/// Adds the time and the channel, as the first members of an object of JSON or in words.
fn add_stamp(text: &mut Vec<u8>, json: bool, stamp: &Stamp<'_>)
    requires { vec_len text.old + 39 + 6 * (length stamp.now.time + length stamp.now.channel) ≤ vec_capacity text.old }
    ensures stamp { text.new.items
        ≡ text.old.items ++ (if json then stamp_object stamp.now else stamp_words stamp.now) }
    ensures few { vec_len text.new
        ≤ vec_len text.old + 39 + 6 * (length stamp.now.time + length stamp.now.channel) }
    ensures capacity { vec_capacity text.old ≤ vec_capacity text.new }
{
    if json {
        add_members(text, stamp.time, stamp.channel);
    } else {
        add_words(text, stamp.time, stamp.channel);
    }
}

/// Adds a time and a channel, each with a space after it.
fn add_words(text: &mut Vec<u8>, time: &[u8], channel: &[u8])
    requires { vec_len text.old + 2 + length time.now + length channel.now ≤ vec_capacity text.old }
    ensures words { text.new.items
        ≡ text.old.items ++ stamp_words (record { time = time.now; channel = channel.now }) }
    ensures few { vec_len text.new ≤ vec_len text.old + 2 + length time.now + length channel.now }
    ensures capacity { vec_capacity text.old ≤ vec_capacity text.new }
{
    add_bytes(text, time);
    add_bytes(text, b" ");
    add_bytes(text, channel);
    add_bytes(text, b" ");
}

/// Adds a time without its parentheses and a channel as members of an object of JSON, behind its kind.
fn add_members(text: &mut Vec<u8>, time: &[u8], channel: &[u8])
    requires { vec_len text.old + 39 + 6 * (length time.now + length channel.now) ≤ vec_capacity text.old }
    ensures members { text.new.items
        ≡ text.old.items ++ stamp_object (record { time = time.now; channel = channel.now }) }
    ensures few { vec_len text.new ≤ vec_len text.old + 39 + 6 * (length time.now + length channel.now) }
    ensures capacity { vec_capacity text.old ≤ vec_capacity text.new }
{
    add_bytes(text, b"{\"kind\":\"frame\",\"time\":\"");
    add_escaped(text, inside_ends(time));
    add_bytes(text, b"\",\"channel\":\"");
    add_escaped(text, channel);
    add_bytes(text, b"\",");
}

/// All but the first and the last byte.
fn inside_ends(word: &[u8]) -> &[u8]
    ensures value { result.now ≡ within_ends word.now }
    ensures few { length result.now ≤ length word.now }
{
    if word.len() < 2 {
        return &[];
    }
    &word[1..word.len() - 1]
}

/// Adds bytes as a string of JSON has them, in room for 6 times as many.
fn add_escaped(text: &mut Vec<u8>, bytes: &[u8])
    requires { vec_len text.old + 6 * length bytes.now ≤ vec_capacity text.old }
    ensures escaped { text.new.items ≡ text.old.items ++ escaped bytes.now }
    ensures few { vec_len text.new ≤ vec_len text.old + 6 * length bytes.now }
    ensures capacity { vec_capacity text.old ≤ vec_capacity text.new }
{
    for byte in bytes {
        add_escaped_byte(text, *byte);
    }
}

/// Adds a byte as a string of JSON has it: itself if it is a printed character of ASCII, or `\u00` and its two digits.
fn add_escaped_byte(text: &mut Vec<u8>, byte: u8)
    requires { vec_len text.old + 6 ≤ vec_capacity text.old }
    ensures escaped { text.new.items ≡ text.old.items ++ escaped_byte byte }
    ensures few { vec_len text.new ≤ vec_len text.old + 6 }
    ensures capacity { vec_capacity text.old ≤ vec_capacity text.new }
{
    if stands_plain(byte) {
        text.push_reserved(byte);
        return;
    }
    add_bytes(text, b"\\u00");
    push_digits(text, &[byte]).unwrap();
}

/// Whether a byte stands for itself in a string of JSON.
fn stands_plain(byte: u8) -> bool
    ensures { result ≡ is_plain_ascii byte }
{
    byte >= 32 && byte <= 126 && byte != b'"' && byte != b'\\'
}
