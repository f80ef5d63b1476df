//! What is printed of a number that is more than it may be.
ghost use Rattle.std.specs.Prelude.{◌≡◌, ◌≤◌, ◌+◌, ◌++◌, [], length, vec_len, vec_capacity};
ghost use Rattle.watch_commands.specs.Limits.{limit_over, limit_reached};
ghost use Rattle.watch_commands.specs.Silences.{lasts};
ghost use Rattle.watch_commands.specs.WatchTotals.{silence_end, silence_text, line_silence, line_beyond};
ghost use Rattle.watch_commands.specs.WatchTotals.{over_head, over_end, over_text, line_over, log_over};

use crate::counts::{
    LineCounts, WatchCounts, add_line_head, add_number, before_value, silence_limit,
};
use crate::limits::{limit_over, limit_reached};
use crate::options::WatchOptions;
use crate::times::{Silence, add_seconds};
use can_logs::MapLine;
use line_stream::add_bytes;

/// A number, its name, and what it may be at most, if it has a limit.
#[derive(Clone, Copy)]
struct Measure {
    name: &'static [u8],
    number: u64,
    limit: Option<u64>,
}

/// Adds the name, the number and the limit of what is more than it may be, in room for 140 bytes. It takes no memory.
fn add_over_end(text: &mut Vec<u8>, json: bool, name: &'static [u8], number: u64, most: u64)
    requires name { length name.now ≤ 16 }
    requires room { vec_len text.old + 140 ≤ vec_capacity text.old }
    ensures end { text.new.items ≡ text.old.items ++ over_end json name.now number most }
    ensures few { vec_len text.new ≤ vec_len text.old + 140 }
    ensures capacity { vec_capacity text.old ≤ vec_capacity text.new }
{
    add_bytes(text, before_value(json, b"\"what\":\"", b""));
    add_bytes(text, name);
    add_number(text, before_value(json, b"\",\"number\":", b" "), number);
    add_number(text, before_value(json, b",\"limit\":", b" limit "), most);
    add_bytes(text, before_value(json, b"}\n", b"\n"));
}

/// Adds what stands before a number of a line of a map, in room for 142 bytes. It takes no memory.
fn add_over_head(text: &mut Vec<u8>, json: bool, line: u64, entry: &MapLine)
    requires room { vec_len text.old + 142 ≤ vec_capacity text.old }
    ensures head { text.new.items ≡ text.old.items ++ over_head json line entry.now }
    ensures few { vec_len text.new ≤ vec_len text.old + 142 }
    ensures capacity { vec_capacity text.old ≤ vec_capacity text.new }
{
    add_line_head(text, json, entry, line);
    add_bytes(text, before_value(json, b"\",", b" "));
}

/// Adds a line for a number of a line of a map, if it is more than it may be, in room for 300 bytes. It takes no memory.
fn add_measure_of(text: &mut Vec<u8>, json: bool, line: u64, entry: &MapLine, measure: Measure)
    requires name { length measure.name.now ≤ 16 }
    requires room { vec_len text.old + 300 ≤ vec_capacity text.old }
    ensures over { text.new.items ≡ text.old.items ++ over_text json (over_head json line entry.now) measure.name.now
        measure.number (limit_over measure.limit measure.number) }
    ensures few { vec_len text.new ≤ vec_len text.old + 300 }
    ensures capacity { vec_capacity text.old ≤ vec_capacity text.new }
{
    let Some(most) = limit_over(measure.limit, measure.number) else {
        return;
    };
    add_bytes(text, before_value(json, b"{\"kind\":\"over\",", b"over "));
    add_over_head(text, json, line, entry);
    add_over_end(text, json, measure.name, measure.number, most);
}

/// Adds a line for a number of a whole log, if it is more than it may be, in room for 155 bytes. It takes no memory.
fn add_measure(text: &mut Vec<u8>, json: bool, measure: Measure)
    requires name { length measure.name.now ≤ 16 }
    requires room { vec_len text.old + 155 ≤ vec_capacity text.old }
    ensures over { text.new.items ≡ text.old.items
        ++ over_text json [] measure.name.now measure.number (limit_over measure.limit measure.number) }
    ensures few { vec_len text.new ≤ vec_len text.old + 155 }
    ensures capacity { vec_capacity text.old ≤ vec_capacity text.new }
{
    let Some(most) = limit_over(measure.limit, measure.number) else {
        return;
    };
    add_bytes(text, before_value(json, b"{\"kind\":\"over\",", b"over "));
    add_over_end(text, json, measure.name, measure.number, most);
}

/// Adds what a silence says behind its line of the map, in room for 300 bytes. It takes no memory.
fn add_silence_end(text: &mut Vec<u8>, json: bool, silence: Silence, limit: u64)
    requires { vec_len text.old + 300 ≤ vec_capacity text.old }
    ensures end { text.new.items ≡ text.old.items ++ silence_end json silence limit }
    ensures few { vec_len text.new ≤ vec_len text.old + 300 }
    ensures capacity { vec_capacity text.old ≤ vec_capacity text.new }
{
    add_bytes(text, before_value(json, b"\"from\":\"", b"from "));
    add_seconds(text, silence.from);
    add_bytes(text, before_value(json, b"\",\"to\":\"", b" to "));
    add_seconds(text, silence.to);
    add_bytes(text, before_value(json, b"\",\"limit\":\"", b" limit "));
    add_seconds(text, limit);
    add_bytes(text, before_value(json, b"\"}\n", b"\n"));
}

/// Adds a line for a silence of a line of a map, if it reaches its limit, in room for 460 bytes. It takes no memory.
fn add_silence(
    text: &mut Vec<u8>,
    json: bool,
    entry: &MapLine,
    counts: &LineCounts,
    limit: Option<u64>,
)
    requires { vec_len text.old + 460 ≤ vec_capacity text.old }
    ensures silence { text.new.items ≡ text.old.items ++ silence_text json
        (over_head json counts.now.number entry.now) counts.now.silence
        (limit_reached limit (lasts counts.now.silence)) }
    ensures few { vec_len text.new ≤ vec_len text.old + 460 }
    ensures capacity { vec_capacity text.old ≤ vec_capacity text.new }
{
    let Some(limit) = limit_reached(limit, counts.silence.lasts()) else {
        return;
    };
    add_bytes(
        text,
        before_value(json, b"{\"kind\":\"silent\",", b"silent "),
    );
    add_over_head(text, json, counts.number, entry);
    add_silence_end(text, json, counts.silence, limit);
}

/// Adds a line for the longest silence of a line of a map that isn't optional, if it reaches its limit, in room for 460
/// bytes. It takes no memory.
fn add_line_silence(text: &mut Vec<u8>, options: WatchOptions, entry: &MapLine, counts: &LineCounts)
    requires { vec_len text.old + 460 ≤ vec_capacity text.old }
    ensures silence { text.new.items ≡ text.old.items ++ line_silence options counts.now entry.now }
    ensures few { vec_len text.new ≤ vec_len text.old + 460 }
    ensures capacity { vec_capacity text.old ≤ vec_capacity text.new }
{
    if entry.optional {
        return;
    }
    add_silence(
        text,
        options.json,
        entry,
        counts,
        silence_limit(&options.limits_in(), entry),
    );
}

/// Adds a line for each number of a line of a map that is more than it may be, in room for 600 bytes. It takes no
/// memory.
fn add_line_over(text: &mut Vec<u8>, options: WatchOptions, entry: &MapLine, counts: &LineCounts)
    requires room { vec_len text.old + 600 ≤ vec_capacity text.old }
    ensures over { text.new.items ≡ text.old.items ++ line_over options counts.now entry.now }
    ensures few { vec_len text.new ≤ vec_len text.old + 600 }
    ensures capacity { vec_capacity text.old ≤ vec_capacity text.new }
{
    let limits = options.limits_in();
    let missed = Measure {
        name: b"missed",
        number: counts.missed(entry),
        limit: limits.missed,
    };
    add_measure_of(text, options.json, counts.number, entry, missed);
    let share = Measure {
        name: b"missed-share",
        number: counts.missed_share(entry),
        limit: limits.missed_share,
    };
    add_measure_of(text, options.json, counts.number, entry, share);
}

/// Adds these lines of a line of a map, and that of its silence, in room for 1,060 bytes. It takes no memory.
pub fn add_line_beyond(
    text: &mut Vec<u8>,
    options: WatchOptions,
    entry: &MapLine,
    counts: &LineCounts,
)
    requires room { vec_len text.old + 1060 ≤ vec_capacity text.old }
    ensures beyond { text.new.items ≡ text.old.items ++ line_beyond options counts.now entry.now }
    ensures few { vec_len text.new ≤ vec_len text.old + 1060 }
    ensures capacity { vec_capacity text.old ≤ vec_capacity text.new }
{
    add_line_over(text, options, entry, counts);
    add_line_silence(text, options, entry, counts);
}

/// Adds a line for each number of a whole log that is more than it may be, in room for 310 bytes. It takes no memory.
pub fn add_log_over(text: &mut Vec<u8>, options: WatchOptions, counts: &WatchCounts)
    requires room { vec_len text.old + 310 ≤ vec_capacity text.old }
    ensures over { text.new.items ≡ text.old.items ++ log_over options counts.now }
    ensures capacity { vec_capacity text.old ≤ vec_capacity text.new }
{
    let limits = options.limits_in();
    let malformed = Measure {
        name: b"malformed",
        number: counts.malformed,
        limit: limits.malformed,
    };
    add_measure(text, options.json, malformed);
    let unmapped = Measure {
        name: b"unmapped",
        number: counts.unmapped,
        limit: limits.unmapped,
    };
    add_measure(text, options.json, unmapped);
}
