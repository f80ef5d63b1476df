//! The program's one command.
ghost use Rattle.std.specs.Prelude.{◌≡◌, map as each, None, string_bytes};
ghost use Rattle.bus_port.specs.Source.{SourceState};
ghost use Rattle.bus_port.specs.Sink.{SinkState};
ghost use Rattle.watch_commands.specs.States.{IsFreshWatch};
ghost use Rattle.watch_commands.specs.WatchRows.{EndsLog, EndsUntold};
ghost use Rattle.watch_commands.specs.Words.{text_asked};
ghost use Rattle.watch_commands.specs.Watches.{Watches};
ghost use Rattle.watch_commands.specs.WatchSteps.{PreparesWatch};

use crate::options::{WatchOptions, inputs_of};
use crate::port::WatchPort;
use crate::state::Watch;
use crate::task::WatchTask;
use bus_port::{Sink, Source};
use can_logs::{is_only, names_inputs, read_watch_map};
use line_stream::{StreamFault, stream_lines};
use program_edge::{DONE, Refusal, tell, tell_refusal};
use std::alloc::{AllocError, Global};

const USAGE: &str =
    "usage: watch [--quiet] [--json] [--time] [--strict] [LIMIT..] [--expect FILE] MAP LOG\n";

/// What is printed for `--help`.
const HELP: &str =
    "usage: watch [--quiet] [--json] [--time] [--strict] [LIMIT..] [--expect FILE] MAP LOG
Says of each frame of LOG that MAP names whether its Secured I-PDU verifies (AUTOSAR SecOC, profile 1).
LOG is a log of candump -L; - is standard input.
--quiet leaves the answers to accepted frames out. --json prints an object of JSON a line.
--time prints the time and the channel of the log before each answer.
LIMIT is what a log may have at most: --missed N and --missed-share PERCENT of freshness for a line of MAP,
--silent SECONDS without an accepted frame of a line of MAP that isn't optional,
--malformed N lines, --unmapped for no frame that MAP doesn't name. --strict is all of them, with 0 and 5 seconds.
--expect compares the output with FILE and prints none: 0 if it is the same, else 1 and the line that differs.
A line of MAP: CANID ID KEY FRESH LEN [WINDOW [CHANNEL]] [MARK..] [# COMMENT]
MARK is optional, name=NAME, silent=SECONDS for this line, or every=SECONDS, its period: it is silent after five.
Status 0: each mapped frame was accepted, and one at least for each line of MAP that isn't optional.
1: a mapped frame wasn't accepted. 3: a line of MAP accepted none, or a LIMIT is exceeded. 2: usage. 4: MAP.
5, 8: input. 6: output. 7: memory.
";

/// What is printed for `--version`.
const VERSION: &str = "watch (Rathonsi) 0.20.0\n";

/// What is printed if the log fails.
const LOG_FAILED: &str = "log: read fault\n";

/// What is printed if 2^64 - 1 bytes and more came of the log.
const LOG_TOO_LONG: &str = "log: input too long\n";

/// Judges the frames of a log by a map while they come, and gives the status that the program ends with. Two words,
/// which name the map and the log and may be any text, are the form of the words, the program's name left out; options
/// may stand before them ([`WatchOptions`]). The map is read whole before the log is
/// asked for. Each complete line of the log is answered on `sink` before the log is read again. Faults are told on
/// `errors`. Every text that is printed ends with a line feed. `--help` or `--version` alone print a text, with status
/// 0.
///
/// The statuses are looked for in the order 2, then 5, 8 and 4 of the map, and 7. Out of memory prints nothing, and
/// comes only before the log. At the end of the log the status is 1 if a mapped frame wasn't accepted, 3 if a line of
/// the map that isn't optional accepted none, else 0. If `sink` or `errors` fails the status is 6, and nothing more is
/// asked of the log.
pub fn run_watch<S: Source, T: Source, K: Sink, E: Sink>(
    alloc: Global,
    words: &[String],
    map: &mut S,
    log: &mut T,
    sink: &mut K,
    errors: &mut E,
) -> u8
    // `Watches` of specs/Watches.antt has a member for each promise, in the order of the table of answers.
    ensures { Watches
        (record {
          words = each string_bytes words.now;
          map = record { before = S.state map.old; after = S.state map.new };
          log = record { before = T.state log.old; after = T.state log.new };
        })
        (record {
          output = record { before = K.state sink.old; after = K.state sink.new };
          errors = record { before = E.state errors.old; after = E.state errors.new };
          status = result;
        }) }
{
    match run_untold(alloc, words, map, log, sink) {
        Ok(status) => status,
        Err(refusal) => tell_refusal(errors, &refusal),
    }
}

/// The run before a fault is told: its status, or the fault's row.
fn run_untold<S: Source, T: Source, K: Sink>(
    alloc: Global,
    words: &[String],
    map: &mut S,
    log: &mut T,
    sink: &mut K,
) -> Result<u8, Refusal>
    ensures { EndsUntold
        (record {
          words = each string_bytes words.now;
          map = record { before = S.state map.old; after = S.state map.new };
          log = record { before = T.state log.old; after = T.state log.new };
        })
        (record { before = K.state sink.old; after = K.state sink.new }) result }
{
    if is_only(words, "--help") {
        return Ok(tell(sink, HELP.as_bytes(), DONE));
    }
    if is_only(words, "--version") {
        return Ok(tell(sink, VERSION.as_bytes(), DONE));
    }
    match prepare(alloc, words, map) {
        Ok(mut watch) => watch_log(&mut watch, log, sink),
        Err(refusal) => Err(refusal),
    }
}

/// The words and the map: the watch before the log, or the first refusal that applies.
pub fn prepare<S: Source>(alloc: Global, words: &[String], map: &mut S) -> Result<Watch, Refusal>
    ensures { (log : SourceState) (sink : SinkState) → text_asked (each string_bytes words.now) ≡ None → PreparesWatch
        (record {
          words = each string_bytes words.now;
          map = record { before = S.state map.old; after = S.state map.new };
          log = record { before = log; after = log };
        })
        (record { before = sink; after = sink })
        result }
{
    if !names_inputs(inputs_of(words)) {
        return Err(Refusal::fixed(2, USAGE));
    }
    let map = read_watch_map(alloc, map)?;
    let task = WatchTask::of(map, WatchOptions::of(words));
    match Watch::new(alloc, task) {
        Ok(watch) => Ok(watch),
        Err(AllocError) => Err(Refusal::no_memory()),
    }
}

/// Watches a log to its end: its status, or the row of its fault.
fn watch_log<T: Source, K: Sink>(
    watch: &mut Watch,
    log: &mut T,
    sink: &mut K,
) -> Result<u8, Refusal>
    requires { IsFreshWatch watch.old }
    ensures { EndsLog watch.old.mapping (record { before = T.state log.old; after = T.state log.new })
        (record { before = K.state sink.old; after = K.state sink.new }) result }
{
    let mut port = WatchPort { watch, sink };
    match stream_lines(log, &mut port) {
        Ok(status) => Ok(status),
        Err(StreamFault::ReadFault) => Err(Refusal::fixed(5, LOG_FAILED)),
        Err(StreamFault::TooLong) => Err(Refusal::fixed(8, LOG_TOO_LONG)),
    }
}
