//! The program's one command.
ghost use Rattle.std.specs.Prelude.{◌≡◌, map as each, None, string_bytes};
ghost use Rattle.bus_port.specs.Source.{SourceState};
ghost use Rattle.bus_port.specs.Sink.{SinkState};
ghost use Rattle.explain_commands.specs.ExplainStates.{IsFreshExplainer};
ghost use Rattle.explain_commands.specs.ExplainRows.{EndsExplained, EndsExplainUntold, explain_text_asked};
ghost use Rattle.explain_commands.specs.Explains.{Explains};
ghost use Rattle.explain_commands.specs.ExplainSteps.{PreparesExplain};

use crate::port::ExplainPort;
use crate::state::Explainer;
use bus_port::{Sink, Source};
use can_logs::{is_only, names_inputs, read_watch_map};
use line_stream::{StreamFault, stream_lines};
use program_edge::{DONE, Refusal, tell, tell_refusal};
use std::alloc::{AllocError, Global};

const USAGE: &str = "usage: explain MAP LOG\n";

/// What is printed for `--help`.
const HELP: &str = "usage: explain MAP LOG
Says why frames of LOG that MAP names aren't accepted: the first reason that holds (AUTOSAR SecOC, profile 1).
LOG is a log of candump -L; - is standard input. MAP is a map of watch.
explain --locate [--from N] [--to N] MAP LOG finds each FRESH of MAP that is ?, and prints MAP with it.
Status 0: each mapped frame was accepted, and one at least for each line of MAP that isn't optional.
1: a mapped frame wasn't accepted. 3: a line of MAP accepted none. 2: usage. 4: MAP. 5, 8: input. 6: output. 7: memory.
";

/// What is printed for `--version`.
const VERSION: &str = "explain (Rathonsi) 0.20.0\n";

/// What is printed if the log fails.
const LOG_FAILED: &str = "log: read fault\n";

/// What is printed if 2^64 - 1 bytes and more came of the log.
const LOG_TOO_LONG: &str = "log: input too long\n";

/// Says why frames of a log fail by a map, and gives the status that the program ends with. Two words, which name the
/// map and the log and may be any text, are the form of the words, the program's name left out. The map is read whole
/// before the log is asked for. For each complete line whose frame fails the first reason that holds is printed on
/// `sink` before the log is read again. Faults are told on `errors`. Every text that is printed ends with a line feed.
/// `--help` or `--version` alone print a text, with status 0.
///
/// The statuses are looked for in the order 2, then 5, 8 and 4 of the map, and 7. Out of memory prints nothing, and
/// comes only before the log. At the end of the log the status is 1 if a frame failed, 3 if a line of the map that
/// isn't optional accepted none, else 0. If `sink` or `errors` fails the status is 6, and nothing more is asked of the
/// log.
pub fn run_explain<S: Source, T: Source, K: Sink, E: Sink>(
    alloc: Global,
    words: &[String],
    map: &mut S,
    log: &mut T,
    sink: &mut K,
    errors: &mut E,
) -> u8
    // `Explains` of specs/Explains.antt has a member for each promise, in the order of the table of answers.
    ensures { Explains
        (record {
          words = each string_bytes words.now;
          map = record { before = S.state map.old; after = S.state map.new };
          log = record { before = T.state log.old; after = T.state log.new };
        })
        (record {
          output = record { before = K.state sink.old; after = K.state sink.new };
          errors = record { before = E.state errors.old; after = E.state errors.new };
          status = result;
        }) }
{
    match run_untold(alloc, words, map, log, sink) {
        Ok(status) => status,
        Err(refusal) => tell_refusal(errors, &refusal),
    }
}

/// The run before a fault is told: its status, or the fault's row.
fn run_untold<S: Source, T: Source, K: Sink>(
    alloc: Global,
    words: &[String],
    map: &mut S,
    log: &mut T,
    sink: &mut K,
) -> Result<u8, Refusal>
    ensures { EndsExplainUntold
        (record {
          words = each string_bytes words.now;
          map = record { before = S.state map.old; after = S.state map.new };
          log = record { before = T.state log.old; after = T.state log.new };
        })
        (record { before = K.state sink.old; after = K.state sink.new }) result }
{
    if is_only(words, "--help") {
        return Ok(tell(sink, HELP.as_bytes(), DONE));
    }
    if is_only(words, "--version") {
        return Ok(tell(sink, VERSION.as_bytes(), DONE));
    }
    match prepare(alloc, words, map) {
        Ok(mut explainer) => explain_log(&mut explainer, log, sink),
        Err(refusal) => Err(refusal),
    }
}

/// The words and the map: the state before the log, or the first refusal that applies.
fn prepare<S: Source>(alloc: Global, words: &[String], map: &mut S) -> Result<Explainer, Refusal>
    ensures { (log : SourceState) (sink : SinkState)
        → explain_text_asked (each string_bytes words.now) ≡ None → PreparesExplain
        (record {
          words = each string_bytes words.now;
          map = record { before = S.state map.old; after = S.state map.new };
          log = record { before = log; after = log };
        })
        (record { before = sink; after = sink })
        result }
{
    if !names_inputs(words) {
        return Err(Refusal::fixed(2, USAGE));
    }
    let map = read_watch_map(alloc, map)?;
    match Explainer::new(alloc, map) {
        Ok(explainer) => Ok(explainer),
        Err(AllocError) => Err(Refusal::no_memory()),
    }
}

/// Explains a log to its end: its status, or the row of its fault.
fn explain_log<T: Source, K: Sink>(
    explainer: &mut Explainer,
    log: &mut T,
    sink: &mut K,
) -> Result<u8, Refusal>
    requires { IsFreshExplainer explainer.old }
    ensures { EndsExplained explainer.old.mapping (record { before = T.state log.old; after = T.state log.new })
        (record { before = K.state sink.old; after = K.state sink.new }) result }
{
    let mut port = ExplainPort { explainer, sink };
    match stream_lines(log, &mut port) {
        Ok(status) => Ok(status),
        Err(StreamFault::ReadFault) => Err(Refusal::fixed(5, LOG_FAILED)),
        Err(StreamFault::TooLong) => Err(Refusal::fixed(8, LOG_TOO_LONG)),
    }
}
