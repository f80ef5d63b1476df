//! The program's command `explain --locate`.
ghost use Rattle.std.specs.Prelude.{◌≡◌, ◌<◌, ◌^◌, map as each, string_bytes, length, IfOk, IfErr, if◌then◌else◌};
ghost use Rattle.can_logs.specs.MapFaults.{NoMapLines};
ghost use Rattle.can_logs.specs.WatchMaps.{watch_map_of, IsMapOf};
ghost use Rattle.locate_commands.specs.Locating.{zeroed};
ghost use Rattle.locate_commands.specs.LocateRows.{log_input_row};
ghost use Rattle.locate_commands.specs.Locates.{Locates};
ghost use Rattle.locate_commands.specs.LocateSteps.{PreparesLocate, DoesLocate};

use crate::filling::{Filled, Finder, fill};
use crate::options::{Candidates, asked};
use bus_port::{Sink, Source};
use can_logs::{WatchMap, map_input_refusal, map_of_text};
use program_edge::{InputFault, Refusal, read_input, tell, tell_refusal};
use std::alloc::Global;
use text_lines::Memory;

const USAGE: &str = "usage: explain --locate [--from N] [--to N] MAP LOG\n";

/// What is read: the values of freshness that are looked at, the text of the map, its lines and the log.
#[derive(Drop)]
struct Locating {
    candidates: Candidates,
    text: Vec<u8>,
    map: WatchMap,
    log: Vec<u8>,
}

/// Prints a map in which each FRESH that is `?` is filled in, and gives the status that the program ends with. FRESH is
/// one less than the freshness of the line's first frame in the log: the least of a range with which this frame
/// verifies, and after which two of the next fifteen are. The words are `--locate [--from N] [--to N] MAP LOG`, the
/// program's name left out. All reading comes before all printing. Faults are told on `errors`.
///
/// The statuses are looked for in the order 2, then 5, 8 and 4 of the map, then 5 and 8 of the log. Out of memory, 7,
/// prints nothing. The status is 1 if for some FRESH none was found, which stays `?`, else 0. A sink that fails makes
/// the status 6.
pub fn run_locate<S: Source, T: Source, K: Sink, E: Sink>(
    alloc: Global,
    words: &[String],
    map: &mut S,
    log: &mut T,
    sink: &mut K,
    errors: &mut E,
) -> u8
    // `Locates` of specs/Locates.antt has a member for each promise, in the order of the table of answers.
    ensures { Locates
        (record {
          words = each string_bytes words.now;
          map = record { before = S.state map.old; after = S.state map.new };
          log = record { before = T.state log.old; after = T.state log.new };
        })
        (record {
          output = record { before = K.state sink.old; after = K.state sink.new };
          errors = record { before = E.state errors.old; after = E.state errors.new };
          status = result;
        }) }
{
    match prepare(alloc, words, map, log) {
        Ok(locating) => do_locate(alloc, &locating, sink, errors),
        Err(refusal) => tell_refusal(errors, &refusal),
    }
}

/// The first phase: the words and the inputs, or the first refusal that applies.
fn prepare<S: Source, T: Source>(
    alloc: Global,
    words: &[String],
    map: &mut S,
    log: &mut T,
) -> Result<Locating, Refusal>
    ensures { PreparesLocate
        (record {
          words = each string_bytes words.now;
          map = record { before = S.state map.old; after = S.state map.new };
          log = record { before = T.state log.old; after = T.state log.new };
        })
        result }
{
    let Some(asked) = asked(words) else {
        return Err(Refusal::fixed(2, USAGE));
    };
    let text = match read_input(alloc, map) {
        Ok(text) => text,
        Err(fault) => return Err(map_input_refusal(fault)),
    };
    let map = zeroed_map(alloc, text.as_slice())?;
    let log = match read_input(alloc, log) {
        Ok(log) => log,
        Err(fault) => return Err(log_input_refusal(fault)),
    };
    Ok(Locating {
        candidates: asked.candidates,
        text,
        map,
        log,
    })
}

/// The map that a text is with FRESH 0 for each `?`, or the refusal of its first line that is none.
fn zeroed_map(alloc: Global, text: &[u8]) -> Result<WatchMap, Refusal>
    requires { length text.now < 2 ^ 32 }
    ensures ok { IfOk result (IsMapOf (zeroed text.now)) }
    ensures err { IfErr result (NoMapLines (watch_map_of (zeroed text.now))) }
{
    match fill(alloc, text, &None) {
        Ok(zeroed) => map_that_fits(alloc, zeroed.text.as_slice()),
        Err(Memory) => Err(Refusal::no_memory()),
    }
}

/// The map that a text is, or the refusal of its first line that is none. A text of 2^32 bytes has no room: a map has
/// 1,048,576 at most, and with zeros not many times as many.
fn map_that_fits(alloc: Global, text: &[u8]) -> Result<WatchMap, Refusal>
    ensures ok { IfOk result (IsMapOf text.now) }
    ensures err { IfErr result (NoMapLines (watch_map_of text.now)) }
{
    if text.len() >= 1 << 32 {
        return Err(Refusal::no_memory());
    }
    map_of_text(alloc, text)
}

/// The second phase: the map is printed.
fn do_locate<K: Sink, E: Sink>(
    alloc: Global,
    locating: &Locating,
    sink: &mut K,
    errors: &mut E,
) -> u8
    requires text { length locating.now.text.items < 2 ^ 32 }
    requires log { length locating.now.log.items < 2 ^ 32 }
    ensures { DoesLocate locating.now
        (record {
          output = record { before = K.state sink.old; after = K.state sink.new };
          errors = record { before = E.state errors.old; after = E.state errors.new };
          status = result;
        }) }
{
    let finder = Finder::of(&locating.map, locating.log.as_slice(), locating.candidates);
    match fill(alloc, locating.text.as_slice(), &Some(finder)) {
        Ok(filled) => tell(sink, filled.text.as_slice(), status_of(&filled)),
        Err(Memory) => tell_refusal(errors, &Refusal::no_memory()),
    }
}

/// 0 if the FRESH of each line that asks was found, else 1.
fn status_of(filled: &Filled) -> u8
    ensures { result ≡ (if filled.now.is_settled then 0 else 1) }
{
    if filled.is_settled { 0 } else { 1 }
}

/// The refusal if the source of the log gives none.
fn log_input_refusal(fault: InputFault) -> Refusal
    ensures { result ≡ log_input_row fault }
{
    match fault {
        InputFault::ReadFault => Refusal::fixed(5, "log: read fault\n"),
        InputFault::TooLong => Refusal::fixed(8, "log: input too long\n"),
        InputFault::Memory => Refusal::no_memory(),
    }
}
