//! A run whose output is compared.
ghost use Rattle.std.specs.Prelude.{◌≡◌, ◌≤◌, ◌<◌, ◌^◌, length, map as each, string_bytes, IfOk, IfErr};
ghost use Rattle.std.specs.Prelude.{vec_capacity};
ghost use Rattle.program_edge.specs.Inputs.{ReadsWhole};
ghost use Rattle.program_edge.specs.Told.{EndingTold};
ghost use Rattle.watch_commands.specs.States.{IsFreshWatch};
ghost use Rattle.watch_commands.specs.Words.{AsksWatch};
ghost use Rattle.watch_expect.specs.Comparing.{difference_text};
ghost use Rattle.watch_expect.specs.Expects.{kept_row, Expects};
ghost use Rattle.watch_expect.specs.CompareSteps.{IsKeptRow, ComparesLog};

use crate::port::ExpectPort;
use crate::texts::{Difference, put_difference, rest_behind};
use bus_port::{Sink, Source};
use line_stream::{StreamFault, stream_lines};
use program_edge::{DONE, InputFault, Refusal, read_input, tell, tell_refusal};
use std::alloc::{AllocError, Global};
use watch_commands::{Watch, prepare};

/// The status if the output isn't the kept text.
const DIFFERS: u8 = 1;

/// The most bytes that tell a difference: its line, of two texts, of each 4,096 bytes before it and behind it.
const DIFFERENCE_ROOM: usize = 16_444;

/// A kept text of at most 1,048,576 bytes, and room for what tells its first difference.
#[derive(Drop)]
struct Kept {
    text: Vec<u8>,
    line: Vec<u8>,
}

/// Watches a log, and ends with 0 exactly if `watch` prints the kept text, of at most 1,048,576 bytes. Nothing is
/// printed on standard output. The kept text is read whole, then the map. Each piece of the log is compared before the
/// log is read again. At the first difference the run ends with 1. `errors` has the number of its line, the line as it
/// is kept, and as it came; so, too, if the output ends before the text. The rows of faults are those of `run_watch`,
/// and of the kept text 5, 8 and 7. Out of memory comes only before the log.
pub fn run_expected<F: Source, S: Source, T: Source, E: Sink>(
    alloc: Global,
    words: &[String],
    kept: &mut F,
    map: &mut S,
    log: &mut T,
    errors: &mut E,
) -> u8
    requires { AsksWatch (each string_bytes words.now) }
    ensures { Expects
        (record {
          words = each string_bytes words.now;
          kept = record { before = F.state kept.old; after = F.state kept.new };
          map = record { before = S.state map.old; after = S.state map.new };
          log = record { before = T.state log.old; after = T.state log.new };
        })
        (record { errors = record { before = E.state errors.old; after = E.state errors.new }; status = result }) }
{
    let mut kept = match read_kept(alloc, kept) {
        Ok(kept) => kept,
        Err(refusal) => return tell_refusal(errors, &refusal),
    };
    let mut watch = match prepare(alloc, words, map) {
        Ok(watch) => watch,
        Err(refusal) => return tell_refusal(errors, &refusal),
    };
    match compare_log(&mut watch, kept.text.as_slice(), log) {
        Ok(None) => DONE,
        Ok(Some(difference)) => {
            let came = rest_behind(watch.text(), difference.from);
            tell_difference(&mut kept, difference.place, came, errors)
        }
        Err(refusal) => tell_refusal(errors, &refusal),
    }
}

/// The text that a source gives, and room for what tells a difference; or the row of the fault.
fn read_kept<F: Source>(alloc: Global, kept: &mut F) -> Result<Kept, Refusal>
    ensures ok { IfOk result (λ k. (16444 ≤ vec_capacity k.line)
        × ReadsWhole (record { before = F.state kept.old; after = F.state kept.new }) k.text.items) }
    ensures err { IfErr result (IsKeptRow (record { before = F.state kept.old; after = F.state kept.new })) }
{
    let text = match read_input(alloc, kept) {
        Ok(text) => text,
        Err(fault) => return Err(kept_refusal(fault)),
    };
    match Vec::with_capacity(alloc, DIFFERENCE_ROOM) {
        Ok(line) => Ok(Kept { text, line }),
        Err(AllocError) => Err(Refusal::no_memory()),
    }
}

/// The refusal if a source gives no kept text.
fn kept_refusal(fault: InputFault) -> Refusal
    ensures { result ≡ kept_row fault }
{
    match fault {
        InputFault::ReadFault => Refusal::fixed(5, "expect: read fault\n"),
        InputFault::TooLong => Refusal::fixed(8, "expect: input too long\n"),
        InputFault::Memory => Refusal::no_memory(),
    }
}

/// Tells how a text goes on behind its first bytes, and what came instead.
fn tell_difference<E: Sink>(kept: &mut Kept, place: usize, came: &[u8], errors: &mut E) -> u8
    requires room { 16444 ≤ vec_capacity kept.old.line }
    requires within { place ≤ length kept.old.text.items }
    requires short { length kept.old.text.items < 2 ^ 32 }
    ensures { EndingTold (E.state errors.old) (E.state errors.new)
        (difference_text kept.old.text.items place came.now) 1 result }
{
    put_difference(&mut kept.line, kept.text.as_slice(), place, came);
    tell(errors, kept.line.as_slice(), DIFFERS)
}

/// Compares what is found of a log with a text: where they part, if they do, or the row of the log's fault.
fn compare_log<T: Source>(
    watch: &mut Watch,
    text: &[u8],
    log: &mut T,
) -> Result<Option<Difference>, Refusal>
    requires { IsFreshWatch watch.old }
    ensures { ComparesLog watch.old.mapping (record { before = T.state log.old; after = T.state log.new }) text.now
        watch.new.text result }
{
    let mut port = ExpectPort { watch, text, at: 0 };
    match stream_lines(log, &mut port) {
        Ok(end) => Ok(end),
        Err(StreamFault::ReadFault) => Err(Refusal::fixed(5, "log: read fault\n")),
        Err(StreamFault::TooLong) => Err(Refusal::fixed(8, "log: input too long\n")),
    }
}
