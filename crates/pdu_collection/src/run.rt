//! The program's one command.
ghost use Rattle.std.specs.Prelude.{◌↔◌, IsTrue, ◌<◌, ◌^◌, length, map, string_bytes};
ghost use Rattle.program_edge.specs.Endings.{EndsInRow};
ghost use Rattle.pdu_collection.specs.Receiving.{IsPairScript};
ghost use Rattle.pdu_collection.specs.Rows.{NamesInput};
ghost use Rattle.pdu_collection.specs.Pairs.{RunsPairs};
ghost use Rattle.pdu_collection.specs.Steps.{PreparesPairs, ReadsPairs, DoesPairs};

use crate::answering::answers;
use crate::pair_lines::{PairLine, read_pairs};
use bus_port::{Sink, Source};
use program_edge::{DONE, Refusal, read_input, tell, tell_refusal};
use std::alloc::{AllocError, Global};
use text_lines::line_refusal;

/// Tells what is said of each line of a script of pairs, and gives the status that the program ends with. One word,
/// which names the script and may be any text, is the form of the words, the program's name left out. All reading comes
/// before all printing, and every text that is printed ends with a line feed.
///
/// The statuses are looked for in the order 2, 5, 8, 4. Out of memory, 7, prints nothing. A sink that fails makes the
/// status 6, whatever was to be printed.
pub fn run_pairs<T: Source, K: Sink>(
    alloc: Global,
    words: &[String],
    script: &mut T,
    sink: &mut K,
) -> u8
    // `RunsPairs` of specs/Pairs.antt has a member for each promise, in the order of the table of answers.
    ensures { RunsPairs
        (record {
          words = map string_bytes words.now;
          script = record { before = T.state script.old; after = T.state script.new };
        })
        (record { before = K.state sink.old; after = K.state sink.new; status = result }) }
{
    match prepare(alloc, words, script) {
        Ok(lines) => tell_pairs(alloc, lines.as_slice(), sink),
        Err(refusal) => tell_refusal(sink, &refusal),
    }
}

const USAGE: &str = "usage: pairing F\n";

/// The first phase: the words and the input. It ends in the lines, or in the first refusal that applies.
fn prepare<T: Source>(
    alloc: Global,
    words: &[String],
    script: &mut T,
) -> Result<Vec<PairLine>, Refusal>
    ensures { PreparesPairs
        (record {
          words = map string_bytes words.now;
          script = record { before = T.state script.old; after = T.state script.new };
        })
        result }
{
    if !names_input(words) {
        return Err(Refusal::fixed(2, USAGE));
    }
    let input = match read_input(alloc, script) {
        Ok(input) => input,
        Err(fault) => return Err(Refusal::from(fault)),
    };
    lines_of(alloc, input.as_slice())
}

/// Whether the words, the program's name left out, are the one that names the script.
fn names_input(words: &[String]) -> bool
    ensures { IsTrue result ↔ NamesInput (map string_bytes words.now) }
{
    words.len() == 1
}

/// The lines of an input, or the refusal of the first that isn't one.
fn lines_of(alloc: Global, input: &[u8]) -> Result<Vec<PairLine>, Refusal>
    requires { length input.now < 2 ^ 32 }
    ensures { ReadsPairs input.now result }
{
    match read_pairs(alloc, input) {
        Ok(lines) => Ok(lines),
        Err(fault) => Err(line_refusal(alloc, fault)),
    }
}

/// The second phase: the answers to the lines are printed.
fn tell_pairs<K: Sink>(alloc: Global, lines: &[PairLine], sink: &mut K) -> u8
    requires { IsPairScript lines.now }
    ensures { EndsInRow (DoesPairs lines.now)
        (record { before = K.state sink.old; after = K.state sink.new; status = result }) }
{
    match answers(alloc, lines) {
        Ok(text) => tell(sink, text.as_slice(), DONE),
        Err(AllocError) => tell_refusal(sink, &Refusal::no_memory()),
    }
}
