//! The words of the command line, the program's name left out: the log that they name is explained, or with `--locate`
//! what the map asks for that they name is found.
ghost use Rattle.std.specs.Prelude.{◌≡◌, true, false, map as each, string_bytes, option_map};
ghost use Rattle.program_edge.specs.NamedSources.{word_source, openings, first_of_two, second_of_two};
ghost use Rattle.program_edge.specs.NamedSources.{OverTwoNamed};
ghost use Rattle.explain_commands.specs.Explains.{Explains};
ghost use Rattle.locate_commands.specs.LocateOptions.{says_locate, locate_inputs};
ghost use Rattle.locate_commands.specs.Locates.{Locates};

use crate::options::{asked, asks_locate};
use crate::run::run_locate;
use bus_port::{Sink, Source};
use explain_commands::explain_words;
use program_edge::{Opener, WordSource, open_two};
use std::alloc::Global;

/// The program: it explains the log of two arguments, the map first. If the first argument is `--locate`, it finds what
/// the map asks for. It gives the status that the program ends with, and the sources of the map and of the log as the
/// run left them. `-` names the input, which is taken then. If both are `-`, the map has it, and the log is missing. If
/// the arguments are malformed, nothing is opened, and both sources are missing.
pub fn start_explain<O: Opener, I: Source + Drop, K: Sink, E: Sink>(
    alloc: Global,
    opener: &mut O,
    input: &mut Option<I>,
    words: &[String],
    sink: &mut K,
    errors: &mut E,
) -> (u8, WordSource<O::Opened, I>, WordSource<O::Opened, I>)
    // Without `--locate`: all that `explain` promises, over the sources that two arguments name. Each of them is opened
    // once, and no other.
    ensures explains { says_locate (each string_bytes words.now) ≡ false → OverTwoNamed (O.opens opener.old)
        (openings (O.opened opener.old) (option_map I.state input.old))
        (openings (O.opened opener.new) (option_map I.state input.new))
        (first_of_two (each string_bytes words.now)) (second_of_two (each string_bytes words.now))
        (word_source O.Opened.state I.state result.1) (word_source O.Opened.state I.state result.2)
        (λ map log. Explains (record { words = each string_bytes words.now; map = map; log = log })
        (record {
          output = record { before = K.state sink.old; after = K.state sink.new };
          errors = record { before = E.state errors.old; after = E.state errors.new };
          status = result.0;
        })) }
    // With it: all that `explain --locate` promises, over the sources that its last two arguments name.
    ensures locates { says_locate (each string_bytes words.now) ≡ true → OverTwoNamed (O.opens opener.old)
        (openings (O.opened opener.old) (option_map I.state input.old))
        (openings (O.opened opener.new) (option_map I.state input.new))
        (first_of_two (locate_inputs (each string_bytes words.now)))
        (second_of_two (locate_inputs (each string_bytes words.now)))
        (word_source O.Opened.state I.state result.1) (word_source O.Opened.state I.state result.2)
        (λ map log. Locates (record { words = each string_bytes words.now; map = map; log = log })
        (record {
          output = record { before = K.state sink.old; after = K.state sink.new };
          errors = record { before = E.state errors.old; after = E.state errors.new };
          status = result.0;
        })) }
{
    if !asks_locate(words) {
        return explain_words(alloc, opener, input, words, sink, errors);
    }
    locate_words(alloc, opener, input, words, sink, errors)
}

/// Finds what the map asks for that the last two arguments name with a log, behind `--locate` and its options. It gives
/// the status that the program ends with, and the sources of the map and of the log as the run left them. `-` names the
/// input, which is taken then. If both arguments are `-`, the map has it, and the log is missing. If the arguments are
/// malformed, nothing is opened, and both sources are missing.
pub fn locate_words<O: Opener, I: Source + Drop, K: Sink, E: Sink>(
    alloc: Global,
    opener: &mut O,
    input: &mut Option<I>,
    words: &[String],
    sink: &mut K,
    errors: &mut E,
) -> (u8, WordSource<O::Opened, I>, WordSource<O::Opened, I>)
    // All that `explain --locate` promises, of these words, over the sources that they name, which are those handed
    // back. Each of two words is opened once, and no other.
    ensures { OverTwoNamed (O.opens opener.old)
        (openings (O.opened opener.old) (option_map I.state input.old))
        (openings (O.opened opener.new) (option_map I.state input.new))
        (first_of_two (locate_inputs (each string_bytes words.now)))
        (second_of_two (locate_inputs (each string_bytes words.now)))
        (word_source O.Opened.state I.state result.1) (word_source O.Opened.state I.state result.2)
        (λ map log. Locates (record { words = each string_bytes words.now; map = map; log = log })
        (record {
          output = record { before = K.state sink.old; after = K.state sink.new };
          errors = record { before = E.state errors.old; after = E.state errors.new };
          status = result.0;
        })) }
{
    let (mut map, mut log) = open_two(opener, input, inputs_asked(words));
    let status = run_locate(alloc, words, &mut map, &mut log, sink, errors);
    (status, map, log)
}

/// The words that name the map and the log, if all are of the form; else none.
fn inputs_asked(words: &[String]) -> &[String]
    ensures { each string_bytes result.now ≡ locate_inputs (each string_bytes words.now) }
{
    match asked(words) {
        Some(asked) => asked.inputs,
        None => &words[..0],
    }
}
