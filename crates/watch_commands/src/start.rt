//! The words of the command line, the program's name left out: what they name is watched.
ghost use Rattle.std.specs.Prelude.{map as each, string_bytes, option_map};
ghost use Rattle.program_edge.specs.NamedSources.{word_source, openings, first_of_two, second_of_two};
ghost use Rattle.program_edge.specs.NamedSources.{OverTwoNamed};
ghost use Rattle.watch_commands.specs.OptionWords.{watch_inputs};
ghost use Rattle.watch_commands.specs.Watches.{Watches};

use crate::options::inputs_of;
use crate::run::run_watch;
use bus_port::{Sink, Source};
use program_edge::{Opener, WordSource, open_two};
use std::alloc::Global;

/// Watches what two arguments name, the map first; options may stand before them. It gives the status that the
/// program ends with, and the sources of the map and of the log as the watch left them. `-` names the input, which is
/// taken then. If both arguments are `-`, the map has it, and the log is missing. Of any other number of arguments
/// nothing is opened, and both sources are missing.
pub fn watch_words<O: Opener, I: Source + Drop, K: Sink, E: Sink>(
    alloc: Global,
    opener: &mut O,
    input: &mut Option<I>,
    words: &[String],
    sink: &mut K,
    errors: &mut E,
) -> (u8, WordSource<O::Opened, I>, WordSource<O::Opened, I>)
    // All that a watch promises, of these words, over the sources that they name, which are those handed back. Each of
    // two words is opened once, and no other.
    ensures { OverTwoNamed (O.opens opener.old)
        (openings (O.opened opener.old) (option_map I.state input.old))
        (openings (O.opened opener.new) (option_map I.state input.new))
        (first_of_two (watch_inputs (each string_bytes words.now)))
        (second_of_two (watch_inputs (each string_bytes words.now)))
        (word_source O.Opened.state I.state result.1) (word_source O.Opened.state I.state result.2)
        (λ map log. Watches (record { words = each string_bytes words.now; map = map; log = log })
        (record {
          output = record { before = K.state sink.old; after = K.state sink.new };
          errors = record { before = E.state errors.old; after = E.state errors.new };
          status = result.0;
        })) }
{
    let (mut map, mut log) = open_two(opener, input, inputs_of(words));
    let status = run_watch(alloc, words, &mut map, &mut log, sink, errors);
    (status, map, log)
}
