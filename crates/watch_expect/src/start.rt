//! The program: it watches what the arguments name, or with `--expect` compares it.
ghost use Rattle.std.specs.Prelude.{◌≡◌, ℕ, List, None, Some, map as each, string_bytes, option_map};
ghost use Rattle.program_edge.specs.NamedSources.{word_source, openings, behind, first_of_two, second_of_two};
ghost use Rattle.program_edge.specs.NamedSources.{OverNamed, OverTwoNamed};
ghost use Rattle.watch_commands.specs.OptionWords.{watch_inputs, kept_file};
ghost use Rattle.watch_commands.specs.Watches.{Watches};
ghost use Rattle.watch_expect.specs.Expects.{Expects};

use crate::run::run_expected;
use bus_port::{Sink, Source};
use program_edge::{MissingSource, Opener, WordSource, open_two, open_word};
use std::alloc::Global;
use watch_commands::{inputs_of, kept_file, watch_words};

/// Watches what two arguments name, the map first, or compares what is found with the file that `--expect` names. It
/// gives the status that the program ends with, and the sources of the kept text, the map and the log as the run left
/// them. The kept text is opened first, then the map, then the log. `-` names the input, which is taken by the first
/// of them. Of any other number of arguments nothing is opened.
pub fn start_watch<O: Opener, I: Source + Drop, K: Sink, E: Sink>(
    alloc: Global,
    opener: &mut O,
    input: &mut Option<I>,
    words: &[String],
    sink: &mut K,
    errors: &mut E,
) -> (
    u8,
    WordSource<O::Opened, I>,
    WordSource<O::Opened, I>,
    WordSource<O::Opened, I>,
)
    // Without `--expect`: all that a watch promises, over the sources that two arguments name.
    ensures watches { kept_file (each string_bytes words.now) ≡ None → OverTwoNamed (O.opens opener.old)
        (openings (O.opened opener.old) (option_map I.state input.old))
        (openings (O.opened opener.new) (option_map I.state input.new))
        (first_of_two (watch_inputs (each string_bytes words.now)))
        (second_of_two (watch_inputs (each string_bytes words.now)))
        (word_source O.Opened.state I.state result.2) (word_source O.Opened.state I.state result.3)
        (λ map log. Watches (record { words = each string_bytes words.now; map = map; log = log })
        (record {
          output = record { before = K.state sink.old; after = K.state sink.new };
          errors = record { before = E.state errors.old; after = E.state errors.new };
          status = result.0;
        })) }
    // With it: nothing is printed on `sink`, and all that a comparison promises, over the sources that the file and two
    // arguments name.
    ensures unwritten { (name : List ℕ) → kept_file (each string_bytes words.now) ≡ Some name
        → K.state sink.new ≡ K.state sink.old }
    ensures expects { (name : List ℕ) → kept_file (each string_bytes words.now) ≡ Some name
        → OverNamed (O.opens opener.old)
        (openings (O.opened opener.old) (option_map I.state input.old))
        (behind (Some name) (openings (O.opened opener.old) (option_map I.state input.old)))
        (Some name) (word_source O.Opened.state I.state result.1)
        (λ kept. OverTwoNamed (O.opens opener.old)
        (behind (Some name) (openings (O.opened opener.old) (option_map I.state input.old)))
        (openings (O.opened opener.new) (option_map I.state input.new))
        (first_of_two (watch_inputs (each string_bytes words.now)))
        (second_of_two (watch_inputs (each string_bytes words.now)))
        (word_source O.Opened.state I.state result.2) (word_source O.Opened.state I.state result.3)
        (λ map log. Expects (record { words = each string_bytes words.now; kept = kept; map = map; log = log })
        (record { errors = record { before = E.state errors.old; after = E.state errors.new }; status = result.0 }))) }
{
    let Some(name) = kept_file(words) else {
        let (status, map, log) = watch_words(alloc, opener, input, words, sink, errors);
        return (status, WordSource::Missing(MissingSource::new()), map, log);
    };
    let mut kept = open_word(opener, input, Some(name));
    let (mut map, mut log) = open_two(opener, input, inputs_of(words));
    let status = run_expected(alloc, words, &mut kept, &mut map, &mut log, errors);
    (status, kept, map, log)
}
