//! The arguments of the command line, without the program's name.
ghost use Rattle.std.specs.Prelude.{◌≡◌, ◌<◌, length, map, string_bytes, option_map};
ghost use Rattle.program_edge.specs.NamedSources.{word_source, openings, only_word, OverNamed};
ghost use Rattle.pdu_collection.specs.Rows.{PairingInputs, IsExampleScript};
ghost use Rattle.pdu_collection.specs.Pairs.{RunsPairs};

use crate::run::run_pairs;
use bus_port::{Sink, Source, TextSource};
use program_edge::{MissingSource, Opener, WordSource, open_one};
use std::alloc::Global;

/// A pair whose second part comes again.
const EXAMPLE: &[u8] = b"pair 2b7e151628aed2a6abf7158809cf4f3c 6bc1 e93d7e1173931729 0 2
a bee22e409f96
c 2a070a16bee2
c 2a070a16bee2
";

/// Answers the script that one argument names, as [`run_pairs`] does; without an argument that of the example, which
/// takes no memory. It gives the status that the program ends with, and the script's source as the run left it.
pub fn pair_words<O: Opener, I: Source + Drop, K: Sink>(
    alloc: Global,
    opener: &mut O,
    input: &mut Option<I>,
    words: &[String],
    sink: &mut K,
) -> (u8, WordSource<O::Opened, I>)
    // All that a run promises, over the example's text.
    ensures example { length words.now ≡ 0 → (i : PairingInputs) × IsExampleScript i
        × RunsPairs i (record { before = K.state sink.old; after = K.state sink.new; status = result.0 }) }

    ensures unopened { length words.now ≡ 0 → openings (O.opened opener.new) (option_map I.state input.new)
        ≡ openings (O.opened opener.old) (option_map I.state input.old) }

    // All that a run promises, of these words, over the source that they name, which is the one handed back. One word is
    // opened once, and no other.
    ensures named { 0 < length words.now → OverNamed (O.opens opener.old)
        (openings (O.opened opener.old) (option_map I.state input.old))
        (openings (O.opened opener.new) (option_map I.state input.new))
        (only_word (map string_bytes words.now)) (word_source O.Opened.state I.state result.1)
        (λ script. RunsPairs (record { words = map string_bytes words.now; script = script })
        (record { before = K.state sink.old; after = K.state sink.new; status = result.0 })) }
{
    if words.is_empty() {
        let one_word = [String::new(alloc)];
        let mut script = TextSource::new(EXAMPLE);
        let status = run_pairs(alloc, &one_word, &mut script, sink);
        return (status, WordSource::Missing(MissingSource::new()));
    }
    let mut script = open_one(opener, input, words);
    let status = run_pairs(alloc, words, &mut script, sink);
    (status, script)
}
