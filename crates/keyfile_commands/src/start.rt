//! The arguments of the command line: the files that they name are opened, and the key command runs over them.
ghost use Rattle.std.specs.Prelude.{map as each, string_bytes, option_map};
ghost use Rattle.program_edge.specs.NamedSources.{word_source, openings, OverTwoNamed};
ghost use Rattle.keyfile_commands.specs.Calls.{first_file, second_file};
ghost use Rattle.keyfile_commands.specs.KeyFilesRuns.{KeyFilesRuns};

use crate::calls::{first_file, second_file};
use crate::run::run_keyfiles;
use bus_port::{Sink, Source};
use program_edge::{Opener, WordSource, open_both};
use std::alloc::Global;

/// Runs what the arguments ask for, as [`run_keyfiles`] does, over the files that they name. It gives the status that
/// the program ends with, and the two sources as the run left them. `-` names the input, which is taken then; a second
/// `-` is a missing source. Of malformed arguments nothing is opened.
pub fn keyfile_words<O: Opener, I: Source + Drop, K: Sink>(
    alloc: Global,
    opener: &mut O,
    input: &mut Option<I>,
    words: &[String],
    sink: &mut K,
) -> (u8, WordSource<O::Opened, I>, WordSource<O::Opened, I>)
    // All that a key command promises, of these arguments, over the files that they name, whose sources are those that
    // are handed back. Each is opened once, and no other.
    ensures { OverTwoNamed (O.opens opener.old)
        (openings (O.opened opener.old) (option_map I.state input.old))
        (openings (O.opened opener.new) (option_map I.state input.new))
        (first_file (each string_bytes words.now)) (second_file (each string_bytes words.now))
        (word_source O.Opened.state I.state result.1) (word_source O.Opened.state I.state result.2)
        (λ first second. KeyFilesRuns
        (record { words = each string_bytes words.now; first = first; second = second })
        (record { before = K.state sink.old; after = K.state sink.new; status = result.0 })) }
{
    let (mut first, mut second) = open_both(opener, input, first_file(words), second_file(words));
    let status = run_keyfiles(alloc, words, &mut first, &mut second, sink);
    (status, first, second)
}
