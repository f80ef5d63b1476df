//! The arguments after `ledger`: what they ask is done over the files that they name.
ghost use Rattle.std.specs.Prelude.{map as each, string_bytes, option_map};
ghost use Rattle.program_edge.specs.NamedSources.{word_source, openings};
ghost use Rattle.ledger_commands.specs.LedgerReads.{ReadsLedgerFiles};
ghost use Rattle.ledger_commands.specs.LedgerRows.{words_named};
ghost use Rattle.ledger_commands.specs.Named.{OverAllNamed};

use crate::run::read_words;
use crate::tasks::task_in;
use bus_port::{Sink, Source};
use program_edge::{Opener, WordSource, tell_refusal};
use std::alloc::Global;

/// Does what the arguments after `ledger` ask of the ledgers that they name, which are only read. It gives the status
/// that the program ends with, and the sources of the files as they were left. `-` names the input, which is taken
/// then.
///
/// The statuses are looked for in the order 2, 3, then 5, 8 and 9 of each file, 1. Each file is read before the next is
/// opened, and all before anything is printed. Out of memory, 7, prints nothing. A sink that fails makes the status 6,
/// whatever was to be printed.
pub fn ledgers_words<O: Opener, I: Source + Drop, K: Sink>(
    alloc: Global,
    opener: &mut O,
    input: &mut Option<I>,
    words: &[String],
    sink: &mut K,
) -> (u8, Vec<WordSource<O::Opened, I>>)
    // All that is promised, over the sources of the files, which are those handed back. `ReadsLedgerFiles` of
    // specs/LedgerReads.antt has a member for each promise, in the order of the table of answers.
    ensures { OverAllNamed (O.opens opener.old)
        (openings (O.opened opener.old) (option_map I.state input.old))
        (openings (O.opened opener.new) (option_map I.state input.new))
        (words_named (each string_bytes words.now))
        (each (word_source O.Opened.state I.state) result.1.items)
        (λ files. ReadsLedgerFiles (record { words = each string_bytes words.now; files = files })
        (record { before = K.state sink.old; after = K.state sink.new; status = result.0 })) }
{
    match task_in(words) {
        Ok(task) => read_words(alloc, opener, input, &task, words, sink),
        Err(refusal) => {
            let unopened = Vec::new(alloc);
            (tell_refusal(sink, &refusal), unopened)
        }
    }
}
