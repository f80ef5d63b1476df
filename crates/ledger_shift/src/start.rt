//! The arguments of the command line, without the program's name.
ghost use Rattle.std.specs.Prelude.{◌≡◌, map, string_bytes, option_map};
ghost use Rattle.program_edge.specs.NamedSources.{word_source, openings};
ghost use Rattle.ledger_shift.specs.Words.{makes_ledger as is_new_ledger, file_and_script as file_script, RunsLedger};

use crate::file_run::serve_file;
use crate::opening::LedgerOpener;
use bus_port::{Sink, Source};
use program_edge::{MissingSource, Opener, WordSource, open_word, tell, two_words};
use std::alloc::Global;

const USAGE: &[u8] = b"usage: ledger [--new] FILE SCRIPT\n";

/// Whether a ledger is to be made.
fn makes_ledger(words: &[String]) -> bool
    ensures { result ≡ is_new_ledger (map string_bytes words.now) }
{
    if words.is_empty() {
        return false;
    }
    words[0].as_str() == "--new"
}

/// FILE and SCRIPT, without `--new` before them.
fn file_and_script(words: &[String]) -> &[String]
    ensures { map string_bytes result.now ≡ file_script (map string_bytes words.now) }
{
    if makes_ledger(words) {
        &words[1..]
    } else {
        words
    }
}

/// Serves the script that the second of two arguments names over the file that the first names, which is opened once. If
/// `--new` stands before them, a ledger is made. It gives the status that the program ends with, and the script's source
/// as the shift left it.
pub fn ledger_words<P: LedgerOpener, O: Opener, I: Source + Drop, K: Sink, E: Sink>(
    alloc: Global,
    ledgers: &mut P,
    opener: &mut O,
    input: &mut Option<I>,
    words: &[String],
    sink: &mut K,
    errors: &mut E,
) -> (u8, WordSource<O::Opened, I>)
    ensures { RunsLedger P.File.Disk (O.opens opener.old) (record {
      words = map string_bytes words.now;
      files_before = P.opened ledgers.old;
      files_after = P.opened ledgers.new;
      sources_before = openings (O.opened opener.old) (option_map I.state input.old);
      sources_after = openings (O.opened opener.new) (option_map I.state input.new);
      script_after = word_source O.Opened.state I.state result.1;
      sink_before = K.state sink.old;
      sink_after = K.state sink.new;
      errors_before = E.state errors.old;
      errors_after = E.state errors.new;
      status = result.0;
    }) }
{
    let (file, script) = two_words(file_and_script(words));
    let Some(file) = file else {
        let status = tell(errors, USAGE, 2);
        return (status, WordSource::Missing(MissingSource::new()));
    };
    let mut script = open_word(opener, input, script);
    let status = serve_file(
        alloc,
        ledgers,
        file,
        makes_ledger(words),
        &mut script,
        sink,
        errors,
    );
    (status, script)
}
