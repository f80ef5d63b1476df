//! The words of the command line, the program's name left out: what they name is audited, and without one the example.
ghost use Rattle.std.specs.Prelude.{◌≡◌, ◌<◌, length, map as each, string_bytes, option_map};
ghost use Rattle.program_edge.specs.NamedSources.{word_source, openings, first_of_two, second_of_two};
ghost use Rattle.program_edge.specs.NamedSources.{OverTwoNamed};
ghost use Rattle.can_logs.specs.LogRuns.{LogInputs};
ghost use Rattle.trace_audit.specs.Rows.{IsExampleAudit};
ghost use Rattle.trace_audit.specs.Audits.{Audits};

use crate::run::run_audit;
use bus_port::{Sink, Source, TextSource};
use program_edge::{MissingSource, Opener, WordSource, open_two};
use std::alloc::Global;

/// One Data ID, after the CAN identifier 123.
const EXAMPLE_MAP: &[u8] = b"123 6bc1 2b7e151628aed2a6abf7158809cf4f3c e93d7e1173931729 6\n";

/// A frame that comes again, and one that the map doesn't name.
const EXAMPLE_LOG: &[u8] = b"(1436509052.249713) vcan0 123##1BEE22E409F962A070A160000
(1436509052.249713) vcan0 123##1BEE22E409F962A070A160000
(0) can0 044#2A366C2BBA
";

/// Audits what two arguments name, the map first. Without arguments it audits the example, and both sources are
/// missing. It gives the status that the program ends with, and the sources of the map and of the log as the audit left
/// them. `-` names the input, which is taken then. If both arguments are `-`, the map has it, and the log is missing.
/// Of any other number of arguments nothing is opened, and both sources are missing.
pub fn audit_words<O: Opener, I: Source + Drop, K: Sink>(
    alloc: Global,
    opener: &mut O,
    input: &mut Option<I>,
    words: &[String],
    sink: &mut K,
) -> (u8, WordSource<O::Opened, I>, WordSource<O::Opened, I>)
    // All that an audit promises, over the map and the log of the example.
    ensures example { length words.now ≡ 0 → (i : LogInputs) × IsExampleAudit i
        × Audits i (record { before = K.state sink.old; after = K.state sink.new; status = result.0 }) }

    ensures unopened { length words.now ≡ 0 → openings (O.opened opener.new) (option_map I.state input.new)
        ≡ openings (O.opened opener.old) (option_map I.state input.old) }

    // All that an audit promises, of these words, over the sources that they name, which are those handed back. Each of
    // two words is opened once, and no other.
    ensures named { 0 < length words.now → OverTwoNamed (O.opens opener.old)
        (openings (O.opened opener.old) (option_map I.state input.old))
        (openings (O.opened opener.new) (option_map I.state input.new))
        (first_of_two (each string_bytes words.now)) (second_of_two (each string_bytes words.now))
        (word_source O.Opened.state I.state result.1) (word_source O.Opened.state I.state result.2)
        (λ map log. Audits (record { words = each string_bytes words.now; map = map; log = log })
        (record { before = K.state sink.old; after = K.state sink.new; status = result.0 })) }
{
    if words.is_empty() {
        let map = WordSource::Missing(MissingSource::new());
        let log = WordSource::Missing(MissingSource::new());
        return (audit_example(alloc, sink), map, log);
    }
    let (mut map, mut log) = open_two(opener, input, words);
    let status = run_audit(alloc, words, &mut map, &mut log, sink);
    (status, map, log)
}

/// Audits the example, whose two words and sources take no memory.
fn audit_example<K: Sink>(alloc: Global, sink: &mut K) -> u8
    ensures { (i : LogInputs) × IsExampleAudit i
        × Audits i (record { before = K.state sink.old; after = K.state sink.new; status = result }) }
{
    let words = [String::new(alloc), String::new(alloc)];
    let mut map = TextSource::new(EXAMPLE_MAP);
    let mut log = TextSource::new(EXAMPLE_LOG);
    run_audit(alloc, &words, &mut map, &mut log, sink)
}
