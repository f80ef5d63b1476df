//! The program's one command.
ghost use Rattle.std.specs.Prelude.{◌≤◌, length, map as each, string_bytes};
ghost use Rattle.program_edge.specs.Input.{input_limit};
ghost use Rattle.program_edge.specs.Endings.{EndsInRow};
ghost use Rattle.trace_audit.specs.Audits.{Audits};
ghost use Rattle.trace_audit.specs.Steps.{PreparesAudit, DoesAudit};

use crate::auditing::audit_text;
use crate::map_source::read_map;
use bus_port::{Sink, Source};
use can_logs::{MapTable, names_inputs};
use program_edge::{DONE, Refusal, read_input, tell, tell_refusal};
use std::alloc::{AllocError, Global};
use text_lines::Memory;

/// Judges the frames of a log by a map, and gives the status that the program ends with. Two words, which name the map
/// and the log and may be any text, are the form of the words, the program's name left out. All reading comes before
/// all printing, and every text that is printed ends with a line feed.
///
/// The statuses are looked for in the order 2, then 5, 8 and 4 of the map, then 5 and 8 of the log. Out of memory, 7,
/// prints nothing. A sink that fails makes the status 6, whatever was to be printed.
pub fn run_audit<S: Source, T: Source, K: Sink>(
    alloc: Global,
    words: &[String],
    map: &mut S,
    log: &mut T,
    sink: &mut K,
) -> u8
    // `Audits` of specs/Audits.antt has a member for each promise, in the order of the table of answers.
    ensures { Audits
        (record {
          words = each string_bytes words.now;
          map = record { before = S.state map.old; after = S.state map.new };
          log = record { before = T.state log.old; after = T.state log.new };
        })
        (record { before = K.state sink.old; after = K.state sink.new; status = result }) }
{
    match prepare(alloc, words, map, log) {
        Ok(audit) => do_audit(alloc, &audit, sink),
        Err(refusal) => tell_refusal(sink, &refusal),
    }
}

const USAGE: &str = "usage: audit MAP LOG\n";

/// What is audited: the lines of a map, and the bytes of a log.
#[derive(Drop)]
struct Audit {
    map: MapTable,
    log: Vec<u8>,
}

/// The first phase: the words and the inputs. It ends in the lines of the map and the bytes of the log, or in the first
/// refusal that applies.
fn prepare<S: Source, T: Source>(
    alloc: Global,
    words: &[String],
    map: &mut S,
    log: &mut T,
) -> Result<Audit, Refusal>
    ensures { PreparesAudit
        (record {
          words = each string_bytes words.now;
          map = record { before = S.state map.old; after = S.state map.new };
          log = record { before = T.state log.old; after = T.state log.new };
        })
        result }
{
    if !names_inputs(words) {
        return Err(Refusal::fixed(2, USAGE));
    }
    let map = read_map(alloc, map)?;
    let log = read_input(alloc, log)?;
    match MapTable::of(alloc, map) {
        Ok(map) => Ok(Audit { map, log }),
        Err(AllocError) => Err(Refusal::no_memory()),
    }
}

/// The second phase: what is found of the log is printed.
fn do_audit<K: Sink>(alloc: Global, audit: &Audit, sink: &mut K) -> u8
    requires { length audit.now.log.items ≤ input_limit }
    ensures { EndsInRow (DoesAudit audit.now)
        (record { before = K.state sink.old; after = K.state sink.new; status = result }) }
{
    match audit_text(alloc, &audit.map, audit.log.as_slice()) {
        Ok(text) => tell(sink, text.as_slice(), DONE),
        Err(Memory) => tell_refusal(sink, &Refusal::no_memory()),
    }
}
