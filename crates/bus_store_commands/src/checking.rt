//! `check FILE BUS`.
ghost use Rattle.std.specs.Prelude.{◌≡◌, ◌⊎◌, ◌≤◌, length, map as each, string_bytes, IfOk, IfErr};
ghost use Rattle.program_edge.specs.Input.{input_limit};
ghost use Rattle.program_edge.specs.Rows.{row_of, memory_row};
ghost use Rattle.bus_store_commands.specs.CheckRows.{wanted_store, DoesBusCheck, AnswersBusCheck};
ghost use Rattle.bus_store_commands.specs.ChecksOverBus.{ChecksOverBus};

use crate::make::node_config;
use crate::making::cells_of;
use crate::node_buses::node_bus_from;
use crate::words::asks_over_bus;
use any_cells::CountingStore;
use bus_config::BusConfig;
use bus_port::{Sink, Source};
use bus_programs::node_routes;
use program_edge::{DONE, Refusal, read_input, tell, tell_refusal};
use slot_commands::check_bytes;
use std::alloc::Global;

/// The status of a check that finds something.
const FOUND: u8 = 1;

const USAGE: &str = "usage: station slots check FILE BUS\n";

/// Checks the store of the file with this source over the routes of the node of the bus file with the other, and gives
/// the status that the program ends with. Both are only read, the bus file first, and all of them before anything is
/// printed.
///
/// The statuses are looked for in the order 2; 5, 8 and 3 of the bus file; 5 and 8 of the file, 9 of its bytes, 1. Out
/// of memory, 7, prints nothing. A sink that fails makes the status 6, whatever was to be printed.
pub fn run_bus_check<S: Source, T: Source, K: Sink>(
    alloc: Global,
    words: &[String],
    file: &mut S,
    bus: &mut T,
    sink: &mut K,
) -> u8
    // `ChecksOverBus` of specs/ChecksOverBus.antt has a member for each promise, in the order of the table of answers.
    ensures { ChecksOverBus
        (record {
          words = each string_bytes words.now;
          file = record { before = S.state file.old; after = S.state file.new };
          bus = record { before = T.state bus.old; after = T.state bus.new };
        })
        (record { before = K.state sink.old; after = K.state sink.new; status = result }) }
{
    match answer(alloc, words, file, bus) {
        Ok((text, status)) => tell(sink, text.as_slice(), status),
        Err(refusal) => tell_refusal(sink, &refusal),
    }
}

/// What is printed, and the status; or the first refusal that applies.
fn answer<S: Source, T: Source>(
    alloc: Global,
    words: &[String],
    file: &mut S,
    bus: &mut T,
) -> Result<(Vec<u8>, u8), Refusal>
    ensures { AnswersBusCheck
        (record {
          words = each string_bytes words.now;
          file = record { before = S.state file.old; after = S.state file.new };
          bus = record { before = T.state bus.old; after = T.state bus.new };
        })
        result }
{
    if !asks_over_bus("check", words) {
        return Err(Refusal::fixed(2, USAGE));
    }
    let bus = node_bus_from(alloc, bus)?;
    let bytes = read_input(alloc, file)?;
    check_over_bus(alloc, bytes.as_slice(), &bus)
}

/// What a check of these bytes comes to, whose unit is the one node of this bus.
fn check_over_bus(alloc: Global, bytes: &[u8], bus: &BusConfig) -> Result<(Vec<u8>, u8), Refusal>
    requires size { length bytes.now ≤ input_limit }
    requires one { length bus.now.nodes ≡ 1 }
    ensures done { IfOk result (λ r. DoesBusCheck bus.now bytes.now (row_of r.1 r.0.items)) }
    ensures refused { IfErr result (λ row. DoesBusCheck bus.now bytes.now row ⊎ (row ≡ memory_row)) }
{
    let routes = node_routes(bus);
    let wanted = wanted_store(bus);
    let (text, good) = check_bytes(alloc, bytes, Some(wanted), Some(routes))?;
    if good {
        Ok((text, DONE))
    } else {
        Ok((text, FOUND))
    }
}

/// The store that the one node of a bus wants.
fn wanted_store(bus: &BusConfig) -> CountingStore
    requires { length bus.now.nodes ≡ 1 }
    ensures { result ≡ wanted_store bus.now }
{
    CountingStore {
        kind: bus.kind(),
        version: bus.version(),
        cells: cells_of(node_config(bus)),
    }
}
