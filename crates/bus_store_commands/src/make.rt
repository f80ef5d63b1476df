//! `make FILE BUS`.
ghost use Rattle.std.specs.Prelude.{◌≡◌, ◌++◌, ℕ, List, length, map as each, string_bytes, option_map, codes, Option};
ghost use Rattle.std.specs.Prelude.{IfOk, IfErr};
ghost use Rattle.cut_disk.specs.State.{DiskState};
ghost use Rattle.freshness_routes.specs.Config.{IsConfig};
ghost use Rattle.program_edge.specs.NamedSources.{word_source, openings, OverNamed};
ghost use Rattle.program_edge.specs.Endings.{EndsInRow};
ghost use Rattle.bus_store_commands.specs.BusWords.{file_over_bus};
ghost use Rattle.bus_store_commands.specs.MakeRows.{made_text, node_config as config_named, IsMakeRow};
ghost use Rattle.bus_store_commands.specs.MakesUnitStore.{MakesUnitStore};
ghost use Rattle.bus_store_commands.specs.MakeSteps.{PreparesMake, ComesOverDisk, EndsMake};

use crate::making::{MakeFault, cells_of, make_store};
use crate::node_buses::node_bus_from;
use crate::refusals::{made, standing_refusal};
use crate::words::{argument_at, asks_over_bus, file_over_bus};
use bus_config::BusConfig;
use bus_port::{Sink, Source};
use cell_store::StoreFault;
use cut_disk::Disk;
use file_disk::DiskOpener;
use freshness_routes::NodeConfig;
use program_edge::{DONE, Opener, Refusal, WordSource, open_word, tell, tell_refusal};
use slot_commands::{push_store_line, store_refusal};
use std::alloc::{AllocError, Global};

const USAGE: &str = "usage: station slots make FILE BUS\n";

/// Makes the store of the node of BUS on the disk that FILE opens, if its bytes are zeros. It gives the status that the
/// program ends with, the source of the bus file and the disk, as they were left. `-` names the input as BUS, which is
/// taken then. BUS is read whole before the disk is opened, so that one that is refused makes no file.
///
/// The statuses are looked for in the order 2; 5, 8 and 3 of BUS; 9 and 10 of the disk. Out of memory, 7, prints
/// nothing. A sink that fails makes the status 6, whatever was to be printed.
pub fn make_words<O: Opener, P: DiskOpener, I: Source + Drop, K: Sink>(
    alloc: Global,
    opener: &mut O,
    disk_opener: &mut P,
    input: &mut Option<I>,
    words: &[String],
    sink: &mut K,
) -> (u8, WordSource<O::Opened, I>, Option<P::Opened>)
    // `MakesUnitStore` of specs/MakesUnitStore.antt has a member for each promise, in the order of the table.
    ensures promises { OverNamed (O.opens opener.old)
        (openings (O.opened opener.old) (option_map I.state input.old))
        (openings (O.opened opener.new) (option_map I.state input.new))
        (file_over_bus (codes "make") (each string_bytes words.now) 2)
        (word_source O.Opened.state I.state result.1)
        (λ bus. (opened : Option DiskState) × MakesUnitStore (P.opens disk_opener.old)
        (record {
          words = each string_bytes words.now;
          bus = bus;
          disks_before = P.opened disk_opener.old;
          disks_after = P.opened disk_opener.new;
          opened = opened;
          left = option_map P.Opened.state result.2;
        })
        (record { before = K.state sink.old; after = K.state sink.new; status = result.0 })) }
    // The file of each disk that was opened was made, if it wasn't there. No other file was made.
    ensures makes { (words : List (List ℕ)) × (P.opened disk_opener.new ≡ P.opened disk_opener.old ++ words)
        × (P.made disk_opener.new ≡ P.made disk_opener.old ++ words) }
{
    let mut bus = open_word(opener, input, file_over_bus("make", words, 2));
    match prepare(alloc, words, &mut bus) {
        Ok(job) => {
            let file = argument_at(words, 1);
            let (status, disk) = make_named(alloc, disk_opener, file, &job, sink);
            (status, bus, disk)
        }
        Err(refusal) => (tell_refusal(sink, &refusal), bus, None),
    }
}

/// What is to be made, and the line that says that it was.
#[derive(Drop)]
pub struct MakeJob {
    /// The bus, of one node.
    pub bus: BusConfig,
    /// The line.
    pub text: Vec<u8>,
}

/// The bus of one node, and the text; or the first refusal.
fn prepare<S: Source>(alloc: Global, words: &[String], bus: &mut S) -> Result<MakeJob, Refusal>
    ensures { PreparesMake (each string_bytes words.now)
        (record { before = S.state bus.old; after = S.state bus.new }) result }
{
    if !asks_over_bus("make", words) {
        return Err(Refusal::fixed(2, USAGE));
    }
    let bus = node_bus_from(alloc, bus)?;
    match made_line(alloc, &bus) {
        Ok(text) => Ok(MakeJob { bus, text }),
        Err(AllocError) => Err(Refusal::no_memory()),
    }
}

/// The line that says which store was made.
fn made_line(alloc: Global, bus: &BusConfig) -> Result<Vec<u8>, AllocError>
    requires { length bus.now.nodes ≡ 1 }
    ensures { IfOk result (λ text. text.items ≡ made_text bus.now) }
{
    let mut text = Vec::new(alloc);
    let cells = cells_of(node_config(bus));
    push_store_line(&mut text, b"made", bus.kind(), bus.version(), cells)?;
    Ok(text)
}

/// The configuration of the one node of a bus.
pub(crate) fn node_config(bus: &BusConfig) -> &NodeConfig
    requires { length bus.now.nodes ≡ 1 }
    ensures config { result.now ≡ config_named bus.now }
    ensures good { IsConfig result.now }
{
    let nodes = bus.nodes();
    let node = &nodes[0];
    &node.config
}

/// Makes the store on the disk that this argument opens, and tells it. The disk is handed back, if it was opened.
fn make_named<P: DiskOpener, K: Sink>(
    alloc: Global,
    disk_opener: &mut P,
    file: &str,
    job: &MakeJob,
    sink: &mut K,
) -> (u8, Option<P::Opened>)
    requires one { length job.now.bus.nodes ≡ 1 }
    requires text { job.now.text.items ≡ made_text job.now.bus }
    ensures ends { EndsMake (P.opens disk_opener.old) (P.opened disk_opener.old) (P.opened disk_opener.new) file.now
        job.now.bus (option_map P.Opened.state result.1)
        (record { before = K.state sink.old; after = K.state sink.new; status = result.0 }) }
    ensures makes { (words : List (List ℕ)) × (P.opened disk_opener.new ≡ P.opened disk_opener.old ++ words)
        × (P.made disk_opener.new ≡ P.made disk_opener.old ++ words) }
{
    match disk_opener.open(alloc, file) {
        Ok(opened) => {
            let (status, disk) = make_over(alloc, opened, job, sink);
            (status, Some(disk))
        }
        Err(AllocError) => {
            let refusal = Refusal::no_memory();
            (tell_refusal(sink, &refusal), None)
        }
    }
}

/// The same over a disk, which is handed back.
fn make_over<D: Disk, K: Sink>(alloc: Global, disk: D, job: &MakeJob, sink: &mut K) -> (u8, D)
    requires one { length job.now.bus.nodes ≡ 1 }
    requires text { job.now.text.items ≡ made_text job.now.bus }
    ensures { EndsInRow (ComesOverDisk job.now.bus (D.state disk) (D.state result.1))
        (record { before = K.state sink.old; after = K.state sink.new; status = result.0 }) }
{
    let bus = &job.bus;
    match make_store(alloc, bus.kind(), bus.version(), node_config(bus), disk) {
        Ok(disk) => (tell(sink, job.text.as_slice(), DONE), disk),
        Err(unmade) => {
            let refusal = make_refusal(alloc, unmade.fault);
            (tell_refusal(sink, &refusal), unmade.disk)
        }
    }
}

/// The refusal of a store that isn't made.
fn make_refusal(alloc: Global, fault: MakeFault) -> Refusal
    ensures { IsMakeRow fault result }
{
    match fault {
        MakeFault::Store(fault) => store_fault_refusal(alloc, fault),
        MakeFault::OtherStore(there) => standing_refusal(alloc, there),
        MakeFault::BadSlot(slot) => {
            let number = slot.number();
            made(format!(in alloc; "store: BadSlot {number}\n"))
        }
        MakeFault::BadBound(cell) => made(format!(in alloc; "store: BadBound {cell}\n")),
    }
}

/// The refusal of a fault of the store: 10 if the disk failed, which was asked for a change, and else as `check FILE`
/// tells it.
fn store_fault_refusal(alloc: Global, fault: StoreFault) -> Refusal
    ensures { IsMakeRow (MakeFault.Store fault) result }
{
    match fault {
        StoreFault::DiskFailed => Refusal::fixed(10, "store: DiskFailed\n"),
        _ => store_refusal(alloc, fault),
    }
}
