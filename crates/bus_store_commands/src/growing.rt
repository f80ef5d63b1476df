//! `grow FILE BUS`: cells at the end of a unit's store.
ghost use Rattle.std.specs.Prelude.{◌≡◌, ◌≤◌, length, IfOk, IfErr, string_bytes, option_map, map as each};
ghost use Rattle.std.specs.Prelude.{Option};
ghost use Rattle.cut_disk.specs.State.{DiskState};
ghost use Rattle.freshness_routes.specs.declared.config.TheConstants.{MOST_ROUTES};
ghost use Rattle.program_edge.specs.Rows.{row_of};
ghost use Rattle.program_edge.specs.Endings.{EndsInRow};
ghost use Rattle.text_lines.specs.Written.{written};
ghost use Rattle.bus_store_commands.specs.GrowRows.{IsGrowRow, grown_words, GrowsOnDisk};
ghost use Rattle.bus_store_commands.specs.GrowsOverBus.{ComesNamed, TakesGrowth};

use crate::node_buses::node_bus_from;
use crate::refusals::{made, standing_refusal};
use crate::words::asks_over_bus;
use bus_config::BusConfig;
use bus_port::{Sink, Source};
use cell_store::{Kind, Layout, Version};
use cut_disk::Disk;
use file_disk::DiskOpener;
use freshness_routes::Route;
use program_edge::{DONE, Refusal, tell, tell_refusal};
use slot_commands::push_store_line;
use std::alloc::{AllocError, Global};
use store_growing::{GrowFault, grow_store};

const USAGE: &str = "usage: station slots grow FILE BUS\n";

/// The bus of one node that the arguments ask for, whose bus file has this source; or the refusal: 2 if they are
/// malformed, else that of the bus file. Of malformed arguments nothing is read.
pub fn grow_asked<S: Source>(
    alloc: Global,
    words: &[String],
    bus: &mut S,
) -> Result<BusConfig, Refusal>
    ensures { TakesGrowth
        (record {
          words = each string_bytes words.now;
          bus = record { before = S.state bus.old; after = S.state bus.new };
        })
        result }
{
    if !asks_over_bus("grow", words) {
        return Err(Refusal::fixed(2, USAGE));
    }
    node_bus_from(alloc, bus)
}

/// Opens the disk that an argument names, whose file is there, and grows the store on it to a cell for each of these
/// routes, at most 256, if it is of the kind and the version that are wanted. It gives the status that the program ends
/// with, and the disk, if it was opened.
pub fn grow_named<P: DiskOpener, K: Sink>(
    alloc: Global,
    disk_opener: &mut P,
    word: &str,
    wanted: Layout,
    routes: &[Route],
    sink: &mut K,
) -> (u8, Option<P::Opened>)
    requires { length routes.now ≤ MOST_ROUTES }
    ensures grows { (was : Option DiskState) × EndsInRow (ComesNamed (P.opens disk_opener.old)
        (P.opened disk_opener.old) (P.opened disk_opener.new) word.now wanted routes.now was
        (option_map P.Opened.state result.1))
        (record { before = K.state sink.old; after = K.state sink.new; status = result.0 }) }
    ensures none_made { P.made disk_opener.new ≡ P.made disk_opener.old }
{
    match disk_opener.open_standing(alloc, word) {
        Ok(opened) => {
            let mut disk = opened;
            let status = grow_over(alloc, &mut disk, wanted, routes, sink);
            (status, Some(disk))
        }
        Err(AllocError) => {
            let refusal = Refusal::no_memory();
            (tell_refusal(sink, &refusal), None)
        }
    }
}

/// Grows the store on a disk to a cell for each of these routes, at most 256, if it is of the kind and the version that
/// are wanted, and prints what it has then. It gives the status that the program ends with: 9 and the first cause if
/// the store isn't grown, 10 if the disk failed, 7 if memory is out, 6 if the sink failed.
pub fn grow_over<D: Disk, K: Sink>(
    alloc: Global,
    disk: &mut D,
    wanted: Layout,
    routes: &[Route],
    sink: &mut K,
) -> u8
    requires { length routes.now ≤ MOST_ROUTES }
    ensures { EndsInRow (GrowsOnDisk wanted routes.now (D.state disk.old) (D.state disk.new))
        (record { before = K.state sink.old; after = K.state sink.new; status = result }) }
{
    match grown_text_over(alloc, disk, wanted, routes) {
        Ok(text) => tell(sink, text.as_slice(), DONE),
        Err(refusal) => tell_refusal(sink, &refusal),
    }
}

/// The line of a store that was grown, or the refusal. Its room is taken before anything is written.
fn grown_text_over<D: Disk>(
    alloc: Global,
    disk: &mut D,
    wanted: Layout,
    routes: &[Route],
) -> Result<Vec<u8>, Refusal>
    requires { length routes.now ≤ MOST_ROUTES }
    ensures done { IfOk result
        (λ text. GrowsOnDisk wanted routes.now (D.state disk.old) (D.state disk.new) (row_of 0 text.items)) }
    ensures refused { IfErr result (GrowsOnDisk wanted routes.now (D.state disk.old) (D.state disk.new)) }
{
    let text = match grown_text(alloc, 14 + routes.len() as u16) {
        Ok(text) => text,
        Err(AllocError) => return Err(Refusal::no_memory()),
    };
    match grow_store(alloc, disk, wanted, routes) {
        Ok(_cells) => Ok(text),
        Err(fault) => Err(grow_refusal(alloc, fault)),
    }
}

/// The line `grown twin 1 CELLS`.
fn grown_text(alloc: Global, cells: u16) -> Result<Vec<u8>, AllocError>
    ensures { IfOk result (λ text. text.items ≡ written (grown_words cells)) }
{
    let mut text = Vec::new(alloc);
    push_store_line(&mut text, b"grown", Kind::Twin, Version::One, cells)?;
    Ok(text)
}

/// The refusal of a store that isn't grown: 10 if the disk failed, 7 if memory is out, else 9 and the cause.
fn grow_refusal(alloc: Global, fault: GrowFault) -> Refusal
    ensures { IsGrowRow fault result }
{
    match fault {
        GrowFault::DiskFailed => Refusal::fixed(10, "store: DiskFailed\n"),
        GrowFault::TooSmall => Refusal::fixed(9, "store: TooSmall\n"),
        GrowFault::OtherStore(there) => standing_refusal(alloc, there),
        GrowFault::NotFormatted => Refusal::fixed(9, "store: NotFormatted\n"),
        GrowFault::Damaged(cell) => made(format!(in alloc; "store: Damaged {cell}\n")),
        GrowFault::BadSlot(cell) => made(format!(in alloc; "store: BadSlot {cell}\n")),
        GrowFault::BadBound(cell) => made(format!(in alloc; "store: BadBound {cell}\n")),
        GrowFault::Memory => Refusal::no_memory(),
    }
}
