//! What is wrong with a store: its kind and version, and which of its cells are damaged or another's.
ghost use Rattle.std.specs.Prelude.{◌≡◌, ◌<◌, ◌≤◌, ◌⊎◌, ◌+◌, ◌^◌, [], length, slice_index_or, Some, None, OnOk, IfOk};
ghost use Rattle.std.specs.Prelude.{IfErr, IsTrue, ◌↔◌, option_map};
ghost use Rattle.any_cells.specs.Either.{any_state};
ghost use Rattle.cell_store.specs.declared.kinds.Kind.TheVariants.{Twin, Log};
ghost use Rattle.cell_store.specs.Layout.{from_base};
ghost use Rattle.cell_store.specs.Twin.{twin_size, cell_at};
ghost use Rattle.cut_disk.specs.Memory.{disk_of};
ghost use Rattle.cut_disk.specs.MemDisk.{contents};
ghost use Rattle.key_commands.specs.Opening.{layout_of};
ghost use Rattle.program_edge.specs.Rows.{memory_row};
ghost use Rattle.slot_commands.specs.Checked.{Checked, PushesDamage, PushesFinding, PushesFindings, PushesFound};
ghost use Rattle.slot_commands.specs.Checked.{PushesPlaces, PushesLayout};
ghost use Rattle.slot_commands.specs.StillDisks.{HasFound};
ghost use Rattle.slot_commands.specs.Stores.{NoStoreIn, head_words};
ghost use Rattle.text_lines.specs.Written.{written};

use crate::cells::{Meaning, meaning_of, push_bad, push_damaged_place};
use crate::listing::{push_head, push_store_line};
use crate::over_routes::{push_lacking, push_over_routes};
use crate::reading::store_in;
use crate::refusals::store_refusal;
use any_cells::{AnyCells, CountingStore};
use cell_store::{Cells, Kind, StoreFault};
use cut_disk::MemDisk;
use freshness_routes::Route;
use program_edge::Refusal;
use std::alloc::{AllocError, Global};
use store_plan::cell_in;

/// The text of what is wrong with the store in these bytes, and whether nothing is. The first line is that of a list.
/// If the store that the unit's node wants is given, the one that counts is to have its kind and version. If the node's
/// routes are given, each cell after the slots is to hold the bound of its route, and each route is to have one.
/// Errors: 9 and the first cause why no store counts there, or 7 if memory is out.
pub fn check_bytes(
    alloc: Global,
    bytes: &[u8],
    wanted: Option<CountingStore>,
    routes: Option<&[Route]>,
) -> Result<(Vec<u8>, bool), Refusal>
    requires { length bytes.now ≤ 2 ^ 24 }
    ensures checked { IfOk result (λ r. Checked wanted (option_map (λ r. r.now) routes.entry) bytes.now r.0.items r.1) }
    ensures refused { IfErr result (λ row. NoStoreIn bytes.now row ⊎ (row ≡ memory_row)) }
{
    let (found, disk) = store_in(alloc, bytes)?;
    let mut text = Vec::new(alloc);
    match push_head(&mut text, found) {
        Ok(()) => findings_text(alloc, text, bytes, found, disk, wanted, routes),
        Err(AllocError) => Err(Refusal::no_memory()),
    }
}

/// What is found of the store, after the first line, and whether that is nothing.
fn findings_text(
    alloc: Global,
    mut text: Vec<u8>,
    bytes: &[u8],
    found: CountingStore,
    disk: MemDisk,
    wanted: Option<CountingStore>,
    routes: Option<&[Route]>,
) -> Result<(Vec<u8>, bool), Refusal>
    requires found { HasFound bytes.now found (disk_of (contents disk)) }
    requires head { text.items ≡ written (head_words found) }
    ensures checked { IfOk result (λ r. Checked wanted (option_map (λ r. r.now) routes.entry) bytes.now r.0.items r.1) }
    ensures refused { IfErr result (λ row. row ≡ memory_row) }
{
    let head = text.len();
    push_layout(&mut text, found, wanted)?;
    push_findings(alloc, &mut text, bytes, found, disk, routes)?;
    let good = text.len() == head;
    Ok((text, good))
}

/// Adds the line of the store that is wanted, if one is, and the one that counts is of another kind or version.
fn push_layout(
    text: &mut Vec<u8>,
    found: CountingStore,
    wanted: Option<CountingStore>,
) -> Result<(), Refusal>
    ensures pushed { OnOk result (PushesLayout wanted found text.old.items text.new.items) }
    ensures refused { IfErr result (λ row. row ≡ memory_row) }
{
    match wanted {
        Some(wanted) => push_if_another(text, found, wanted),
        None => Ok(()),
    }
}

/// Adds the line of the store that is wanted, if the one that counts is of another kind or version.
fn push_if_another(
    text: &mut Vec<u8>,
    found: CountingStore,
    wanted: CountingStore,
) -> Result<(), Refusal>
    ensures pushed { OnOk result (PushesLayout (Some wanted) found text.old.items text.new.items) }
    ensures refused { IfErr result (λ row. row ≡ memory_row) }
{
    if have_one_layout(found, wanted) {
        return Ok(());
    }
    match push_store_line(text, b"wanted", wanted.kind, wanted.version, wanted.cells) {
        Ok(()) => Ok(()),
        Err(AllocError) => Err(Refusal::no_memory()),
    }
}

/// Whether two stores are of one kind and one version.
fn have_one_layout(one: CountingStore, other: CountingStore) -> bool
    ensures { IsTrue result ↔ (layout_of one ≡ layout_of other) }
{
    one.kind == other.kind && one.version == other.version
}

/// Adds a line for each thing that is wrong with the cells of the store that counts in these bytes, and for each route
/// that has none. The disk has the same bytes.
fn push_findings(
    alloc: Global,
    text: &mut Vec<u8>,
    bytes: &[u8],
    found: CountingStore,
    disk: MemDisk,
    routes: Option<&[Route]>,
) -> Result<(), Refusal>
    requires { HasFound bytes.now found (disk_of (contents disk)) }
    ensures found { OnOk result (PushesFound (option_map (λ r. r.now) routes.entry) bytes.now found
        text.old.items text.new.items) }
    ensures refused { IfErr result (λ row. row ≡ memory_row) }
{
    push_place_findings(alloc, text, bytes, found, disk, routes)?;
    match push_lacking(text, found.cells, routes) {
        Ok(()) => Ok(()),
        Err(AllocError) => Err(Refusal::no_memory()),
    }
}

/// Adds a line for each place of the store at which something is wrong. The disk has the bytes.
fn push_place_findings(
    alloc: Global,
    text: &mut Vec<u8>,
    bytes: &[u8],
    found: CountingStore,
    disk: MemDisk,
    routes: Option<&[Route]>,
) -> Result<(), Refusal>
    requires { HasFound bytes.now found (disk_of (contents disk)) }
    ensures found { OnOk result (PushesPlaces (option_map (λ r. r.now) routes.entry) bytes.now found
        text.old.items text.new.items) }
    ensures refused { IfErr result (λ row. row ≡ memory_row) }
{
    match found.kind {
        Kind::Twin => {
            let base = found.version.base() as usize;
            let store = &bytes[base..];
            match push_twin_findings(text, store, found.cells, routes) {
                Ok(()) => Ok(()),
                Err(AllocError) => Err(Refusal::no_memory()),
            }
        }
        Kind::Log => push_log_findings(alloc, text, bytes, found, disk, routes),
    }
}

/// Adds a line for each cell of a twin store that has no copy that counts, or is another's.
fn push_twin_findings(
    text: &mut Vec<u8>,
    store: &[u8],
    cells: u16,
    routes: Option<&[Route]>,
) -> Result<(), AllocError>
    requires few { cells ≤ 1024 }
    requires room { twin_size cells ≤ length store.now }
    ensures { OnOk result (PushesFindings (option_map (λ r. r.now) routes.entry) (cell_at store.now) cells
        text.old.items text.new.items) }
{
    for place in 0..cells {
        push_twin_finding(text, store, place, routes)?;
    }
    Ok(())
}

/// Adds a line if no copy of this cell counts, or it holds nothing that its place may hold.
fn push_twin_finding(
    text: &mut Vec<u8>,
    store: &[u8],
    place: u16,
    routes: Option<&[Route]>,
) -> Result<(), AllocError>
    requires few { place < 1024 }
    requires room { twin_size (place + 1) ≤ length store.now }
    ensures { OnOk result (PushesFinding (option_map (λ r. r.now) routes.entry) place (cell_at store.now place)
        text.old.items text.new.items) }
{
    match cell_in(store, place) {
        Ok(cell) => push_if_bad(text, place, &cell, routes),
        Err(_) => push_bad(text, place, b"Damaged"),
    }
}

/// Adds a line for each cell of a log store that is another's, or for its first damaged place. The disk has the bytes.
fn push_log_findings(
    alloc: Global,
    text: &mut Vec<u8>,
    bytes: &[u8],
    found: CountingStore,
    disk: MemDisk,
    routes: Option<&[Route]>,
) -> Result<(), Refusal>
    requires log { found.kind ≡ Log }
    requires found { HasFound bytes.now found (disk_of (contents disk)) }
    ensures found { OnOk result (PushesPlaces (option_map (λ r. r.now) routes.entry) bytes.now found
        text.old.items text.new.items) }
    ensures refused { IfErr result (λ row. row ≡ memory_row) }
{
    match AnyCells::attach_as(alloc, disk, found.kind, found.version, found.cells) {
        Ok(store) => match push_bad_cells(text, &store, found.cells, routes) {
            Ok(()) => Ok(()),
            Err(AllocError) => Err(Refusal::no_memory()),
        },
        Err(refused) => push_damaged(alloc, text, refused.fault),
    }
}

/// Adds the line of the place that is damaged. Another fault is a refusal.
fn push_damaged(alloc: Global, text: &mut Vec<u8>, fault: StoreFault) -> Result<(), Refusal>
    ensures { PushesDamage fault text.old.items text.new.items result }
{
    match fault {
        StoreFault::Damaged(place) => match push_damaged_place(text, place) {
            Ok(()) => Ok(()),
            Err(AllocError) => Err(Refusal::no_memory()),
        },
        fault => Err(store_refusal(alloc, fault)),
    }
}

/// Adds a line for each cell that holds nothing that its place may hold.
fn push_bad_cells(
    text: &mut Vec<u8>,
    store: &AnyCells<MemDisk>,
    cells: u16,
    routes: Option<&[Route]>,
) -> Result<(), AllocError>
    requires { length (any_state store.now).cells ≡ cells }
    ensures { OnOk result (PushesFindings (option_map (λ r. r.now) routes.entry)
        (λ place. Some (slice_index_or (any_state store.now).cells place [])) cells text.old.items text.new.items) }
{
    for place in 0..cells {
        push_cell_if_bad(text, store, place, routes)?;
    }
    Ok(())
}

fn push_cell_if_bad(
    text: &mut Vec<u8>,
    store: &AnyCells<MemDisk>,
    place: u16,
    routes: Option<&[Route]>,
) -> Result<(), AllocError>
    requires { place < length (any_state store.now).cells }
    ensures { OnOk result (PushesFinding (option_map (λ r. r.now) routes.entry) place
        (Some (slice_index_or (any_state store.now).cells place [])) text.old.items text.new.items) }
{
    let mut cell = [0; 32];
    store.get(place, &mut cell);
    push_if_bad(text, place, &cell, routes)
}

/// Adds a line if the cell holds nothing that its place may hold, or not what it is to hold over these routes.
fn push_if_bad(
    text: &mut Vec<u8>,
    place: u16,
    cell: &[u8; 32],
    routes: Option<&[Route]>,
) -> Result<(), AllocError>
    ensures { OnOk result (PushesFinding (option_map (λ r. r.now) routes.entry) place (Some cell.now)
        text.old.items text.new.items) }
{
    match routes {
        Some(routes) => push_over_routes(text, place, cell, routes),
        None => push_by_itself(text, place, cell),
    }
}

/// Adds a line if the cell holds nothing that its place may hold.
pub(crate) fn push_by_itself(
    text: &mut Vec<u8>,
    place: u16,
    cell: &[u8; 32],
) -> Result<(), AllocError>
    ensures { OnOk result (PushesFinding None place (Some cell.now) text.old.items text.new.items) }
{
    match meaning_of(place, cell) {
        Meaning::BadSlot => push_bad(text, place, b"BadSlot"),
        Meaning::BadBound => push_bad(text, place, b"BadBound"),
        _ => Ok(()),
    }
}
