//! What a cut within the very first format of a disk leaves, for a start that finishes it.
ghost use Rattle.std.specs.Prelude.{◌≡◌, ◌⊎◌, ◌↔◌, ◌+◌, ◌≤◌, ◌<◌, ℕ, length, get_or, replicate, IsTrue, IfOk, IfErr, OnOk};
ghost use Rattle.std.specs.Prelude.{None, Some};
ghost use Rattle.cut_disk.specs.State.{Told};
ghost use Rattle.cut_disk.specs.Images.{firm};
ghost use Rattle.cut_disk.specs.Calls.{AsBefore};
ghost use Rattle.cell_store.specs.Layout.{base, layout};
ghost use Rattle.cell_store.specs.Store.{FewCells, fresh_cells, store_size};
ghost use Rattle.store_growing.specs.StoreHeaders.{HeaderStands};
ghost use Rattle.disk_looks.specs.Looks.{FailsLook};
ghost use Rattle.disk_looks.specs.declared.looks.Seen.TheVariants.{Neither};
ghost use Rattle.kept_starts.specs.Unfinished.{IsUnfinishedFormat, IsBegunFrom};
ghost use Rattle.kept_starts.specs.LookedAt.{FailsToKeepWithin, SeenInBus, TellsUnfinished, cells_calls};

use crate::first::{KeepFault, node_config};
use any_cells::{AnyCells, store_size};
use bus_config::BusConfig;
use cell_store::{Kind, Version};
use cut_disk::{Disk, DiskFailed, MemDisk, Memory};
use disk_looks::LookFault;
use secoc_node::first_cells;
use std::alloc::Global;

/// Looks whether a disk that has neither a header nor zeros alone has what a cut within its very first format as the
/// node's store leaves. A start finishes that. All bytes are read once more.
pub(crate) fn look_at_unfinished<D: Disk>(
    alloc: Global,
    bus: &BusConfig,
    disk: D,
) -> (D, Result<(), KeepFault>)
    requires one { length bus.now.nodes ≡ 1 }
    requires neither { (t : Told) → (D.state disk).told ≡ Some t → SeenInBus bus.now t.bytes Neither }
    ensures as_before { OnOk result.1 (AsBefore (cells_calls bus.now) (D.state disk) (D.state result.0)) }
    ensures unfinished { OnOk result.1 (TellsUnfinished bus.now (D.state disk)) }
    ensures refused { IfErr result.1
        (FailsToKeepWithin (cells_calls bus.now) bus.now (D.state disk) (D.state result.0)) }
{
    let mut disk = disk;
    let mut cells = [[0; 32]; 270];
    let count = first_cells(node_config(bus), &mut cells);
    match is_unfinished(alloc, &mut disk, bus.kind(), bus.version(), &cells[..count]) {
        Ok(true) => (disk, Ok(())),
        Ok(false) => (disk, Err(KeepFault::NotFormatted)),
        Err(LookFault::DiskFailed) => (disk, Err(KeepFault::DiskFailed)),
        Err(LookFault::Memory) => (disk, Err(KeepFault::Memory)),
    }
}

/// Whether a cut within the first format of a store of these cells leaves the bytes of this disk, which has no header.
/// It reads all bytes, and takes memory for them and for such a store.
fn is_unfinished<D: Disk>(
    alloc: Global,
    disk: &mut D,
    kind: Kind,
    version: Version,
    cells: &[[u8; 32]],
) -> Result<bool, LookFault>
    requires few { FewCells (length cells.now) }
    requires headless { (t : Told) → (D.state disk.old).told ≡ Some t → HeaderStands t.bytes None }
    ensures unfinished { IfOk result (λ is. (t : Told) → (D.state disk.old).told ≡ Some t
        → (IsTrue is ↔ IsUnfinishedFormat kind version cells.now t.bytes)) }
    ensures as_before { OnOk result (AsBefore 1 (D.state disk.old) (D.state disk.new)) }
    ensures refused { IfErr result (FailsLook 1 (D.state disk.old) (D.state disk.new)) }
{
    let Ok(store) = new_store(alloc, kind, version, cells) else {
        return Err(LookFault::Memory);
    };
    let size = disk.size() as usize;
    let Ok(mut bytes) = vec![in alloc; 0; size] else {
        return Err(LookFault::Memory);
    };
    read_begun(disk, bytes.as_mut_slice(), store.as_slice(), version)
}

/// The same in room for the bytes, beside such a store.
fn read_begun<D: Disk>(
    disk: &mut D,
    bytes: &mut [u8],
    store: &[u8],
    version: Version,
) -> Result<bool, LookFault>
    requires { length bytes.old ≡ (D.state disk.old).size }
    ensures begun { IfOk result (λ is. (t : Told) → (D.state disk.old).told ≡ Some t
        → (IsTrue is ↔ IsBegunFrom (base version + 32) store.now t.bytes)) }
    ensures as_before { OnOk result (AsBefore 1 (D.state disk.old) (D.state disk.new)) }
    ensures refused { IfErr result (FailsLook 1 (D.state disk.old) (D.state disk.new)) }
{
    match disk.read(0, bytes) {
        Ok(()) => Ok(is_begun(bytes, store, version.base() as usize + 32)),
        Err(DiskFailed) => Err(LookFault::DiskFailed),
    }
}

/// Whether each of these bytes is zero, or stands from this place on and is the store's.
fn is_begun(bytes: &[u8], store: &[u8], from: usize) -> bool
    ensures { IsTrue result ↔ IsBegunFrom from store.now bytes.now }
{
    for (place, byte) in bytes.iter().enumerate() {
        if !is_begun_at(*byte, store, from, place) {
            return false;
        }
    }
    true
}

/// The same of one byte, at its place.
fn is_begun_at(byte: u8, store: &[u8], from: usize, place: usize) -> bool
    ensures { IsTrue result ↔ ((byte ≡ 0) ⊎ ((from ≤ place) × (byte ≡ get_or store.now place 0))) }
{
    if byte == 0 {
        return true;
    }
    if place < from {
        return false;
    }
    if place >= store.len() {
        return false;
    }
    store[place] == byte
}

/// The bytes of a new store of these cells, with zeros before it.
fn new_store(
    alloc: Global,
    kind: Kind,
    version: Version,
    cells: &[[u8; 32]],
) -> Result<Vec<u8>, Memory>
    requires { FewCells (length cells.now) }
    ensures { IfOk result (λ bytes. (k : ℕ)
        → get_or bytes.items (base version + 32 + k) 0 ≡ get_or (fresh_cells kind cells.now) k 0) }
{
    let size = store_size(kind, version, cells.len() as u16) as usize;
    let disk = MemDisk::new(alloc, size)?;
    new_store_on(alloc, disk, kind, version, cells)
}

/// The same by formatting a disk of zeros.
fn new_store_on<D: Disk + Drop>(
    alloc: Global,
    disk: D,
    kind: Kind,
    version: Version,
    cells: &[[u8; 32]],
) -> Result<Vec<u8>, Memory>
    requires few { FewCells (length cells.now) }
    requires room { store_size (layout kind version) (length cells.now) ≤ (D.state disk).size }
    requires zeros { (D.state disk).told ≡ Some (firm (replicate (D.state disk).size 0)) }
    ensures { IfOk result (λ bytes. (k : ℕ)
        → get_or bytes.items (base version + 32 + k) 0 ≡ get_or (fresh_cells kind cells.now) k 0) }
{
    let Ok(mut disk) = AnyCells::format_as(disk, kind, version, cells) else {
        return Err(Memory);
    };
    let mut bytes = vec![in alloc; 0; disk.size() as usize]?;
    match disk.read(0, bytes.as_mut_slice()) {
        Ok(()) => Ok(bytes),
        Err(DiskFailed) => Err(Memory),
    }
}
