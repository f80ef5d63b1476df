//! The store in the bytes of a file, which is only read.
ghost use Rattle.std.specs.Prelude.{◌≡◌, ◌≤◌, ◌^◌, ◌⊎◌, length, Some, IfOk, IfErr};
ghost use Rattle.program_edge.specs.Rows.{memory_row};
ghost use Rattle.any_cells.specs.Either.{any_state};
ghost use Rattle.any_cells.specs.Counting.{StoreThatCounts};
ghost use Rattle.cell_store.specs.Store.{FewCells};
ghost use Rattle.cut_disk.specs.Memory.{disk_of};
ghost use Rattle.cut_disk.specs.MemDisk.{contents};
ghost use Rattle.slot_commands.specs.StillDisks.{IsStill, HasFound};
ghost use Rattle.slot_commands.specs.Stores.{HoldsStore, NoStoreIn, IsUnreadable};

use crate::cells::SLOT_COUNT;
use crate::refusals::{few_cells, store_refusal};
use any_cells::{AnyCells, CountingStore, find_store, store_size};
use cell_store::StoreFault;
use cut_disk::MemDisk;
use program_edge::Refusal;
use std::alloc::Global;

/// Which store counts in these bytes, of at least fourteen cells and with room for them, and a disk of the bytes.
/// Errors: 9 and the first cause why none does, or 7 if memory is out.
pub fn store_in(alloc: Global, bytes: &[u8]) -> Result<(CountingStore, MemDisk), Refusal>
    requires { length bytes.now ≤ 2 ^ 24 }
    ensures found { IfOk result (λ r. HasFound bytes.now r.0 (disk_of (contents r.1))) }
    ensures refused { IfErr result (λ row. NoStoreIn bytes.now row ⊎ (row ≡ memory_row)) }
{
    match MemDisk::of(alloc, bytes) {
        Ok(disk) => store_on(alloc, bytes, disk),
        Err(_) => Err(Refusal::no_memory()),
    }
}

/// The same over a disk of the bytes.
fn store_on(
    alloc: Global,
    bytes: &[u8],
    mut disk: MemDisk,
) -> Result<(CountingStore, MemDisk), Refusal>
    requires { IsStill bytes.now (disk_of (contents disk)) }
    ensures found { IfOk result (λ r. HasFound bytes.now r.0 (disk_of (contents r.1))) }
    ensures refused { IfErr result (λ row. NoStoreIn bytes.now row ⊎ (row ≡ memory_row)) }
{
    match find_store(&mut disk) {
        Ok(Some(found)) => store_that_fits(alloc, bytes, found, disk),
        Ok(None) => Err(store_refusal(alloc, StoreFault::NotFormatted)),
        Err(fault) => Err(store_refusal(alloc, fault)),
    }
}

/// The store that counts, if it has the slots and room.
fn store_that_fits(
    alloc: Global,
    bytes: &[u8],
    found: CountingStore,
    disk: MemDisk,
) -> Result<(CountingStore, MemDisk), Refusal>
    requires counts { StoreThatCounts bytes.now (Some found) }
    requires few { FewCells found.cells }
    requires still { IsStill bytes.now (disk_of (contents disk)) }
    ensures found { IfOk result (λ r. HasFound bytes.now r.0 (disk_of (contents r.1))) }
    ensures refused { IfErr result (λ row. NoStoreIn bytes.now row ⊎ (row ≡ memory_row)) }
{
    if found.cells < SLOT_COUNT {
        return Err(few_cells());
    }
    if (bytes.len() as u64) < store_size(found.kind, found.version, found.cells) {
        return Err(store_refusal(alloc, StoreFault::TooSmall));
    }
    Ok((found, disk))
}

/// The store that counts in these bytes, with its cells; or the first cause why they can't be read.
pub fn read_store(
    alloc: Global,
    bytes: &[u8],
) -> Result<(CountingStore, AnyCells<MemDisk>), Refusal>
    requires { length bytes.now ≤ 2 ^ 24 }
    ensures read { IfOk result (λ r. HoldsStore bytes.now r.0 (any_state r.1).cells) }
    ensures refused { IfErr result (λ row. IsUnreadable bytes.now row ⊎ (row ≡ memory_row)) }
{
    let (found, disk) = store_in(alloc, bytes)?;
    match AnyCells::attach_as(alloc, disk, found.kind, found.version, found.cells) {
        Ok(store) => Ok((found, store)),
        Err(refused) => Err(store_refusal(alloc, refused.fault)),
    }
}
