//! The engine of the store that counts on a disk.
ghost use Rattle.std.specs.Prelude.{◌≡◌, ◌≢◌, ◌≤◌, ◌⊎◌, replicate, length, false, string_bytes, IfOk, IfErr};
ghost use Rattle.program_edge.specs.Rows.{row_of, memory_row};
ghost use Rattle.cell_store.specs.Store.{FewCells};
ghost use Rattle.any_cells.specs.Either.{any_state};
ghost use Rattle.key_commands.specs.Opening.{HasCounting, HasNoSlot, GivesNoEngine, OpensLoader, TellsStoreFault};
ghost use Rattle.key_commands.specs.Opening.{most_to_attach, most_to_open, bad_slot_row};
ghost use Rattle.key_commands.specs.Loader.{HoldsAll};

use crate::loader::Loader;
use any_cells::{AnyCells, CountingStore, find_store, fixed_fault_text, store_fault_text};
use cell_store::{Cells, StoreFault};
use cut_disk::Disk;
use key_slots::SlotId;
use memory_update::Uid;
use program_edge::Refusal;
use std::alloc::{AllocError, Global};

/// A disk that is handed back without an engine, and the row that says why.
#[derive(Drop)]
pub struct Unopened<D: Disk> {
    pub disk: D,
    pub refusal: Refusal,
}

/// The engine with this identifier, which isn't zero, over the store that counts on the disk: of at least 14 cells,
/// whose first fourteen are slots. Nothing is written. Errors: 9 and the first cause that applies, or 7 if memory is
/// out.
pub fn open_loader<D: Disk>(alloc: Global, uid: Uid, disk: D) -> Result<Loader<D>, Unopened<D>>
    requires { uid ≢ replicate 15 0 }
    ensures opened { IfOk result (OpensLoader most_to_open (D.state disk) uid) }
    ensures refused { IfErr result (λ r. GivesNoEngine most_to_open (D.state disk) (D.state r.disk) r.refusal) }
{
    let mut disk = disk;
    let found = match find_store(&mut disk) {
        Ok(found) => found,
        Err(fault) => {
            let refusal = store_refusal(alloc, fault);
            return Err(Unopened { disk, refusal });
        }
    };
    match found {
        Some(found) => attach_found(alloc, uid, disk, found),
        None => {
            let refusal = store_refusal(alloc, StoreFault::NotFormatted);
            Err(Unopened { disk, refusal })
        }
    }
}

/// The engine over this store, which counts on the disk.
fn attach_found<D: Disk>(
    alloc: Global,
    uid: Uid,
    disk: D,
    found: CountingStore,
) -> Result<Loader<D>, Unopened<D>>
    requires uid { uid ≢ replicate 15 0 }
    requires few { FewCells found.cells }
    requires room { 32 ≤ (D.state disk).size }
    ensures opened { IfOk result (λ loader. HasCounting (D.state disk) found
        → OpensLoader most_to_attach (D.state disk) uid loader) }
    ensures refused { IfErr result (λ r. HasCounting (D.state disk) found
        → GivesNoEngine most_to_attach (D.state disk) (D.state r.disk) r.refusal) }
{
    if found.cells < 14 {
        let refusal = Refusal::fixed(9, "store: too few cells\n");
        return Err(Unopened { disk, refusal });
    }
    match AnyCells::attach_as(alloc, disk, found.kind, found.version, found.cells) {
        Ok(store) => attach_engine(alloc, uid, store),
        Err(refused) => Err(Unopened {
            disk: refused.disk,
            refusal: store_refusal(alloc, refused.fault),
        }),
    }
}

/// The engine over this store, of at least 14 cells.
fn attach_engine<D: Disk>(
    alloc: Global,
    uid: Uid,
    store: AnyCells<D>,
) -> Result<Loader<D>, Unopened<D>>
    requires cells { 14 ≤ length (any_state store).cells }
    requires whole { (any_state store).broken ≡ false }
    requires uid { uid ≢ replicate 15 0 }
    ensures opened { IfOk result (λ l. (l.uid ≡ uid) × (l.store ≡ any_state store) × (l.down ≡ false) × HoldsAll l) }
    ensures refused { IfErr result (λ r. (D.state r.disk ≡ (any_state store).disk)
        × HasNoSlot (any_state store).cells r.refusal) }
{
    match Loader::attach(uid, store) {
        Ok(loader) => Ok(loader),
        Err(refused) => Err(Unopened {
            disk: refused.store.release(),
            refusal: bad_slot_refusal(alloc, refused.bad.0),
        }),
    }
}

/// The row of a fault of the store. Telling one without a number takes no memory.
fn store_refusal(alloc: Global, fault: StoreFault) -> Refusal
    ensures { TellsStoreFault fault result }
{
    match fault {
        StoreFault::DiskFailed => Refusal::fixed(9, fixed_fault_text!("store: ", DiskFailed, "\n")),
        StoreFault::NotFormatted => {
            Refusal::fixed(9, fixed_fault_text!("store: ", NotFormatted, "\n"))
        }
        StoreFault::TooSmall => Refusal::fixed(9, fixed_fault_text!("store: ", TooSmall, "\n")),
        StoreFault::Memory => Refusal::no_memory(),
        StoreFault::Damaged(_) => match store_fault_text(alloc, fault) {
            Ok(cause) => made_refusal(format!(in alloc; "store: {cause}\n")),
            Err(AllocError) => Refusal::no_memory(),
        },
    }
}

/// The row of a cell that is no slot's.
fn bad_slot_refusal(alloc: Global, slot: SlotId) -> Refusal
    ensures { (result ≡ bad_slot_row slot) ⊎ (result ≡ memory_row) }
{
    let number = slot.number();
    made_refusal(format!(in alloc; "store: BadSlot {number}\n"))
}

/// The row of 9 with this text, or out of memory for the text.
fn made_refusal(text: Result<String, AllocError>) -> Refusal
    ensures ok { IfOk text (λ made. result ≡ row_of 9 (string_bytes made)) }
    ensures err { IfErr text (λ _. result ≡ memory_row) }
{
    match text {
        Ok(text) => Refusal::made(9, text),
        Err(AllocError) => Refusal::no_memory(),
    }
}
