// The fourteen slots of a store.
ghost use Rattle.std.specs.Prelude.{◌≡◌, ◌≤◌, length, false, IfOk, IfErr, OnOk, OnErr};
ghost use Rattle.cell_store.specs.Cells.{Puts, FailsPut};
ghost use Rattle.slot_disk.specs.Cell.{slot_cell, HoldSlots, FirstBadSlot};

use crate::cell::{slot_bytes, slot_in};
use cell_store::{Cells, PutFailed};
use key_slots::{Slot, SlotId, Slots};

/// A cell of the first fourteen that is no slot's: the lowest.
#[derive(Clone, Copy, Debug, PartialEq, Eq, Drop)]
pub struct BadSlot(pub SlotId);

/// The slots that the first fourteen cells hold. `BadSlot` exactly if one of them is no slot's; the lowest is named.
pub fn read_slots<C: Cells>(cells: &C) -> Result<Slots, BadSlot>
    requires { 14 ≤ length (C.state cells.now).cells }
    ensures slots { IfOk result (HoldSlots (C.state cells.now).cells) }
    ensures bad { IfErr result (λ bad. FirstBadSlot (C.state cells.now).cells bad.0) }
{
    let mut slots = Slots::empty();
    for number in 0..14 {
        let id = SlotId::new(number).unwrap();
        let mut cell = [0; 32];
        cells.get(u16::from(number), &mut cell);
        match slot_in(&cell) {
            Some(slot) => slots.set(id, slot),
            None => return Err(BadSlot(id)),
        }
    }
    Ok(slots)
}

/// Puts the cell of a slot, with the conditions and answers of a put. If it fails on a settled store, the cell on the
/// disk is the old slot's or the new one's, whatever a power cut leaves.
pub fn put_slot<C: Cells>(cells: &mut C, id: SlotId, slot: &Slot) -> Result<(), PutFailed>
    requires cells { 14 ≤ length (C.state cells.old).cells }
    requires whole { (C.state cells.old).broken ≡ false }
    ensures put { OnOk result (Puts id (slot_cell slot.now) (C.state cells.old) (C.state cells.new)) }
    ensures failed { OnErr result (FailsPut id (slot_cell slot.now) (C.state cells.old) (C.state cells.new)) }
{
    cells.put(u16::from(id.number()), &slot_bytes(slot))
}
