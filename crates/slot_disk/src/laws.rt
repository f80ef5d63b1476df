// Facts about the definitions alone: the contract of each function is the fact, and its body is empty.
ghost use Rattle.std.specs.Prelude.{◌≡◌, ℕ, List};
ghost use Rattle.basics.specs.Bytes.{IsBytes};
ghost use Rattle.key_slots.specs.declared.memory.Slot.{Slot};
ghost use Rattle.key_slots.specs.Slots.{IsSlot};
ghost use Rattle.slot_disk.specs.Cell.{slot_cell, HoldsSlot, HoldSlots};

/// The cell of a slot has 32 bytes.
pub fn a_slot_has_a_cell_of_32_bytes()
    ensures { (slot : Slot) → IsSlot slot → IsBytes 32 (slot_cell slot) }
{}

/// A cell is the cell of at most one slot, and fourteen cells are those of at most one list of slots.
pub fn a_cell_is_one_slot()
    ensures cell { (cell : List ℕ) (slot other : Slot) → HoldsSlot cell slot → HoldsSlot cell other → slot ≡ other }
    ensures cells { (cells : List (List ℕ)) (slots others : List Slot) → HoldSlots cells slots → HoldSlots cells others
        → slots ≡ others }
{}
