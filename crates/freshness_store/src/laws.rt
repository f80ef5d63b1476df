// Facts about the definitions alone: the contract of each function is the fact, and its body is empty.
ghost use Rattle.std.specs.Prelude.{◌≡◌, ℕ, List};
ghost use Rattle.basics.specs.Bytes.{IsBytes};
ghost use Rattle.key_slots.specs.declared.memory.Slot.{Slot};
ghost use Rattle.slot_disk.specs.Cell.{HoldsSlot};
ghost use Rattle.freshness_routes.specs.declared.routes.Direction.{Direction};
ghost use Rattle.freshness_store.specs.Bound.{bound_cell, HoldsBound};

/// The cell of a bound has 32 bytes.
pub fn a_bound_has_a_cell_of_32_bytes()
    ensures { (id : ℕ) (direction : Direction) (bound : ℕ) → IsBytes 32 (bound_cell id direction bound) }
{}

/// A cell is the cell of at most one bound, of one Data ID and one direction.
pub fn a_cell_is_one_bound()
    ensures { (cell : List ℕ) (id other_id : ℕ) (direction other : Direction) (bound other_bound : ℕ)
        → HoldsBound cell id direction bound → HoldsBound cell other_id other other_bound
        → (id ≡ other_id) × (direction ≡ other) × (bound ≡ other_bound) }
{}

/// No cell is both a key slot's and a bound's.
pub fn no_slot_is_a_bound()
    ensures { (cell : List ℕ) (slot : Slot) (id : ℕ) (direction : Direction) (bound : ℕ)
        → HoldsSlot cell slot → ¬ HoldsBound cell id direction bound }
{}
