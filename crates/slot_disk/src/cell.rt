// The bytes of a slot.
ghost use Rattle.std.specs.Prelude.{◌≡◌, ℕ, List, MatchOption, Some, IfSome};
ghost use Rattle.key_slots.specs.declared.memory.Slot.{Slot};
ghost use Rattle.key_slots.specs.declared.memory.Flags.{Flags};
ghost use Rattle.key_slots.specs.Slots.{IsSlot};
ghost use Rattle.slot_disk.specs.Cell.{slot_cell, HoldsSlot};

use key_slots::{Block, Counter28, Flags, Slot};

/// The cell of a slot, 32 bytes.
#[tactic(auto, unfolding(crate::specs::Cell::slot_cell))]
pub fn slot_bytes(slot: &Slot) -> [u8; 32]
    ensures { result ≡ slot_cell slot.now }
{
    match slot {
        Slot::Empty => [0; 32],
        Slot::Filled {
            key,
            counter,
            flags,
        } => filled_bytes(key, *counter, *flags),
    }
}

fn filled_bytes(key: &Block, counter: Counter28, flags: Flags) -> [u8; 32]
    ensures { result ≡ slot_cell (Slot.Filled key.now counter flags) }
{
    let [a, b, c, d] = counter.number().to_be_bytes();
    let mut out = [
        1,
        flags.number(),
        a,
        b,
        c,
        d,
        0,
        0,
        0,
        0,
        0,
        0,
        0,
        0,
        0,
        0,
        0,
        0,
        0,
        0,
        0,
        0,
        0,
        0,
        0,
        0,
        0,
        0,
        0,
        0,
        0,
        0,
    ];
    out[6..22].copy_from_slice(key.bytes());
    out
}

/// The slot that a cell holds; none if it holds none.
pub fn slot_in(cell: &[u8; 32]) -> Option<Slot>
    ensures { MatchOption result ((slot : Slot) → ¬ HoldsSlot cell.now slot) (HoldsSlot cell.now) }
{
    let slot = parts(cell)?;
    if slot_bytes(&slot) == *cell {
        Some(slot)
    } else {
        None
    }
}

/// The slot whose cell this can be alone.
fn parts(cell: &[u8; 32]) -> Option<Slot>
    ensures slot { IfSome result IsSlot }
    ensures whole { (slot : Slot) → HoldsSlot cell.now slot → result ≡ Some slot }
{
    match cell[0] {
        0 => Some(Slot::Empty),
        1 => filled_parts(cell),
        _ => None,
    }
}

/// The same of a filled slot.
fn filled_parts(cell: &[u8; 32]) -> Option<Slot>
    ensures slot { IfSome result IsSlot }
    ensures whole { (key : List ℕ) (counter : ℕ) (flags : Flags) → HoldsSlot cell.now (Slot.Filled key counter flags)
        → result ≡ Some (Slot.Filled key counter flags) }
{
    let [_, number, a, b, c, d, ..] = *cell;
    if number > 31 {
        return None;
    }
    let counter = Counter28::new(u32::from_be_bytes([a, b, c, d]))?;
    let mut key = [0; 16];
    key.copy_from_slice(&cell[6..22]);
    Some(Slot::Filled {
        key: Block::of(key),
        counter,
        flags: Flags::of(number),
    })
}
