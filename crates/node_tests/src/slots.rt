// Cells as they are written down in the formats, and the first slot, which no update names, and the last over a store in
// memory.
ghost use Rattle.std.specs.Prelude.{◌≡◌, length, false};

use crate::comparing::holds;
use crate::engine_bench::{filled, slot};
use crate::engine_lives::{Act, Life, live};
use cell_store::Cells;
use freshness_manager::Direction;
use key_slots::Slot;
use slot_disk::*;
use std::process::Abort;
use std::test::Fail;

const KEY: u128 = 0x0f0e0d0c0b0a09080706050403020100;

/// A filled slot's cell: the flags 31, the counter 2^28 - 1, and the key of the SHE example.
const FILLED: [u8; 32] = [
    1, 31, 0x0f, 0xff, 0xff, 0xff, 15, 14, 13, 12, 11, 10, 9, 8, 7, 6, 5, 4, 3, 2, 1, 0, 0, 0, 0,
    0, 0, 0, 0, 0, 0, 0,
];

/// The same with no flag and the counter 1.
const LOADED: [u8; 32] = [
    1, 0, 0, 0, 0, 1, 15, 14, 13, 12, 11, 10, 9, 8, 7, 6, 5, 4, 3, 2, 1, 0, 0, 0, 0, 0, 0, 0, 0, 0,
    0, 0,
];

/// The slot of this cell.
fn has_cell(rt: &impl Abort, slot: Slot, cell: &[u8; 32]) {
    holds(rt, "slot_bytes", slot_bytes(&slot) == *cell);
    holds(rt, "slot_in", slot_in(cell) == Some(slot));
}

#[test]
fn a_slot_has_the_cell_of_the_formats(rt: HostRuntime) -> Result<(), Fail> {
    has_cell(&rt, Slot::Empty, &[0; 32]);
    has_cell(&rt, filled(KEY, 1, 0)?, &LOADED);
    has_cell(&rt, filled(KEY, 0x0fff_ffff, 31)?, &FILLED);
    Ok(())
}

/// Puts the first slot and the last, and reads both and an empty one.
pub(crate) fn puts_ends<C: Cells>(rt: &impl Abort, store: &mut C) -> Result<(), Fail>
    requires whole { (C.state store.old).broken ≡ false }
    requires count { length (C.state store.old).cells ≡ 15 }
{
    let first = slot(0)?;
    let empty = slot(7)?;
    let last = slot(13)?;
    let first_key = filled(KEY, 7, 2)?;
    let last_key = filled(KEY, 8, 16)?;
    put_slot(store, first, &first_key)?;
    put_slot(store, last, &last_key)?;
    let slots = read_slots(store)?;
    holds(rt, "the first slot", *slots.get(first) == first_key);
    holds(rt, "the last slot", *slots.get(last) == last_key);
    holds(rt, "an empty slot", *slots.get(empty) == Slot::Empty);
    Ok(())
}

const PUTS_ENDS: &[Life] = &[Life {
    direction: Direction::Sends,
    bound: 0,
    act: Act::PutsEnds,
}];

#[test]
fn the_first_and_the_last_slot_are_put_and_read(rt: HostRuntime) -> Result<(), Fail> {
    live(&rt, rt.alloc(), PUTS_ENDS)
}
