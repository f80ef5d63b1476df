// Whether a plan would take back what the store has counted, as an old copy of a plan does.
ghost use Rattle.std.specs.Prelude.{◌≡◌, ◌↔◌, ◌+◌, ◌<◌, ◌≤◌, ℕ, List, length, false, IsTrue, IfSome, IfNone};
ghost use Rattle.cell_store.specs.Layout.{part};
ghost use Rattle.cell_store.specs.Twin.{twin_size, first_at, cell_at};
ghost use Rattle.store_plan.specs.Plans.{WriteFits, PlanFits, applied, applied_write};
ghost use Rattle.rathonsi_c.specs.Stale.{IsCounted, HoldsKey, BoundFalls, KeyFalls, CellFalls, IsStale};

use crate::images::bound_held;
use cell_store::held_in;
use freshness_store::bound_in;
use key_slots::Slot;
use slot_disk::slot_in;
use store_plan::{Plan, Write, cell_in, count_in};

// Writes over the bytes of a cell what a write of a plan has there.
fn overlay(pair: &mut [u8; 68], cell: u16, write: &Write)
    ensures { (x : List ℕ) → first_at cell + 68 ≤ length x → WriteFits (length x) write.now
        → pair.old ≡ part (first_at cell) 68 x → pair.new ≡ part (first_at cell) 68 (applied_write write.now x) }
{
    let at = 32 + 68 * cell as usize;
    let from = write.offset as usize;
    let end = from + write.size as usize;
    let first = if from < at { at } else { from };
    let last = if end < at + 68 { end } else { at + 68 };
    if first < last && write.size <= 40 {
        pair[first - at..last - at].copy_from_slice(&write.bytes[first - from..last - from]);
    }
}

// What the image will hold as this cell once the plan is done.
fn cell_after(image: &[u8], plan: &Plan, cell: u16) -> Option<[u8; 32]>
    requires { PlanFits (length image.now) plan.now × (twin_size (cell + 1) ≤ length image.now) }
    ensures { result ≡ cell_at (applied plan.now image.now) cell }
{
    let at = 32 + 68 * cell as usize;
    let mut pair = [0; 68];
    pair.copy_from_slice(&image[at..at + 68]);
    overlay(&mut pair, cell, &plan.first);
    overlay(&mut pair, cell, &plan.second);
    overlay(&mut pair, cell, &plan.third);
    match held_in(&pair) {
        Some(held) => Some(held.payload),
        None => None,
    }
}

// Whether a write has a byte in this cell. If it has none, it leaves the bytes of the cell.
fn reaches(write: &Write, cell: u16) -> bool
    ensures { result ≡ false → (x : List ℕ) → first_at cell + 68 ≤ length x → WriteFits (length x) write.now
        → part (first_at cell) 68 (applied_write write.now x) ≡ part (first_at cell) 68 x }
{
    let at = 32 + 68 * cell as usize;
    let from = write.offset as usize;
    if write.size == 0 {
        return false;
    }
    if from >= at + 68 {
        return false;
    }
    at < from + write.size as usize
}

// Whether a write of the plan has a byte in this cell. If none has, the plan leaves the cell as it is.
fn is_touched(plan: &Plan, cell: u16) -> bool
    ensures { result ≡ false → (x : List ℕ) → PlanFits (length x) plan.now → twin_size (cell + 1) ≤ length x
        → cell_at (applied plan.now x) cell ≡ cell_at x cell }
{
    if reaches(&plan.first, cell) {
        return true;
    }
    if reaches(&plan.second, cell) {
        return true;
    }
    reaches(&plan.third, cell)
}

// Whether a bound falls.
fn bound_falls(before: &[u8; 32], after: Option<[u8; 32]>) -> bool
    ensures { IsTrue result ↔ BoundFalls before.now after }
{
    let Some(held) = bound_held(before) else {
        return false;
    };
    let Some(bytes) = after else {
        return true;
    };
    match bound_in(&bytes, held.id, held.direction) {
        Some(bound) => bound < held.bound,
        None => true,
    }
}

// The counter of the key that a cell holds.
fn counter_held(cell: &[u8; 32]) -> Option<u32>
    ensures some { IfSome result (HoldsKey cell.now) }
    ensures none { IfNone result ((counter : ℕ) → ¬ HoldsKey cell.now counter) }
{
    let Some(slot) = slot_in(cell) else {
        return None;
    };
    match slot {
        Slot::Filled { counter, .. } => Some(counter.number()),
        Slot::Empty => None,
    }
}

// Whether a key goes, without one that has a higher counter.
fn key_falls(before: &[u8; 32], after: Option<[u8; 32]>) -> bool
    ensures { IsTrue result ↔ KeyFalls before.now after }
{
    let Some(counter) = counter_held(before) else {
        return false;
    };
    let Some(bytes) = after else {
        return true;
    };
    if bytes == *before {
        return false;
    }
    match counter_held(&bytes) {
        Some(next) => next <= counter,
        None => true,
    }
}

// Whether what this cell has counted falls by the plan.
fn cell_falls(image: &[u8], plan: &Plan, cell: u16) -> bool
    requires { PlanFits (length image.now) plan.now × (twin_size (cell + 1) ≤ length image.now) }
    ensures { IsTrue result ↔ CellFalls image.now plan.now cell }
{
    if !is_touched(plan, cell) {
        return false;
    }
    let Ok(before) = cell_in(image, cell) else {
        return false;
    };
    let after = cell_after(image, plan, cell);
    bound_falls(&before, after) || key_falls(&before, after)
}

// The number of cells that the header counts, as far as the image has them.
fn counted(image: &[u8]) -> u16
    ensures { (place : ℕ) → (place < result) ↔ IsCounted image.now place }
{
    if image.len() < 32 {
        return 0;
    }
    let mut head = [0; 32];
    head.copy_from_slice(&image[..32]);
    let Some(count) = count_in(&head) else {
        return 0;
    };
    let room = (image.len() - 32) / 68;
    if room < count as usize {
        room as u16
    } else {
        count
    }
}

/// Whether a cell that the header counts falls by this plan: a bound to a lower one or to none, or a key to another
/// without a higher counter.
pub fn is_stale(image: &[u8], plan: &Plan) -> bool
    requires { PlanFits (length image.now) plan.now }
    ensures { IsTrue result ↔ IsStale image.now plan.now }
{
    for cell in 0..counted(image) {
        if cell_falls(image, plan, cell) {
            return true;
        }
    }
    false
}
