//! The put that a plan makes.
ghost use Rattle.std.specs.Prelude.{◌≡◌, ◌+◌, ◌^◌, ◌<◌, ◌↔◌, ℕ, List, [], ◌∷◌, length, true, Some, MatchOption};
ghost use Rattle.cell_store.specs.declared.copies.Side.{Side};
ghost use Rattle.cell_store.specs.Copies.{side_at};
ghost use Rattle.store_plan.specs.Plans.{WritesAt, PlansPut};
ghost use Rattle.flash_images.specs.Images.{WritesPut, FillsCopy};

use cell_store::LIVE;
use flash_plan::WaitingPut;
use store_plan::{Plan, Write};

// The cell that has a copy at this place of an image.
fn cell_of_copy(at: u32) -> Option<u16>
    ensures { MatchOption result ((i : ℕ) (side : Side) → i < 2 ^ 16 → at ≡ side_at i side → ⊥)
        (λ i. (side : Side) × (at ≡ side_at i side)) }
{
    if at < 32 {
        return None;
    }
    let cell = (at - 32) / 68;
    let first = 32 + 68 * cell;
    if cell > 65_535 || (at != first && at != first + 34) {
        return None;
    }
    Some(cell as u16)
}

// Whether the write is of this byte alone, at this place.
fn is_byte_at(write: &Write, at: u32, byte: u8) -> bool
    ensures { result ≡ true ↔ WritesAt write.now at (byte ∷ []) }
{
    write.offset == at && write.size == 1 && write.bytes[0] == byte
}

// The payload of a copy that the write fills, behind its gate.
fn filled(write: &Write, at: u32) -> Option<[u8; 32]>
    ensures { MatchOption result ((c : List ℕ) → FillsCopy write.now at c → ⊥) (FillsCopy write.now at) }
{
    if write.offset != at || write.size != 33 || write.bytes[0] > 2 {
        return None;
    }
    let mut payload = [0; 32];
    payload.copy_from_slice(&write.bytes[1..33]);
    Some(payload)
}

/// The cell that a plan puts and its new bytes. None if its writes aren't those of a put, as of an empty plan or of one
/// that makes a store grow.
pub fn planned(plan: &Plan) -> Option<WaitingPut>
    ensures is { MatchOption result ((i : ℕ) (c : List ℕ) → i < 2 ^ 16 → WritesPut plan.now i c → ⊥)
        (λ waiting. WritesPut plan.now waiting.cell waiting.payload) }
    ensures planned { (x : List ℕ) (i : ℕ) (c : List ℕ) → PlansPut plan.now x i c → i < 2 ^ 16
        → result ≡ Some (record { cell = i; payload = c }) }
{
    let at = plan.third.offset;
    let cell = cell_of_copy(at)?;
    let closes = plan.first.size == 0 || is_byte_at(&plan.first, at, 0);
    if !closes || !is_byte_at(&plan.third, at, LIVE) {
        return None;
    }
    let payload = filled(&plan.second, at + 1)?;
    Some(WaitingPut { cell, payload })
}
