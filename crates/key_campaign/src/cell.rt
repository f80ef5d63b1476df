//! The cell of a place.
ghost use Rattle.std.specs.Prelude.{◌≡◌, ◌⊎◌, ◌≢◌, ℕ, MatchOption, None, Some, IfSome, Option};
ghost use Rattle.key_campaign.specs.declared.entries.LedgerEntry.{LedgerEntry};
ghost use Rattle.key_campaign.specs.Entries.{IsEntry};
ghost use Rattle.key_campaign.specs.Cell.{place_cell, IsLedgerPlace, HoldsPlace};

use crate::LedgerEntry;
use key_slots::{Counter28, SlotId};
use memory_update::Uid;

/// The cell of an entry, 32 bytes.
pub fn entry_bytes(entry: &LedgerEntry) -> [u8; 32]
    ensures { result ≡ place_cell (Some entry.now) }
{
    let [a, b, c, d] = entry.counter.number().to_be_bytes();
    let mut cell = [
        3,
        0,
        0,
        0,
        0,
        0,
        0,
        0,
        0,
        0,
        0,
        0,
        0,
        0,
        0,
        0,
        entry.id.number(),
        a,
        b,
        c,
        d,
        u8::from(entry.confirmed),
        0,
        0,
        0,
        0,
        0,
        0,
        0,
        0,
        0,
        0,
    ];
    cell[1..16].copy_from_slice(entry.uid.bytes());
    cell
}

/// The entry whose cell this can be alone.
fn entry_parts(cell: &[u8; 32]) -> Option<LedgerEntry>
    ensures entry { IfSome result IsEntry }
    ensures whole { (e : LedgerEntry) → HoldsPlace cell.now (Some e) → result ≡ Some e }
{
    let mut uid = [0; 15];
    uid.copy_from_slice(&cell[1..16]);
    let uid = Uid::of(uid);
    let id = SlotId::new(cell[16])?;
    let counter = Counter28::new(u32::from_be_bytes([cell[17], cell[18], cell[19], cell[20]]))?;
    if uid.is_zero() {
        return None;
    }
    if id.number() == 0 {
        return None;
    }
    if counter.number() == 0 {
        return None;
    }
    Some(LedgerEntry {
        uid,
        id,
        counter,
        confirmed: cell[21] == 1,
    })
}

/// The cell of a place, 32 bytes.
#[tactic(auto, unfolding(crate::specs::Cell::place_cell))]
fn place_bytes(place: &Option<LedgerEntry>) -> [u8; 32]
    ensures { result ≡ place_cell place.now }
{
    match place {
        None => [0; 32],
        Some(entry) => entry_bytes(entry),
    }
}

/// The place whose cell this can be alone.
fn parts(cell: &[u8; 32]) -> Option<Option<LedgerEntry>>
    ensures place { IfSome result IsLedgerPlace }
    ensures whole { (place : Option LedgerEntry) → HoldsPlace cell.now place → result ≡ Some place }
{
    match cell[0] {
        0 => Some(None),
        3 => match entry_parts(cell) {
            Some(entry) => Some(Some(entry)),
            None => None,
        },
        _ => None,
    }
}

/// What the place of a cell has, an entry or nothing; none if the cell is no place's.
pub fn place_in(cell: &[u8; 32]) -> Option<Option<LedgerEntry>>
    ensures { MatchOption result ((place : Option LedgerEntry) → ¬ HoldsPlace cell.now place) (HoldsPlace cell.now) }
{
    let place = parts(cell)?;
    if place_bytes(&place) == *cell {
        Some(place)
    } else {
        None
    }
}
