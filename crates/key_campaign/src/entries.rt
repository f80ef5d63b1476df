//! What a ledger keeps.

use key_slots::{Counter28, SlotId};
use memory_update::Uid;

/// What a ledger keeps of one key slot of one unit.
#[derive(Clone, Copy, Debug, PartialEq, Eq, Drop)]
pub struct LedgerEntry {
    /// The unit's identifier, not zero.
    pub uid: Uid,
    /// The slot, 1 to 13.
    pub id: SlotId,
    /// The counter of the update that was issued last, from 1 on.
    pub counter: Counter28,
    /// Whether a reply confirmed that update.
    pub confirmed: bool,
}

/// An entry that was to be put into a place when the disk failed.
#[derive(Clone, Copy, Debug, PartialEq, Eq, Drop)]
pub struct PendingEntry {
    /// The place, counted from 0.
    pub place: u16,
    /// What was to be put there.
    pub entry: LedgerEntry,
}
