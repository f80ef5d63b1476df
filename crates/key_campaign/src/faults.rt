//! Why a ledger refuses.
use cell_store::Reread;

/// Why a ledger refuses a command. The first cause that applies is answered: for an issue in this order, and for a
/// confirmation in the order `Down`, `Unknown`, `AlreadyConfirmed`, `NotConfirmed`, `Faulted`.
#[derive(Clone, Copy, Debug, PartialEq, Eq, Drop)]
pub enum LedgerFault {
    /// A call of the disk failed, or a power cut was refused, since the last power-up that succeeded.
    Down,
    /// The key of the one slot may not authorise an update of the other (SHE specification, memory update).
    BadPair,
    /// There is no entry for this unit and slot, and no empty cell.
    Full,
    /// The counter 2^28 - 1 was issued for this unit and slot.
    Spent,
    /// A call of the disk failed in this call. The ledger is down; what was to be put is there whole or not at all
    /// after the next power-up.
    Faulted,
    /// There is no entry for this unit and slot.
    Unknown,
    /// The update that was issued last was confirmed before.
    AlreadyConfirmed,
    /// The reply doesn't confirm the update that was issued last.
    NotConfirmed,
}

/// Cells that are handed back, since they are no ledger's.
#[derive(Debug, Drop)]
pub struct BadEntry<C> {
    /// The cells, as they were.
    pub cells: C,
    /// The number of the lowest cell, from 0, that is neither empty nor an entry, or that repeats an earlier one's unit
    /// and slot.
    pub entry: u16,
}

/// Why a ledger isn't up after a power cut.
#[derive(Clone, Copy, Debug, PartialEq, Eq, Drop)]
pub enum LedgerCut {
    /// The store couldn't be read anew.
    Store(Reread),
    /// The store was read anew, and this cell, the lowest, is neither empty nor an entry, or repeats an earlier one's
    /// unit and slot.
    BadEntry(u16),
}
