//! The line that answers a command.

use key_slots::Counter28;
use memory_update::Request;

/// The line that tells what came of a command.
#[derive(Clone, Copy, Debug, PartialEq, Eq)]
pub enum LedgerLine {
    /// A request was issued.
    Issued {
        /// The update's counter.
        counter: Counter28,
        /// M1, M2 and M3.
        request: Request,
    },
    /// The update with this counter was confirmed.
    Confirmed(Counter28),
    /// The counter of the entry that was asked for, and whether it is confirmed; or there is none.
    Shown(Option<(Counter28, bool)>),
    /// The ledger is up again after a power cut.
    Up,
    /// A failure of the disk is armed.
    Armed,
    /// Nothing was done; or the disk failed, and the ledger is down.
    Refused(LedgerRefusal),
}

/// Why a command is refused.
#[derive(Clone, Copy, Debug, PartialEq, Eq)]
pub enum LedgerRefusal {
    /// A call of the disk failed since the last power-up, or a power-up was refused.
    Down,
    /// The key of the one slot may not authorise an update of the other.
    BadPair,
    /// There is no entry for the unit and slot, and no empty place.
    Full,
    /// The last counter was issued.
    Spent,
    /// There is no entry for the unit and slot.
    Unknown,
    /// The last update was confirmed before.
    AlreadyConfirmed,
    /// The reply doesn't confirm the last update.
    NotConfirmed,
    /// The disk failed.
    MemoryFailure,
    /// After a cut, on a disk that doesn't tell bytes that fit the ledger: there is no store of the ledger's kind.
    NotFormatted,
    /// After a cut, on such a disk: this cell of the store is damaged.
    Damaged(u16),
    /// After a cut, on such a disk: this cell is neither empty nor an entry, or it repeats one.
    BadEntry(u16),
}
