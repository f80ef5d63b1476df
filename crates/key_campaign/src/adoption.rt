//! What came of an entry that a ledger was to take over.

use key_slots::Counter28;

/// What a ledger made of an entry that is known from elsewhere.
#[derive(Clone, Copy, Debug, PartialEq, Eq, Drop)]
pub enum Adoption {
    /// The entry was put: there was none of its unit and slot, or one that says less.
    Raised,
    /// The ledger says as much: it has the same counter, and is confirmed if the entry is.
    Held,
    /// The ledger has this higher counter.
    Behind(Counter28),
}
