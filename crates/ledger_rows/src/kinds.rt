//! What a row says was done, and what is read of a row to decide a command.

ghost use Rattle.std.specs.Prelude.{◌≡◌};
ghost use Rattle.ledger_rows.specs.Kinds.{row_word, row_kind_of};

use key_slots::Counter28;

/// What a row of a ledger says was done.
#[derive(Clone, Copy, Debug, PartialEq, Eq)]
pub enum RowKind {
    /// A request with this counter went out.
    Issued,
    /// The unit's reply confirmed the update with this counter.
    Confirmed,
    /// The load of this counter failed, by an operator's word.
    Failed,
    /// The counter was known from elsewhere.
    Imported,
    /// The counter is above all that may have gone out.
    Raised,
}

impl RowKind {
    /// The word by which a table and a line name it.
    pub fn word(self) -> &'static str
        ensures { result.now ≡ row_word self }
    {
        match self {
            RowKind::Issued => "issued",
            RowKind::Confirmed => "confirmed",
            RowKind::Failed => "failed",
            RowKind::Imported => "imported",
            RowKind::Raised => "raised",
        }
    }

    /// The kind that a word names.
    #[tactic(auto, unfolding(crate::specs::Kinds::row_kind_of))]
    pub fn of_word(word: &[u8]) -> Option<RowKind>
        ensures { result ≡ row_kind_of word.now }
    {
        if word == b"issued".as_slice() {
            return Some(RowKind::Issued);
        }
        if word == b"confirmed".as_slice() {
            return Some(RowKind::Confirmed);
        }
        if word == b"failed".as_slice() {
            return Some(RowKind::Failed);
        }
        if word == b"imported".as_slice() {
            return Some(RowKind::Imported);
        }
        if word == b"raised".as_slice() {
            return Some(RowKind::Raised);
        }
        None
    }
}

/// What decides a command, of a row of its unit and slot.
#[derive(Clone, Copy, Debug, PartialEq, Eq)]
pub struct SlotRow {
    /// The update's counter.
    pub counter: Counter28,
    /// What was done.
    pub kind: RowKind,
    /// The check value of the key, three bytes.
    pub check: [u8; 3],
}
