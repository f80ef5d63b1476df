//! Laws of ledgers in bytes: the contract of each function is the law, and its body is empty.
ghost use Rattle.std.specs.Prelude.{◌≡◌, ℕ, List, Option};
ghost use Rattle.program_edge.specs.Rows.{Row};
ghost use Rattle.key_campaign.specs.declared.entries.LedgerEntry.{LedgerEntry};
ghost use Rattle.ledger_commands.specs.LedgerBytes.{HoldsLedger, NoLedgerIn};

/// Bytes stand for at most one ledger, so a list, a backup and what is said of an entry are determined by them.
pub fn bytes_stand_for_one_ledger()
    ensures { (x : List ℕ) (places others : List (Option LedgerEntry)) → HoldsLedger x places → HoldsLedger x others
        → places ≡ others }
{}

/// Bytes that stand for a ledger aren't refused, for any cause.
pub fn bytes_are_a_ledger_or_none()
    ensures { (x : List ℕ) (places : List (Option LedgerEntry)) (row : Row) → HoldsLedger x places
        → ¬ NoLedgerIn x row }
{}
