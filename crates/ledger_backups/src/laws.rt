//! What holds of every backup.
ghost use Rattle.std.specs.Prelude.{◌≡◌, ℕ, List, Option, length};
ghost use Rattle.key_campaign.specs.declared.entries.LedgerEntry.{LedgerEntry};
ghost use Rattle.key_campaign.specs.Entries.{place_count, AreLedgerEntries};
ghost use Rattle.ledger_commands.specs.EntryTexts.{backup_text, held_entries};
ghost use Rattle.ledger_backups.specs.Backups.{IsBackupOf};

/// Law: the backup that is printed of a ledger is read as its entries, in the order of their places.
pub fn a_backup_is_read_again()
    ensures { (places : List (Option LedgerEntry)) → length places ≡ place_count → AreLedgerEntries places
        → IsBackupOf (backup_text places) (held_entries places) }
{}

/// Law: a text is the backup of one list of entries at most.
pub fn a_backup_has_one_meaning()
    ensures { (text : List ℕ) (entries others : List LedgerEntry) → IsBackupOf text entries → IsBackupOf text others
        → entries ≡ others }
{}
