//! The entries that a ledger is to take over.
ghost use Rattle.std.specs.Prelude.{◌≡◌, ◌⊎◌, ◌≤◌, ◌^◌, ◌++◌, ◌∷◌, [], All, IfOk, IfErr, OnOk, length};
ghost use Rattle.program_edge.specs.Rows.{memory_row};
ghost use Rattle.key_campaign.specs.Entries.{IsEntry, place_count};
ghost use Rattle.ledger_commands.specs.EntryTexts.{held_at, held_entries};
ghost use Rattle.ledger_commands.specs.LedgerRows.{LacksLedgerFile};
ghost use Rattle.text_lines.specs.Readings.{most_lines};
ghost use Rattle.adopt_commands.specs.AdoptRows.{GivesOfFile, LacksOfFile, LacksBackupFile};

use crate::tasks::EntryFile;
use any_cells::AnyCells;
use bus_port::Source;
use cut_disk::MemDisk;
use key_campaign::{Ledger, LedgerEntry};
use ledger_backups::read_backup;
use ledger_commands::read_ledger;
use program_edge::{Refusal, read_input};
use std::alloc::{AllocError, Global};

/// This one entry alone.
pub fn one_entry(alloc: Global, entry: &LedgerEntry) -> Result<Vec<LedgerEntry>, Refusal>
    ensures one { IfOk result (λ entries. entries.items ≡ entry.now ∷ []) }
    ensures refused { IfErr result (λ row. row ≡ memory_row) }
{
    let mut entries = Vec::new(alloc);
    match entries.push(*entry) {
        Ok(()) => Ok(entries),
        Err(_) => Err(Refusal::no_memory()),
    }
}

/// The entries of a file: those of a backup in their order, or those of a ledger in the order of their places.
pub fn entries_of<S: Source>(
    alloc: Global,
    kind: EntryFile,
    file: &mut S,
) -> Result<Vec<LedgerEntry>, Refusal>
    ensures gives { IfOk result (λ entries. GivesOfFile kind
        (record { before = S.state file.old; after = S.state file.new }) entries.items) }
    ensures are { IfOk result (λ entries. All IsEntry entries.items) }
    ensures few { IfOk result (λ entries. length entries.items ≤ most_lines) }
    ensures refused { IfErr result (LacksOfFile kind
        (record { before = S.state file.old; after = S.state file.new })) }
{
    match kind {
        EntryFile::Backup => backup_entries(alloc, file),
        EntryFile::Ledger => other_entries(alloc, file),
    }
}

/// The entries of the backup in a file.
fn backup_entries<S: Source>(alloc: Global, file: &mut S) -> Result<Vec<LedgerEntry>, Refusal>
    ensures gives { IfOk result (λ entries. GivesOfFile EntryFile.Backup
        (record { before = S.state file.old; after = S.state file.new }) entries.items) }
    ensures are { IfOk result (λ entries. All IsEntry entries.items) }
    ensures few { IfOk result (λ entries. length entries.items ≤ most_lines) }
    ensures refused { IfErr result (LacksBackupFile
        (record { before = S.state file.old; after = S.state file.new })) }
{
    match read_input(alloc, file) {
        Ok(text) => read_backup(alloc, text.as_slice()),
        Err(fault) => Err(Refusal::from(fault)),
    }
}

/// The entries of the ledger in a file, in the order of their places.
fn other_entries<S: Source>(alloc: Global, file: &mut S) -> Result<Vec<LedgerEntry>, Refusal>
    ensures gives { IfOk result (λ entries. GivesOfFile EntryFile.Ledger
        (record { before = S.state file.old; after = S.state file.new }) entries.items) }
    ensures are { IfOk result (λ entries. All IsEntry entries.items) }
    ensures few { IfOk result (λ entries. length entries.items ≤ most_lines) }
    ensures refused { IfErr result (LacksLedgerFile
        (record { before = S.state file.old; after = S.state file.new })) }
{
    let bytes = match read_input(alloc, file) {
        Ok(bytes) => bytes,
        Err(fault) => return Err(Refusal::from(fault)),
    };
    let ledger = match read_ledger(alloc, bytes.as_slice()) {
        Ok(ledger) => ledger,
        Err(refusal) => return Err(refusal),
    };
    let mut entries = Vec::new(alloc);
    match add_entries(&ledger, &mut entries) {
        Ok(()) => Ok(entries),
        Err(AllocError) => Err(Refusal::no_memory()),
    }
}

/// Adds the entries of a ledger.
#[tactic(auto, unfolding(key_campaign::specs::Entries::place_count))]
fn add_entries(
    ledger: &Ledger<AnyCells<MemDisk>>,
    entries: &mut Vec<LedgerEntry>,
) -> Result<(), AllocError>
    requires { length ledger.now.campaign.entries ≡ place_count }
    ensures { OnOk result (entries.new.items ≡ entries.old.items ++ held_entries ledger.now.campaign.entries) }
{
    for place in 0..256 {
        add_place(&ledger.entry(place), entries)?;
    }
    Ok(())
}

/// Adds what stands at a place.
fn add_place(place: &Option<LedgerEntry>, entries: &mut Vec<LedgerEntry>) -> Result<(), AllocError>
    ensures { OnOk result (entries.new.items ≡ entries.old.items ++ held_at place.now) }
{
    match place {
        None => Ok(()),
        Some(entry) => match entries.push(*entry) {
            Ok(()) => Ok(()),
            Err(_) => Err(AllocError),
        },
    }
}
