//! A backup of a ledger.
ghost use Rattle.std.specs.Prelude.{◌≡◌, ◌⊎◌, ◌<◌, ◌≤◌, ◌^◌, length, [], All, IfOk, IfErr};
ghost use Rattle.text_lines.specs.Readings.{most_lines};
ghost use Rattle.program_edge.specs.Rows.{memory_row};
ghost use Rattle.key_campaign.specs.Entries.{IsEntry};
ghost use Rattle.ledger_backups.specs.Backups.{IsBackupOf, LacksBackup, not_whole_row, AddsWhole};

use crate::reader::{BackupLine, read_backup_lines};
use key_campaign::LedgerEntry;
use program_edge::Refusal;
use std::alloc::{AllocError, Global};
use text_lines::line_refusal;

/// The entries of a whole backup, at most 65,536. Errors, 4: the first line that isn't of its form, or `backup: not
/// whole` if the last line isn't `end` with the number of entries before it, or another is; 7 if memory is out.
pub fn read_backup(alloc: Global, text: &[u8]) -> Result<Vec<LedgerEntry>, Refusal>
    requires { length text.now < 2 ^ 32 }
    ensures whole { IfOk result (λ entries. IsBackupOf text.now entries.items) }
    ensures are { IfOk result (λ entries. All IsEntry entries.items) }
    ensures few { IfOk result (λ entries. length entries.items ≤ most_lines) }
    ensures refused { IfErr result (λ row. LacksBackup text.now row ⊎ (row ≡ memory_row)) }
{
    let lines = match read_backup_lines(alloc, text) {
        Ok(lines) => lines,
        Err(fault) => return Err(line_refusal(alloc, fault)),
    };
    let mut entries = Vec::new(alloc);
    match add_lines(lines.as_slice(), &mut entries) {
        Ok(true) => Ok(entries),
        Ok(false) => Err(not_whole_refusal()),
        Err(AllocError) => Err(Refusal::no_memory()),
    }
}

/// The refusal of a text that is no whole backup.
fn not_whole_refusal() -> Refusal
    ensures { result ≡ not_whole_row }
{
    Refusal::fixed(4, "backup: not whole\n")
}

/// Adds the entries of a backup's lines; whether the backup is whole.
fn add_lines(lines: &[BackupLine], entries: &mut Vec<LedgerEntry>) -> Result<bool, AllocError>
    requires few { length lines.now ≤ most_lines }
    requires blank { entries.old.items ≡ [] }
    ensures { IfOk result (AddsWhole lines.now entries.new.items) }
{
    for line in lines {
        match line {
            BackupLine::Entry(entry) => entries.push(*entry)?,
            BackupLine::End(count) => {
                let number = entries.len();
                return Ok(number + 1 == lines.len() && usize::from(*count) == number);
            }
        }
    }
    Ok(false)
}
