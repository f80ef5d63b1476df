//! The lines of a backup.
ghost use Rattle.std.specs.Prelude.{◌≡◌, ◌<◌, ◌≤◌, ◌^◌, codes, bytes_eq, length, All, IfOk};
ghost use Rattle.text_lines.specs.Readings.{Gives as GivesLines, GivesLine, most_lines, nth_word};
ghost use Rattle.ledger_backups.specs.Backups.{backup_entry_of, backup_end_of, backup_lines_of, IsBackupLine};

use crate::forms::{entry_counter, entry_slot, entry_state};
use key_campaign::LedgerEntry;
use std::alloc::Global;
use text_lines::forms::number;
use text_lines::reader::{LineReader, MOST_LINES, expect_count, read_lines, value_at};
use text_lines::words::Words;
use text_lines::{LineFault, ScriptFault};

/// A line of a backup.
#[derive(Clone, Copy, Debug, PartialEq, Eq, Drop)]
pub enum BackupLine {
    /// An entry.
    Entry(LedgerEntry),
    /// The end, with the number of entries.
    End(u16),
}

/// Reads a line of a backup: `UID SLOT COUNTER STATE` or `end N`.
struct BackupReader;

impl LineReader for BackupReader {
    ghost use Rattle.ledger_backups.specs.Backups.{backup_line_of};

    type Item = BackupLine;

    ghost means = { λ _ _ words. backup_line_of words };

    #[tactic(auto, unfolding(crate::specs::Backups::backup_line_of))]
    fn read(
        &self,
        _alloc: Global,
        words: &Words<'_>,
        _before: &[BackupLine],
    ) -> Result<BackupLine, LineFault> {
        if is_end(words) {
            expect_count(words, 2)?;
            return read_end(words);
        }
        expect_count(words, 4)?;
        read_entry(words)
    }
}

/// Whether the first word is `end`.
fn is_end(words: &Words<'_>) -> bool
    ensures { result ≡ bytes_eq (nth_word words.now 1) (codes "end") }
{
    !words.is_empty() && words.word(1) == b"end".as_slice()
}

#[tactic(auto, unfolding(crate::specs::Backups::backup_end_of))]
fn read_end(words: &Words<'_>) -> Result<BackupLine, LineFault>
    requires { length words.now ≡ 2 }
    ensures { GivesLine (backup_end_of words.now) result }
{
    let count = value_at(2, number(words.word(2), 0, 65_535))?;
    Ok(BackupLine::End(count as u16))
}

#[tactic(auto, unfolding(crate::specs::Backups::backup_entry_of))]
fn read_entry(words: &Words<'_>) -> Result<BackupLine, LineFault>
    requires { length words.now ≡ 4 }
    ensures { GivesLine (backup_entry_of words.now) result }
{
    let uid = value_at(1, secoc_words::engine_uid(words.word(1)))?;
    let id = value_at(2, entry_slot(words.word(2)))?;
    let counter = value_at(3, entry_counter(words.word(3)))?;
    let confirmed = value_at(4, entry_state(words.word(4)))?;
    Ok(BackupLine::Entry(LedgerEntry {
        uid,
        id,
        counter,
        confirmed,
    }))
}

/// The lines of a backup, at most 65,536, or the first fault.
#[tactic(auto, unfolding(crate::specs::Backups::backup_lines_of))]
pub fn read_backup_lines(alloc: Global, text: &[u8]) -> Result<Vec<BackupLine>, ScriptFault>
    requires { length text.now < 2 ^ 32 }
    ensures exact { GivesLines (backup_lines_of text.now) result }
    ensures are { IfOk result (λ lines. All IsBackupLine lines.items) }
    ensures few { IfOk result (λ lines. length lines.items ≤ most_lines) }
{
    read_lines(alloc, text, MOST_LINES, &BackupReader)
}
