//! The lines of entries that were to be taken over.
ghost use Rattle.std.specs.Prelude.{◌≡◌, ◌++◌, ◌∷◌, [], codes, OnOk};
ghost use Rattle.text_lines.specs.Spaced.{spaced};
ghost use Rattle.ledger_commands.specs.EntryTexts.{entry_words};
ghost use Rattle.adopt_commands.specs.AdoptTurns.{adopt_text};
ghost use Rattle.adopt_commands.specs.declared.lines.AdoptLine.TheVariants.{Ahead, Full};
ghost use Rattle.text_lines.specs.Written.{written};
ghost use Rattle.hex.specs.Hex.{encode_lower};
ghost use Rattle.std.specs.Fmt.{decimal};

use bus_port::Memory;
use key_campaign::LedgerEntry;
use key_slots::Counter28;
use ledger_commands::push_entry_rest;
use run_driver::{EndingText, LineText};
use std::alloc::{AllocError, Global};
use text_lines::pushing::{end_line, push_hex, push_line, push_number, push_word};

/// What came of an entry that was to be taken over.
#[derive(Clone, Copy, Debug, PartialEq, Eq, Drop)]
pub enum AdoptLine {
    /// It was put.
    Adopted(LedgerEntry),
    /// The ledger says as much.
    Held(LedgerEntry),
    /// The ledger has this higher counter.
    Ahead {
        /// The entry.
        entry: LedgerEntry,
        /// The ledger's counter.
        counter: Counter28,
    },
    /// There is no entry of its unit and slot, and no empty place.
    Full(LedgerEntry),
    /// The disk failed.
    Failed,
}

/// How the lines are printed; after `refused MEMORY_FAILURE` there is none.
pub struct AdoptText;

impl LineText<AdoptLine> for AdoptText {
    ghost use Rattle.adopt_commands.specs.AdoptTurns.{adopt_text};

    ghost text = { adopt_text };

    fn append(
        _alloc: Global,
        _number: u32,
        line: &AdoptLine,
        out: &mut Vec<u8>,
    ) -> Result<(), Memory> {
        match push_adopt_line(out, line) {
            Ok(()) => Ok(()),
            Err(AllocError) => Err(Memory),
        }
    }
}

impl EndingText<AdoptLine> for AdoptText {
    ghost use Rattle.adopt_commands.specs.AdoptTurns.{is_last_adoption};

    ghost ends = { is_last_adoption };

    fn is_last(line: &AdoptLine) -> bool {
        matches!(line, AdoptLine::Failed)
    }
}

/// Adds the text of a line.
fn push_adopt_line(out: &mut Vec<u8>, line: &AdoptLine) -> Result<(), AllocError>
    ensures { OnOk result (out.new.items ≡ out.old.items ++ adopt_text 0 line.now) }
{
    match line {
        AdoptLine::Adopted(entry) => push_entry_line(out, b"adopted", entry),
        AdoptLine::Held(entry) => push_entry_line(out, b"held", entry),
        AdoptLine::Ahead { entry, counter } => push_ahead(out, entry, *counter),
        AdoptLine::Full(entry) => push_full(out, entry),
        AdoptLine::Failed => push_line(out, b"refused MEMORY_FAILURE"),
    }
}

/// Adds the line of a word and an entry.
#[tactic(auto, using(ledger_commands::proofs::CallerLemmas::line_added))]
fn push_entry_line(out: &mut Vec<u8>, word: &[u8], entry: &LedgerEntry) -> Result<(), AllocError>
    ensures { OnOk result (out.new.items ≡ out.old.items ++ written (word.now ∷ entry_words entry.now)) }
{
    out.extend_from_slice(word)?;
    push_entry_words(out, entry)?;
    end_line(out)
}

/// Adds the line of an entry that the ledger is ahead of.
#[tactic(auto, using(ledger_commands::proofs::CallerLemmas::line_added))]
fn push_ahead(out: &mut Vec<u8>, entry: &LedgerEntry, counter: Counter28) -> Result<(), AllocError>
    ensures { OnOk result (out.new.items ≡ out.old.items ++ adopt_text 0 (Ahead entry.now counter)) }
{
    out.extend_from_slice(b"ahead")?;
    push_ahead_words(out, entry, counter)?;
    end_line(out)
}

/// Adds the unit and the slot of an entry and a counter, each with a space before it.
fn push_ahead_words(
    out: &mut Vec<u8>,
    entry: &LedgerEntry,
    counter: Counter28,
) -> Result<(), AllocError>
    ensures { OnOk result (out.new.items
        ≡ out.old.items ++ spaced (encode_lower entry.now.uid ∷ decimal entry.now.id ∷ decimal counter ∷ [])) }
{
    push_hex(out, entry.uid.bytes())?;
    push_number(out, u32::from(entry.id.number()))?;
    push_number(out, counter.number())
}

/// Adds the line of an entry for which there is no place.
#[tactic(auto, using(ledger_commands::proofs::CallerLemmas::line_added))]
fn push_full(out: &mut Vec<u8>, entry: &LedgerEntry) -> Result<(), AllocError>
    ensures { OnOk result (out.new.items ≡ out.old.items ++ adopt_text 0 (Full entry.now)) }
{
    out.extend_from_slice(b"refused")?;
    push_full_words(out, entry)?;
    end_line(out)
}

/// Adds `Full`, the unit and the slot of an entry, each with a space before it.
fn push_full_words(out: &mut Vec<u8>, entry: &LedgerEntry) -> Result<(), AllocError>
    ensures { OnOk result (out.new.items
        ≡ out.old.items ++ spaced (codes "Full" ∷ encode_lower entry.now.uid ∷ decimal entry.now.id ∷ [])) }
{
    push_word(out, b"Full")?;
    push_hex(out, entry.uid.bytes())?;
    push_number(out, u32::from(entry.id.number()))
}

/// Adds the words of an entry, each with a space before it.
fn push_entry_words(out: &mut Vec<u8>, entry: &LedgerEntry) -> Result<(), AllocError>
    ensures { OnOk result (out.new.items ≡ out.old.items ++ spaced (entry_words entry.now)) }
{
    push_hex(out, entry.uid.bytes())?;
    push_entry_rest(out, entry)
}
