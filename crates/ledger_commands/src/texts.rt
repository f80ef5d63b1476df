//! The lines of entries.
ghost use Rattle.std.specs.Prelude.{◌≡◌, ◌++◌, length, Some, OnOk, drop, [], ◌∷◌, codes};
ghost use Rattle.std.specs.Fmt.{decimal};
ghost use Rattle.text_lines.specs.Written.{written};
ghost use Rattle.text_lines.specs.Spaced.{spaced};
ghost use Rattle.campaign_commands.specs.LedgerTexts.{state_word, ledger_words};
ghost use Rattle.key_campaign.specs.declared.lines.LedgerLine.TheVariants.{Shown};
ghost use Rattle.key_campaign.specs.Entries.{place_count};
ghost use Rattle.ledger_commands.specs.EntryTexts.{entry_words, place_line, open_line, entry_lines, open_lines};
ghost use Rattle.ledger_commands.specs.EntryTexts.{held_entries, backup_text};

use any_cells::AnyCells;
use cut_disk::MemDisk;
use key_campaign::{Ledger, LedgerEntry};
use key_slots::Counter28;
use std::alloc::AllocError;
use text_lines::pushing::{end_line, push_digits, push_line, push_number, push_word};

/// Adds the line of an entry.
#[tactic(auto, using(crate::proofs::EntryLines::line_added))]
pub fn push_entry(text: &mut Vec<u8>, entry: &LedgerEntry) -> Result<(), AllocError>
    ensures { OnOk result (text.new.items ≡ text.old.items ++ written (entry_words entry.now)) }
{
    push_digits(text, entry.uid.bytes())?;
    push_entry_rest(text, entry)?;
    end_line(text)
}

/// Adds the words of an entry after its unit, each with a space before it.
pub fn push_entry_rest(text: &mut Vec<u8>, entry: &LedgerEntry) -> Result<(), AllocError>
    ensures { OnOk result (text.new.items ≡ text.old.items ++ spaced (drop 1 (entry_words entry.now))) }
{
    push_number(text, u32::from(entry.id.number()))?;
    push_number(text, entry.counter.number())?;
    push_word(text, state_word(entry.confirmed))
}

fn state_word(confirmed: bool) -> &'static [u8]
    ensures { result.now ≡ state_word confirmed }
{
    match confirmed {
        true => b"confirmed",
        false => b"issued",
    }
}

/// Adds the line of what stands at a place.
fn push_place(text: &mut Vec<u8>, place: &Option<LedgerEntry>) -> Result<(), AllocError>
    ensures { OnOk result (text.new.items ≡ text.old.items ++ place_line place.now) }
{
    match place {
        None => Ok(()),
        Some(entry) => push_entry(text, entry),
    }
}

/// The same, if no reply confirmed it.
fn push_if_open(text: &mut Vec<u8>, place: &Option<LedgerEntry>) -> Result<(), AllocError>
    ensures { OnOk result (text.new.items ≡ text.old.items ++ open_line place.now) }
{
    match place {
        None => Ok(()),
        Some(entry) => {
            if entry.confirmed {
                return Ok(());
            }
            push_entry(text, entry)
        }
    }
}

/// Adds the lines of a ledger's entries.
#[tactic(auto, unfolding(key_campaign::specs::Entries::place_count))]
pub fn push_entries(
    text: &mut Vec<u8>,
    ledger: &Ledger<AnyCells<MemDisk>>,
) -> Result<(), AllocError>
    requires { length ledger.now.campaign.entries ≡ place_count }
    ensures { OnOk result (text.new.items ≡ text.old.items ++ entry_lines ledger.now.campaign.entries) }
{
    for place in 0..256 {
        push_place(text, &ledger.entry(place))?;
    }
    Ok(())
}

/// Adds the lines of those that no reply confirmed.
#[tactic(auto, unfolding(key_campaign::specs::Entries::place_count))]
pub fn push_open(text: &mut Vec<u8>, ledger: &Ledger<AnyCells<MemDisk>>) -> Result<(), AllocError>
    requires { length ledger.now.campaign.entries ≡ place_count }
    ensures { OnOk result (text.new.items ≡ text.old.items ++ open_lines ledger.now.campaign.entries) }
{
    for place in 0..256 {
        push_if_open(text, &ledger.entry(place))?;
    }
    Ok(())
}

/// How many entries a ledger has.
#[tactic(auto, unfolding(key_campaign::specs::Entries::place_count))]
fn count_entries(ledger: &Ledger<AnyCells<MemDisk>>) -> u32
    requires { length ledger.now.campaign.entries ≡ place_count }
    ensures { result ≡ length (held_entries ledger.now.campaign.entries) }
{
    let mut count = 0u32;
    for place in 0..256 {
        if ledger.entry(place).is_some() {
            count += 1;
        }
    }
    count
}

/// Adds a backup of a ledger: its entries, and `end` with their number.
pub fn push_backup(text: &mut Vec<u8>, ledger: &Ledger<AnyCells<MemDisk>>) -> Result<(), AllocError>
    requires { length ledger.now.campaign.entries ≡ place_count }
    ensures { OnOk result (text.new.items ≡ text.old.items ++ backup_text ledger.now.campaign.entries) }
{
    push_entries(text, ledger)?;
    push_end(text, count_entries(ledger))
}

/// Adds the last line of a backup.
#[tactic(auto, using(crate::proofs::EntryLines::line_added))]
fn push_end(text: &mut Vec<u8>, count: u32) -> Result<(), AllocError>
    ensures { OnOk result (text.new.items ≡ text.old.items ++ written (codes "end" ∷ decimal count ∷ [])) }
{
    text.extend_from_slice(b"end")?;
    push_number(text, count)?;
    end_line(text)
}

/// Adds the line of what a ledger says of an entry; `none` if there is none.
pub fn push_shown(text: &mut Vec<u8>, told: Option<(Counter28, bool)>) -> Result<(), AllocError>
    ensures { OnOk result (text.new.items ≡ text.old.items ++ written (ledger_words (Shown told))) }
{
    match told {
        None => push_line(text, b"none"),
        Some((counter, confirmed)) => push_told(text, counter, confirmed),
    }
}

#[tactic(auto, using(crate::proofs::EntryLines::line_added))]
fn push_told(text: &mut Vec<u8>, counter: Counter28, confirmed: bool) -> Result<(), AllocError>
    ensures { OnOk result (text.new.items
        ≡ text.old.items ++ written (ledger_words (Shown (Some (counter, confirmed))))) }
{
    text.extend_from_slice(state_word(confirmed))?;
    push_number(text, counter.number())?;
    end_line(text)
}
