//! The forms of an entry's values.
ghost use Rattle.std.specs.Prelude.{◌≡◌};
ghost use Rattle.ledger_backups.specs.EntryForms.{entry_slot_form, entry_counter_form, state_form};

use key_slots::{Counter28, SlotId};
use text_lines::forms::number;

/// SLOT of an entry: a number from 1 to 13.
#[tactic(auto, using(text_lines::proofs::CallerLemmas::number_in_range))]
pub fn entry_slot(word: &[u8]) -> Option<SlotId>
    ensures { result ≡ entry_slot_form word.now }
{
    let value = number(word, 1, 13)?;
    SlotId::new(value as u8)
}

/// COUNTER of an entry: a number from 1 to 2^28 - 1.
#[tactic(auto, using(text_lines::proofs::CallerLemmas::number_in_range))]
pub fn entry_counter(word: &[u8]) -> Option<Counter28>
    ensures { result ≡ entry_counter_form word.now }
{
    let value = number(word, 1, 0x0fff_ffff)?;
    Counter28::new(value as u32)
}

/// STATE of an entry, `issued` or `confirmed`: whether it is the second.
pub fn entry_state(word: &[u8]) -> Option<bool>
    ensures { result ≡ state_form word.now }
{
    if word == b"confirmed".as_slice() {
        return Some(true);
    }
    if word == b"issued".as_slice() {
        Some(false)
    } else {
        None
    }
}
