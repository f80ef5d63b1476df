//! The forms of the words of a key update.

ghost use Rattle.std.specs.Prelude.{◌≡◌};
ghost use Rattle.secoc_words.specs.KeyForms.{uid_form, engine_uid_form, slot_form, counter_form, flag_form, flags_form};

use hex::FromHex;
use key_slots::{Counter28, Flags, SlotId};
use memory_update::Uid;
use text_lines::forms::number;

/// An identifier: 30 hexadecimal digits. Zero stands for every engine.
#[tactic(auto, unfolding(crate::specs::KeyForms::uid_form))]
pub fn uid(word: &[u8]) -> Option<Uid>
    ensures { result ≡ uid_form word.now }
{
    let bytes = <[u8; 15] as FromHex>::from_hex(word).ok()?;
    Some(Uid::of(bytes))
}

/// The identifier of an engine: 30 hexadecimal digits, not all of them 0.
#[tactic(auto, unfolding(crate::specs::KeyForms::engine_uid_form), using(crate::proofs::Identifiers::none_where_zero, crate::proofs::Identifiers::kept_where_not_zero))]
pub fn engine_uid(word: &[u8]) -> Option<Uid>
    ensures { result ≡ engine_uid_form word.now }
{
    let uid = uid(word)?;
    if uid.is_zero() { None } else { Some(uid) }
}

/// The number of a key slot: a number from 0 to 13.
#[tactic(auto, using(text_lines::proofs::Numbers::number_within))]
pub fn slot(word: &[u8]) -> Option<SlotId>
    ensures { result ≡ slot_form word.now }
{
    let value = number(word, 0, 13)?;
    SlotId::new(value as u8)
}

/// The counter of a key update: a number from 0 to 2^28 - 1.
#[tactic(auto, using(text_lines::proofs::Numbers::number_within))]
pub fn counter(word: &[u8]) -> Option<Counter28>
    ensures { result ≡ counter_form word.now }
{
    let value = number(word, 0, 0x0fff_ffff)?;
    Counter28::new(value as u32)
}

/// The flags of a slot: five digits, each 0 or 1, in the order WRITE_PROTECTION, BOOT_PROTECTION,
/// DEBUGGER_PROTECTION, KEY_USAGE, WILDCARD (SHE specification, message M2).
#[tactic(auto, unfolding(crate::specs::KeyForms::flags_form))]
pub fn flags(word: &[u8]) -> Option<Flags>
    ensures { result ≡ flags_form word.now }
{
    let [write, boot, debugger, usage, wildcard] = word else {
        return None;
    };
    Some(Flags {
        write: flag(*write)?,
        boot: flag(*boot)?,
        debugger: flag(*debugger)?,
        usage: flag(*usage)?,
        wildcard: flag(*wildcard)?,
    })
}

// The flag that a digit stands for.
fn flag(digit: u8) -> Option<bool>
    ensures { result ≡ flag_form digit }
{
    match digit {
        b'0' => Some(false),
        b'1' => Some(true),
        _ => None,
    }
}
