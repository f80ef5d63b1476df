//! The words of a bus that are added to a line: Data IDs, freshness and refusals. Without memory nothing is said of the
//! text. In room that the text has already none is taken.

ghost use Rattle.std.specs.Prelude.{◌≡◌, ◌∷◌, ◌++◌, OnOk};
ghost use Rattle.basics.specs.Numbers.{bytes_of};
ghost use Rattle.hex.specs.Hex.{encode_lower};
ghost use Rattle.bus_script.specs.LineTexts.{refusal_words};
ghost use Rattle.text_lines.specs.Room.{AddsAtMost};
ghost use Rattle.text_lines.specs.Spaced.{spaced};

use crate::pushing::{push_hex, push_numbered, push_word};
use bus_machine::Refusal;
use std::alloc::AllocError;

/// Adds a space and a Data ID: four digits, the highest byte first.
pub fn push_id(text: &mut Vec<u8>, id: u16) -> Result<(), AllocError>
    ensures added { OnOk result (text.new.items ≡ text.old.items ++ 32 ∷ encode_lower (bytes_of 2 id)) }
    ensures room { AddsAtMost 5 text.old text.new result }
{
    push_hex(text, &id.to_be_bytes())
}

/// Adds a space and a freshness: 16 digits, the highest byte first.
pub fn push_freshness(text: &mut Vec<u8>, freshness: u64) -> Result<(), AllocError>
    ensures added { OnOk result (text.new.items ≡ text.old.items ++ 32 ∷ encode_lower (bytes_of 8 freshness)) }
    ensures room { AddsAtMost 17 text.old text.new result }
{
    push_hex(text, &freshness.to_be_bytes())
}

/// Adds the words of a refusal, without `refused`.
pub fn push_refusal(text: &mut Vec<u8>, refusal: &Refusal) -> Result<(), AllocError>
    ensures added { OnOk result (text.new.items ≡ text.old.items ++ spaced (refusal_words refusal.now)) }
    ensures room { AddsAtMost 50 text.old text.new result }
{
    match refusal {
        Refusal::Down => push_word(text, b"Down"),
        Refusal::NoRoute => push_word(text, b"NoRoute"),
        Refusal::BadLength => push_word(text, b"BadLength"),
        Refusal::Key(erc) => push_word(text, erc.name().as_bytes()),
        Refusal::Exhausted => push_word(text, b"Exhausted"),
        Refusal::MemoryFailure => push_word(text, b"MEMORY_FAILURE"),
        Refusal::NotFormatted => push_word(text, b"NotFormatted"),
        Refusal::Damaged(place) => push_numbered(text, b"Damaged", u64::from(*place)),
        Refusal::BadSlot(slot) => push_numbered(text, b"BadSlot", u64::from(slot.number())),
        Refusal::BadBound(cell) => push_numbered(text, b"BadBound", u64::from(*cell)),
    }
}
