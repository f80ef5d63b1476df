//! The forms of words, and the words of a text.
//!
//! Each call but `cut` takes one word and answers none exactly if it isn't of the form. Hexadecimal digits are of
//! either case.

ghost use Rattle.std.specs.Prelude.{◌≡◌, ◌≤◌, IfOk, IfSome};
ghost use Rattle.std.specs.Result.{result_ok};
ghost use Rattle.hex.specs.Hex.{decode_of};
ghost use Rattle.text_lines.specs.Forms.{is_number as is_numeral, number_form, hex_bytes_form, bytes_form};

pub use crate::cutting::cut;
use crate::fault::Memory;
pub use crate::span::{Cut, Span, Spans};
use basics::Bytes;
use hex::FromHexError;
use std::alloc::Global;

// Whether a word is a number in decimal digits without sign, if only 0 begins with 0.
fn is_number(word: &[u8]) -> bool
    ensures { result ≡ is_numeral word.now }
{
    if word.is_empty() || !word.iter().all(u8::is_ascii_digit) {
        return false;
    }
    word.len() == 1 || word[0] != b'0'
}

/// A number from `least` to `most`, in decimal digits without sign. Only the number 0 begins with 0.
#[tactic(auto, unfolding(crate::specs::Forms::number_form))]
pub fn number(word: &[u8], least: u64, most: u64) -> Option<u64>
    ensures value { result ≡ number_form least most word.now }
    ensures within { IfSome result (λ number. (least ≤ number) × (number ≤ most)) }
{
    if !is_number(word) {
        return None;
    }
    let value = std::str::from_utf8(word).ok()?.parse().ok()?;
    if least <= value && value <= most {
        Some(value)
    } else {
        None
    }
}

/// Bytes of any number: two hexadecimal digits a byte, or `-` for no bytes.
#[tactic(auto, unfolding(crate::specs::Forms::bytes_form))]
pub fn bytes(alloc: Global, word: &[u8]) -> Result<Option<Bytes>, Memory>
    ensures { IfOk result (λ found. found ≡ bytes_form word.now) }
{
    match word {
        [] => Ok(None),
        [b'-'] => Ok(Some(Bytes::of(Vec::new(alloc)))),
        _ => digits(alloc, word),
    }
}

/// Bytes of a number from `least` to `most`: two hexadecimal digits a byte. A word of another length is refused before
/// memory is asked for.
#[tactic(auto, unfolding(crate::specs::Forms::hex_bytes_form))]
pub fn hex_bytes(
    alloc: Global,
    word: &[u8],
    least: usize,
    most: usize,
) -> Result<Option<Bytes>, Memory>
    ensures { IfOk result (λ found. found ≡ hex_bytes_form least most word.now) }
{
    let count = word.len() / 2;
    if count < least || count > most {
        return Ok(None);
    }
    digits(alloc, word)
}

// The bytes of hexadecimal digits, two a byte.
fn digits(alloc: Global, word: &[u8]) -> Result<Option<Bytes>, Memory>
    ensures { IfOk result (λ found. found ≡ result_ok (decode_of word.now)) }
{
    match hex::decode(alloc, word) {
        Ok(bytes) => Ok(Some(Bytes::of(bytes))),
        Err(FromHexError::OutOfMemory) => Err(Memory),
        Err(_) => Ok(None),
    }
}
