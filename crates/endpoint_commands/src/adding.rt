//! Letters and digits in upper case that are added to a text. In room that the text has already no memory is taken.
ghost use Rattle.std.specs.Prelude.{◌≡◌, ◌*◌, ◌++◌, length, map as each, OnOk};
ghost use Rattle.std.specs.Char.{to_ascii_uppercase};
ghost use Rattle.hex.specs.Hex.{encode_lower, encode_upper};
ghost use Rattle.text_lines.specs.Room.{AddsAtMost};

use std::alloc::AllocError;
use text_lines::pushing::push_digits;

/// Adds letters and digits, the letters in upper case.
pub fn add_raised(text: &mut Vec<u8>, letters: &[u8]) -> Result<(), AllocError>
    ensures raised { OnOk result (text.new.items ≡ text.old.items ++ each to_ascii_uppercase letters.now) }
    ensures room { AddsAtMost (length letters.now) text.old text.new result }
{
    let before = text.len();
    text.extend_from_slice(letters)?;
    text[before..].make_ascii_uppercase();
    Ok(())
}

/// Adds the digits of bytes, two a byte, in upper case.
#[tactic(auto, using(crate::proofs::Digits::raised))]
pub fn add_upper(text: &mut Vec<u8>, bytes: &[u8]) -> Result<(), AllocError>
    ensures digits { OnOk result (text.new.items ≡ text.old.items ++ encode_upper bytes.now) }
    ensures room { AddsAtMost (2 * length bytes.now) text.old text.new result }
{
    add_raised_digits(text, bytes)
}

/// Adds the digits of bytes, two a byte, whose letters are raised.
fn add_raised_digits(text: &mut Vec<u8>, bytes: &[u8]) -> Result<(), AllocError>
    ensures digits { OnOk result (text.new.items ≡ text.old.items ++ each to_ascii_uppercase (encode_lower bytes.now)) }
    ensures room { AddsAtMost (2 * length bytes.now) text.old text.new result }
{
    let before = text.len();
    push_digits(text, bytes)?;
    text[before..].make_ascii_uppercase();
    Ok(())
}
