//! Digits, words and lines that are added to a text. A line begins with its number, each word has a space before it,
//! and a line feed ends the line. Without memory nothing is said of the text. In room that it has already none is
//! taken.

ghost use Rattle.std.specs.Prelude.{◌≡◌, ◌*◌, [], ◌∷◌, ◌++◌, length, OnOk};
ghost use Rattle.std.specs.Fmt.{decimal};
ghost use Rattle.hex.specs.Hex.{encode_lower};
ghost use Rattle.text_lines.specs.Room.{AddsAtMost};
ghost use Rattle.text_lines.specs.Spaced.{spaced};
ghost use Rattle.text_lines.specs.Texts.{line};

use hex::encode_to_slice;
use itoa::Buffer;
use std::alloc::AllocError;

/// Adds the digits of bytes, two a byte.
#[tactic(auto, using(crate::proofs::Digits::written_behind))]
pub fn push_digits(text: &mut Vec<u8>, bytes: &[u8]) -> Result<(), AllocError>
    ensures digits { OnOk result (text.new.items ≡ text.old.items ++ encode_lower bytes.now) }
    ensures room { AddsAtMost (2 * length bytes.now) text.old text.new result }
{
    let before = text.len();
    let Some(after) = before.checked_add(2 * bytes.len()) else {
        return Err(AllocError);
    };
    text.resize(after, 0)?;
    encode_to_slice(bytes, &mut text[before..]).unwrap();
    Ok(())
}

/// Adds a line of these bytes, with the line feed after it.
pub fn push_line(text: &mut Vec<u8>, bytes: &[u8]) -> Result<(), AllocError>
    ensures { OnOk result (text.new.items ≡ text.old.items ++ line bytes.now) }
{
    text.extend_from_slice(bytes)?;
    text.push(b'\n')?;
    Ok(())
}

/// Begins a line: adds its number, in decimal digits.
pub fn begin_line(text: &mut Vec<u8>, number: u32) -> Result<(), AllocError>
    ensures { OnOk result (text.new.items ≡ text.old.items ++ decimal number) }
{
    let mut digits = Buffer::new();
    text.extend_from_slice(digits.format(number).as_bytes())
}

/// Ends a line: adds a line feed.
pub fn end_line(text: &mut Vec<u8>) -> Result<(), AllocError>
    ensures { OnOk result (text.new.items ≡ text.old.items ++ 10 ∷ []) }
{
    text.push(b'\n')?;
    Ok(())
}

/// Adds a space and these bytes.
pub fn push_word(text: &mut Vec<u8>, word: &[u8]) -> Result<(), AllocError>
    ensures { OnOk result (text.new.items ≡ text.old.items ++ 32 ∷ word.now) }
{
    text.push(b' ')?;
    text.extend_from_slice(word)
}

/// Adds a space and the digits of bytes, two a byte, in lower case.
pub fn push_hex(text: &mut Vec<u8>, bytes: &[u8]) -> Result<(), AllocError>
    ensures { OnOk result (text.new.items ≡ text.old.items ++ 32 ∷ encode_lower bytes.now) }
{
    text.push(b' ')?;
    push_digits(text, bytes)
}

/// Adds a space and a number in decimal digits.
pub fn push_number(text: &mut Vec<u8>, number: u32) -> Result<(), AllocError>
    ensures { OnOk result (text.new.items ≡ text.old.items ++ 32 ∷ decimal number) }
{
    let mut digits = Buffer::new();
    push_word(text, digits.format(number).as_bytes())
}

/// Adds a word and a number.
pub fn push_numbered(text: &mut Vec<u8>, word: &[u8], number: u32) -> Result<(), AllocError>
    ensures { OnOk result (text.new.items ≡ text.old.items ++ spaced (word.now ∷ decimal number ∷ [])) }
{
    push_word(text, word)?;
    push_number(text, number)
}
