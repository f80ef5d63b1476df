//! Adding words to a line, each after a space: text, digits of bytes, and numbers in decimal digits. In room that the
//! line has already no memory is taken.

ghost use Rattle.std.specs.Prelude.{◌≡◌, ◌+◌, ◌*◌, [], ◌∷◌, ◌++◌, length, OnOk};
ghost use Rattle.std.specs.Fmt.{decimal};
ghost use Rattle.hex.specs.Hex.{encode_lower};
ghost use Rattle.text_lines.specs.Room.{AddsAtMost};
ghost use Rattle.text_lines.specs.Spaced.{spaced};
ghost use Rattle.text_lines.specs.Written.{bytes_word};
ghost use Rattle.bus_script.specs.WordsAdded.{AddsWord};

use itoa::Buffer;
use std::alloc::AllocError;
use text_lines::pushing::push_digits;

/// Adds a word.
pub fn push_word(line: &mut Vec<u8>, word: &[u8]) -> Result<(), AllocError>
    ensures added { OnOk result (AddsWord line.old.items line.new.items word.now) }
    ensures room { AddsAtMost (length word.now + 1) line.old line.new result }
{
    line.push(b' ')?;
    line.extend_from_slice(word)
}

/// Adds the word of the digits of bytes, two a byte.
pub fn push_hex(line: &mut Vec<u8>, bytes: &[u8]) -> Result<(), AllocError>
    ensures added { OnOk result (AddsWord line.old.items line.new.items (encode_lower bytes.now)) }
    ensures room { AddsAtMost (2 * length bytes.now + 1) line.old line.new result }
{
    line.push(b' ')?;
    push_digits(line, bytes)
}

/// Adds the word of bytes of any number: `-` for no bytes.
pub fn push_bytes(line: &mut Vec<u8>, bytes: &[u8]) -> Result<(), AllocError>
    ensures { OnOk result (AddsWord line.old.items line.new.items (bytes_word bytes.now)) }
{
    if bytes.is_empty() {
        push_word(line, b"-")
    } else {
        push_hex(line, bytes)
    }
}

/// Adds the word of a number.
pub fn push_number(line: &mut Vec<u8>, number: u64) -> Result<(), AllocError>
    ensures added { OnOk result (AddsWord line.old.items line.new.items (decimal number)) }
    ensures room { AddsAtMost 41 line.old line.new result }
{
    let mut digits = Buffer::new();
    push_word(line, digits.format(number).as_bytes())
}

/// Adds a word and the word of a number.
pub fn push_numbered(line: &mut Vec<u8>, word: &[u8], number: u64) -> Result<(), AllocError>
    ensures added { OnOk result (line.new.items ≡ line.old.items ++ spaced (word.now ∷ decimal number ∷ [])) }
    ensures room { AddsAtMost (length word.now + 42) line.old line.new result }
{
    push_word(line, word)?;
    push_number(line, number)
}
