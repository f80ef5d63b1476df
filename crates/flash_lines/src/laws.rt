//! Laws of lines: each function has an empty body, and its contract is the law.
ghost use Rattle.std.specs.Prelude.{◌≡◌, ◌≢◌, ◌≤◌, ◌<◌, ◌*◌, ℕ, suc, Some, List, length};
ghost use Rattle.flash_places.specs.declared.FlashLine.{FlashLine};
ghost use Rattle.flash_lines.specs.Crc.{CrcOfNineDigits};
ghost use Rattle.flash_lines.specs.declared.sizes.FlashSizes.{FlashSizes};
ghost use Rattle.flash_lines.specs.Lines.{line_mark, line_length, HoldsLine, HoldsNoLine, TellsSizes};
ghost use Rattle.flash_lines.specs.Reading.{NotForged, TornLine};

/// The published check value of the CRC.
pub fn crc_of_nine_digits()
    ensures { CrcOfNineDigits }
{}

/// Bytes are at most one line, and a head tells at most one unit, number of banks, size and number of cells.
pub fn bytes_are_one_line()
    ensures line { (bytes : List ℕ) (line other : FlashLine) → HoldsLine bytes line → HoldsLine bytes other
        → line ≡ other }
    ensures sizes { (bytes : List ℕ) (told other : FlashSizes) → TellsSizes bytes told → TellsSizes bytes other
        → told ≡ other }
{}

/// A line whose last unit wasn't begun is none, whatever the check says: its last byte is as an erase left it.
pub fn a_line_without_its_last_unit_is_none()
    ensures { (unit erased : ℕ) (told : FlashSizes) (line : FlashLine) (bytes : List ℕ)
        (torn : TornLine unit erased told line bytes) → erased ≢ line_mark → unit * suc torn.torn < length bytes → HoldsNoLine bytes }
{}

/// With units of 8 bytes a program that the power cut into never forges a line: what is read is that line, or none. A
/// head then tells what it was to tell.
pub fn a_torn_line_of_units_of_8_is_not_forged()
    ensures line { (erased : ℕ) (told : FlashSizes) (line : FlashLine) (bytes : List ℕ) → length bytes ≡ line_length 8
        → erased ≢ line_mark → TornLine 8 erased told line bytes → NotForged (Some line) bytes }
    ensures sizes { (erased : ℕ) (told other : FlashSizes) (line : FlashLine) (bytes : List ℕ)
        → length bytes ≡ line_length 8 → erased ≢ line_mark → TornLine 8 erased told line bytes
        → TellsSizes bytes other → other ≡ told }
{}
