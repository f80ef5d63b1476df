//! What holds of every text that is read.

ghost use Rattle.std.specs.Prelude.{◌≡◌, ◌≤◌, ◌↔◌, ℕ, true, List, length, map, Ok, Err};
ghost use Rattle.std.specs.List.{list_all, flat_map};
ghost use Rattle.text_lines.specs.Readings.{Fault, AreValues, IsFirstFault, read_all};
ghost use Rattle.text_lines.specs.Lines.{lines_of};
ghost use Rattle.text_lines.specs.Places.{placed_lines_of, unplaced};
ghost use Rattle.text_lines.specs.Written.{written, is_writable};

use crate::reader::LineReader;

/// Law: the lines that `cut` gives are those of the text, if the places of their words are left out.
pub fn places_are_those_of_the_words()
    ensures { (text : List ℕ) → map unplaced (placed_lines_of text) ≡ lines_of text }
{}

/// Law: values come exactly if they are as many as the lines, and at most as many as are read. Each is its line's,
/// given the values before it.
pub fn values_are_those_of_the_lines<R: LineReader>()
    ensures { (reader : R) (most : ℕ) (text : List ℕ) (values : List R.Item)
        → (read_all (R.means reader) most text ≡ Ok values)
        ↔ (AreValues (R.means reader) (lines_of text) values × (length values ≤ most)) }
{}

/// Law: a fault comes exactly if all lines before its line give values. If these are as many as are read, the cause is
/// `TooMany`; if they are fewer, the line gives it.
pub fn a_fault_is_the_first<R: LineReader>()
    ensures { (reader : R) (most : ℕ) (text : List ℕ) (fault : Fault)
        → (read_all (R.means reader) most text ≡ Err fault)
        ↔ IsFirstFault (R.means reader) most (lines_of text) fault }
{}

/// Law: lines that are written with single spaces between plain words are read again as they were.
pub fn written_lines_are_read()
    ensures { (lines : List (List (List ℕ))) → list_all is_writable lines ≡ true
        → map (λ line. line.words) (lines_of (flat_map written lines)) ≡ lines }
{}
