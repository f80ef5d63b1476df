//! The words of one line, as its reader sees them.

ghost use Rattle.std.specs.Prelude.{◌≡◌, ◌≤◌, ◌<◌, ◌+◌, ◌-◌, ◌^◌, ◌==◌, length, map, All};
ghost use Rattle.std.specs.Prelude.{vec_capacity, OnOk, IsOk};
ghost use Rattle.std.specs.List.{position_or_len};
ghost use Rattle.text_lines.specs.Lines.{is_line_feed, words_of, is_skipped as skipped};
ghost use Rattle.text_lines.specs.Readings.{nth_word};
ghost use Rattle.text_lines.specs.Spans.{word_at, EndWithin};

use crate::fault::Memory;
use crate::lines;
use crate::span::Span;
use std::marker::Model;

/// The places of the words of a line, which is without its line feed, in place of what was in `spans`. Without memory
/// nothing is said of `spans`; with room for as many places as the line has bytes none is taken.
pub fn put_words(spans: &mut Vec<Span>, line: &[u8]) -> Result<(), Memory>
    requires short { length line.now < 2 ^ 32 }
    requires one { position_or_len is_line_feed line.now ≡ length line.now }
    ensures words { OnOk result (map (word_at line.now) spans.new.items ≡ words_of line.now) }
    ensures inside { OnOk result (EndWithin (length line.now) spans.new.items) }
    ensures room { length line.now ≤ vec_capacity spans.old → IsOk result }
    ensures capacity { vec_capacity spans.old ≤ vec_capacity spans.new }
{
    lines::put_line(spans, line, 0)?;
    Ok(())
}

/// The words of one line of a text. A contract sees the list of them, each the list of its bytes.
#[derive(Drop)]
pub struct Words<'a> {
    text: &'a [u8],
    spans: &'a [Span],
}

impl<'a> Model for Words<'a> {
    ghost use Rattle.std.specs.Prelude.{List, ℕ, length, map};
    ghost use Rattle.text_lines.specs.Spans.{word_at, EndWithin};

    ghost Value = { List (List ℕ) };

    ghost view = { λ w. map (word_at w.text.now) w.spans.now };

    ghost invariant = { λ w. EndWithin (length w.text.now) w.spans.now };
}

impl<'a> Words<'a> {
    /// The words at these places of a text.
    pub fn of(text: &'a [u8], spans: &'a [Span]) -> Words<'a>
        requires { EndWithin (length text.now) spans.now }
        ensures { result ≡ map (word_at text.now) spans.now }
    {
        Words { text, spans }
    }

    /// How many words the line has.
    pub fn len(&self) -> usize
        ensures { result ≡ length self.now }
    {
        self.spans.len()
    }

    /// Whether the line has no word.
    pub fn is_empty(&self) -> bool
        ensures { result ≡ (length self.now == 0) }
    {
        self.len() == 0
    }

    /// Whether the line is skipped: it has no word, or its first begins with `#`.
    pub fn is_skipped(&self) -> bool
        ensures { result ≡ skipped self.now }
    {
        lines::is_skipped(self.text, self.spans)
    }

    /// The word with this number, counted from 1.
    pub fn word(&self, number: usize) -> &'a [u8]
        requires positive { 0 < number }
        requires within { number ≤ length self.now }
        ensures { result.now ≡ nth_word self.now number }
    {
        let spans = self.spans;
        let span = spans[number - 1];
        let at = span.at as usize;
        &self.text[at..at + span.len as usize]
    }
}
