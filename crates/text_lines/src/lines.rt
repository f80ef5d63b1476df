//! Where lines and words of a text begin and end. Places count its bytes from 0.

ghost use Rattle.std.specs.Prelude.{◌≡◌, ◌⊎◌, ◌+◌, ◌-◌, ◌<◌, ◌≤◌, ◌^◌, ◌++◌, ◌∷◌, [], true, false, length, take, drop, map, slice_index};
ghost use Rattle.std.specs.Prelude.{vec_len, vec_capacity, IfOk, OnOk, IsOk};
ghost use Rattle.std.specs.List.{position_or_len};
ghost use Rattle.text_lines.specs.Lines.{is_line_feed, ends_word, without_return, is_skipped as skipped};
ghost use Rattle.text_lines.specs.Places.{placed_words_of};
ghost use Rattle.text_lines.specs.Spans.{word_at, piece_at, EndWithin};

use crate::fault::Memory;
use crate::span::Span;
use memchr::memchr3_iter;

// How many bytes stand before the first blank or line feed, or all if there is none.
#[tactic(auto, using(crate::proofs::Stops::first_item_or_length, crate::proofs::Pieces::position_or_len_within))]
fn until_stop(bytes: &[u8]) -> usize
    ensures exact { result ≡ position_or_len ends_word bytes.now }
    ensures within { result ≤ length bytes.now }
{
    let mut stops = memchr3_iter(b' ', b'\t', b'\n', bytes);
    stops.next().unwrap_or(bytes.len())
}

// The end of the word that begins at `start`: the next blank or line feed, or the end of the text. Words are short: the
// iterator over 32 bytes compares them once, while a search of a longer text begins with wider runs.
#[inline(always)]
fn word_end(text: &[u8], start: usize) -> usize
    requires { start ≤ length text.now }
    ensures exact { result ≡ start + position_or_len ends_word (drop start text.now) }
    ensures behind { start ≤ result }
    ensures inside { result ≤ length text.now }
{
    let mut at = start;
    while at < text.len() {
        let end = text.len().min(at + 32);
        let stop = at + until_stop(&text[at..end]);
        if stop < end {
            return stop;
        }
        at = end;
    }
    at
}

// Whether a line ends at this place: by a line feed, or with the text.
fn is_line_end(text: &[u8], at: usize) -> bool
    ensures yes { result ≡ true → (length text.now ≤ at) ⊎ (is_line_feed (slice_index text.now at) ≡ true) }
    ensures no { result ≡ false → (at < length text.now) × (is_line_feed (slice_index text.now at) ≡ false) }
{
    at >= text.len() || text[at] == b'\n'
}

// The end of a line without the carriage return right before it.
fn content_end(text: &[u8], at: usize, end: usize) -> usize
    requires ordered { at ≤ end }
    requires within { end ≤ length text.now }
    ensures exact { result ≡ at + length (without_return (take (end - at) (drop at text.now))) }
    ensures behind { at ≤ result }
    ensures inside { result ≤ end }
{
    if at < end && text[end - 1] == b'\r' {
        end - 1
    } else {
        end
    }
}

// Adds the word between two places, if any byte stands there.
fn put_word(spans: &mut Vec<Span>, at: usize, stop: usize) -> Result<(), Memory>
    requires { stop < 2 ^ 32 }
    ensures word { OnOk result
        (at < stop → spans.new.items ≡ spans.old.items ++ record { at = at; len = stop - at } ∷ []) }
    ensures none { OnOk result (stop ≤ at → spans.new.items ≡ spans.old.items) }
    ensures few { vec_len spans.new ≤ vec_len spans.old + 1 }
    ensures room { (stop ≤ at) ⊎ (vec_len spans.old < vec_capacity spans.old) → IsOk result }
    ensures capacity { vec_capacity spans.old ≤ vec_capacity spans.new }
{
    if at < stop {
        spans.push(Span {
            at: at as u32,
            len: (stop - at) as u32,
        })?;
    }
    Ok(())
}

/// The words of the line that begins at `start`, in place of what was in `spans`; the end of the line is given, which
/// is the next line feed or the end of the text. Without memory nothing is said of `spans`; with room for as many
/// places as the text has bytes none is taken.
pub fn put_line(spans: &mut Vec<Span>, text: &[u8], start: usize) -> Result<usize, Memory>
    requires within { start ≤ length text.now }
    requires short { length text.now < 2 ^ 32 }
    ensures end { IfOk result (λ end. end ≡ start + position_or_len is_line_feed (drop start text.now)) }
    ensures behind { IfOk result (λ end. start ≤ end) }
    ensures within { IfOk result (λ end. end ≤ length text.now) }
    ensures exact { IfOk result
        (λ end. map (piece_at text.now) spans.new.items
        ≡ placed_words_of (record { at = start; bytes = take (end - start) (drop start text.now) })) }
    ensures inside { OnOk result (EndWithin (length text.now) spans.new.items) }
    ensures room { length text.now ≤ vec_capacity spans.old → IsOk result }
    ensures capacity { vec_capacity spans.old ≤ vec_capacity spans.new }
{
    spans.clear();
    let mut at = start;
    let mut stop = word_end(text, at);
    while !is_line_end(text, stop) {
        put_word(spans, at, stop)?;
        at = stop + 1;
        stop = word_end(text, at);
    }
    put_word(spans, at, content_end(text, start, stop))?;
    Ok(stop)
}

/// Whether a line with these words is skipped.
#[tactic(auto, unfolding(crate::specs::Lines::is_skipped))]
pub fn is_skipped(text: &[u8], words: &[Span]) -> bool
    requires { EndWithin (length text.now) words.now }
    ensures { result ≡ skipped (map (word_at text.now) words.now) }
{
    match words.first() {
        None => true,
        Some(word) => {
            let at = word.at as usize;
            text[at..at + word.len as usize].first() == Some(&b'#')
        }
    }
}
