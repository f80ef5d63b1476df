//! A text, cut into lines and words with their places.

ghost use Rattle.std.specs.Prelude.{◌≡◌, ◌<◌, ◌≤◌, ◌+◌, ◌-◌, ◌^◌, length, take, drop, map, All, IfOk, IfSome, option_to_list};
ghost use Rattle.std.specs.List.{position_or_len};
ghost use Rattle.text_lines.specs.Lines.{is_line_feed};
ghost use Rattle.text_lines.specs.Places.{placed_kept, placed_lines_of, placed_words_of};
ghost use Rattle.text_lines.specs.Spans.{line_at, EndWithin};

use crate::fault::Memory;
use crate::lines;
use crate::span::{Cut, Spans};
use std::alloc::Global;

/// The lines of a text that aren't skipped, with the places of their words.
pub fn cut(alloc: Global, text: &[u8]) -> Result<Vec<Cut>, Memory>
    requires { length text.now < 2 ^ 32 }
    ensures exact { IfOk result (λ cuts. map (line_at text.now) cuts.items ≡ placed_lines_of text.now) }
    ensures within { IfOk result (λ cuts. All (λ cut. EndWithin (length text.now) cut.words) cuts.items) }
{
    let mut cuts = Vec::new(alloc);
    let mut number = 1usize;
    let mut at = 0;
    while at < text.len() {
        let (found, end) = cut_line(alloc, text, number as u32, at)?;
        if let Some(cut) = found {
            cuts.push(cut)?;
        }
        number += 1;
        at = end + 1;
    }
    Ok(cuts)
}

// The line with this number that begins at a place, unless it is skipped; and its end.
#[tactic(auto, unfolding(crate::specs::Places::placed_kept), using(crate::proofs::Unplaced::texts_of_pieces_at))]
fn cut_line(
    alloc: Global,
    text: &[u8],
    number: u32,
    at: usize,
) -> Result<(Option<Cut>, usize), Memory>
    requires within { at ≤ length text.now }
    requires short { length text.now < 2 ^ 32 }
    ensures end { IfOk result (λ found. found.1 ≡ at + position_or_len is_line_feed (drop at text.now)) }
    ensures behind { IfOk result (λ found. at ≤ found.1) }
    ensures within { IfOk result (λ found. found.1 ≤ length text.now) }
    ensures exact { IfOk result (λ found. map (line_at text.now) (option_to_list found.0)
        ≡ placed_kept
        (record {
          number = number;
          words = placed_words_of (record { at = at; bytes = take (found.1 - at) (drop at text.now) });
        })) }
    ensures inside { IfOk result (λ found. IfSome found.0 (λ cut. EndWithin (length text.now) cut.words)) }
{
    let mut words = Vec::new(alloc);
    let end = lines::put_line(&mut words, text, at)?;
    if lines::is_skipped(text, &words) {
        return Ok((None, end));
    }
    let cut = Cut {
        line: number,
        words: Spans::of(words),
    };
    Ok((Some(cut), end))
}
