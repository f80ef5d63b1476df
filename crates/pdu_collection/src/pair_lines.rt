//! The lines of a script of pairs.
ghost use Rattle.std.specs.Prelude.{◌≡◌, ◌<◌, ◌≤◌, ◌^◌, length, IfOk};
ghost use Rattle.text_lines.specs.Readings.{Gives, GivesLine};
ghost use Rattle.pdu_collection.specs.PairLines.{place_form, head_of, authentic_of, cryptographic_of};
ghost use Rattle.pdu_collection.specs.PairLines.{secured_of, pair_entry_of, pairs_of};
ghost use Rattle.pdu_collection.specs.Receiving.{IsPairScript};

use crate::linker::Linker;
use basics::{Block, Bytes};
use std::alloc::Global;
use text_lines::reader::{LineReader, MOST_LINES, expect_count, read_lines, value_at};
use text_lines::words::Words;
use text_lines::{Cause, LineFault, ScriptFault, forms};

/// What all lines of a script share.
#[derive(Debug, Drop)]
pub struct Head {
    /// The key of the authenticator.
    pub key: Block,
    /// The Data ID.
    pub id: u16,
    /// The counter of the receiver: the freshness that it accepted last.
    pub counter: u64,
    /// The bytes of a payload that the message link repeats.
    pub place: Linker,
}

/// A line after the head.
#[derive(Debug, Drop)]
pub enum Entry {
    /// An authentic PDU arrives.
    Authentic(Bytes),
    /// A cryptographic PDU arrives.
    Cryptographic(Bytes),
    /// The two PDUs of this payload and freshness are asked for.
    Secured {
        /// The freshness, all 64 bits.
        freshness: u64,
        /// The payload.
        payload: Bytes,
    },
}

/// A line of a script of pairs.
#[derive(Debug, Drop)]
pub enum PairLine {
    /// The first line.
    Head(Head),
    /// Another line.
    Entry(Entry),
}

/// Reads a line of a script of pairs.
pub struct PairReader;

impl LineReader for PairReader {
    ghost use Rattle.pdu_collection.specs.PairLines.{pair_line_of};

    type Item = PairLine;

    ghost means = { λ _ before words. pair_line_of before words };

    fn read(
        &self,
        alloc: Global,
        words: &Words<'_>,
        before: &[PairLine],
    ) -> Result<PairLine, LineFault> {
        if before.is_empty() {
            return Ok(PairLine::Head(read_head(words)?));
        }
        Ok(PairLine::Entry(read_entry(alloc, words)?))
    }
}

/// The message link from place `at` on, of as many bytes as a word says.
#[tactic(auto, unfolding(crate::specs::PairLines::place_form))]
fn place(at: u8, word: &[u8]) -> Option<Linker>
    requires { at ≤ 59 }
    ensures { result ≡ place_form at word.now }
{
    let size = forms::number(word, 1, 4)? as u8;
    if at + size > 60 {
        return None;
    }
    Linker::new(at, size)
}

/// Reads the first line: `pair KEY ID FRESH AT LEN`.
#[tactic(auto, unfolding(crate::specs::PairLines::head_of))]
fn read_head(words: &Words<'_>) -> Result<Head, LineFault>
    ensures { GivesLine (head_of words.now) result }
{
    if words.is_empty() || words.word(1) != b"pair".as_slice() {
        return Err(LineFault::Refused(Cause::Event));
    }
    expect_count(words, 6)?;
    let key = value_at(2, secoc_words::key(words.word(2)))?;
    let id = value_at(3, secoc_words::data_id(words.word(3)))?;
    let counter = value_at(4, secoc_words::fresh(words.word(4)))?;
    let at = value_at(5, forms::number(words.word(5), 0, 59))? as u8;
    let place = value_at(6, place(at, words.word(6)))?;
    Ok(Head {
        key,
        id,
        counter,
        place,
    })
}

/// Reads `a BYTES`.
#[tactic(auto, unfolding(crate::specs::PairLines::authentic_of))]
fn read_authentic(alloc: Global, words: &Words<'_>) -> Result<Entry, LineFault>
    ensures { GivesLine (authentic_of words.now) result }
{
    expect_count(words, 2)?;
    let pdu = value_at(2, forms::bytes(alloc, words.word(2))?)?;
    Ok(Entry::Authentic(pdu))
}

/// Reads `c BYTES`.
#[tactic(auto, unfolding(crate::specs::PairLines::cryptographic_of))]
fn read_cryptographic(alloc: Global, words: &Words<'_>) -> Result<Entry, LineFault>
    ensures { GivesLine (cryptographic_of words.now) result }
{
    expect_count(words, 2)?;
    let pdu = value_at(2, forms::bytes(alloc, words.word(2))?)?;
    Ok(Entry::Cryptographic(pdu))
}

/// Reads `s FRESH BYTES`.
#[tactic(auto, unfolding(crate::specs::PairLines::secured_of))]
fn read_secured(alloc: Global, words: &Words<'_>) -> Result<Entry, LineFault>
    ensures { GivesLine (secured_of words.now) result }
{
    expect_count(words, 3)?;
    let freshness = value_at(2, secoc_words::fresh(words.word(2)))?;
    let payload = value_at(3, forms::bytes(alloc, words.word(3))?)?;
    Ok(Entry::Secured { freshness, payload })
}

/// Reads a line after the first.
#[tactic(auto, unfolding(crate::specs::PairLines::pair_entry_of))]
fn read_entry(alloc: Global, words: &Words<'_>) -> Result<Entry, LineFault>
    ensures { GivesLine (pair_entry_of words.now) result }
{
    if words.is_empty() {
        return Err(LineFault::Refused(Cause::Event));
    }
    let name = words.word(1);
    if name == b"a".as_slice() {
        return read_authentic(alloc, words);
    }
    if name == b"c".as_slice() {
        return read_cryptographic(alloc, words);
    }
    if name == b"s".as_slice() {
        return read_secured(alloc, words);
    }
    Err(LineFault::Refused(Cause::Event))
}

/// The lines of a script of pairs: at most 65,536 that aren't skipped, the first of them the head.
#[tactic(auto, unfolding(crate::specs::PairLines::pairs_of))]
pub fn read_pairs(alloc: Global, text: &[u8]) -> Result<Vec<PairLine>, ScriptFault>
    requires { length text.now < 2 ^ 32 }
    ensures exact { Gives (pairs_of text.now) result }
    ensures script { IfOk result (λ lines. IsPairScript lines.items) }
{
    read_lines(alloc, text, MOST_LINES, &PairReader)
}
