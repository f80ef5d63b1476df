//! The text of a map with the FRESH of each line that asks for it.
ghost use Rattle.std.specs.Prelude.{◌≡◌, ◌<◌, ◌^◌, ◌++◌, ◌&&◌, length, IfOk, IfSome, OnOk};
ghost use Rattle.std.specs.Prelude.{◌==◌, position, slice_get, option_and_then};
ghost use Rattle.std.specs.List.{position_or_len};
ghost use Rattle.text_lines.specs.Lines.{is_line_feed};
ghost use Rattle.text_lines.specs.Texts.{line};
ghost use Rattle.line_stream.specs.Pieces.{log_lines};
ghost use Rattle.locate_commands.specs.Locating.{asks_fresh, with_fresh, filled, filled_line, are_settled, is_settled};
ghost use Rattle.locate_commands.specs.Locating.{fresh_by, fresh_of, fresh_at, before_first};

use crate::frames::FirstFrames;
use crate::options::Candidates;
use crate::searching::located;
use can_logs::{MapTable, WatchMap};
use explain_commands::receiver_of;
use line_stream::until_feed;
use std::alloc::Global;
use std::marker::Model;
use text_lines::Memory;
use text_lines::pushing::{push_digits, push_line};
use text_lines::span::Span;
use text_lines::words::{Words, put_words};

/// By what the FRESH of a line is found: the map with zeros, the log, and the values that are looked at.
#[derive(Drop)]
pub struct Finder<'a> {
    map: &'a WatchMap,
    log: &'a [u8],
    candidates: Candidates,
}

impl<'a> Model for Finder<'a> {
    ghost use Rattle.std.specs.Prelude.{◌<◌, ◌^◌, length};
    ghost use Rattle.locate_commands.specs.Locating.{FoundIn};

    ghost Value = { FoundIn };

    ghost view = { λ f. record { mapping = f.map.now; log = f.log.now; candidates = f.candidates } };

    ghost invariant = { λ f. length f.log.now < 2 ^ 32 };
}

impl<'a> Finder<'a> {
    /// By this map, this log and these values.
    pub fn of(map: &'a WatchMap, log: &'a [u8], candidates: Candidates) -> Finder<'a>
        requires { length log.now < 2 ^ 32 }
        ensures { result ≡ record { mapping = map.now; log = log.now; candidates = candidates } }
    {
        Finder {
            map,
            log,
            candidates,
        }
    }

    /// FRESH of the line with this number.
    fn fresh_of(&self, alloc: Global, number: u64) -> Result<Option<u64>, Memory>
        ensures { IfOk result (λ fresh. fresh ≡ fresh_of self.now number) }
    {
        find_fresh(alloc, self.map, self.log, self.candidates, number)
    }
}

/// FRESH of the line of a map with this number, as the first frames of a log tell it.
fn find_fresh(
    alloc: Global,
    map: &WatchMap,
    log: &[u8],
    candidates: Candidates,
    number: u64,
) -> Result<Option<u64>, Memory>
    requires { length log.now < 2 ^ 32 }
    ensures { IfOk result (λ fresh. fresh
        ≡ fresh_of (record { mapping = map.now; log = log.now; candidates = candidates }) number) }
{
    match place_of_number(map.numbers(), number) {
        Some(place) => fresh_at(alloc, map.table(), log, candidates, place),
        None => Ok(None),
    }
}

/// The place of a number, counted from 0.
fn place_of_number(numbers: &[u64], number: u64) -> Option<usize>
    ensures exact { result ≡ position (λ n. n == number) numbers.now }
    ensures within { IfSome result (λ place. place < length numbers.now) }
{
    numbers.iter().position(|each| *each == number)
}

/// FRESH of the line at a place.
fn fresh_at(
    alloc: Global,
    map: &MapTable,
    log: &[u8],
    candidates: Candidates,
    place: usize,
) -> Result<Option<u64>, Memory>
    requires short { length log.now < 2 ^ 32 }
    requires place { place < length map.now }
    ensures { IfOk result (λ fresh. fresh
        ≡ option_and_then (fresh_at map.now log.now candidates place) (slice_get map.now place)) }
{
    let frames = FirstFrames::of(alloc, map, place, log)?;
    let lines = map.lines();
    let receiver = receiver_of(&lines[place], 0);
    Ok(before_first(located(&receiver, frames.as_slice(), candidates)))
}

/// One less than a freshness.
fn before_first(found: Option<u64>) -> Option<u64>
    ensures { result ≡ before_first found }
{
    match found {
        Some(v) => Some(v.saturating_sub(1)),
        None => None,
    }
}

/// A text of a map, and whether there was a FRESH for each line that asks.
#[derive(Drop)]
pub struct Filled {
    /// The text.
    pub text: Vec<u8>,
    /// Whether there was.
    pub is_settled: bool,
}

/// FRESH of the line with this number: 0 if there is nothing to find it by.
fn fresh_by(alloc: Global, finder: &Option<Finder<'_>>, number: u64) -> Result<Option<u64>, Memory>
    ensures { IfOk result (λ fresh. fresh ≡ fresh_by finder.now number) }
{
    match finder {
        Some(finder) => finder.fresh_of(alloc, number),
        None => Ok(Some(0)),
    }
}

/// The text of a map with the FRESH of each line that asks for it. Each line is ended by a line feed.
pub fn fill(alloc: Global, text: &[u8], finder: &Option<Finder<'_>>) -> Result<Filled, Memory>
    requires short { length text.now < 2 ^ 32 }
    ensures text { IfOk result (λ f. f.text.items ≡ filled (fresh_by finder.now) text.now) }
    ensures settled { IfOk result (λ f. f.is_settled ≡ are_settled (fresh_by finder.now) 1 (log_lines text.now)) }
{
    let mut filled = Filled {
        text: Vec::new(alloc),
        is_settled: true,
    };
    let mut spans = Vec::new(alloc);
    let mut at = 0;
    let mut number = 1;
    while at < text.len() {
        let end = until_feed(&text[at..]);
        let line = &text[at..at + end];
        fill_line(alloc, line, number, finder, &mut spans, &mut filled)?;
        at += end + 1;
        number += 1;
    }
    Ok(filled)
}

/// Adds a line with this number.
fn fill_line(
    alloc: Global,
    own: &[u8],
    number: u64,
    finder: &Option<Finder<'_>>,
    spans: &mut Vec<Span>,
    filled: &mut Filled,
) -> Result<(), Memory>
    requires short { length own.now < 2 ^ 32 }
    requires one { position_or_len is_line_feed own.now ≡ length own.now }
    ensures text { OnOk result (filled.new.text.items
        ≡ filled.old.text.items ++ line (filled_line (fresh_by finder.now number) own.now)) }
    ensures settled { OnOk result (filled.new.is_settled
        ≡ (filled.old.is_settled && is_settled (fresh_by finder.now) number own.now)) }
{
    put_words(spans, own)?;
    let words = Words::of(own, spans.as_slice());
    if !asks_fresh(&words) {
        push_line(&mut filled.text, own)?;
        return Ok(());
    }
    match fresh_by(alloc, finder, number)? {
        Some(counter) => {
            push_filled(&mut filled.text, own, counter)?;
            Ok(())
        }
        None => {
            filled.is_settled = false;
            push_line(&mut filled.text, own)?;
            Ok(())
        }
    }
}

/// Whether a line asks for its FRESH: its fourth word is `?`.
fn asks_fresh(words: &Words<'_>) -> bool
    ensures { result ≡ asks_fresh words.now }
{
    !words.is_skipped() && words.len() >= 4 && words.word(4) == b"?".as_slice()
}

/// Adds a line with this FRESH in place of its first `?`, and ends it.
fn push_filled(text: &mut Vec<u8>, own: &[u8], counter: u64) -> Result<(), Memory>
    ensures { OnOk result (text.new.items ≡ text.old.items ++ line (with_fresh counter own.now)) }
{
    match place_of_question(own) {
        Some(place) => {
            text.extend_from_slice(&own[..place])?;
            push_digits(text, &counter.to_be_bytes())?;
            push_line(text, &own[place + 1..])?;
            Ok(())
        }
        None => {
            push_line(text, own)?;
            Ok(())
        }
    }
}

/// The place of the first `?`, counted from 0.
fn place_of_question(own: &[u8]) -> Option<usize>
    ensures exact { result ≡ position (λ b. b == 63) own.now }
    ensures within { IfSome result (λ place. place < length own.now) }
{
    own.iter().position(|byte| *byte == b'?')
}
