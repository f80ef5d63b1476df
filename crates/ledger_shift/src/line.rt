//! What a line of a script asks.
ghost use Rattle.std.specs.Prelude.{◌≡◌, ◌<◌, ◌≤◌, ◌^◌, length, None, Some, IfOk, IfErr};
ghost use Rattle.std.specs.List.{position_or_len};
ghost use Rattle.text_lines.specs.Lines.{is_line_feed, words_of};
ghost use Rattle.text_lines.specs.Readings.{GivesLine, nth_word, with_count};
ghost use Rattle.ledger_shift.specs.Asks.{text_form, origin_form, asked_by_command, command_asked, shift_line_of};
ghost use Rattle.ledger_shift.specs.Asks.{remark_kind_of, remark_form, asked_by_words};
ghost use Rattle.ledger_shift.specs.Asks.{list_kind_of, list_form, asked_by_list};

use crate::origin::Origin;
use campaign_commands::CommandReader;
use key_campaign::{Confirm, Issue, LedgerCommand};
use key_slots::SlotId;
use ledger_rows::{ListKind, Remark, RemarkKind};
use memory_update::Uid;
use std::alloc::{AllocError, Global};
use text_lines::reader::{LineReader, value_at};
use text_lines::words::{Words, put_words};
use text_lines::{Cause, LineFault, Memory};

/// What a line of a script asks.
#[derive(Drop)]
pub enum ShiftLine {
    /// Nothing: it has no word, or its first begins with `#`.
    Skipped,
    /// The rows from here on are entered by these.
    By(Origin),
    /// A request.
    Issue(Issue),
    /// A reply.
    Confirm(Confirm),
    /// What an operator says of a counter.
    Remark(Remark),
    /// Rows of a unit's slot.
    List(ListKind, Uid, SlotId),
    /// A look at a unit's slot.
    Show(Uid, SlotId),
}

/// A word as text.
#[tactic(auto, using(crate::proofs::Words::text_is, crate::proofs::Words::text_none))]
fn text_word<'a>(words: &Words<'a>, number: u8) -> Result<&'a str, Cause>
    requires positive { 0 < number }
    requires within { number ≤ length words.now }
    ensures given { IfOk result (λ text. text_form (nth_word words.now number) ≡ Some text.now) }
    ensures refused { IfErr result (λ cause. (text_form (nth_word words.now number) ≡ None)
        × (cause ≡ Cause.Field number)) }
{
    match std::str::from_utf8(words.word(usize::from(number))) {
        Ok(text) => Ok(text),
        Err(_) => Err(Cause::Field(number)),
    }
}

/// Who enters rows, of the four words of a line.
#[tactic(auto, unfolding(crate::specs::Asks::origin_form))]
fn read_origin(alloc: Global, words: &Words<'_>) -> Result<Origin, LineFault>
    requires { length words.now ≡ 4 }
    ensures { GivesLine (origin_form words.now) result }
{
    let station = text_word(words, 2)?;
    let operator = text_word(words, 3)?;
    let time = text_word(words, 4)?;
    match Origin::of(alloc, station, operator, time) {
        Ok(origin) => Ok(origin),
        Err(AllocError) => Err(LineFault::OutOfMemory),
    }
}

/// Who enters rows, of the words of a line that begins with `by`.
fn read_by(alloc: Global, words: &Words<'_>) -> Result<Origin, LineFault>
    ensures { GivesLine (with_count 4 words.now (origin_form words.now)) result }
{
    if words.len() != 4 {
        return Err(LineFault::Refused(Cause::Count));
    }
    read_origin(alloc, words)
}

/// What a command asks, if it isn't one of a disk.
fn asked_of(command: LedgerCommand) -> Result<ShiftLine, Cause>
    ensures { result ≡ asked_by_command command }
{
    match command {
        LedgerCommand::Issue(asked) => Ok(ShiftLine::Issue(asked)),
        LedgerCommand::Confirm(asked) => Ok(ShiftLine::Confirm(asked)),
        LedgerCommand::Show { uid, id } => Ok(ShiftLine::Show(uid, id)),
        LedgerCommand::Cut(_) => Err(Cause::Event),
        LedgerCommand::Stop(_) => Err(Cause::Event),
        LedgerCommand::Fail(_) => Err(Cause::Event),
    }
}

/// A command of `campaign` that isn't of its disk.
fn read_asked(alloc: Global, words: &Words<'_>) -> Result<ShiftLine, LineFault>
    ensures { GivesLine (command_asked words.now) result }
{
    let none: Vec<LedgerCommand> = Vec::new(alloc);
    match CommandReader.read(alloc, words, none.as_slice()) {
        Ok(command) => match asked_of(command) {
            Ok(asked) => Ok(asked),
            Err(cause) => Err(LineFault::Refused(cause)),
        },
        Err(LineFault::Refused(cause)) => Err(LineFault::Refused(cause)),
        Err(LineFault::OutOfMemory) => Err(LineFault::OutOfMemory),
    }
}

/// The remark that a word names.
fn remark_kind(word: &[u8]) -> Option<RemarkKind>
    ensures { result ≡ remark_kind_of word.now }
{
    if word == b"raise".as_slice() {
        return Some(RemarkKind::Raise);
    }
    if word == b"fail".as_slice() {
        return Some(RemarkKind::Fail);
    }
    None
}

/// A remark of this kind, of the four words of a line.
#[tactic(auto, unfolding(crate::specs::Asks::remark_form))]
fn read_remark(kind: RemarkKind, words: &Words<'_>) -> Result<ShiftLine, LineFault>
    requires { length words.now ≡ 4 }
    ensures { GivesLine (remark_form kind words.now) result }
{
    let uid = value_at(2, secoc_words::engine_uid(words.word(2)))?;
    let id = value_at(3, secoc_words::slot(words.word(3)))?;
    let counter = value_at(4, secoc_words::counter(words.word(4)))?;
    Ok(ShiftLine::Remark(Remark {
        uid,
        id,
        counter,
        kind,
    }))
}

/// The same of the words of a line that begins with its word.
fn read_counted(kind: RemarkKind, words: &Words<'_>) -> Result<ShiftLine, LineFault>
    ensures { GivesLine (with_count 4 words.now (remark_form kind words.now)) result }
{
    if words.len() != 4 {
        return Err(LineFault::Refused(Cause::Count));
    }
    read_remark(kind, words)
}

/// The list that a word names.
fn list_kind(word: &[u8]) -> Option<ListKind>
    ensures { result ≡ list_kind_of word.now }
{
    if word == b"history".as_slice() {
        return Some(ListKind::History);
    }
    if word == b"open".as_slice() {
        return Some(ListKind::Open);
    }
    None
}

/// A list of this kind, of the three words of a line.
#[tactic(auto, unfolding(crate::specs::Asks::list_form))]
fn read_list(kind: ListKind, words: &Words<'_>) -> Result<ShiftLine, LineFault>
    requires { length words.now ≡ 3 }
    ensures { GivesLine (list_form kind words.now) result }
{
    let uid = value_at(2, secoc_words::engine_uid(words.word(2)))?;
    let id = value_at(3, secoc_words::slot(words.word(3)))?;
    Ok(ShiftLine::List(kind, uid, id))
}

/// The same of the words of a line that begins with its word.
fn read_counted_list(kind: ListKind, words: &Words<'_>) -> Result<ShiftLine, LineFault>
    ensures { GivesLine (with_count 3 words.now (list_form kind words.now)) result }
{
    if words.len() != 3 {
        return Err(LineFault::Refused(Cause::Count));
    }
    read_list(kind, words)
}

/// A list, or a command of `campaign` that isn't of its disk.
fn read_list_asked(alloc: Global, words: &Words<'_>) -> Result<ShiftLine, LineFault>
    requires { 0 < length words.now }
    ensures { GivesLine (asked_by_list (list_kind_of (nth_word words.now 1)) words.now) result }
{
    match list_kind(words.word(1)) {
        Some(kind) => read_counted_list(kind, words),
        None => read_asked(alloc, words),
    }
}

/// A remark, a list, or a command of `campaign` that isn't of its disk.
fn read_row_asked(alloc: Global, words: &Words<'_>) -> Result<ShiftLine, LineFault>
    requires { 0 < length words.now }
    ensures { GivesLine (asked_by_words (remark_kind_of (nth_word words.now 1)) words.now) result }
{
    match remark_kind(words.word(1)) {
        Some(kind) => read_counted(kind, words),
        None => read_list_asked(alloc, words),
    }
}

/// What the words of a line ask.
#[tactic(auto, using(crate::proofs::Words::has_word), unfolding(crate::specs::Asks::shift_line_of))]
fn read_words(alloc: Global, words: &Words<'_>) -> Result<ShiftLine, LineFault>
    ensures { GivesLine (shift_line_of words.now) result }
{
    if words.is_skipped() {
        return Ok(ShiftLine::Skipped);
    }
    if words.word(1) == b"by".as_slice() {
        return match read_by(alloc, words) {
            Ok(origin) => Ok(ShiftLine::By(origin)),
            Err(LineFault::Refused(cause)) => Err(LineFault::Refused(cause)),
            Err(LineFault::OutOfMemory) => Err(LineFault::OutOfMemory),
        };
    }
    read_row_asked(alloc, words)
}

/// What a line asks.
pub(crate) fn read_shift_line(alloc: Global, line: &[u8]) -> Result<ShiftLine, LineFault>
    requires short { length line.now < 2 ^ 32 }
    requires one { position_or_len is_line_feed line.now ≡ length line.now }
    ensures { GivesLine (shift_line_of (words_of line.now)) result }
{
    let mut spans = Vec::new(alloc);
    match put_words(&mut spans, line) {
        Ok(()) => read_words(alloc, &Words::of(line, spans.as_slice())),
        Err(Memory) => Err(LineFault::OutOfMemory),
    }
}
