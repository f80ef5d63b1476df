//! The maps of `watch` and `explain`: the lines of a map of an audit, and then, if the line has them, the window, the
//! channel, marks and a comment.
ghost use Rattle.std.specs.Prelude.{◌≡◌, ◌≤◌, ◌<◌, ◌^◌, length, drop, true, Ok, IfOk, IfErr};
ghost use Rattle.std.specs.List.{list_all};
ghost use Rattle.program_edge.specs.Rows.{memory_row};
ghost use Rattle.can_logs.specs.MapFaults.{NoMapLines};
ghost use Rattle.can_logs.specs.LogRuns.{ReadsWatchSource};
ghost use Rattle.text_lines.specs.Readings.{GivesLine};
ghost use Rattle.can_logs.specs.WatchMaps.{begins_comment, is_mark, ends_words, words_to};
ghost use Rattle.can_logs.specs.WatchMaps.{begins_every, begins_silent, begins_name};
ghost use Rattle.can_logs.specs.Seconds.{period_form};
ghost use Rattle.can_logs.specs.WatchMaps.{is_line_name_byte, is_named};
ghost use Rattle.can_logs.specs.WatchMaps.{line_name_form, marked_optional, marked_every, marked_silent, marked_name};
ghost use Rattle.can_logs.specs.WatchMaps.{with_mark, chosen_mark, with_two_marks, with_line_marks};
ghost use Rattle.can_logs.specs.WatchMaps.{own_channel, own_window, hears_all_of, is_shadowed, is_reached};
ghost use Rattle.can_logs.specs.WatchMaps.{reached_can_form, watch_map_of, line_numbers, IsMapOf};

use crate::durations::period;
use crate::faults::{map_input_refusal, map_line_refusal};
use crate::frames::has_data_can;
use crate::map_lines::{
    CanId, LineName, MOST_MAP_LINES, MapLine, Period, Window, can_id, line_of_words,
};
use crate::map_tables::MapTable;
use basics::Bytes;
use bus_port::Source;
use program_edge::{Refusal, read_input};
use secoc_words::WIDEST_WINDOW;
use std::alloc::{AllocError, Global};
use std::marker::Model;
use text_lines::forms::cut;
use text_lines::laws::places_are_those_of_the_words;
use text_lines::reader::{LineReader, read_lines, value_at};
use text_lines::words::Words;
use text_lines::{Cause, LineFault, Memory, forms};

/// The lines of a map, at most 256, and the number of each in the text of the map, counted from 1.
#[derive(Drop)]
pub struct WatchMap {
    table: MapTable,
    numbers: Vec<u64>,
}

impl Model for WatchMap {
    ghost use Rattle.std.specs.Prelude.{◌≡◌, length};
    ghost use Rattle.can_logs.specs.WatchMaps.{NumberedMap};

    ghost Value = { NumberedMap };

    ghost view = { λ m. record { lines = m.table; numbers = m.numbers.items } };

    ghost invariant = { λ m. length m.numbers.items ≡ length m.table };
}

impl WatchMap {
    /// These lines with these numbers.
    pub fn of(table: MapTable, numbers: Vec<u64>) -> WatchMap
        requires { length numbers.items ≡ length table }
        ensures { result ≡ record { lines = table; numbers = numbers.items } }
    {
        WatchMap { table, numbers }
    }

    /// The lines.
    pub fn lines(&self) -> &[MapLine]
        ensures value { result.now ≡ self.now.lines }
        ensures few { length result.now ≤ 256 }
    {
        self.table.lines()
    }

    /// The lines in a table over their CAN identifiers.
    pub fn table(&self) -> &MapTable
        ensures { result.now ≡ self.now.lines }
    {
        &self.table
    }

    /// The number of each.
    pub fn numbers(&self) -> &[u64]
        ensures value { result.now ≡ self.now.numbers }
        ensures as_many { length result.now ≡ length self.now.lines }
    {
        self.numbers.as_slice()
    }
}

/// How many words of a line stand before its comment, or before that and the first mark.
fn words_before(words: &Words<'_>, marks: bool) -> usize
    ensures exact { result ≡ words_to marks words.now }
    ensures within { result ≤ length words.now }
{
    let size = words.len();
    for place in 0..size {
        if ends(marks, words.word(place + 1)) {
            return place;
        }
    }
    size
}

/// Whether a word begins a comment, or is a mark and marks are looked for.
fn ends(marks: bool, word: &[u8]) -> bool
    ensures { result ≡ ends_words marks word.now }
{
    is_comment(word) || (marks && says_mark(word))
}

/// Whether a word begins a comment.
fn is_comment(word: &[u8]) -> bool
    ensures { result ≡ begins_comment word.now }
{
    !word.is_empty() && word[0] == b'#'
}

/// Whether a word is a mark.
fn says_mark(word: &[u8]) -> bool
    ensures { result ≡ is_mark word.now }
{
    word == b"optional".as_slice() || begins_every(word) || begins_silent(word) || begins_name(word)
}

/// Whether a word begins with `every=`.
fn begins_every(word: &[u8]) -> bool
    ensures { result ≡ begins_every word.now }
{
    &word[..word.len().min(6)] == b"every=".as_slice()
}

/// Whether a word begins with `silent=`.
fn begins_silent(word: &[u8]) -> bool
    ensures { result ≡ begins_silent word.now }
{
    &word[..word.len().min(7)] == b"silent=".as_slice()
}

/// Whether a word begins with `name=`.
fn begins_name(word: &[u8]) -> bool
    ensures { result ≡ begins_name word.now }
{
    &word[..word.len().min(5)] == b"name=".as_slice()
}

/// The channel that a line of so many words hears: every one for `-`, and if the word is left out.
fn channel_of(alloc: Global, words: &Words<'_>, count: usize) -> Result<Option<Bytes>, Memory>
    requires { count ≤ length words.now }
    ensures { IfOk result (λ channel. channel ≡ own_channel count words.now) }
{
    if count < 7 || words.word(7) == b"-".as_slice() {
        return Ok(None);
    }
    Ok(Some(Bytes::of(Vec::from_slice(alloc, words.word(7))?)))
}

/// The window of a line of so many words: the widest if the word is left out.
fn window_of(words: &Words<'_>, count: usize) -> Option<Window>
    requires { count ≤ length words.now }
    ensures { result ≡ own_window count words.now }
{
    if count < 6 {
        return Some(Window::of(WIDEST_WINDOW));
    }
    let size = forms::number(words.word(6), 1, u64::from(WIDEST_WINDOW))?;
    Some(Window::of(size as u16))
}

/// Whether a line that hears this channel misses nothing of what one after it would hear.
fn hears_all(own: &Option<Bytes>, later: &Option<Bytes>) -> bool
    ensures { result ≡ hears_all_of own.now later.now }
{
    let Some(own) = own else {
        return true;
    };
    match later {
        Some(later) => own.bytes() == later.bytes(),
        None => false,
    }
}

/// Whether a line before hears all that a line with this CAN identifier and channel would.
fn shadowed(before: &[MapLine], can: &[u8], channel: &Option<Bytes>) -> bool
    ensures { result ≡ is_shadowed before.now can.now channel.now }
{
    before.iter().any(|line| line.can.digits() == can && hears_all(&line.channel, channel))
}

/// Whether some data frame can have this CAN identifier, and reaches a line with it and this channel.
fn is_reachable(before: &[MapLine], channel: &Option<Bytes>, can: &[u8]) -> bool
    ensures { result ≡ is_reached before.now channel.now can.now }
{
    has_data_can(can) && !shadowed(before, can, channel)
}

/// A CAN identifier that some frame can reach.
#[tactic(auto, unfolding(crate::specs::WatchMaps::reached_can_form))]
fn reached_can(before: &[MapLine], channel: &Option<Bytes>, word: &[u8]) -> Option<CanId>
    ensures { result ≡ reached_can_form before.now channel.now word.now }
{
    let can = can_id(word)?;
    if !is_reachable(before, channel, can.digits()) {
        return None;
    }
    Some(can)
}

/// Whether a word is `name=` and a name of 1 to 32 bytes.
fn is_name(word: &[u8]) -> bool
    ensures exact { result ≡ is_named word.now }
    ensures long { result ≡ true → 5 < length word.now }
    ensures few { result ≡ true → length word.now ≤ 37 }
{
    if !begins_name(word) {
        return false;
    }
    if word.len() <= 5 {
        return false;
    }
    if word.len() > 37 {
        return false;
    }
    has_name_bytes(&word[5..])
}

/// Whether a name may have each of these bytes.
fn has_name_bytes(bytes: &[u8]) -> bool
    ensures { result ≡ list_all is_line_name_byte bytes.now }
{
    bytes.iter().all(|byte| may_name(*byte))
}

/// Whether a name may have a byte.
fn may_name(byte: u8) -> bool
    ensures { result ≡ is_line_name_byte byte }
{
    byte.is_ascii_alphanumeric() || byte == b'-' || byte == b'.' || byte == b'_'
}

/// The name that a word gives.
#[tactic(auto, unfolding(crate::specs::WatchMaps::line_name_form))]
fn name_of(alloc: Global, word: &[u8]) -> Result<Option<LineName>, Memory>
    ensures { IfOk result (λ name. name ≡ line_name_form word.now) }
{
    if !is_name(word) {
        return Ok(None);
    }
    Ok(Some(LineName::of(Vec::from_slice(alloc, &word[5..])?)))
}

/// A line that is optional, if it isn't yet.
fn with_optional(number: u8, mut line: MapLine) -> Result<MapLine, Cause>
    ensures { result ≡ marked_optional number line }
{
    if line.optional {
        return Err(Cause::Field(number));
    }
    line.optional = true;
    Ok(line)
}

/// The time that stands in a word behind so many bytes.
fn period_behind(word: &[u8], count: usize) -> Option<Period>
    ensures { result ≡ period_form (drop count word.now) }
{
    if word.len() < count {
        return None;
    }
    period(&word[count..])
}

/// A line with the time from one of its frames to the next, if it hasn't one yet.
fn with_every(number: u8, word: &[u8], mut line: MapLine) -> Result<MapLine, Cause>
    ensures { result ≡ marked_every number word.now line }
{
    if line.every.is_some() {
        return Err(Cause::Field(number));
    }
    line.every = Some(value_at(number, period_behind(word, 6))?);
    Ok(line)
}

/// A line with the time without an accepted frame that is too long, if it hasn't one yet.
fn with_silent(number: u8, word: &[u8], mut line: MapLine) -> Result<MapLine, Cause>
    ensures { result ≡ marked_silent number word.now line }
{
    if line.silent.is_some() {
        return Err(Cause::Field(number));
    }
    line.silent = Some(value_at(number, period_behind(word, 7))?);
    Ok(line)
}

/// A line with a name, if it hasn't one yet.
fn with_name(
    alloc: Global,
    number: u8,
    word: &[u8],
    mut line: MapLine,
) -> Result<MapLine, LineFault>
    ensures { GivesLine (marked_name number word.now line) result }
{
    let fault = LineFault::Refused(Cause::Field(number));
    if line.name.is_some() {
        return Err(fault);
    }
    let Some(name) = name_of(alloc, word)? else {
        return Err(fault);
    };
    line.name = Some(name);
    Ok(line)
}

/// A line with the mark that the word with this number is.
fn marked(
    alloc: Global,
    words: &Words<'_>,
    number: usize,
    line: MapLine,
) -> Result<MapLine, LineFault>
    requires positive { 0 < number }
    requires within { number ≤ length words.now }
    requires few { number ≤ 11 }
    ensures { GivesLine (with_mark number words.now line) result }
{
    let word = words.word(number);
    let number = number as u8;
    if word == b"optional".as_slice() {
        return Ok(with_optional(number, line)?);
    }
    if begins_every(word) {
        return Ok(with_every(number, word, line)?);
    }
    if begins_silent(word) {
        return Ok(with_silent(number, word, line)?);
    }
    with_name(alloc, number, word, line)
}

/// A line with the mark that follows its first `count` words, if there are more, of `told` in all.
fn chosen_mark(
    alloc: Global,
    words: &Words<'_>,
    count: usize,
    told: usize,
    line: MapLine,
) -> Result<MapLine, LineFault>
    requires few { count ≤ 10 }
    requires within { told ≤ length words.now }
    ensures { GivesLine (chosen_mark count told words.now line) result }
{
    if count >= told {
        return Ok(line);
    }
    marked(alloc, words, count + 1, line)
}

/// A line with two marks at most that follow its first `count` words, of `told` in all.
fn with_two_marks(
    alloc: Global,
    words: &Words<'_>,
    count: usize,
    told: usize,
    line: MapLine,
) -> Result<MapLine, LineFault>
    requires few { count ≤ 9 }
    requires within { told ≤ length words.now }
    ensures { GivesLine (with_two_marks count told words.now line) result }
{
    let line = chosen_mark(alloc, words, count, told, line)?;
    chosen_mark(alloc, words, count + 1, told, line)
}

/// A line with the marks that follow its first `count` words, of `told` in all: four at most.
fn with_all_marks(
    alloc: Global,
    words: &Words<'_>,
    count: usize,
    told: usize,
    line: MapLine,
) -> Result<MapLine, LineFault>
    requires few { count ≤ 7 }
    requires within { told ≤ length words.now }
    ensures { GivesLine (with_line_marks count told words.now line) result }
{
    let line = with_two_marks(alloc, words, count, told, line)?;
    with_two_marks(alloc, words, count + 2, told, line)
}

/// Reads a line of a map.
pub struct WatchMapReader;

impl LineReader for WatchMapReader {
    ghost use Rattle.can_logs.specs.WatchMaps.{watch_line_of};

    type Item = MapLine;

    ghost means = { λ _ before words. watch_line_of before words };

    #[tactic(auto, unfolding(crate::specs::WatchMaps::watch_line_of))]
    fn read(
        &self,
        alloc: Global,
        words: &Words<'_>,
        before: &[MapLine],
    ) -> Result<MapLine, LineFault> {
        let count = words_before(words, true);
        let told = words_before(words, false);
        if count < 5 || count > 7 || told > count + 4 {
            return Err(LineFault::Refused(Cause::Count));
        }
        let channel = channel_of(alloc, words, count)?;
        let can = reached_can(before, &channel, words.word(1));
        let window = window_of(words, count);
        let line = line_of_words(words, can, window, channel)?;
        with_all_marks(alloc, words, count, told, line)
    }
}

/// The lines of the map that a source gives, each with its number, or why there are none. Some frame can reach each of
/// them.
pub fn read_watch_map<S: Source>(alloc: Global, map: &mut S) -> Result<WatchMap, Refusal>
    ensures { ReadsWatchSource (record { before = S.state map.old; after = S.state map.new }) result }
{
    match read_input(alloc, map) {
        Ok(input) => map_of_text(alloc, input.as_slice()),
        Err(fault) => Err(map_input_refusal(fault)),
    }
}

/// The lines of a map, or the refusal of the first that isn't one.
#[tactic(auto, unfolding(crate::specs::WatchMaps::watch_map_of))]
fn lines_of_text(alloc: Global, text: &[u8]) -> Result<Vec<MapLine>, Refusal>
    requires { length text.now < 2 ^ 32 }
    ensures ok { IfOk result (λ lines. watch_map_of text.now ≡ Ok lines.items) }
    ensures err { IfErr result (NoMapLines (watch_map_of text.now)) }
{
    match read_lines(alloc, text, MOST_MAP_LINES, &WatchMapReader) {
        Ok(lines) => Ok(lines),
        Err(fault) => Err(map_line_refusal(alloc, fault)),
    }
}

/// The lines of a map with their numbers, or the refusal of the first that isn't one.
pub fn map_of_text(alloc: Global, text: &[u8]) -> Result<WatchMap, Refusal>
    requires { length text.now < 2 ^ 32 }
    ensures ok { IfOk result (IsMapOf text.now) }
    ensures err { IfErr result (NoMapLines (watch_map_of text.now)) }
{
    match lines_of_text(alloc, text) {
        Ok(lines) => numbered(alloc, lines, text),
        Err(refusal) => Err(refusal),
    }
}

/// The lines of a map with their numbers, or out of memory.
fn numbered(alloc: Global, lines: Vec<MapLine>, text: &[u8]) -> Result<WatchMap, Refusal>
    requires short { length text.now < 2 ^ 32 }
    requires lines { watch_map_of text.now ≡ Ok lines.items }
    ensures ok { IfOk result (IsMapOf text.now) }
    ensures err { IfErr result (λ row. row ≡ memory_row) }
{
    match numbers_of(alloc, text) {
        Ok(numbers) => with_numbers(alloc, lines, numbers),
        Err(Memory) => Err(Refusal::no_memory()),
    }
}

/// These lines with these numbers, or out of memory.
fn with_numbers(alloc: Global, lines: Vec<MapLine>, numbers: Vec<u64>) -> Result<WatchMap, Refusal>
    requires few { length lines.items ≤ 256 }
    requires as_many { length numbers.items ≡ length lines.items }
    ensures ok { IfOk result (λ map. map ≡ record { lines = lines.items; numbers = numbers.items }) }
    ensures err { IfErr result (λ row. row ≡ memory_row) }
{
    match MapTable::of(alloc, lines) {
        Ok(table) => Ok(WatchMap::of(table, numbers)),
        Err(AllocError) => Err(Refusal::no_memory()),
    }
}

/// The numbers of the lines of a text that aren't skipped.
fn numbers_of(alloc: Global, text: &[u8]) -> Result<Vec<u64>, Memory>
    requires { length text.now < 2 ^ 32 }
    ensures { IfOk result (λ numbers. numbers.items ≡ line_numbers text.now) }
{
    places_are_those_of_the_words();
    let cuts = cut(alloc, text)?;
    let mut numbers = Vec::new(alloc);
    for line in cuts.as_slice() {
        numbers.push(u64::from(line.line))?;
    }
    Ok(numbers)
}
