//! The map of an audit, and the source that gives it.
ghost use Rattle.std.specs.Prelude.{◌≡◌, ◌<◌, ◌^◌, length, Ok, IfOk, IfErr};
ghost use Rattle.text_lines.specs.Readings.{read_all};
ghost use Rattle.text_lines.specs.LineRows.{NoLines};
ghost use Rattle.trace_audit.specs.AuditMaps.{new_can_form, map_of};
ghost use Rattle.can_logs.specs.MapLines.{most_map_lines};
ghost use Rattle.trace_audit.specs.Steps.{ReadsMapSource};

use bus_port::Source;
use can_logs::{CanId, MOST_MAP_LINES, MapLine, Window, can_id, line_of_words, place_of};
use program_edge::{Refusal, read_input};
use secoc_words::WIDEST_WINDOW;
use std::alloc::Global;
use text_lines::reader::{LineReader, expect_count, read_lines};
use text_lines::words::Words;
use text_lines::{LineFault, line_refusal};

/// A CAN identifier that no line before has.
#[tactic(auto, unfolding(crate::specs::AuditMaps::new_can_form))]
fn new_can_id(before: &[MapLine], word: &[u8]) -> Option<CanId>
    ensures { result ≡ new_can_form before.now word.now }
{
    let can = can_id(word)?;
    if place_of(before, can.digits()).is_some() {
        return None;
    }
    Some(can)
}

/// Reads a line of the map of an audit.
pub struct MapReader;

impl LineReader for MapReader {
    ghost use Rattle.trace_audit.specs.AuditMaps.{map_line_of};

    type Item = MapLine;

    ghost means = { λ _ before words. map_line_of before words };

    #[tactic(auto, unfolding(crate::specs::AuditMaps::map_line_of))]
    fn read(
        &self,
        _alloc: Global,
        words: &Words<'_>,
        before: &[MapLine],
    ) -> Result<MapLine, LineFault> {
        expect_count(words, 5)?;
        let can = new_can_id(before, words.word(1));
        let window = Some(Window::of(WIDEST_WINDOW));
        Ok(line_of_words(words, can, window, None)?)
    }
}

/// The lines of the map that a source gives, at most 256 that aren't skipped, as this reader reads them; or why there
/// are none. The source is read whole, at most 1,048,576 bytes. The row is that of the source's fault, that of the
/// first line that is none, or out of memory.
pub fn read_map_by<R: LineReader<Item = MapLine>, S: Source>(
    alloc: Global,
    reader: &R,
    map: &mut S,
) -> Result<Vec<MapLine>, Refusal>
    ensures { ReadsMapSource (read_all (R.means reader.now) most_map_lines)
        (record { before = S.state map.old; after = S.state map.new }) result }
{
    let input = read_input(alloc, map)?;
    lines_by(alloc, reader, input.as_slice())
}

/// The lines of a map, or the refusal of the first that isn't one.
pub fn lines_by<R: LineReader<Item = MapLine>>(
    alloc: Global,
    reader: &R,
    text: &[u8],
) -> Result<Vec<MapLine>, Refusal>
    requires { length text.now < 2 ^ 32 }
    ensures ok { IfOk result (λ lines. read_all (R.means reader.now) most_map_lines text.now ≡ Ok lines.items) }
    ensures err { IfErr result (NoLines (read_all (R.means reader.now) most_map_lines text.now)) }
{
    match read_lines(alloc, text, MOST_MAP_LINES, reader) {
        Ok(lines) => Ok(lines),
        Err(fault) => Err(line_refusal(alloc, fault)),
    }
}

/// The lines of the map of an audit, each with a CAN identifier of its own.
#[tactic(auto, unfolding(crate::specs::AuditMaps::map_of))]
pub fn read_map<S: Source>(alloc: Global, map: &mut S) -> Result<Vec<MapLine>, Refusal>
    ensures { ReadsMapSource map_of (record { before = S.state map.old; after = S.state map.new }) result }
{
    read_map_by(alloc, &MapReader, map)
}
