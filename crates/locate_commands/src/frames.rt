//! The first frames of a log that a line of a map hears.
ghost use Rattle.std.specs.Prelude.{◌≡◌, ◌<◌, ◌^◌, ◌++◌, length, IfOk, OnOk};
ghost use Rattle.std.specs.List.{position_or_len};
ghost use Rattle.text_lines.specs.Lines.{is_line_feed};
ghost use Rattle.can_logs.specs.Frames.{log_frame_of};
ghost use Rattle.locate_commands.specs.Locating.{data_heard, heard_in, as_list, first_frames};

use can_logs::{FrameBytes, MapTable, log_frame};
use line_stream::until_feed;
use std::alloc::Global;
use std::marker::Model;
use text_lines::Memory;
use text_lines::span::Span;
use text_lines::words::{Words, put_words};

/// The most bytes of a line that is looked at, its line feed not counted.
const LINE_LIMIT: usize = 4096;

/// The frames that are looked at.
const FEW: usize = 16;

/// The data of at most sixteen frames, each of at most 64 bytes. A contract sees the list of them.
#[derive(Drop)]
pub struct FirstFrames {
    frames: Vec<FrameBytes>,
}

impl Model for FirstFrames {
    ghost use Rattle.std.specs.Prelude.{◌≤◌, List, ℕ, length};

    ghost Value = { List (List ℕ) };

    ghost view = { λ f. f.frames.items };

    ghost invariant = { λ f. length f.frames.items ≤ 16 };
}

impl FirstFrames {
    /// The first sixteen that the line of a map at a place hears in a log.
    pub fn of(
        alloc: Global,
        map: &MapTable,
        place: usize,
        log: &[u8],
    ) -> Result<FirstFrames, Memory>
        requires short { length log.now < 2 ^ 32 }
        requires place { place < length map.now }
        ensures { IfOk result (λ frames. frames ≡ first_frames map.now place log.now) }
    {
        let mut frames = Vec::new(alloc);
        let mut spans = Vec::new(alloc);
        let mut at = 0;
        while at < log.len() && frames.len() < FEW {
            let end = until_feed(&log[at..]);
            let heard = frame_heard(map, place, &log[at..at + end], &mut spans)?;
            note(&mut frames, heard)?;
            at += end + 1;
        }
        Ok(FirstFrames { frames })
    }

    /// The frames.
    pub fn as_slice(&self) -> &[FrameBytes]
        ensures { result.now ≡ self.now }
    {
        self.frames.as_slice()
    }
}

/// Adds a frame, if there is one.
fn note(frames: &mut Vec<FrameBytes>, heard: Option<FrameBytes>) -> Result<(), Memory>
    ensures { OnOk result (frames.new.items ≡ frames.old.items ++ as_list heard) }
{
    if let Some(frame) = heard {
        frames.push(frame)?;
    }
    Ok(())
}

/// The data of the frame in a line of a log, if the line of the map at a place hears it.
fn frame_heard(
    map: &MapTable,
    place: usize,
    line: &[u8],
    spans: &mut Vec<Span>,
) -> Result<Option<FrameBytes>, Memory>
    requires short { length line.now < 2 ^ 32 }
    requires one { position_or_len is_line_feed line.now ≡ length line.now }
    requires place { place < length map.now }
    ensures { IfOk result (λ frame. frame ≡ heard_in map.now place line.now) }
{
    if line.len() > LINE_LIMIT {
        return Ok(None);
    }
    put_words(spans, line)?;
    let words = Words::of(line, spans.as_slice());
    Ok(data_heard(map, place, &words))
}

/// The data of the frame that words have, if the line of the map at a place hears it.
fn data_heard(map: &MapTable, place: usize, words: &Words<'_>) -> Option<FrameBytes>
    requires { place < length map.now }
    ensures { result ≡ data_heard map.now place words.now (log_frame_of words.now) }
{
    let frame = log_frame(words)?;
    let heard = map.place_for(frame.can.digits(), words.word(2))?;
    if heard != place {
        return None;
    }
    Some(frame.bytes)
}
