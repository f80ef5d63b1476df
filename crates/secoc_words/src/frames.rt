//! The lines of `frame`: what to secure, and under which key, Data ID and freshness.

ghost use Rattle.std.specs.Prelude.{◌<◌, ◌≤◌, ◌^◌, length, All, IfOk};
ghost use Rattle.secoc_words.specs.Frames.{frames_of};
ghost use Rattle.text_lines.specs.Readings.{Gives};

use crate::forms;
use basics::{Block, Pdu};
use std::alloc::Global;
use text_lines::reader::{LineReader, MOST_LINES, expect_count, read_lines, value_at};
use text_lines::words::Words;
use text_lines::{LineFault, ScriptFault};

/// A line of `frame`: the key, the Data ID, the freshness and the payload of one Secured I-PDU
/// (AUTOSAR SecOC). The payload has 1 to 60 bytes.
#[derive(Debug, Drop)]
pub struct FrameLine {
    pub key: Block,
    pub id: u16,
    pub freshness: u64,
    pub payload: Pdu,
}

/// Reads a line of `frame`.
pub struct FrameReader;

impl LineReader for FrameReader {
    ghost use Rattle.secoc_words.specs.Frames.{frame_of};

    type Item = FrameLine;

    ghost means = { λ _ _ words. frame_of words };

    #[tactic(auto, unfolding(crate::specs::Frames::frame_of))]
    fn read(
        &self,
        _alloc: Global,
        words: &Words<'_>,
        _before: &[FrameLine],
    ) -> Result<FrameLine, LineFault> {
        expect_count(words, 4)?;
        let key = value_at(1, forms::key(words.word(1)))?;
        let id = value_at(2, forms::data_id(words.word(2)))?;
        let freshness = value_at(3, forms::fresh(words.word(3)))?;
        let payload = value_at(4, forms::pdu(words.word(4), 1, 60))?;
        Ok(FrameLine {
            key,
            id,
            freshness,
            payload,
        })
    }
}

/// The lines of `frame` that a text has.
#[tactic(auto, unfolding(crate::specs::Frames::frames_of))]
pub fn read_frames(alloc: Global, text: &[u8]) -> Result<Vec<FrameLine>, ScriptFault>
    requires { length text.now < 2 ^ 32 }
    ensures exact { Gives (frames_of text.now) result }
    ensures sizes { IfOk result (λ v. All (λ line. (0 < length line.payload) × (length line.payload ≤ 60)) v.items) }
{
    read_lines(alloc, text, MOST_LINES, &FrameReader)
}
