//! The lines of `judge`: what a receiver is to say of a PDU.

ghost use Rattle.std.specs.Prelude.{◌<◌, ◌^◌, length};
ghost use Rattle.secoc_words.specs.Frames.{judges_of};
ghost use Rattle.text_lines.specs.Readings.{Gives};

use crate::forms;
use crate::received_bytes::ReceivedBytes;
use basics::Block;
use std::alloc::Global;
use text_lines::reader::{LineReader, MOST_LINES, expect_count, read_lines, value_at};
use text_lines::words::Words;
use text_lines::{LineFault, ScriptFault};

/// A line of `judge`: the key, the Data ID and the counter of a receiver, and the bytes that arrive, of any number. The
/// counter is the freshness that it accepted last (AUTOSAR SecOC).
#[derive(Debug, Drop)]
pub struct JudgeLine {
    pub key: Block,
    pub id: u16,
    pub counter: u64,
    pub pdu: ReceivedBytes,
}

/// Reads a line of `judge`.
pub struct JudgeReader;

impl LineReader for JudgeReader {
    ghost use Rattle.secoc_words.specs.Frames.{judge_of};

    type Item = JudgeLine;

    ghost means = { λ _ _ words. judge_of words };

    #[tactic(auto, unfolding(crate::specs::Frames::judge_of))]
    fn read(
        &self,
        alloc: Global,
        words: &Words<'_>,
        _before: &[JudgeLine],
    ) -> Result<JudgeLine, LineFault> {
        expect_count(words, 4)?;
        let key = value_at(1, forms::key(words.word(1)))?;
        let id = value_at(2, forms::data_id(words.word(2)))?;
        let counter = value_at(3, forms::fresh(words.word(3)))?;
        let pdu = value_at(4, forms::received(alloc, words.word(4))?)?;
        Ok(JudgeLine {
            key,
            id,
            counter,
            pdu,
        })
    }
}

/// The lines of `judge` that a text has.
#[tactic(auto, unfolding(crate::specs::Frames::judges_of))]
pub fn read_judges(alloc: Global, text: &[u8]) -> Result<Vec<JudgeLine>, ScriptFault>
    requires { length text.now < 2 ^ 32 }
    ensures { Gives (judges_of text.now) result }
{
    read_lines(alloc, text, MOST_LINES, &JudgeReader)
}
