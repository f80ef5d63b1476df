//! The lines of `load`: requests to an engine.

ghost use Rattle.std.specs.Prelude.{◌<◌, ◌^◌, length};
ghost use Rattle.secoc_words.specs.Frames.{loads_of};
ghost use Rattle.text_lines.specs.Readings.{Gives};

use crate::forms;
use memory_update::Request;
use std::alloc::Global;
use text_lines::reader::{LineReader, MOST_LINES, expect_count, read_lines, value_at};
use text_lines::words::Words;
use text_lines::{LineFault, ScriptFault};

/// Reads a line of `load`: the messages M1, M2 and M3 (SHE specification), of 32, 64 and 32 hexadecimal digits.
pub struct LoadReader;

impl LineReader for LoadReader {
    ghost use Rattle.secoc_words.specs.Frames.{load_of};

    type Item = Request;

    ghost means = { λ _ _ words. load_of words };

    #[tactic(auto, unfolding(crate::specs::Frames::load_of))]
    fn read(
        &self,
        _alloc: Global,
        words: &Words<'_>,
        _before: &[Request],
    ) -> Result<Request, LineFault> {
        expect_count(words, 3)?;
        let m1 = value_at(1, forms::key(words.word(1)))?;
        let m2 = value_at(2, forms::two(words.word(2)))?;
        let m3 = value_at(3, forms::key(words.word(3)))?;
        Ok(Request { m1, m2, m3 })
    }
}

/// The lines of `load` that a text has.
#[tactic(auto, unfolding(crate::specs::Frames::loads_of))]
pub fn read_loads(alloc: Global, text: &[u8]) -> Result<Vec<Request>, ScriptFault>
    requires { length text.now < 2 ^ 32 }
    ensures { Gives (loads_of text.now) result }
{
    read_lines(alloc, text, MOST_LINES, &LoadReader)
}
