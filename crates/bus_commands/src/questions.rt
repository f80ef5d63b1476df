//! The lines of an input as questions, and their answers.
ghost use Rattle.std.specs.Prelude.{◌≡◌, ◌<◌, ◌≤◌, ◌^◌, length, All, IfOk, OnOk, List, ℕ, Result};
ghost use Rattle.text_lines.specs.Readings.{Fault, Gives};
ghost use Rattle.secoc_words.specs.Frames.{frames_of, judges_of};
ghost use Rattle.bus_commands.specs.Texts.{TellsEach, TellsFrame, TellsJudgement};
ghost use Rattle.bus_commands.specs.Steps.{HasPayload, IsAny, Adds, ReadsLines};

use crate::lines::{
    KeptSchedule, most_frame_bytes, most_judgement_bytes, push_frame, push_judgement,
};
use basics::Block;
use program_edge::Refusal;
use secoc_words::{FrameLine, JudgeLine, read_frames, read_judges};
use std::alloc::{AllocError, Global};
use text_lines::{ScriptFault, line_refusal};

/// A kind of line that a command reads; each line has an answer.
pub trait Question: Sized + Drop {
    /// The lines of this kind that an input has, or its first fault.
    ghost questions_of: { List ℕ → Result (List Self) Fault };

    /// What each line that was read has.
    ghost is_whole: { Self → Type 0 };

    /// The line is answered by this text.
    ghost Answers: { Self → List ℕ → Type 0 };

    /// Reads the lines of an input.
    fn read_lines(alloc: Global, input: &[u8]) -> Result<Vec<Self>, ScriptFault>
        requires { length input.now < 2 ^ 32 }
        ensures exact { Gives (questions_of input.now) result }
        ensures whole { IfOk result (λ lines. All is_whole lines.items) };

    /// The most bytes that the line's answer has, its line feed among them.
    fn most_bytes(&self) -> usize
        requires { is_whole self.now }
        ensures { (text : List ℕ) → Answers self.now text → length text ≤ result };

    /// Adds the answer of the line, with its line feed. The round keys that are kept serve a line of the same key.
    fn push_answer(&self, text: &mut Vec<u8>, kept: &mut KeptSchedule) -> Result<(), AllocError>
        requires { is_whole self.now }
        ensures { OnOk result (Adds text.old.items text.new.items (Answers self.now)) };
}

impl Question for FrameLine {
    ghost questions_of = { frames_of };

    ghost is_whole = { HasPayload };

    ghost Answers = { TellsFrame };

    fn read_lines(alloc: Global, input: &[u8]) -> Result<Vec<FrameLine>, ScriptFault> {
        read_frames(alloc, input)
    }

    fn most_bytes(&self) -> usize {
        most_frame_bytes(self)
    }

    fn push_answer(&self, text: &mut Vec<u8>, kept: &mut KeptSchedule) -> Result<(), AllocError> {
        push_frame(text, self, kept)
    }
}

impl Question for JudgeLine {
    ghost questions_of = { judges_of };

    ghost is_whole = { IsAny };

    ghost Answers = { TellsJudgement };

    fn read_lines(alloc: Global, input: &[u8]) -> Result<Vec<JudgeLine>, ScriptFault> {
        read_judges(alloc, input)
    }

    fn most_bytes(&self) -> usize {
        most_judgement_bytes(self)
    }

    fn push_answer(&self, text: &mut Vec<u8>, kept: &mut KeptSchedule) -> Result<(), AllocError> {
        push_judgement(text, self, kept)
    }
}

/// The lines of an input, or the refusal of the first that isn't of this kind.
pub fn questions<Q: Question>(alloc: Global, input: &[u8]) -> Result<Vec<Q>, Refusal>
    requires { length input.now < 2 ^ 32 }
    ensures { ReadsLines Q.is_whole (Q.questions_of input.now) result }
{
    match Q::read_lines(alloc, input) {
        Ok(lines) => Ok(lines),
        Err(fault) => Err(line_refusal(alloc, fault)),
    }
}

/// The most bytes that the answers of lines have together. If they are more than any memory holds, there is none for
/// them.
fn most_bytes_of<Q: Question>(lines: &[Q]) -> Result<usize, AllocError>
    requires { All Q.is_whole lines.now }
    ensures { IfOk result (λ most. (text : List ℕ) → TellsEach Q.Answers lines.now text → length text ≤ most) }
{
    let mut most = 0usize;
    for line in lines {
        let Some(more) = most.checked_add(line.most_bytes()) else {
            return Err(AllocError);
        };
        most = more;
    }
    Ok(most)
}

/// The answers of lines, one after the other. Room for all of them is asked for at once.
pub fn answers<Q: Question>(alloc: Global, lines: &[Q]) -> Result<Vec<u8>, AllocError>
    requires { All Q.is_whole lines.now }
    ensures { IfOk result (λ text. TellsEach Q.Answers lines.now text.items) }
{
    let mut text = Vec::with_capacity(alloc, most_bytes_of(lines)?)?;
    let mut kept = KeptSchedule::of(&Block::zero());
    for line in lines {
        line.push_answer(&mut text, &mut kept)?;
    }
    Ok(text)
}
