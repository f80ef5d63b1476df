//! The answers of single lines, in lower-case digits.
ghost use Rattle.std.specs.Prelude.{◌≡◌, ◌≤◌, ℕ, List, length, OnOk};
ghost use Rattle.bus_commands.specs.Texts.{TellsFrame, TellsJudgement};
ghost use Rattle.bus_commands.specs.Steps.{HasPayload, Adds};

use secoc_words::verdicts::{push_bad_length, push_outcome};
use secoc_words::{FrameLine, JudgeLine, WIDEST_WINDOW};
use secured_pdu::{build, judge, split};
use she_aes::{Block, Schedule, expand};
use std::alloc::AllocError;
use std::marker::Model;
use text_lines::pushing::push_digits;

/// The round keys of the key that a line had last. A contract sees that key.
#[derive(Drop)]
pub struct KeptSchedule {
    key: Block,
    schedule: Schedule,
}

impl Model for KeptSchedule {
    ghost use Rattle.std.specs.Prelude.{◌≡◌, List, ℕ};

    ghost Value = { List ℕ };

    ghost view = { λ k. k.key };

    ghost invariant = { λ k. k.schedule ≡ k.key };
}

impl KeptSchedule {
    /// The round keys of this key.
    pub fn of(key: &Block) -> KeptSchedule
        ensures { result ≡ key.now }
    {
        KeptSchedule {
            key: *key,
            schedule: expand(key),
        }
    }

    /// The round keys of this key: those that are kept if they are of the same key, else new ones, which are kept from
    /// then on.
    pub fn schedule(&mut self, key: &Block) -> &Schedule
        ensures { result.now ≡ key.now }
    {
        self.change_to(key);
        &self.schedule
    }

    // Keeps the round keys of this key.
    fn change_to(&mut self, key: &Block)
        ensures { self.new ≡ key.now }
    {
        if self.key == *key {
            return;
        }
        *self = KeptSchedule::of(key);
    }
}

/// Adds the answer of a line of `frame`.
pub fn push_frame(
    text: &mut Vec<u8>,
    line: &FrameLine,
    kept: &mut KeptSchedule,
) -> Result<(), AllocError>
    requires { HasPayload line.now }
    ensures { OnOk result (Adds text.old.items text.new.items (TellsFrame line.now)) }
{
    let mut frame = [0; 64];
    let schedule = kept.schedule(&line.key);
    let payload = line.payload.bytes();
    let length = build(schedule, line.id, payload, line.freshness, &mut frame).unwrap();
    push_digits(text, &frame[..length])?;
    text.push(b'\n')?;
    Ok(())
}

/// The most bytes that the answer of a line of `frame` has: two digits for each byte of the payload and of the four
/// after it, and the line feed.
pub fn most_frame_bytes(line: &FrameLine) -> usize
    requires { HasPayload line.now }
    ensures { (text : List ℕ) → TellsFrame line.now text → length text ≤ result }
{
    2 * (line.payload.bytes().len() + 4) + 1
}

/// Adds the answer of a line of `judge`, whose receiver has the widest window.
pub fn push_judgement(
    text: &mut Vec<u8>,
    line: &JudgeLine,
    kept: &mut KeptSchedule,
) -> Result<(), AllocError>
    ensures { OnOk result (Adds text.old.items text.new.items (TellsJudgement line.now)) }
{
    let Some(parts) = split(line.pdu.bytes()) else {
        return push_bad_length(text);
    };
    let schedule = kept.schedule(&line.key);
    let judgement = judge(schedule, line.id, line.counter, WIDEST_WINDOW, &parts);
    push_outcome(text, parts.payload, &judgement)
}

/// The bytes of the answer to an accepted PDU beside the digits of its payload: the word, the freshness in 16 digits,
/// two blanks and the line feed. No other answer of `judge` is so long.
const SUCCESS_BYTES: usize = 38;

/// The most bytes that the answer of a line of `judge` has: those of an acceptance, with two digits for each byte but
/// the last four of up to 64.
pub fn most_judgement_bytes(line: &JudgeLine) -> usize
    ensures { (text : List ℕ) → TellsJudgement line.now text → length text ≤ result }
{
    SUCCESS_BYTES + 2 * line.pdu.bytes().len().min(64).saturating_sub(4)
}
