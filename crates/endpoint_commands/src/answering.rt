//! The lines that are printed: frames as a log has them, and comments.
ghost use Rattle.std.specs.Prelude.{◌≡◌, ◌+◌, ◌-◌, ◌≤◌, ◌∷◌, ◌++◌, length, nat_le, replicate, find, map as each, OnOk};
ghost use Rattle.hex.specs.Hex.{encode_upper};
ghost use Rattle.std.specs.Char.{to_ascii_uppercase};
ghost use Rattle.std.specs.Fmt.{decimal};
ghost use Rattle.text_lines.specs.Room.{AddsAtMost};
ghost use Rattle.text_lines.specs.Readings.{nth_word};
ghost use Rattle.bus_script.specs.LineTexts.{told_words};
ghost use Rattle.endpoint_commands.specs.Lines.{flags_behind, flags_digit as digit_of_flags, fd_length, data_text};
ghost use Rattle.endpoint_commands.specs.Lines.{frame_text, comment_text, frame_answer, fd_lengths, padded};

use crate::adding::{add_raised, add_upper};
use crate::rules::FrameRule;
use bus_machine::Line;
use bus_script::push_told;
use bus_script::pushing::{push_number, push_word};
use can_logs::place_of_hash;
use std::alloc::AllocError;
use text_lines::words::Words;

/// What the digit of the flags is behind the first `#` of a frame.
fn flags_behind_hash(rest: &[u8]) -> u8
    ensures { result ≡ flags_behind rest.now }
{
    if rest.len() < 2 || rest[0] != b'#' {
        return b'0';
    }
    rest[1].to_ascii_uppercase()
}

/// The digit of a frame's flags, in upper case: `0` of a classic one.
#[tactic(auto, unfolding(crate::specs::Lines::flags_digit))]
fn flags_digit(word: &[u8]) -> u8
    ensures { result ≡ digit_of_flags word.now }
{
    match place_of_hash(word) {
        Some(at) => flags_behind_hash(&word[at + 1..]),
        None => b'0',
    }
}

/// The lengths that CAN FD has above 8.
const FD_LENGTHS: [usize; 7] = [12, 16, 20, 24, 32, 48, 64];

/// The first of these lengths that isn't less than a size.
fn length_above(size: usize) -> Option<usize>
    ensures { result ≡ find (λ n. nat_le size n) fd_lengths }
{
    FD_LENGTHS.iter().copied().find(|length| size <= *length)
}

/// The next length that CAN FD has above 8.
#[tactic(auto, unfolding(crate::specs::Lines::fd_length))]
fn padded_length(size: usize) -> usize
    requires { size ≤ 64 }
    ensures next { result ≡ fd_length size }
    ensures above { size ≤ result }
    ensures most { result ≤ 64 }
{
    length_above(size).unwrap_or(size)
}

/// At most 64 bytes, and zero bytes up to 64.
fn filled_up(bytes: &[u8]) -> [u8; 64]
    requires { length bytes.now ≤ 64 }
    ensures { result ≡ bytes.now ++ replicate (64 - length bytes.now) 0 }
{
    let mut room = [0u8; 64];
    room[..bytes.len()].copy_from_slice(bytes);
    room
}

/// Adds bytes, and zero bytes up to the next length of CAN FD.
fn add_padded(text: &mut Vec<u8>, bytes: &[u8]) -> Result<(), AllocError>
    requires { length bytes.now ≤ 64 }
    ensures digits { OnOk result (text.new.items ≡ text.old.items ++ encode_upper (padded bytes.now)) }
    ensures room { AddsAtMost 128 text.old text.new result }
{
    let room = filled_up(bytes);
    add_upper(text, &room[..padded_length(bytes.len())])
}

/// Adds the data of a frame with these flags, behind its CAN identifier.
#[tactic(auto, unfolding(crate::specs::Lines::data_text))]
fn add_data(text: &mut Vec<u8>, flags: u8, bytes: &[u8]) -> Result<(), AllocError>
    requires { length bytes.now ≤ 64 }
    ensures data { OnOk result (text.new.items ≡ text.old.items ++ data_text flags bytes.now) }
    ensures room { AddsAtMost 131 text.old text.new result }
{
    text.push(b'#')?;
    if bytes.len() <= 8 {
        return add_upper(text, bytes);
    }
    text.push(b'#')?;
    text.push(flags)?;
    add_padded(text, bytes)
}

/// Adds a CAN identifier, in upper case, and the data of its frame.
fn add_frame(text: &mut Vec<u8>, can: &[u8], flags: u8, bytes: &[u8]) -> Result<(), AllocError>
    requires can { length can.now ≤ 8 }
    requires bytes { length bytes.now ≤ 64 }
    ensures frame { OnOk result (text.new.items
        ≡ text.old.items ++ 32 ∷ each to_ascii_uppercase can.now ++ data_text flags bytes.now) }
    ensures room { AddsAtMost 140 text.old text.new result }
{
    text.push(b' ')?;
    add_raised(text, can)?;
    add_data(text, flags, bytes)
}

/// Adds a frame by a rule, at the time and with the flags of the line of the log that has these words.
fn add_frame_line(
    text: &mut Vec<u8>,
    rule: &FrameRule,
    words: &Words<'_>,
    bytes: &[u8],
) -> Result<(), AllocError>
    requires words { 3 ≤ length words.now }
    requires bytes { length bytes.now ≤ 64 }
    ensures frame { OnOk result (text.new.items ≡ text.old.items ++ frame_text rule.now words.now bytes.now) }
    ensures room { AddsAtMost (length (nth_word words.now 1) + length rule.now.to + 142) text.old text.new result }
{
    text.extend_from_slice(words.word(1))?;
    push_word(text, rule.to.bytes())?;
    add_frame(text, rule.can.digits(), flags_digit(words.word(3)), bytes)?;
    text.push(b'\n')?;
    Ok(())
}

/// Adds a comment on a frame by a rule: the number of its line, its CAN identifier, and what the node told.
fn add_frame_comment(
    text: &mut Vec<u8>,
    rule: &FrameRule,
    number: u64,
    told: &Line,
) -> Result<(), AllocError>
    ensures comment { OnOk result (text.new.items
        ≡ text.old.items ++ comment_text (decimal number ∷ rule.now.can ∷ told_words told.now)) }
    ensures room { AddsAtMost 302 text.old text.new result }
{
    text.push(b'#')?;
    push_number(text, number)?;
    push_word(text, rule.can.digits())?;
    push_told(text, told)?;
    text.push(b'\n')?;
    Ok(())
}

/// Adds the answer to a frame by a rule: the frame that was sent, or the payload that was accepted; else what the node
/// told.
#[tactic(auto, unfolding(crate::specs::Lines::frame_answer))]
pub fn add_frame_answer(
    text: &mut Vec<u8>,
    rule: &FrameRule,
    number: u64,
    words: &Words<'_>,
    told: &Line,
) -> Result<(), AllocError>
    requires { 3 ≤ length words.now }
    ensures answer { OnOk result (text.new.items
        ≡ text.old.items ++ frame_answer rule.now number words.now told.now) }
    ensures room { AddsAtMost (length (nth_word words.now 1) + length rule.now.to + 302) text.old text.new result }
{
    match told {
        Line::Sent { pdu, .. } => add_frame_line(text, rule, words, pdu.bytes()),
        Line::Accepted { payload, .. } => add_frame_line(text, rule, words, payload.bytes()),
        Line::FreshnessFailure => add_frame_comment(text, rule, number, told),
        Line::VerificationFailure => add_frame_comment(text, rule, number, told),
        Line::Keyed { .. } => add_frame_comment(text, rule, number, told),
        Line::Loaded { .. } => add_frame_comment(text, rule, number, told),
        Line::Boot { .. } => add_frame_comment(text, rule, number, told),
        Line::Up => add_frame_comment(text, rule, number, told),
        Line::Armed => add_frame_comment(text, rule, number, told),
        Line::NoFrame => add_frame_comment(text, rule, number, told),
        Line::Refused(_) => add_frame_comment(text, rule, number, told),
    }
}

/// Adds a comment on a load: the number of its line, and what the node told.
pub fn add_load_comment(text: &mut Vec<u8>, number: u64, told: &Line) -> Result<(), AllocError>
    ensures comment { OnOk result (text.new.items
        ≡ text.old.items ++ comment_text (decimal number ∷ told_words told.now)) }
    ensures room { AddsAtMost 293 text.old text.new result }
{
    text.push(b'#')?;
    push_number(text, number)?;
    push_told(text, told)?;
    text.push(b'\n')?;
    Ok(())
}

/// Adds a comment on what the node told by itself.
pub fn add_comment(text: &mut Vec<u8>, told: &Line) -> Result<(), AllocError>
    ensures comment { OnOk result (text.new.items ≡ text.old.items ++ comment_text (told_words told.now)) }
    ensures room { AddsAtMost 252 text.old text.new result }
{
    text.push(b'#')?;
    push_told(text, told)?;
    text.push(b'\n')?;
    Ok(())
}
