//! The frames of a log, as `candump` of can-utils writes them.
ghost use Rattle.std.specs.Prelude.{◌≡◌, ◌<◌, ◌≤◌, ◌==◌, true, length, position, slice_index, IfSome};
ghost use Rattle.text_lines.specs.Forms.{hex_bytes_form};
ghost use Rattle.can_logs.specs.Frames.{is_time as is_time_word, data_form, frame_parts, frame_form, log_frame_of};
ghost use Rattle.can_logs.specs.Frames.{has_long_code as has_code, without_long_code};
ghost use Rattle.can_logs.specs.Frames.{is_data_can, is_error_can, unheard_kind, is_dataless as has_no_data};
ghost use Rattle.can_logs.specs.Frames.{is_xl, is_remote as is_remote_frame, is_dataless_word, dataless_kind};

use crate::map_lines::{CanId, can_id, is_can_id};
use hex::decode_to_slice;
use std::marker::Model;
use text_lines::words::Words;

/// The most bytes of a frame, of CAN FD.
const MOST_BYTES: usize = 64;

/// A data frame, of classic CAN with up to 8 bytes or of CAN FD with up to 64.
#[derive(Debug, Drop)]
pub struct LogFrame {
    /// The CAN identifier.
    pub can: CanId,
    /// The data bytes.
    pub bytes: FrameBytes,
}

/// A line of a log that no line of a map judges.
#[derive(Clone, Copy, Debug, PartialEq, Eq)]
pub enum OtherLine {
    /// A data frame that no line of the map hears.
    Unmapped,
    /// A remote frame, an error frame or a frame of CAN XL.
    OtherFrame,
    /// No frame, as `candump` writes one.
    Malformed,
}

/// The data bytes of a frame, at most 64. A contract sees the list of them.
#[derive(Debug, Drop)]
pub struct FrameBytes {
    room: [u8; MOST_BYTES],
    size: usize,
}

impl Model for FrameBytes {
    ghost use Rattle.std.specs.Prelude.{List, ℕ, ◌≤◌, take};

    ghost Value = { List ℕ };

    ghost view = { λ b. take b.size b.room };

    ghost invariant = { λ b. b.size ≤ 64 };
}

impl FrameBytes {
    /// The bytes of a word of hexadecimal digits, two a byte; `None` if it isn't one, or has more than `most` bytes.
    #[tactic(auto, unfolding(text_lines::specs::Forms::hex_bytes_form), using(crate::proofs::Digits::decode_half))]
    pub fn of_digits(word: &[u8], most: usize) -> Option<FrameBytes>
        requires { most ≤ 64 }
        ensures { result ≡ hex_bytes_form 0 most word.now }
    {
        let size = word.len() / 2;
        if size > most {
            return None;
        }
        let mut room = [0; MOST_BYTES];
        match decode_to_slice(word, &mut room[..size]) {
            Ok(()) => Some(FrameBytes { room, size }),
            Err(_) => None,
        }
    }

    /// The bytes in their order.
    pub fn bytes(&self) -> &[u8]
        ensures value { result.now ≡ self.now }
        ensures few { length result.now ≤ 64 }
    {
        &self.room[..self.size]
    }
}

/// The frame of a line of a log: a time in parentheses, an interface, and the frame. What follows is ignored. `None` if
/// the line is no data frame.
#[tactic(auto, unfolding(crate::specs::Frames::log_frame_of))]
pub fn log_frame(words: &Words<'_>) -> Option<LogFrame>
    ensures found { result ≡ log_frame_of words.now }
    ensures long { IfSome result (λ _. 3 ≤ length words.now) }
{
    if words.len() < 3 || !is_time(words.word(1)) {
        return None;
    }
    frame(words.word(3))
}

/// Whether a word stands in parentheses.
fn is_time(word: &[u8]) -> bool
    ensures { result ≡ is_time_word word.now }
{
    !word.is_empty() && word[0] == b'(' && word[word.len() - 1] == b')'
}

/// The frame of a word: the CAN identifier, the first `#`, and what stands after it.
#[tactic(auto, unfolding(crate::specs::Frames::frame_form))]
fn frame(word: &[u8]) -> Option<LogFrame>
    ensures { result ≡ frame_form word.now }
{
    let at = place_of_hash(word)?;
    frame_of_parts(&word[..at], &word[at + 1..])
}

/// The place of the first `#`, counted from 0; `None` if there is none.
pub fn place_of_hash(word: &[u8]) -> Option<usize>
    ensures exact { result ≡ position (λ byte. byte == 35) word.now }
    ensures within { IfSome result (λ at. at < length word.now) }
{
    word.iter().position(|byte| *byte == b'#')
}

/// The frame of a CAN identifier and what stands after `#`.
#[tactic(auto, unfolding(crate::specs::Frames::frame_parts))]
fn frame_of_parts(can: &[u8], rest: &[u8]) -> Option<LogFrame>
    ensures { result ≡ frame_parts can.now rest.now }
{
    let can = can_id(can)?;
    let bytes = data_bytes(rest)?;
    Some(LogFrame { can, bytes })
}

/// Whether `_` and a data length code above 8 stand behind 8 bytes, as `candump -8` writes them.
fn has_long_code(rest: &[u8]) -> bool
    ensures exact { result ≡ has_code rest.now }
    ensures long { result ≡ true → length rest.now ≡ 18 }
{
    if rest.len() != 18 {
        return false;
    }
    rest[16] == b'_' && rest[17].is_ascii_hexdigit() && rest[17] >= b'9'
}

/// The digits of the bytes of a classic frame, without a data length code above 8.
fn code_left_out(rest: &[u8]) -> &[u8]
    ensures { result.now ≡ without_long_code rest.now }
{
    if has_long_code(rest) {
        &rest[..16]
    } else {
        rest
    }
}

/// The data bytes that stand after `#`: up to 8 bytes, or another `#`, one digit for the flags of CAN FD, and up to 64
/// bytes. A data length code above 8 is left out.
#[tactic(auto, unfolding(crate::specs::Frames::data_form))]
fn data_bytes(rest: &[u8]) -> Option<FrameBytes>
    ensures { result ≡ data_form rest.now }
{
    if rest.is_empty() || rest[0] != b'#' {
        return FrameBytes::of_digits(code_left_out(rest), 8);
    }
    let rest = &rest[1..];
    if rest.is_empty() || !rest[0].is_ascii_hexdigit() {
        return None;
    }
    FrameBytes::of_digits(&rest[1..], MOST_BYTES)
}

/// What a data frame is, if no line of a map hears it.
pub fn unheard_line(frame: &LogFrame) -> OtherLine
    ensures { result ≡ unheard_kind frame.now.can }
{
    let can = frame.can.digits();
    if has_data_can(can) {
        OtherLine::Unmapped
    } else if has_error_can(can) {
        OtherLine::OtherFrame
    } else {
        OtherLine::Malformed
    }
}

/// Whether a data frame can have a CAN identifier of these digits: of 11 bits in three, of 29 in eight.
pub fn has_data_can(can: &[u8]) -> bool
    ensures { result ≡ is_data_can can.now }
{
    let most = if can.len() == 3 { b'7' } else { b'1' };
    first_byte(can) <= most
}

/// Whether an error frame has a CAN identifier of these digits.
fn has_error_can(can: &[u8]) -> bool
    ensures { result ≡ is_error_can can.now }
{
    let first = first_byte(can);
    can.len() == 8 && (first == b'2' || first == b'3')
}

/// The first byte, or 0 if there is none.
fn first_byte(bytes: &[u8]) -> u8
    ensures { result ≡ slice_index bytes.now 0 }
{
    if bytes.is_empty() { 0 } else { bytes[0] }
}

/// What a line is that has no data frame.
#[tactic(auto, unfolding(crate::specs::Frames::dataless_kind))]
pub fn dataless_line(words: &Words<'_>) -> OtherLine
    ensures { result ≡ dataless_kind words.now }
{
    if words.len() >= 3 && is_time(words.word(1)) && has_dataless_word(words.word(3)) {
        OtherLine::OtherFrame
    } else {
        OtherLine::Malformed
    }
}

/// Whether a word is a frame without data.
fn has_dataless_word(word: &[u8]) -> bool
    ensures { result ≡ is_dataless_word word.now }
{
    match place_of_hash(word) {
        Some(at) => is_dataless(&word[..at], &word[at + 1..]),
        None => false,
    }
}

/// Whether a frame of CAN XL or a remote frame has this before and this after its first `#`.
fn is_dataless(can: &[u8], rest: &[u8]) -> bool
    ensures { result ≡ has_no_data can.now rest.now }
{
    is_xl_id(can) || is_remote(can, rest)
}

/// Whether a word is five hexadecimal digits.
fn is_xl_id(word: &[u8]) -> bool
    ensures { result ≡ is_xl word.now }
{
    if !word.iter().all(u8::is_ascii_hexdigit) {
        return false;
    }
    word.len() == 5
}

/// Whether a remote frame has this before and this after its first `#`.
fn is_remote(can: &[u8], rest: &[u8]) -> bool
    ensures { result ≡ is_remote_frame can.now rest.now }
{
    is_can_id(can) && first_byte(rest) == b'R'
}
