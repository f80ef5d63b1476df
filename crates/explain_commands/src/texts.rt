//! The printed text of a reason. In room that a text has already no memory is taken.
ghost use Rattle.std.specs.Prelude.{◌≡◌, ◌≤◌, ◌+◌, ◌++◌, length, OnOk, decimal};
ghost use Rattle.text_lines.specs.Room.{AddsAtMost};
ghost use Rattle.explain_commands.specs.declared.kinds.Reason.TheVariants as reason;
ghost use Rattle.explain_commands.specs.ReasonTexts.{text_with_number, beyond_text, ahead_text, flipped_text};
ghost use Rattle.explain_commands.specs.ReasonTexts.{reason_text, hedge, explained_line};

use crate::kinds::{Explained, Reason};
use can_logs::push_front;
use itoa::Buffer;
use std::alloc::AllocError;

/// So many authenticators may be computed for a reason that is more than a guess.
const CERTAIN: usize = 16_777;

/// Adds the line of a frame that fails: the number of its line in the log, what is printed of the map's line, and why.
pub fn push_explained(
    text: &mut Vec<u8>,
    number: u64,
    head: &[u8],
    explained: &Explained,
) -> Result<(), AllocError>
    requires { length head.now ≤ 32 }
    ensures line { OnOk result (text.new.items ≡ text.old.items ++ explained_line number head.now explained.now) }
    ensures room { AddsAtMost 320 text.old text.new result }
{
    push_front(number, head, text)?;
    push_hedge(text, explained)?;
    push_reason(text, &explained.reason)?;
    push_with_number(text, b", tries ", explained.tries as u64)?;
    text.push(b'\n')?;
    Ok(())
}

/// Adds that a reason is only a guess, if so many authenticators were computed.
fn push_hedge(text: &mut Vec<u8>, explained: &Explained) -> Result<(), AllocError>
    ensures hedge { OnOk result (text.new.items ≡ text.old.items ++ hedge explained.now.reason explained.now.tries) }
    ensures room { AddsAtMost 8 text.old text.new result }
{
    if matches!(explained.reason, Reason::TooShort(_) | Reason::NoReason)
        || explained.tries <= CERTAIN
    {
        return Ok(());
    }
    text.extend_from_slice(b"perhaps ")
}

/// Adds the text of a reason.
fn push_reason(text: &mut Vec<u8>, reason: &Reason) -> Result<(), AllocError>
    ensures reason { OnOk result (text.new.items ≡ text.old.items ++ reason_text reason.now) }
    ensures room { AddsAtMost 180 text.old text.new result }
{
    match *reason {
        Reason::Replay(number) => push_with_number(text, b"replay of line ", number),
        Reason::UsedAgain(number) => {
            push_with_number(text, b"freshness used again: that of line ", number)
        }
        Reason::Behind(steps) => push_behind(text, steps),
        Reason::FarAhead(steps, window) => push_ahead(text, steps, window),
        Reason::OtherLength(size) => {
            push_with_number(text, b"verifies with a payload of ", size as u64)
        }
        Reason::OtherLine(number) => push_with_number(text, b"verifies as line ", number),
        Reason::OtherKey(number) => {
            push_with_number(text, b"verifies with the key of line ", number)
        }
        Reason::OtherId(number) => {
            push_with_number(text, b"verifies with the Data ID of line ", number)
        }
        Reason::SwappedId => {
            text.extend_from_slice(b"verifies with the Data ID's bytes in the other order")
        }
        Reason::SwappedFreshness => {
            text.extend_from_slice(b"verifies with the freshness's bytes in the other order")
        }
        Reason::NoId => text.extend_from_slice(b"verifies without the Data ID"),
        Reason::ShortFreshness => text.extend_from_slice(b"verifies with a freshness of 32 bits"),
        Reason::LastBytes => text.extend_from_slice(b"authenticator is the CMAC's last bytes"),
        Reason::ReversedTag => {
            text.extend_from_slice(b"authenticator's bytes are in the other order")
        }
        Reason::ReversedKey => {
            text.extend_from_slice(b"verifies with the key's bytes in the other order")
        }
        Reason::TrailerFirst => text.extend_from_slice(
            b"verifies with freshness and authenticator before the payload",
        ),
        Reason::OtherCover(size) => {
            push_with_number(
                text,
                b"authenticated length of the payload is ",
                size as u64,
            )
        }
        Reason::OtherLow(steps) => {
            push_with_number(text, b"freshness byte is another: ahead by ", steps as u64)
        }
        Reason::FlippedBit(byte, bit) => push_flipped(text, byte, bit),
        Reason::CanAsId => text.extend_from_slice(b"verifies with the CAN identifier as Data ID"),
        Reason::TooShort(size) => {
            push_with_number(text, b"too short for a payload of ", size as u64)
        }
        Reason::NoReason => text.extend_from_slice(b"no reason found: key, or contents"),
    }
}

/// Adds how far behind a freshness is that isn't in the log.
fn push_behind(text: &mut Vec<u8>, steps: usize) -> Result<(), AllocError>
    ensures behind { OnOk result (text.new.items ≡ text.old.items ++ reason_text (reason.Behind steps)) }
    ensures room { AddsAtMost 180 text.old text.new result }
{
    push_number(text, steps as u64)?;
    text.extend_from_slice(b" behind the last freshness")
}

/// Adds how far ahead a freshness is, and how many frames too many were missed before it.
fn push_ahead(text: &mut Vec<u8>, steps: usize, window: u16) -> Result<(), AllocError>
    ensures ahead { OnOk result (text.new.items ≡ text.old.items ++ ahead_text steps window) }
    ensures room { AddsAtMost 180 text.old text.new result }
{
    push_number(text, steps as u64)?;
    push_with_number(text, b" ahead: the window is ", u64::from(window))?;
    push_beyond(text, steps.saturating_sub(usize::from(window)))
}

/// Adds how many frames too many were missed.
fn push_beyond(text: &mut Vec<u8>, missed: usize) -> Result<(), AllocError>
    ensures beyond { OnOk result (text.new.items ≡ text.old.items ++ beyond_text missed) }
    ensures room { AddsAtMost 71 text.old text.new result }
{
    push_with_number(text, b", ", missed as u64)?;
    text.extend_from_slice(b" frames were missed beyond it")
}

/// Adds which bit of which byte is flipped.
fn push_flipped(text: &mut Vec<u8>, byte: usize, bit: usize) -> Result<(), AllocError>
    ensures flipped { OnOk result (text.new.items ≡ text.old.items ++ flipped_text byte bit) }
    ensures room { AddsAtMost 180 text.old text.new result }
{
    push_with_number(text, b"bit ", bit as u64)?;
    push_with_number(text, b" of byte ", byte as u64)?;
    text.extend_from_slice(b" is flipped")
}

/// Adds a text of at most 40 bytes and a number.
fn push_with_number(text: &mut Vec<u8>, words: &[u8], number: u64) -> Result<(), AllocError>
    requires { length words.now ≤ 40 }
    ensures text { OnOk result (text.new.items ≡ text.old.items ++ text_with_number words.now number) }
    ensures room { AddsAtMost (length words.now + 40) text.old text.new result }
{
    text.extend_from_slice(words)?;
    push_number(text, number)
}

/// Adds a number.
fn push_number(text: &mut Vec<u8>, number: u64) -> Result<(), AllocError>
    ensures number { OnOk result (text.new.items ≡ text.old.items ++ decimal number) }
    ensures room { AddsAtMost 40 text.old text.new result }
{
    let mut digits = Buffer::new();
    text.extend_from_slice(digits.format(number).as_bytes())
}
