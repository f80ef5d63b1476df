//! What came of events, written as lines.

ghost use Rattle.std.specs.Prelude.{◌≡◌, [], ◌∷◌, ◌++◌, codes, OnOk, OnErr};
ghost use Rattle.bus_machine.specs.declared.lines.Line.TheVariants.{Sent, Accepted, Loaded, Boot, Refused};
ghost use Rattle.bus_script.specs.LineTexts.{line_text, told_words, source_word};
ghost use Rattle.text_lines.specs.Room.{AddsAtMost};
ghost use Rattle.text_lines.specs.Spaced.{spaced};

use crate::pushing::{push_hex, push_numbered, push_word};
use crate::words::{push_freshness, push_id, push_refusal};
use basics::Pdu;
use bus_machine::{Line, Refusal};
use memory_update::Reply;
use std::alloc::{AllocError, Global};
use text_lines::Memory;
use text_lines::pushing::{begin_line, end_line, push_digits};

/// Appends the text of the line with this number, from 1: the number in decimal digits, the words of the line with a
/// space before each, and a line feed.
///
/// Data IDs have four digits, freshness 16, and bytes two each, the highest byte first and in lower case. Without
/// memory `out` is as before.
pub fn write_line(alloc: Global, number: u32, line: &Line, out: &mut Vec<u8>) -> Result<(), Memory>
    ensures appended { OnOk result (out.new.items ≡ out.old.items ++ line_text number line.now) }
    ensures as_before { OnErr result (out.new.items ≡ out.old.items) }
{
    let mut text = Vec::new(alloc);
    push_line(&mut text, number, line)?;
    out.extend_from_slice(text.as_slice())?;
    Ok(())
}

/// Appends the same text in the room of `text`. Without memory nothing is said of it.
pub fn push_line(text: &mut Vec<u8>, number: u32, line: &Line) -> Result<(), AllocError>
    ensures { OnOk result (text.new.items ≡ text.old.items ++ line_text number line.now) }
{
    begin_line(text, number)?;
    push_told(text, line)?;
    end_line(text)
}

/// Adds the words of a line, as they stand after its number. With room for 250 bytes it takes no memory.
pub fn push_told(text: &mut Vec<u8>, line: &Line) -> Result<(), AllocError>
    ensures added { OnOk result (text.new.items ≡ text.old.items ++ spaced (told_words line.now)) }
    ensures room { AddsAtMost 250 text.old text.new result }
{
    match line {
        Line::Sent { id, freshness, pdu } => push_sent(text, *id, *freshness, pdu),
        Line::Accepted {
            id,
            freshness,
            payload,
            from,
        } => push_accepted(text, *id, *freshness, payload, *from),
        Line::FreshnessFailure => push_word(text, b"FRESHNESSFAILURE"),
        Line::VerificationFailure => push_word(text, b"VERIFICATIONFAILURE"),
        Line::Keyed { slot } => push_numbered(text, b"keyed", u64::from(slot.number())),
        Line::Loaded { reply } => push_loaded(text, reply),
        Line::Boot { good } => push_boot(text, *good),
        Line::Up => push_word(text, b"up"),
        Line::Armed => push_word(text, b"armed"),
        Line::NoFrame => push_word(text, b"no frame"),
        Line::Refused(refusal) => push_refused(text, refusal),
    }
}

fn push_sent(text: &mut Vec<u8>, id: u16, freshness: u64, pdu: &Pdu) -> Result<(), AllocError>
    ensures added { OnOk result
        (text.new.items ≡ text.old.items ++ spaced (told_words (Sent id freshness pdu.now))) }
    ensures room { AddsAtMost 156 text.old text.new result }
{
    push_word(text, b"sent")?;
    push_id(text, id)?;
    push_freshness(text, freshness)?;
    push_hex(text, pdu.bytes())?;
    Ok(())
}

fn push_accepted(
    text: &mut Vec<u8>,
    id: u16,
    freshness: u64,
    payload: &Pdu,
    from: Option<u32>,
) -> Result<(), AllocError>
    ensures added { OnOk result
        (text.new.items ≡ text.old.items ++ spaced (told_words (Accepted id freshness payload.now from))) }
    ensures room { AddsAtMost 207 text.old text.new result }
{
    push_word(text, b"accepted")?;
    push_id(text, id)?;
    push_freshness(text, freshness)?;
    push_hex(text, payload.bytes())?;
    push_source(text, from)?;
    Ok(())
}

fn push_source(text: &mut Vec<u8>, from: Option<u32>) -> Result<(), AllocError>
    ensures added { OnOk result
        (text.new.items ≡ text.old.items ++ spaced (codes "from" ∷ source_word from ∷ [])) }
    ensures room { AddsAtMost 46 text.old text.new result }
{
    match from {
        Some(event) => push_numbered(text, b"from", u64::from(event)),
        None => push_word(text, b"from none"),
    }
}

fn push_loaded(text: &mut Vec<u8>, reply: &Reply) -> Result<(), AllocError>
    ensures added { OnOk result (text.new.items ≡ text.old.items ++ spaced (told_words (Loaded reply.now))) }
    ensures room { AddsAtMost 105 text.old text.new result }
{
    let [first, second] = &reply.m4;
    push_word(text, b"loaded")?;
    push_hex(text, first.bytes())?;
    push_digits(text, second.bytes())?;
    push_hex(text, reply.m5.bytes())
}

fn push_boot(text: &mut Vec<u8>, good: bool) -> Result<(), AllocError>
    ensures added { OnOk result (text.new.items ≡ text.old.items ++ spaced (told_words (Boot good))) }
    ensures room { AddsAtMost 11 text.old text.new result }
{
    if good {
        push_word(text, b"boot ok")
    } else {
        push_word(text, b"boot wrong")
    }
}

fn push_refused(text: &mut Vec<u8>, refusal: &Refusal) -> Result<(), AllocError>
    ensures added { OnOk result (text.new.items ≡ text.old.items ++ spaced (told_words (Refused refusal.now))) }
    ensures room { AddsAtMost 58 text.old text.new result }
{
    push_word(text, b"refused")?;
    push_refusal(text, refusal)
}
