//! The label of a row: what stands beside its mark.
ghost use Rattle.std.specs.Prelude.{◌≡◌, ◌%◌, ◌++◌, codes, OnOk};
ghost use Rattle.basics.specs.Numbers.{bytes_of};
ghost use Rattle.hex.specs.Hex.{encode_lower};
ghost use Rattle.bus_script.specs.LineTexts.{boot_word};
ghost use Rattle.bus_script.specs.Canon.{torn_word};
ghost use Rattle.chart_commands.specs.Labels.{label_text, sent_label, accepted_label, delivered_label, up_label, armed_label};

use bus_machine::{Event, Line};
use bus_script::words::{push_id, push_refusal};
use cut_disk::Torn;
use std::alloc::AllocError;
use text_lines::pushing::{push_digits, push_number};

/// Adds the label of an event and its line: letters, digits, spaces, `.`, `,` and `_`.
pub(crate) fn push_label(text: &mut Vec<u8>, event: &Event, line: &Line) -> Result<(), AllocError>
    ensures { OnOk result (text.new.items ≡ text.old.items ++ label_text event.now line.now) }
{
    match line {
        Line::Sent { id, freshness, .. } => push_sent(text, *id, *freshness),
        Line::Accepted { id, from, .. } => push_accepted(text, *id, *from),
        Line::FreshnessFailure => push_failure(text, b"FRESHNESSFAILURE", event),
        Line::VerificationFailure => push_failure(text, b"VERIFICATIONFAILURE", event),
        Line::Keyed { slot } => {
            text.extend_from_slice(b"keyed")?;
            push_number(text, u32::from(slot.number()))
        }
        Line::Loaded { .. } => text.extend_from_slice(b"loaded"),
        Line::Boot { good } => push_boot(text, *good),
        Line::Up => push_up(text, event),
        Line::Armed => push_armed(text, event),
        Line::NoFrame => text.extend_from_slice(b"no frame"),
        Line::Refused(refusal) => {
            text.extend_from_slice(b"refused")?;
            push_refusal(text, refusal)
        }
    }
}

// The Data ID, and the last four digits of the freshness.
fn push_sent(text: &mut Vec<u8>, id: u16, freshness: u64) -> Result<(), AllocError>
    ensures { OnOk result (text.new.items ≡ text.old.items ++ sent_label id freshness) }
{
    text.extend_from_slice(b"sent")?;
    push_id(text, id)?;
    text.extend_from_slice(b" ..")?;
    push_low(text, freshness)?;
    Ok(())
}

// The last four digits of a freshness.
fn push_low(text: &mut Vec<u8>, freshness: u64) -> Result<(), AllocError>
    ensures { OnOk result (text.new.items ≡ text.old.items ++ encode_lower (bytes_of 2 (freshness % 65536))) }
{
    let low = (freshness % 65_536) as u16;
    push_digits(text, &low.to_be_bytes())
}

// A verdict that failed, and the number of the event whose PDU was delivered.
fn push_failure(text: &mut Vec<u8>, name: &[u8], event: &Event) -> Result<(), AllocError>
    ensures { OnOk result (text.new.items ≡ text.old.items ++ (name.now ++ delivered_label event.now)) }
{
    text.extend_from_slice(name)?;
    push_delivered(text, event)?;
    Ok(())
}

// The Data ID, and the number of the event that sent it.
fn push_accepted(text: &mut Vec<u8>, id: u16, from: Option<u32>) -> Result<(), AllocError>
    ensures { OnOk result (text.new.items ≡ text.old.items ++ accepted_label id from) }
{
    text.extend_from_slice(b"accepted")?;
    push_id(text, id)?;
    text.extend_from_slice(b" from")?;
    match from {
        Some(number) => push_number(text, number),
        None => text.extend_from_slice(b" none"),
    }
}

// The number of the event whose PDU was delivered.
fn push_delivered(text: &mut Vec<u8>, event: &Event) -> Result<(), AllocError>
    ensures { OnOk result (text.new.items ≡ text.old.items ++ delivered_label event.now) }
{
    match event {
        Event::Deliver { event: number, .. } => {
            text.extend_from_slice(b" of")?;
            push_number(text, *number)
        }
        _ => Ok(()),
    }
}

// How a boot was decided.
fn push_boot(text: &mut Vec<u8>, good: bool) -> Result<(), AllocError>
    ensures { OnOk result (text.new.items ≡ text.old.items ++ (codes "boot " ++ boot_word good)) }
{
    if good {
        text.extend_from_slice(b"boot ok")
    } else {
        text.extend_from_slice(b"boot wrong")
    }
}

// What the cut left of loose bytes, and that the node is up.
fn push_up(text: &mut Vec<u8>, event: &Event) -> Result<(), AllocError>
    ensures { OnOk result (text.new.items ≡ text.old.items ++ up_label event.now) }
{
    match event {
        Event::Cut { torn, .. } => {
            text.extend_from_slice(b"cut ")?;
            push_torn(text, *torn)?;
            text.extend_from_slice(b", up")
        }
        _ => text.extend_from_slice(b"up"),
    }
}

// What a cut leaves, as a word.
fn push_torn(text: &mut Vec<u8>, torn: Torn) -> Result<(), AllocError>
    ensures { OnOk result (text.new.items ≡ text.old.items ++ torn_word torn) }
{
    match torn {
        Torn::Keep => text.extend_from_slice(b"keep"),
        Torn::Old => text.extend_from_slice(b"old"),
        Torn::Half => text.extend_from_slice(b"half"),
        Torn::Fill(byte) => push_digits(text, &[byte]),
    }
}

// The failure that was armed, and the number of its call.
fn push_armed(text: &mut Vec<u8>, event: &Event) -> Result<(), AllocError>
    ensures { OnOk result (text.new.items ≡ text.old.items ++ armed_label event.now) }
{
    match event {
        Event::Stop { calls, .. } => {
            text.extend_from_slice(b"armed stop")?;
            push_number(text, *calls)
        }
        Event::Fail { calls, .. } => {
            text.extend_from_slice(b"armed fail")?;
            push_number(text, *calls)
        }
        _ => text.extend_from_slice(b"armed"),
    }
}
