//! Lines that are written.

ghost use Rattle.std.specs.Prelude.{◌≡◌, [], ◌∷◌, ◌++◌, Option, Some, None, OnOk};
ghost use Rattle.key_campaign.specs.declared.lines.LedgerLine.TheVariants.{Issued, Shown, Refused};
ghost use Rattle.text_lines.specs.Spaced.{spaced};
ghost use Rattle.campaign_commands.specs.LedgerTexts.{ledger_line_text, ledger_words};

use key_campaign::{LedgerLine, LedgerRefusal};
use key_slots::Counter28;
use memory_update::Request;
use std::alloc::AllocError;
use text_lines::pushing::{
    begin_line, end_line, push_digits, push_hex, push_number, push_numbered, push_word,
};

/// Appends the text of the line with this number, from 1: the number in decimal digits, the words of the line with a
/// space before each, and a line feed. M1, M2 and M3 have two digits a byte, in lower case. Without memory nothing is
/// said of `text`.
pub fn push_ledger_line(
    text: &mut Vec<u8>,
    number: u32,
    line: &LedgerLine,
) -> Result<(), AllocError>
    ensures { OnOk result (text.new.items ≡ text.old.items ++ ledger_line_text number line.now) }
{
    begin_line(text, number)?;
    push_ledger_words(text, line)?;
    end_line(text)
}

// Adds the words of a line after its number.
fn push_ledger_words(text: &mut Vec<u8>, line: &LedgerLine) -> Result<(), AllocError>
    ensures { OnOk result (text.new.items ≡ text.old.items ++ spaced (ledger_words line.now)) }
{
    match line {
        LedgerLine::Issued { counter, request } => push_issued(text, *counter, request),
        LedgerLine::Confirmed(counter) => push_numbered(text, b"confirmed", counter.number()),
        LedgerLine::Shown(told) => push_shown(text, *told),
        LedgerLine::Up => push_word(text, b"up"),
        LedgerLine::Armed => push_word(text, b"armed"),
        LedgerLine::Refused(refusal) => push_ledger_refusal(text, refusal),
    }
}

fn push_issued(text: &mut Vec<u8>, counter: Counter28, request: &Request) -> Result<(), AllocError>
    ensures { OnOk result (text.new.items ≡ text.old.items ++ spaced (ledger_words (Issued counter request.now))) }
{
    let [first, second] = &request.m2;
    push_word(text, b"issued")?;
    push_number(text, counter.number())?;
    push_hex(text, request.m1.bytes())?;
    push_hex(text, first.bytes())?;
    push_digits(text, second.bytes())?;
    push_hex(text, request.m3.bytes())
}

fn push_shown(text: &mut Vec<u8>, told: Option<(Counter28, bool)>) -> Result<(), AllocError>
    ensures { OnOk result (text.new.items ≡ text.old.items ++ spaced (ledger_words (Shown told))) }
{
    match told {
        None => push_word(text, b"none"),
        Some((counter, true)) => push_numbered(text, b"confirmed", counter.number()),
        Some((counter, false)) => push_numbered(text, b"issued", counter.number()),
    }
}

fn push_ledger_refusal(text: &mut Vec<u8>, refusal: &LedgerRefusal) -> Result<(), AllocError>
    ensures { OnOk result (text.new.items ≡ text.old.items ++ spaced (ledger_words (Refused refusal.now))) }
{
    push_word(text, b"refused")?;
    match refusal {
        LedgerRefusal::Down => push_word(text, b"Down"),
        LedgerRefusal::BadPair => push_word(text, b"BadPair"),
        LedgerRefusal::Full => push_word(text, b"Full"),
        LedgerRefusal::Spent => push_word(text, b"Spent"),
        LedgerRefusal::Unknown => push_word(text, b"Unknown"),
        LedgerRefusal::AlreadyConfirmed => push_word(text, b"AlreadyConfirmed"),
        LedgerRefusal::NotConfirmed => push_word(text, b"NotConfirmed"),
        LedgerRefusal::MemoryFailure => push_word(text, b"MEMORY_FAILURE"),
        LedgerRefusal::NotFormatted => push_word(text, b"NotFormatted"),
        LedgerRefusal::Damaged(cell) => push_numbered(text, b"Damaged", u32::from(*cell)),
        LedgerRefusal::BadEntry(cell) => push_numbered(text, b"BadEntry", u32::from(*cell)),
    }
}
