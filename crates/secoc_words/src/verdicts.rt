//! The printed texts of verdicts, in lower-case digits. Each call adds to a text; without memory nothing is said of the
//! text. In room that the text has already none is taken.

ghost use Rattle.std.specs.Prelude.{◌≡◌, ◌+◌, ◌*◌, ◌++◌, length, OnOk};
ghost use Rattle.secured_pdu.specs.Judged.{outcome_of};
ghost use Rattle.secured_pdu.specs.Verdict.{Accepted};
ghost use Rattle.text_lines.specs.Room.{AddsAtMost};
ghost use Rattle.secoc_words.specs.Texts.{outcome_text, bad_length_text};

use secured_pdu::Judgement;
use std::alloc::AllocError;
use text_lines::pushing::push_digits;

/// Adds the text of what was judged of a PDU with this payload.
pub fn push_outcome(
    text: &mut Vec<u8>,
    payload: &[u8],
    judgement: &Judgement,
) -> Result<(), AllocError>
    ensures outcome { OnOk result
        (text.new.items ≡ text.old.items ++ outcome_text (outcome_of payload.now judgement.now)) }
    ensures room { AddsAtMost (38 + 2 * length payload.now) text.old text.new result }
{
    match judgement {
        Judgement::Accepted(freshness) => push_accepted(text, payload, *freshness),
        Judgement::FreshnessFailure => text.extend_from_slice(b"FRESHNESSFAILURE\n"),
        Judgement::VerificationFailure => text.extend_from_slice(b"VERIFICATIONFAILURE\n"),
    }
}

// Adds the text of an accepted PDU.
fn push_accepted(text: &mut Vec<u8>, payload: &[u8], freshness: u64) -> Result<(), AllocError>
    ensures outcome { OnOk result (text.new.items ≡ text.old.items ++ outcome_text (Accepted payload.now freshness)) }
    ensures room { AddsAtMost (38 + 2 * length payload.now) text.old text.new result }
{
    text.extend_from_slice(b"VERIFICATIONSUCCESS ")?;
    push_digits(text, &freshness.to_be_bytes())?;
    text.push(b' ')?;
    push_digits(text, payload)?;
    text.push(b'\n')?;
    Ok(())
}

/// Adds the text for a PDU of a length that no frame has.
pub fn push_bad_length(text: &mut Vec<u8>) -> Result<(), AllocError>
    ensures length { OnOk result (text.new.items ≡ text.old.items ++ bad_length_text) }
    ensures room { AddsAtMost 10 text.old text.new result }
{
    text.extend_from_slice(b"BadLength\n")
}
