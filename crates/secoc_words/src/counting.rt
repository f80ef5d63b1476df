//! One verdict.
ghost use Rattle.std.specs.Prelude.{OnOk};
ghost use Rattle.secured_pdu.specs.Frame.{IsFrame, IsWindow};
ghost use Rattle.text_lines.specs.Room.{AddsAtMost};
ghost use Rattle.secoc_words.specs.Counting.{AddsVerdict};

use crate::verdicts::{push_bad_length, push_outcome};
use secured_pdu::{Judgement, judge, split};
use she_aes::Schedule;
use std::alloc::AllocError;

/// Adds the text of the verdict on a Secured I-PDU of 5 to 64 bytes under this schedule's key. The receiver has this
/// Data ID, window (1 to 256) and counter. If it is accepted, the counter is its freshness. In room for 158 bytes no
/// memory is taken.
pub fn push_verdict(
    schedule: &Schedule,
    id: u16,
    window: u16,
    counter: &mut u64,
    pdu: &[u8],
    text: &mut Vec<u8>,
) -> Result<(), AllocError>
    requires window { IsWindow window }
    requires frame { IsFrame pdu.now }
    ensures verdict { OnOk result (AddsVerdict schedule.now id window counter.old counter.new pdu.now
        text.old.items text.new.items) }
    ensures room { AddsAtMost 158 text.old text.new result }
{
    let Some(parts) = split(pdu) else {
        return push_bad_length(text);
    };
    let judgement = judge(schedule, id, *counter, window, &parts);
    if let Judgement::Accepted(freshness) = judgement {
        *counter = freshness;
    }
    push_outcome(text, parts.payload, &judgement)
}
