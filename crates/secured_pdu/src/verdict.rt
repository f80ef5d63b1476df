//! The verdict on a received PDU.
ghost use Rattle.std.specs.Prelude.{◌≡◌, ℕ, ◌∷◌, ◌++◌};
ghost use Rattle.secured_pdu.specs.Frame.{IsPayload, IsWindow};
ghost use Rattle.secured_pdu.specs.Verdict.{Verdict};
ghost use Rattle.secured_pdu.specs.Judged.{outcome_of};

use crate::candidate::candidate_of;
use crate::frame::{Parts, input_mac, tag_of};
use she_cmac::Schedule;

/// What a receiver says of a PDU.
#[derive(Clone, Copy, Debug, PartialEq, Eq)]
pub enum Judgement {
    /// The PDU is authentic with this freshness, which is the receiver's next counter.
    Accepted(u64),
    /// No freshness within the window has the low byte of the PDU.
    FreshnessFailure,
    /// The three bytes of the PDU are not those of the authenticator.
    VerificationFailure,
}

/// The verdict on the PDU of these parts, by a receiver with this counter and window. A window is 1 to 256.
pub fn judge(
    schedule: &Schedule,
    id: u16,
    counter: u64,
    window: u16,
    parts: &Parts<'_>,
) -> Judgement
    requires window { IsWindow window }
    requires payload { IsPayload parts.now.payload.now }
    ensures { let frame = parts.now.payload.now ++ parts.now.low ∷ parts.now.tag
        in Verdict schedule.now id counter window frame (outcome_of parts.now.payload.now result) }
{
    let Some(freshness) = candidate_of(counter, window, parts.low) else {
        return Judgement::FreshnessFailure;
    };
    let tag = tag_of(&input_mac(schedule, id, parts.payload, freshness));
    if tag == parts.tag {
        Judgement::Accepted(freshness)
    } else {
        Judgement::VerificationFailure
    }
}
