//! Secured I-PDUs: made, in a buffer or in place, and verified.
ghost use Rattle.std.specs.Prelude.{◌≡◌, ◌≢◌, ◌↔◌, ◌+◌, ◌≤◌, length, take, drop};
ghost use Rattle.secured_pdu.specs.Frame.{IsWindow, Secured};
ghost use Rattle.secured_pdu.specs.Verdict.{Outcome, Verdict};
ghost use Rattle.secured_pdu.specs.Judged.{outcome_of};
ghost use Rattle.rathonsi_c.specs.Calls.{TakesProtect, TakesInPlace, FitsVerify, answer_to};
ghost use Rattle.rathonsi_c.specs.Routes.{no_verdict};

use crate::keys::schedule_of;
use crate::{BAD_LENGTH, BAD_VALUE, FRESHNESS_FAILURE, OK, VERIFICATION_FAILURE};
use secured_pdu::{Judgement, WIDEST_WINDOW, build, judge, split};

/// What a receiver says of a PDU.
#[derive(Clone, Copy, Debug, PartialEq, Eq)]
#[repr(C)]
pub struct RathonsiVerdict {
    /// `OK` if the PDU is accepted, else why it isn't.
    pub status: i32,
    /// The length in bytes of the payload, which stands at the beginning of the PDU; 0 if the PDU isn't accepted.
    pub payload_length: u32,
    /// The full freshness, which is the receiver's next counter; 0 if the PDU isn't accepted, except for the status
    /// RESERVE of `rathonsi_route_receive`, with which it is the freshness to reserve.
    pub freshness: u64,
}

/// Writes the Secured I-PDU of a payload of 1 to 60 bytes to the beginning of `pdu`, which has room for four bytes
/// more. With another length of key, payload or buffer it is `BAD_LENGTH`.
#[unsafe(no_mangle)]
pub extern "C" fn rathonsi_secoc_protect(
    key: &[u8],
    id: u16,
    freshness: u64,
    payload: &[u8],
    pdu: &mut [u8],
) -> i32
    ensures done { (result ≡ OK) ↔ TakesProtect key.now payload.now pdu.old }
    ensures bad_length { (result ≡ BAD_LENGTH) ↔ ¬ TakesProtect key.now payload.now pdu.old }
    ensures secured { result ≡ OK → Secured key.now id payload.now freshness (take (length payload.now + 4) pdu.new) }
    ensures rest { result ≡ OK → drop (length payload.now + 4) pdu.new ≡ drop (length payload.now + 4) pdu.old }
    ensures unchanged { result ≢ OK → pdu.new ≡ pdu.old }
{
    let Some(schedule) = schedule_of(key) else {
        return BAD_LENGTH;
    };
    let mut frame = [0; 64];
    let Some(size) = build(&schedule, id, payload, freshness, &mut frame) else {
        return BAD_LENGTH;
    };
    if pdu.len() < size {
        return BAD_LENGTH;
    }
    pdu[..size].copy_from_slice(&frame[..size]);
    OK
}

/// Makes the Secured I-PDU of the payload that stands in the first `payload_length` bytes of `pdu`, in place. Lengths
/// as for [`rathonsi_secoc_protect`].
#[unsafe(no_mangle)]
pub extern "C" fn rathonsi_secoc_protect_in_place(
    key: &[u8],
    id: u16,
    freshness: u64,
    pdu: &mut [u8],
    payload_length: usize,
) -> i32
    ensures done { (result ≡ OK) ↔ TakesInPlace key.now payload_length pdu.old }
    ensures bad_length { (result ≡ BAD_LENGTH) ↔ ¬ TakesInPlace key.now payload_length pdu.old }
    ensures secured { result ≡ OK
        → Secured key.now id (take payload_length pdu.old) freshness (take (payload_length + 4) pdu.new) }
    ensures rest { result ≡ OK → drop (payload_length + 4) pdu.new ≡ drop (payload_length + 4) pdu.old }
    ensures unchanged { result ≢ OK → pdu.new ≡ pdu.old }
{
    let Some(schedule) = schedule_of(key) else {
        return BAD_LENGTH;
    };
    if payload_length > 60 || pdu.len() < payload_length + 4 {
        return BAD_LENGTH;
    }
    let mut frame = [0; 64];
    let Some(size) = build(&schedule, id, &pdu[..payload_length], freshness, &mut frame) else {
        return BAD_LENGTH;
    };
    pdu[..size].copy_from_slice(&frame[..size]);
    OK
}

/// Says what a receiver with this counter and a window of 1 to 256 says of a PDU of 5 to 64 bytes. With another length
/// of key or PDU it is `BAD_LENGTH`, and else with another window `BAD_VALUE`. What is accepted has its payload at its
/// beginning.
#[unsafe(no_mangle)]
pub extern "C" fn rathonsi_secoc_verify(
    key: &[u8],
    id: u16,
    counter: u64,
    window: u16,
    pdu: &[u8],
) -> RathonsiVerdict
    ensures bad_length { (result.status ≡ BAD_LENGTH) ↔ ¬ FitsVerify key.now pdu.now }
    ensures bad_value { (result.status ≡ BAD_VALUE) ↔ (FitsVerify key.now pdu.now × ¬ IsWindow window) }
    ensures verdict { FitsVerify key.now pdu.now → IsWindow window
        → (outcome : Outcome) × Verdict key.now id counter window pdu.now outcome × (result ≡ answer_to outcome) }
    ensures nothing { ¬ (FitsVerify key.now pdu.now × IsWindow window)
        → (result.payload_length ≡ 0) × (result.freshness ≡ 0) }
{
    let Some(schedule) = schedule_of(key) else {
        return refusal(BAD_LENGTH);
    };
    let Some(parts) = split(pdu) else {
        return refusal(BAD_LENGTH);
    };
    if window == 0 || window > WIDEST_WINDOW {
        return refusal(BAD_VALUE);
    }
    let judgement = judge(&schedule, id, counter, window, &parts);
    answer(judgement, parts.payload)
}

// The answer with this status that tells nothing of a PDU.
pub(crate) fn refusal(status: i32) -> RathonsiVerdict
    ensures status { result.status ≡ status }
    ensures payload_length { result.payload_length ≡ 0 }
    ensures freshness { result.freshness ≡ 0 }
    ensures value { result ≡ no_verdict status }
{
    RathonsiVerdict {
        status,
        payload_length: 0,
        freshness: 0,
    }
}

// The judgement on a PDU with this payload, as a struct.
fn answer(judgement: Judgement, payload: &[u8]) -> RathonsiVerdict
    requires { length payload.now ≤ 60 }
    ensures { result ≡ answer_to (outcome_of payload.now judgement) }
{
    match judgement {
        Judgement::Accepted(freshness) => RathonsiVerdict {
            status: OK,
            payload_length: payload.len() as u32,
            freshness,
        },
        Judgement::FreshnessFailure => refusal(FRESHNESS_FAILURE),
        Judgement::VerificationFailure => refusal(VERIFICATION_FAILURE),
    }
}
