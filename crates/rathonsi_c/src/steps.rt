//! A send and a receive in two steps, for a unit whose keys lie outside the store: the input of the MAC comes out, and
//! the MAC goes in.
ghost use Rattle.std.specs.Prelude.{◌≡◌, ◌≢◌, ◌+◌, ◌↔◌, length, take, drop, IfOk, IfErr, OnOk, IsTrue};
ghost use Rattle.freshness_routes.specs.declared.routes.Direction.TheVariants.{Sends, Receives};
ghost use Rattle.secured_pdu.specs.Frame.{Ahead, IsPayload};
ghost use Rattle.secured_pdu.specs.declared.verdict.Judgement.TheVariants.{Accepted, VerificationFailure};
ghost use Rattle.rathonsi_c.specs.Causes.{IfCause};
ghost use Rattle.rathonsi_c.specs.Images.{ImageBound};
ghost use Rattle.rathonsi_c.specs.Routes.{InUse, BoundCovers, RouteAdvances, status_alone};
ghost use Rattle.rathonsi_c.specs.Steps.{BoundAnswers, NextRefused, CandidateRefused};
ghost use Rattle.rathonsi_c.specs.Steps.{SendInputAnswers, InputOf, SendMacAnswers, SentWith};
ghost use Rattle.rathonsi_c.specs.Steps.{ReceiveInputAnswers, CandidateOf, ReceiveMacAnswers};

use crate::opened::{is_open, move_counter};
use crate::route::{RathonsiRoute, answer, bound_of, direction_of};
use crate::secoc::{RathonsiVerdict, refusal as no_verdict};
use crate::{BAD_LENGTH, BAD_VALUE, EXHAUSTED, FRESHNESS_FAILURE, OK, RESERVE};
use freshness_store::Direction;
use secured_pdu::{Judgement, Parts, assemble, candidate_of, input_bytes, split};
use she_aes::Block;

/// What the MAC of a PDU covers.
#[derive(Clone, Copy)]
#[repr(C)]
pub struct RathonsiInput {
    /// The full freshness of the PDU.
    pub freshness: u64,
    /// How many of the bytes are the input, 11 to 70.
    pub size: u16,
    /// The Data ID, the payload and the freshness, and zeros after them.
    pub bytes: [u8; 70],
}

// The input of this Data ID, payload and freshness.
fn input_of(id: u16, payload: &[u8], freshness: u64) -> RathonsiInput
    requires { IsPayload payload.now }
    ensures { InputOf id payload.now freshness result }
{
    let mut bytes = [0; 70];
    let size = input_bytes(id, payload, freshness, &mut bytes);
    RathonsiInput {
        freshness,
        size: size as u16,
        bytes,
    }
}

// Whether this is the input of this Data ID, payload and freshness.
fn is_input(input: &RathonsiInput, id: u16, payload: &[u8], freshness: u64) -> bool
    requires { IsPayload payload.now }
    ensures { IsTrue result ↔ InputOf id payload.now freshness input.now }
{
    let wanted = input_of(id, payload, freshness);
    if input.freshness != freshness || input.size != wanted.size {
        return false;
    }
    input.bytes == wanted.bytes
}

/// The bound of a route that is open in this direction, or the status of why there is none.
pub fn bound_ready(route: &RathonsiRoute, wanted: Direction, image: &[u8]) -> Result<u64, i32>
    ensures in_use { OnOk result (InUse route.now wanted) }
    ensures kept { IfOk result (ImageBound image.now route.now.cell route.now.data_id wanted) }
    ensures refused { IfErr result (BoundAnswers status_alone route.now wanted image.now (λ _. ⊥)) }
{
    let Some(direction) = direction_of(route) else {
        return Err(BAD_VALUE);
    };
    if direction != wanted || !is_open(route) {
        return Err(BAD_VALUE);
    }
    match bound_of(route, wanted, image) {
        Ok(bound) => Ok(bound),
        Err(refusal) => Err(refusal.status()),
    }
}

/// The freshness that a route sends next, or the status of why there is none.
pub fn next_freshness(route: &RathonsiRoute, image: &[u8]) -> Result<u64, i32>
    ensures in_use { OnOk result (InUse route.now Sends) }
    ensures next { IfOk result (λ v. v ≡ route.now.counter + 1) }
    ensures covered { IfOk result (BoundCovers route.now image.now Sends) }
    ensures refused { IfErr result (NextRefused route.now image.now) }
{
    let bound = match bound_ready(route, Direction::Sends, image) {
        Ok(bound) => bound,
        Err(status) => return Err(status),
    };
    let Some(freshness) = route.counter.checked_add(1) else {
        return Err(EXHAUSTED);
    };
    if freshness > bound {
        return Err(RESERVE);
    }
    Ok(freshness)
}

/// Writes what the MAC of the next PDU with this payload is to cover. Nothing is sent yet. `BAD_LENGTH`, `BAD_VALUE`,
/// `WRONG_CELL`, `DAMAGED` (of its own cell alone), `EXHAUSTED`, `RESERVE`, as `rathonsi_route_send` has them.
#[unsafe(no_mangle)]
pub extern "C" fn rathonsi_send_input(
    route: &RathonsiRoute,
    image: &[u8],
    payload: &[u8],
    input: &mut RathonsiInput,
) -> i32
    ensures answer { SendInputAnswers route.now image.now payload.now result }
    ensures told { result ≡ OK → InputOf route.now.data_id payload.now (route.now.counter + 1) input.new }
    ensures unchanged { result ≢ OK → input.new ≡ input.old }
{
    if payload.is_empty() || payload.len() > 60 {
        return BAD_LENGTH;
    }
    if route.freshness_only == 1 {
        return BAD_VALUE;
    }
    match next_freshness(route, image) {
        Ok(freshness) => {
            *input = input_of(route.data_id, payload, freshness);
            OK
        }
        Err(status) => status,
    }
}

/// Writes the PDU of this payload with this MAC, of which the caller says that it is the MAC of the input under the key
/// of the route, to the beginning of `pdu`. Its freshness becomes the counter. Answers in this order: `BAD_LENGTH`,
/// `BAD_VALUE`, `WRONG_CELL`, `DAMAGED`, `EXHAUSTED`, `RESERVE`, `BAD_VALUE` (the input isn't that of the next PDU with
/// this payload).
#[unsafe(no_mangle)]
pub extern "C" fn rathonsi_send_mac(
    route: &mut RathonsiRoute,
    image: &[u8],
    payload: &[u8],
    input: &RathonsiInput,
    mac: &[u8; 16],
    pdu: &mut [u8],
) -> i32
    ensures answer { SendMacAnswers route.old image.now payload.now input.now pdu.old result }
    ensures sent { result ≡ OK → SentWith route.old payload.now mac.now (take (length payload.now + 4) pdu.new) }
    ensures rest { result ≡ OK → drop (length payload.now + 4) pdu.new ≡ drop (length payload.now + 4) pdu.old }
    ensures counted { result ≡ OK → RouteAdvances Sends route.old image.now (route.old.counter + 1) route.new }
    ensures unchanged { result ≢ OK → (route.new ≡ route.old) × (pdu.new ≡ pdu.old) }
{
    if payload.is_empty() || payload.len() > 60 || pdu.len() < payload.len() + 4 {
        return BAD_LENGTH;
    }
    if route.freshness_only == 1 {
        return BAD_VALUE;
    }
    let freshness = match next_freshness(route, image) {
        Ok(freshness) => freshness,
        Err(status) => return status,
    };
    if !is_input(input, route.data_id, payload, freshness) {
        return BAD_VALUE;
    }
    let mut frame = [0; 64];
    let size = assemble(payload, freshness, &Block::of(*mac), &mut frame);
    pdu[..size].copy_from_slice(&frame[..size]);
    move_counter(route, freshness);
    OK
}

// The freshness that a PDU can have alone, and the bound of its route.
#[derive(Clone, Copy)]
struct Candidate {
    freshness: u64,
    bound: u64,
}

// The same of a PDU of these parts, or the status of why there is none.
fn candidate_on(route: &RathonsiRoute, image: &[u8], parts: &Parts<'_>) -> Result<Candidate, i32>
    ensures in_use { OnOk result (InUse route.now Receives) }
    ensures kept { IfOk result (λ c. ImageBound image.now route.now.cell route.now.data_id Receives c.bound) }
    ensures ahead { IfOk result (λ c. Ahead route.now.counter route.now.window parts.now.low c.freshness) }
    ensures refused { IfErr result (CandidateRefused route.now image.now parts.now.low) }
{
    let bound = match bound_ready(route, Direction::Receives, image) {
        Ok(bound) => bound,
        Err(status) => return Err(status),
    };
    match candidate_of(route.counter, route.window, parts.low) {
        Some(freshness) => Ok(Candidate { freshness, bound }),
        None => Err(FRESHNESS_FAILURE),
    }
}

/// Writes what the MAC of this PDU is to cover, if it is authentic. `BAD_LENGTH`, `BAD_VALUE`, `WRONG_CELL`, `DAMAGED`
/// (of its own cell alone), `FRESHNESS_FAILURE`, as `rathonsi_route_receive` has them.
#[unsafe(no_mangle)]
pub extern "C" fn rathonsi_receive_input(
    route: &RathonsiRoute,
    image: &[u8],
    pdu: &[u8],
    input: &mut RathonsiInput,
) -> i32
    ensures answer { ReceiveInputAnswers route.now image.now pdu.now result }
    ensures told { result ≡ OK → CandidateOf route.now pdu.now input.new }
    ensures unchanged { result ≢ OK → input.new ≡ input.old }
{
    let Some(parts) = split(pdu) else {
        return BAD_LENGTH;
    };
    if route.freshness_only == 1 {
        return BAD_VALUE;
    }
    match candidate_on(route, image, &parts) {
        Ok(Candidate { freshness, .. }) => {
            *input = input_of(route.data_id, parts.payload, freshness);
            OK
        }
        Err(status) => status,
    }
}

// The judgement on a PDU with this authenticator and the one freshness that it can have, by this MAC.
fn judge_by(mac: &[u8; 16], tag: &[u8; 3], freshness: u64) -> Judgement
    ensures { IfCause (tag.now ≡ take 3 mac.now) (Accepted freshness) (λ other. other ≡ VerificationFailure) result }
{
    let [first, second, third, ..] = *mac;
    if [first, second, third] == *tag {
        Judgement::Accepted(freshness)
    } else {
        Judgement::VerificationFailure
    }
}

/// Judges this PDU by this MAC, of which the caller says that it is the MAC of the input under the key of the route.
/// Answers as `rathonsi_route_receive`, but for those of the slot; also `BAD_VALUE`, after `FRESHNESS_FAILURE`: the
/// input isn't that of this PDU.
#[unsafe(no_mangle)]
pub extern "C" fn rathonsi_receive_mac(
    route: &mut RathonsiRoute,
    image: &[u8],
    pdu: &[u8],
    input: &RathonsiInput,
    mac: &[u8; 16],
) -> RathonsiVerdict
    ensures answer { ReceiveMacAnswers route.old image.now pdu.now input.now mac.now result }
    ensures counted { result.status ≡ OK → RouteAdvances Receives route.old image.now result.freshness route.new }
    ensures unchanged { result.status ≢ OK → route.new ≡ route.old }
{
    let Some(parts) = split(pdu) else {
        return no_verdict(BAD_LENGTH);
    };
    if route.freshness_only == 1 {
        return no_verdict(BAD_VALUE);
    }
    let Candidate { freshness, bound } = match candidate_on(route, image, &parts) {
        Ok(found) => found,
        Err(status) => return no_verdict(status),
    };
    if !is_input(input, route.data_id, parts.payload, freshness) {
        return no_verdict(BAD_VALUE);
    }
    let verdict = answer(judge_by(mac, &parts.tag, freshness), bound, parts.payload);
    if verdict.status == OK {
        move_counter(route, verdict.freshness);
    }
    verdict
}
