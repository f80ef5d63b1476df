//! Routes over the image of a store: what is sent and received under one Data ID.
ghost use Rattle.std.specs.Prelude.{◌≡◌, ◌≢◌, ◌+◌, ◌≤◌, ◌⊎◌, ℕ, length, take, drop, IfErr, IfSome, IfNone, IfOk};
ghost use Rattle.freshness_routes.specs.declared.routes.Direction.{Direction};
ghost use Rattle.freshness_routes.specs.declared.routes.Direction.TheVariants.{Sends, Receives};
ghost use Rattle.secured_pdu.specs.Frame.{IsPayload};
ghost use Rattle.secured_pdu.specs.Verdict.{Outcome, Verdict};
ghost use Rattle.secured_pdu.specs.Judged.{outcome_of};
ghost use Rattle.store_plan.specs.Plans.{PlanFits, IsEmptyPlan};
ghost use Rattle.rathonsi_c.specs.Images.{ImageBound, ImageKey};
ghost use Rattle.rathonsi_c.specs.Refused.{BoundRefused, KeyRefused, RouteRefused, SendRefused};
ghost use Rattle.rathonsi_c.specs.Routes.{InRanges, OutOfRanges, InUse, BoundCovers, is_booted, RouteReady};
ghost use Rattle.rathonsi_c.specs.Routes.{Opens, closed};
ghost use Rattle.rathonsi_c.specs.Routes.{RouteAdvances, Reserves, SentBy, bounded_answer, SendAnswers};
ghost use Rattle.rathonsi_c.specs.Routes.{ReceiveAnswers, OpenAnswers, IsFarAhead, PlanAnswers, AdvanceAnswers, ReserveAnswers};
ghost use Rattle.rathonsi_c.specs.Causes.{IsDone};

use crate::faults::field_outside;
use crate::images::slot_at;
use crate::opened::{is_open, mark_of, move_counter, open_at};
use crate::refusals::Refusal;
use crate::secoc::{RathonsiVerdict, refusal as no_verdict};
use crate::{
    BAD_LENGTH, BAD_VALUE, BUSY, DAMAGED, EXHAUSTED, FRESHNESS_FAILURE, OK, RESERVE,
    VERIFICATION_FAILURE, WRONG_CELL,
};
use freshness_routes::bound_ahead;
use freshness_store::{Direction, bound_bytes, bound_in};
use key_slots::{Purpose, Slot, usable};
use secured_pdu::{Judgement, WIDEST_WINDOW, build, judge, split};
use she_aes::{Block, expand};
use store_plan::{Plan, PlanFault, cell_in, is_empty, plan_put};

/// A Data ID in one direction. The caller fills in all but the counter and `opened`; `rathonsi_route_open` sets these.
#[derive(Clone, Copy)]
#[repr(C)]
pub struct RathonsiRoute {
    /// The last freshness that was sent or accepted.
    pub counter: u64,
    /// The Data ID.
    pub data_id: u16,
    /// The cell of its bound, from 14 on.
    pub cell: u16,
    /// How far a reserve moves the bound, 1 to 128. A power cut makes a sender skip what is reserved and not sent.
    pub reserve: u16,
    /// How far above its counter it accepts freshness, 1 to 256.
    pub window: u16,
    /// The slot of its key, 4 to 13.
    pub slot: u8,
    /// 1: it sends. 2: it receives.
    pub direction: u8,
    /// 1 after a secure boot that succeeded, else 0.
    pub booted: u8,
    /// 1 once `rathonsi_route_open` opened it, with `OK`, and 2 once a call moved its counter since. The calls alone write
    /// it.
    pub opened: u8,
    /// 1: another module makes and checks its authenticators, and asks for the freshness alone. 0: this library does.
    pub freshness_only: u8,
    /// The check value of an open route over its Data ID, direction, cell, counter and `opened`. The calls alone write it.
    pub check: [u8; 3],
}

/// The direction of a route whose numbers are within their ranges.
pub fn direction_of(route: &RathonsiRoute) -> Option<Direction>
    ensures some { IfSome result (InRanges route.now) }
    ensures none { IfNone result (OutOfRanges route.now) }
{
    if field_outside(route) != 0 {
        return None;
    }
    match route.direction {
        1 => Some(Direction::Sends),
        2 => Some(Direction::Receives),
        _ => None,
    }
}

/// The bound that the image keeps for a route of this direction.
pub fn bound_of(route: &RathonsiRoute, direction: Direction, image: &[u8]) -> Result<u64, Refusal>
    ensures refused { IfErr result (BoundRefused image.now route.now.cell route.now.data_id direction) }
    ensures kept { IfOk result (ImageBound image.now route.now.cell route.now.data_id direction) }
{
    let cell = match cell_in(image, route.cell) {
        Ok(cell) => cell,
        Err(PlanFault::Damaged) => return Err(Refusal::Damaged),
        Err(PlanFault::NoCell) => return Err(Refusal::WrongCell),
    };
    match bound_in(&cell, route.data_id, direction) {
        Some(bound) => Ok(bound),
        None => Err(Refusal::WrongCell),
    }
}

/// The key of this slot, if it may be used for a MAC.
pub fn key_of(image: &[u8], slot: u8, booted: bool) -> Result<Block, Refusal>
    ensures key { IfOk result (ImageKey image.now slot booted) }
    ensures refused { IfErr result (KeyRefused image.now slot booted) }
{
    let Some(slot) = slot_at(image, slot) else {
        return Err(Refusal::Damaged);
    };
    if let Err(refusal) = usable(&slot, booted, Purpose::Mac) {
        return Err(Refusal::Key(refusal));
    }
    match slot {
        Slot::Filled { key, .. } => Ok(key),
        Slot::Empty => Err(Refusal::Damaged),
    }
}

/// What a route is used with.
#[derive(Clone, Copy)]
pub struct Ready {
    pub key: Block,
    pub bound: u64,
}

/// What a route of this direction is used with.
pub fn make_ready(route: &RathonsiRoute, wanted: Direction, image: &[u8]) -> Result<Ready, Refusal>
    ensures ready { IfOk result (λ r. RouteReady route.now wanted image.now r.key r.bound) }
    ensures refused { IfErr result (RouteRefused route.now wanted image.now) }
{
    let Some(direction) = direction_of(route) else {
        return Err(Refusal::BadValue);
    };
    if direction != wanted || !is_open(route) {
        return Err(Refusal::BadValue);
    }
    let bound = match bound_of(route, wanted, image) {
        Ok(bound) => bound,
        Err(refusal) => return Err(refusal),
    };
    match key_of(image, route.slot, route.booted == 1) {
        Ok(key) => Ok(Ready { key, bound }),
        Err(refusal) => Err(refusal),
    }
}

/// What is to be sent with.
#[derive(Clone, Copy)]
pub struct Sending {
    pub key: Block,
    pub freshness: u64,
}

/// Whether a route may send, and with what.
pub fn may_send(route: &RathonsiRoute, image: &[u8]) -> Result<Sending, Refusal>
    ensures in_use { IfOk result (λ _. InUse route.now Sends) }
    ensures covered { IfOk result (λ s. BoundCovers route.now image.now Sends s.freshness) }
    ensures key { IfOk result (λ s. ImageKey image.now route.now.slot (is_booted route.now) s.key) }
    ensures next { IfOk result (λ s. s.freshness ≡ route.now.counter + 1) }
    ensures refused { IfErr result (SendRefused route.now image.now) }
{
    let Ready { key, bound } = match make_ready(route, Direction::Sends, image) {
        Ok(found) => found,
        Err(refusal) => return Err(refusal),
    };
    let Some(freshness) = route.counter.checked_add(1) else {
        return Err(Refusal::Exhausted);
    };
    if freshness > bound {
        return Err(Refusal::Reserve);
    }
    Ok(Sending { key, freshness })
}

/// Opens the route: its counter is the bound that the image keeps. With any other status it is closed. `BAD_VALUE`: a
/// number of the route is outside its range. `WRONG_CELL`: the image has no such cell, or it holds something else.
/// `DAMAGED`: no copy of it counts.
#[unsafe(no_mangle)]
pub extern "C" fn rathonsi_route_open(route: &mut RathonsiRoute, image: &[u8]) -> i32
    ensures answer { OpenAnswers route.old image.now result }
    ensures opened { result ≡ OK → Opens route.old image.now route.new }
    ensures closed { result ≢ OK → route.new ≡ closed route.old }
{
    let Some(direction) = direction_of(route) else {
        route.opened = 0;
        return BAD_VALUE;
    };
    match bound_of(route, direction, image) {
        Ok(bound) => {
            let mark = mark_of(route);
            open_at(route, bound, mark);
            OK
        }
        Err(refusal) => {
            route.opened = 0;
            refusal.status()
        }
    }
}

/// Plans the bound that covers this freshness and a reserve less one above it. The plan stays empty if the bound in the
/// image is as high already. `BUSY`, `BAD_VALUE` (also: the route isn't open), `WRONG_CELL`, `DAMAGED`, `BAD_VALUE` (the
/// freshness is over 256 above the bound in the image): the first that applies.
#[unsafe(no_mangle)]
pub extern "C" fn rathonsi_route_reserve(
    route: &RathonsiRoute,
    freshness: u64,
    image: &[u8],
    plan: &mut Plan,
) -> i32
    ensures answer { ReserveAnswers route.now image.now freshness plan.old result }
    ensures reserved { result ≡ OK → Reserves route.now image.now freshness plan.old plan.new }
    ensures fits { result ≡ OK → IsEmptyPlan plan.new ⊎ PlanFits (length image.now) plan.new }
    ensures unchanged { result ≢ OK → plan.new ≡ plan.old }
{
    let Kept { direction, bound } = match kept_for(route, image, plan) {
        Ok(kept) => kept,
        Err(status) => return status,
    };
    if freshness > bound.saturating_add(u64::from(WIDEST_WINDOW)) {
        return BAD_VALUE;
    }
    raise(route, Kept { direction, bound }, freshness, image, plan)
}

/// What `rathonsi_route_reserve` does, however far ahead the freshness is. Its plan done, `rathonsi_route_open` moves
/// the counter to the bound: so a sender goes on above the freshness of another, which it replaces. `BUSY`,
/// `BAD_VALUE`, `WRONG_CELL`, `DAMAGED`, `EXHAUSTED` (that bound would be 2^64 - 1: no freshness is above it): the
/// first that applies.
#[unsafe(no_mangle)]
pub extern "C" fn rathonsi_route_advance(
    route: &RathonsiRoute,
    freshness: u64,
    image: &[u8],
    plan: &mut Plan,
) -> i32
    ensures answer { AdvanceAnswers route.now image.now freshness plan.old result }
    ensures reserved { result ≡ OK → Reserves route.now image.now freshness plan.old plan.new }
    ensures fits { result ≡ OK → IsEmptyPlan plan.new ⊎ PlanFits (length image.now) plan.new }
    ensures unchanged { result ≢ OK → plan.new ≡ plan.old }
{
    let kept = match kept_for(route, image, plan) {
        Ok(kept) => kept,
        Err(status) => return status,
    };
    if bound_ahead(route.reserve, freshness) == u64::MAX {
        return EXHAUSTED;
    }
    raise(route, kept, freshness, image, plan)
}

// The direction of a route, and the bound that the image keeps for it.
#[derive(Clone, Copy)]
struct Kept {
    direction: Direction,
    bound: u64,
}

// What a reserve begins with, or the status of why it can't.
fn kept_for(route: &RathonsiRoute, image: &[u8], plan: &Plan) -> Result<Kept, i32>
    ensures kept { IfOk result (λ k. InUse route.now k.direction
        × ImageBound image.now route.now.cell route.now.data_id k.direction k.bound) }
    ensures empty { IfOk result (λ _. IsEmptyPlan plan.now) }
    ensures refused { IfErr result (PlanAnswers route.now image.now plan.now (λ _. ⊥)) }
{
    if !is_empty(plan) {
        return Err(BUSY);
    }
    let Some(direction) = direction_of(route) else {
        return Err(BAD_VALUE);
    };
    if !is_open(route) {
        return Err(BAD_VALUE);
    }
    match bound_of(route, direction, image) {
        Ok(bound) => Ok(Kept { direction, bound }),
        Err(refusal) => Err(refusal.status()),
    }
}

// Plans the bound that covers this freshness and a reserve less one above it, if the one that is kept is lower.
fn raise(route: &RathonsiRoute, kept: Kept, freshness: u64, image: &[u8], plan: &mut Plan) -> i32
    requires { IsEmptyPlan plan.old × (InUse route.now kept.direction
        × ImageBound image.now route.now.cell route.now.data_id kept.direction kept.bound) }
    ensures done { result ≡ OK }
    ensures reserved { Reserves route.now image.now freshness plan.old plan.new }
    ensures fits { IsEmptyPlan plan.new ⊎ PlanFits (length image.now) plan.new }
{
    let to = bound_ahead(route.reserve, freshness);
    if to <= kept.bound {
        return OK;
    }
    match plan_put(
        image,
        route.cell,
        &bound_bytes(route.data_id, kept.direction, to),
    ) {
        Ok(made) => {
            *plan = made;
            OK
        }
        Err(_) => DAMAGED,
    }
}

/// Writes the Secured I-PDU of a payload of 1 to 60 bytes, with the freshness above the counter, to the beginning of
/// `pdu`. That has room for four bytes more than the payload. That freshness becomes the counter. Answers in this
/// order: `BAD_LENGTH`, `BAD_VALUE`, `WRONG_CELL`, `DAMAGED`, `KEY_EMPTY`, `KEY_INVALID`, `KEY_NOT_AVAILABLE`,
/// `EXHAUSTED`, `RESERVE`.
#[unsafe(no_mangle)]
pub extern "C" fn rathonsi_route_send(
    route: &mut RathonsiRoute,
    image: &[u8],
    payload: &[u8],
    pdu: &mut [u8],
) -> i32
    ensures answer { SendAnswers route.old image.now payload.now pdu.old result }
    ensures sent { result ≡ OK → SentBy route.old image.now payload.now (take (length payload.now + 4) pdu.new) }
    ensures rest { result ≡ OK → drop (length payload.now + 4) pdu.new ≡ drop (length payload.now + 4) pdu.old }
    ensures counted { result ≡ OK → RouteAdvances Sends route.old image.now (route.old.counter + 1) route.new }
    ensures unchanged { result ≢ OK → (route.new ≡ route.old) × (pdu.new ≡ pdu.old) }
{
    if payload.is_empty() || payload.len() > 60 || pdu.len() < payload.len() + 4 {
        return BAD_LENGTH;
    }
    if route.freshness_only == 1 {
        return BAD_VALUE;
    }
    let sending = match may_send(route, image) {
        Ok(sending) => sending,
        Err(refusal) => return refusal.status(),
    };
    let mut frame = [0; 64];
    let Some(size) = build(
        &expand(&sending.key),
        route.data_id,
        payload,
        sending.freshness,
        &mut frame,
    ) else {
        return BAD_LENGTH;
    };
    pdu[..size].copy_from_slice(&frame[..size]);
    move_counter(route, sending.freshness);
    OK
}

/// The judgement on a PDU with this payload, as a receiver with this bound tells it.
pub fn answer(judgement: Judgement, bound: u64, payload: &[u8]) -> RathonsiVerdict
    requires { length payload.now ≤ 60 }
    ensures { result ≡ bounded_answer bound (outcome_of payload.now judgement) }
{
    match judgement {
        Judgement::Accepted(freshness) => {
            if bound < freshness {
                RathonsiVerdict {
                    status: RESERVE,
                    payload_length: 0,
                    freshness,
                }
            } else {
                RathonsiVerdict {
                    status: OK,
                    payload_length: payload.len() as u32,
                    freshness,
                }
            }
        }
        Judgement::FreshnessFailure => no_verdict(FRESHNESS_FAILURE),
        Judgement::VerificationFailure => no_verdict(VERIFICATION_FAILURE),
    }
}

/// Judges a PDU of 5 to 64 bytes. `OK`: it is accepted, and its freshness becomes the counter. `RESERVE`: its
/// authenticator agrees, and the same call accepts it once its freshness is reserved. `BAD_LENGTH`, `BAD_VALUE`,
/// `WRONG_CELL`, `DAMAGED`, `KEY_EMPTY`, `KEY_INVALID`, `KEY_NOT_AVAILABLE`, `FRESHNESS_FAILURE`,
/// `VERIFICATION_FAILURE`: the first that applies.
#[unsafe(no_mangle)]
pub extern "C" fn rathonsi_route_receive(
    route: &mut RathonsiRoute,
    image: &[u8],
    pdu: &[u8],
) -> RathonsiVerdict
    ensures answer { ReceiveAnswers route.old image.now pdu.now result }
    ensures counted { result.status ≡ OK → RouteAdvances Receives route.old image.now result.freshness route.new }
    ensures unchanged { result.status ≢ OK → route.new ≡ route.old }
{
    let Some(parts) = split(pdu) else {
        return no_verdict(BAD_LENGTH);
    };
    if route.freshness_only == 1 {
        return no_verdict(BAD_VALUE);
    }
    let Ready { key, bound } = match make_ready(route, Direction::Receives, image) {
        Ok(found) => found,
        Err(refusal) => return no_verdict(refusal.status()),
    };
    let judgement = judge(
        &expand(&key),
        route.data_id,
        route.counter,
        route.window,
        &parts,
    );
    let verdict = answer(judgement, bound, parts.payload);
    if verdict.status == OK {
        move_counter(route, verdict.freshness);
    }
    verdict
}
