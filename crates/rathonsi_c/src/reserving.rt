//! A reserve of what a route needs next: the caller gives no number, and is told if there is nothing to reserve.
ghost use Rattle.std.specs.Prelude.{◌≡◌, ◌≢◌, ◌+◌, length};
ghost use Rattle.freshness_routes.specs.declared.routes.Direction.TheVariants.{Sends, Receives};
ghost use Rattle.store_plan.specs.Plans.{PlanFits, IsEmptyPlan};
ghost use Rattle.rathonsi_c.specs.Causes.{IfCause, IsDone};
ghost use Rattle.rathonsi_c.specs.Images.{ImageBound};
ghost use Rattle.rathonsi_c.specs.Routes.{InUse, Reserves};
ghost use Rattle.rathonsi_c.specs.Reserving.{CoversReserve, FreshAnswers, ReserveNextAnswers, ReserveForAnswers};
ghost use Rattle.rathonsi_c.specs.Reserving.{ReserveAheadAnswers, ReservesAhead};

use crate::opened::is_open;
use crate::route::{RathonsiRoute, bound_of, direction_of};
use crate::secoc::RathonsiVerdict;
use crate::steps::bound_ready;
use crate::{BAD_VALUE, BUSY, COVERED, DAMAGED, EXHAUSTED, OK, RESERVE};
use freshness_routes::bound_ahead;
use freshness_store::{Direction, bound_bytes};
use secured_pdu::WIDEST_WINDOW;
use store_plan::{Plan, is_empty, plan_put};

// Plans the bound ahead of this freshness, above the one that is kept.
fn plan_ahead(
    route: &RathonsiRoute,
    direction: Direction,
    bound: u64,
    freshness: u64,
    image: &[u8],
    plan: &mut Plan,
) -> i32
    requires { IsEmptyPlan plan.old × (InUse route.now direction
        × ImageBound image.now route.now.cell route.now.data_id direction bound) }
    ensures answer { IfCause (CoversReserve route.now image.now direction freshness) COVERED IsDone result }
    ensures reserved { result ≡ OK → Reserves route.now image.now freshness plan.old plan.new }
    ensures fits { result ≡ OK → PlanFits (length image.now) plan.new }
    ensures unchanged { result ≢ OK → plan.new ≡ plan.old }
{
    let to = bound_ahead(route.reserve, freshness);
    if to <= bound {
        return COVERED;
    }
    match plan_put(
        image,
        route.cell,
        &bound_bytes(route.data_id, direction, to),
    ) {
        Ok(made) => {
            *plan = made;
            OK
        }
        Err(_) => DAMAGED,
    }
}

// The same of a freshness that may be too far ahead.
fn plan_fresh(
    route: &RathonsiRoute,
    direction: Direction,
    bound: u64,
    freshness: u64,
    image: &[u8],
    plan: &mut Plan,
) -> i32
    requires { IsEmptyPlan plan.old × (InUse route.now direction
        × ImageBound image.now route.now.cell route.now.data_id direction bound) }
    ensures answer { FreshAnswers route.now direction image.now freshness result }
    ensures reserved { result ≡ OK → Reserves route.now image.now freshness plan.old plan.new }
    ensures fits { result ≡ OK → PlanFits (length image.now) plan.new }
    ensures unchanged { result ≢ OK → plan.new ≡ plan.old }
{
    if freshness > bound.saturating_add(u64::from(WIDEST_WINDOW)) {
        return BAD_VALUE;
    }
    plan_ahead(route, direction, bound, freshness, image, plan)
}

/// For a route that sends: plans the bound that covers its next freshness, and a reserve less one above it. `BUSY`,
/// `BAD_VALUE` (also: it doesn't send, or isn't open), `WRONG_CELL`, `DAMAGED`, `EXHAUSTED`, `BAD_VALUE` (the counter
/// is 256 or more above the bound in the image), `COVERED` (the bound is as high already): the first that applies.
#[unsafe(no_mangle)]
pub extern "C" fn rathonsi_route_reserve_next(
    route: &RathonsiRoute,
    image: &[u8],
    plan: &mut Plan,
) -> i32
    ensures answer { ReserveNextAnswers route.now image.now plan.old result }
    ensures reserved { result ≡ OK → Reserves route.now image.now (route.now.counter + 1) plan.old plan.new }
    ensures fits { result ≡ OK → PlanFits (length image.now) plan.new }
    ensures unchanged { result ≢ OK → plan.new ≡ plan.old }
{
    if !is_empty(plan) {
        return BUSY;
    }
    let bound = match bound_ready(route, Direction::Sends, image) {
        Ok(bound) => bound,
        Err(status) => return status,
    };
    let Some(next) = route.counter.checked_add(1) else {
        return EXHAUSTED;
    };
    plan_fresh(route, Direction::Sends, bound, next, image, plan)
}

/// For a route that receives, after a verdict with the status `RESERVE`: plans the bound that covers its freshness,
/// and a reserve less one above it. `BUSY`, `BAD_VALUE` (the verdict has another status), `BAD_VALUE` (also: the
/// route doesn't receive, or isn't open), `WRONG_CELL`, `DAMAGED`, `BAD_VALUE` (the freshness is over 256 above the
/// bound in the image), `COVERED` (the bound is as high already): the first that applies.
#[unsafe(no_mangle)]
pub extern "C" fn rathonsi_route_reserve_for(
    route: &RathonsiRoute,
    verdict: &RathonsiVerdict,
    image: &[u8],
    plan: &mut Plan,
) -> i32
    ensures answer { ReserveForAnswers route.now verdict.now image.now plan.old result }
    ensures reserved { result ≡ OK → Reserves route.now image.now verdict.now.freshness plan.old plan.new }
    ensures fits { result ≡ OK → PlanFits (length image.now) plan.new }
    ensures unchanged { result ≢ OK → plan.new ≡ plan.old }
{
    if !is_empty(plan) {
        return BUSY;
    }
    if verdict.status != RESERVE {
        return BAD_VALUE;
    }
    let bound = match bound_ready(route, Direction::Receives, image) {
        Ok(bound) => bound,
        Err(status) => return status,
    };
    plan_fresh(
        route,
        Direction::Receives,
        bound,
        verdict.freshness,
        image,
        plan,
    )
}

/// Plans a reserve above the bound in the image, if that leaves the route fewer than `least`. So no PDU waits for a
/// plan. `BUSY`, `BAD_VALUE` (also: it isn't open), `WRONG_CELL`, `DAMAGED`, `COVERED` (the bound leaves at least so
/// many, or is 2^64 - 1): the first that applies.
#[unsafe(no_mangle)]
pub extern "C" fn rathonsi_route_reserve_ahead(
    route: &RathonsiRoute,
    least: u32,
    image: &[u8],
    plan: &mut Plan,
) -> i32
    ensures answer { ReserveAheadAnswers route.now least image.now plan.old result }
    ensures reserved { result ≡ OK → ReservesAhead route.now image.now plan.old plan.new }
    ensures fits { result ≡ OK → PlanFits (length image.now) plan.new }
    ensures unchanged { result ≢ OK → plan.new ≡ plan.old }
{
    if !is_empty(plan) {
        return BUSY;
    }
    let Some(direction) = direction_of(route) else {
        return BAD_VALUE;
    };
    if !is_open(route) {
        return BAD_VALUE;
    }
    let bound = match bound_of(route, direction, image) {
        Ok(bound) => bound,
        Err(refusal) => return refusal.status(),
    };
    let Some(next) = bound.checked_add(1) else {
        return COVERED;
    };
    if bound >= route.counter && bound - route.counter >= u64::from(least) {
        return COVERED;
    }
    plan_ahead(route, direction, bound, next, image, plan)
}
