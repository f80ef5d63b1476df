//! A freshness manager under another SecOC module, which makes and checks the authenticators of its PDUs itself.
ghost use Rattle.std.specs.Prelude.{◌≡◌, ◌≢◌, ℕ, ◌+◌, ◌^◌, ◌%◌, ◌≤◌, ◌⊎◌, ◌↔◌, IfSome, IfNone, IsTrue};
ghost use Rattle.freshness_routes.specs.declared.routes.Direction.TheVariants.{Sends, Receives};
ghost use Rattle.rathonsi_c.specs.Routes.{BoundCovers, RouteAdvances};
ghost use Rattle.secured_pdu.specs.Frame.{AheadWithBits};
ghost use Rattle.rathonsi_c.specs.Freshness.{WithinWindow};
ghost use Rattle.rathonsi_c.specs.Freshness.{NextAnswers, CandidateAnswers, AcceptAnswers};

use crate::opened::move_counter;
use crate::route::RathonsiRoute;
use crate::steps::{bound_ready, next_freshness};
use crate::{BAD_VALUE, FRESHNESS_FAILURE, OK, RESERVE};
use freshness_store::Direction;
use secured_pdu::{ahead_with_bits, takes_bits};

/// Gives the freshness of the next PDU: the counter's successor, which becomes the counter. Answers in this order:
/// `BAD_VALUE` (also: the route isn't for freshness alone), `WRONG_CELL`, `DAMAGED` (of its own cell alone),
/// `EXHAUSTED`, `RESERVE`.
#[unsafe(no_mangle)]
pub extern "C" fn rathonsi_freshness_next(
    route: &mut RathonsiRoute,
    image: &[u8],
    freshness: &mut u64,
) -> i32
    ensures answer { NextAnswers route.old image.now result }
    ensures given { result ≡ OK → freshness.new ≡ route.old.counter + 1 }
    ensures counted { result ≡ OK → RouteAdvances Sends route.old image.now (route.old.counter + 1) route.new }
    ensures unchanged { result ≢ OK → (route.new ≡ route.old) × (freshness.new ≡ freshness.old) }
{
    if route.freshness_only != 1 {
        return BAD_VALUE;
    }
    match next_freshness(route, image) {
        Ok(next) => {
            move_counter(route, next);
            *freshness = next;
            OK
        }
        Err(status) => status,
    }
}

/// Tells the one freshness that has these low bits, 1 to 64 of them, and is 1 to `window` above the counter. `RESERVE`:
/// it is told, too, and the same call answers `OK` once it is reserved. Answers in this order: `BAD_VALUE` (also: these
/// aren't so many bits, or the window has more than 2^`bits` values), `WRONG_CELL`, `DAMAGED` (of its own cell alone),
/// `FRESHNESS_FAILURE`, `RESERVE`.
#[unsafe(no_mangle)]
pub extern "C" fn rathonsi_freshness_candidate(
    route: &RathonsiRoute,
    image: &[u8],
    truncated: u64,
    bits: u8,
    freshness: &mut u64,
) -> i32
    ensures answer { CandidateAnswers route.now image.now truncated bits result }
    ensures told { (result ≡ OK) ⊎ (result ≡ RESERVE)
        → AheadWithBits route.now.counter route.now.window bits truncated freshness.new }
    ensures covered { result ≡ OK → BoundCovers route.now image.now Receives freshness.new }
    ensures unchanged { result ≢ OK → result ≢ RESERVE → freshness.new ≡ freshness.old }
{
    if route.freshness_only != 1 || !takes_bits(route.window, bits, truncated) {
        return BAD_VALUE;
    }
    let bound = match bound_ready(route, Direction::Receives, image) {
        Ok(bound) => bound,
        Err(status) => return status,
    };
    let Some(found) = ahead_with_bits(route.counter, route.window, bits, truncated) else {
        return FRESHNESS_FAILURE;
    };
    *freshness = found;
    if found > bound { RESERVE } else { OK }
}

/// Accepts the freshness of a PDU whose authenticator was found right: it becomes the counter. Answers in this order:
/// `BAD_VALUE`, `WRONG_CELL`, `DAMAGED` (of its own cell alone), `FRESHNESS_FAILURE` (it isn't 1 to `window` above the
/// counter), `RESERVE`.
#[unsafe(no_mangle)]
pub extern "C" fn rathonsi_freshness_accept(
    route: &mut RathonsiRoute,
    image: &[u8],
    freshness: u64,
) -> i32
    ensures answer { AcceptAnswers route.old image.now freshness result }
    ensures within { result ≡ OK → WithinWindow route.old.counter route.old.window freshness }
    ensures counted { result ≡ OK → RouteAdvances Receives route.old image.now freshness route.new }
    ensures unchanged { result ≢ OK → route.new ≡ route.old }
{
    if route.freshness_only != 1 {
        return BAD_VALUE;
    }
    let bound = match bound_ready(route, Direction::Receives, image) {
        Ok(bound) => bound,
        Err(status) => return status,
    };
    if freshness <= route.counter || freshness - route.counter > u64::from(route.window) {
        return FRESHNESS_FAILURE;
    }
    if freshness > bound {
        return RESERVE;
    }
    move_counter(route, freshness);
    OK
}
