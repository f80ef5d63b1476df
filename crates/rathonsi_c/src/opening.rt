//! All routes of a unit, opened together.
ghost use Rattle.std.specs.Prelude.{◌≡◌, ◌≢◌, ◌<◌, ◌≤◌, ◌↔◌, length, IsTrue, IfSome, IfNone};
ghost use Rattle.rathonsi_c.specs.Opening.{IsApartFrom, RouteOpens, FirstUnopened, AllOpen, OpensEach};
ghost use Rattle.rathonsi_c.specs.Opening.{OpensRoutes, ClosesEach, RoutesAnswers, TellsWhich};

use crate::route::{RathonsiRoute, bound_of, direction_of, rathonsi_route_open};
use crate::{BAD_LENGTH, BAD_VALUE, OK};
use freshness_routes::MOST_ROUTES;

// Whether a route has neither the cell of another one nor its Data ID and direction.
fn is_apart(route: &RathonsiRoute, others: &[RathonsiRoute]) -> bool
    ensures { IsTrue result ↔ IsApartFrom route.now others.now }
{
    for other in others {
        if other.cell == route.cell {
            return false;
        }
        if other.data_id == route.data_id && other.direction == route.direction {
            return false;
        }
    }
    true
}

// What the opening of a route comes to beside those before it.
fn opening_of(route: &RathonsiRoute, before: &[RathonsiRoute], image: &[u8]) -> i32
    ensures { RouteOpens route.now before.now image.now result }
{
    let Some(direction) = direction_of(route) else {
        return BAD_VALUE;
    };
    if !is_apart(route, before) {
        return BAD_VALUE;
    }
    match bound_of(route, direction, image) {
        Ok(_) => OK,
        Err(refusal) => refusal.status(),
    }
}

// The first route that can't be opened, and why.
#[derive(Clone, Copy)]
struct Unopened {
    which: u32,
    status: i32,
}

// The first of at most 256 routes that can't be opened.
fn first_unopened(routes: &[RathonsiRoute], image: &[u8]) -> Option<Unopened>
    requires { length routes.now ≤ MOST_ROUTES }
    ensures none { IfNone result (AllOpen routes.now image.now) }
    ensures some { IfSome result (λ u. FirstUnopened routes.now image.now u.which u.status) }
{
    for k in 0..routes.len() {
        let status = opening_of(&routes[k], &routes[..k], image);
        if status != OK {
            return Some(Unopened {
                which: k as u32,
                status,
            });
        }
    }
    None
}

// Closes each of these routes.
fn close_each(routes: &mut [RathonsiRoute])
    ensures { ClosesEach routes.old routes.new }
{
    for k in 0..routes.len() {
        routes[k].opened = 0;
    }
}

// Opens each of these routes.
fn open_each(routes: &mut [RathonsiRoute], image: &[u8])
    requires { AllOpen routes.old image.now }
    ensures { OpensEach routes.old image.now routes.new }
{
    for k in 0..routes.len() {
        let _status = rathonsi_route_open(&mut routes[k], image);
    }
}

/// Opens all routes of a unit, at most 256. `BAD_LENGTH`: there are more, and none is looked at. Else the first that
/// fails is named, with its status, and all are closed: `BAD_VALUE` (a number of it is outside its range, or one before
/// it has its cell, or its Data ID and direction), `WRONG_CELL`, `DAMAGED`, as `rathonsi_route_open` has them.
#[unsafe(no_mangle)]
pub extern "C" fn rathonsi_routes_open(
    routes: &mut [RathonsiRoute],
    image: &[u8],
    which: &mut u32,
) -> i32
    ensures answer { RoutesAnswers routes.old image.now result }
    ensures opened { result ≡ OK → OpensRoutes routes.old image.now routes.new }
    ensures named { TellsWhich routes.old image.now result which.old which.new }
    ensures closed { result ≢ OK → length routes.old ≤ MOST_ROUTES → ClosesEach routes.old routes.new }
    ensures unchanged { MOST_ROUTES < length routes.old → routes.new ≡ routes.old }
{
    if routes.len() > MOST_ROUTES {
        return BAD_LENGTH;
    }
    if let Some(Unopened { which: k, status }) = first_unopened(routes, image) {
        close_each(routes);
        *which = k;
        return status;
    }
    open_each(routes, image);
    OK
}
