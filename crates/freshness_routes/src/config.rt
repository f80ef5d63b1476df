//! The configuration of a node.
ghost use Rattle.std.specs.Prelude.{◌≡◌, ◌≢◌, ◌↔◌, ◌≤◌, IsTrue, IfOk, All, AllPairs, length, replicate};
ghost use Rattle.std.specs.Option.{SomeIff};
ghost use Rattle.freshness_routes.specs.Config.{IsRoute, IsConfig};

use crate::routes::{Direction, Route, Routes};
use memory_update::Uid;
use secured_pdu::WIDEST_WINDOW;
use std::alloc::{AllocError, Global};
use std::marker::Model;

/// The most freshness that is reserved at a time.
pub const MOST_RESERVE: u16 = 128;

/// The most routes that a node has.
pub const MOST_ROUTES: usize = 256;

/// Out of memory.
#[derive(Clone, Copy, Debug, PartialEq, Eq)]
pub struct Memory;

/// A node's configuration: its identifier and its routes. Contracts see the record of both, and `IsConfig` holds of it:
/// at most 256 routes, no two with one Data ID, and an identifier that isn't zero. Keys are in the slots 4 to 13,
/// reserves are 1 to 128, and windows 1 to 256. The window of a route that sends is 256.
#[derive(Debug, Drop)]
pub struct NodeConfig {
    /// The identifier of the node's engine.
    pub uid: Uid,
    /// The routes, at most 256.
    pub routes: Routes,
}

impl Model for NodeConfig {
    ghost use Rattle.freshness_routes.specs.Config.{Config, IsConfig};

    ghost Value = { Config };

    ghost view = { λ c. record { uid = c.uid; routes = c.routes } };

    ghost invariant = { λ c. IsConfig (record { uid = c.uid; routes = c.routes }) };
}

// Whether a route's numbers are within their bounds.
fn is_route(route: &Route) -> bool
    ensures { IsTrue result ↔ IsRoute route.now }
{
    let Route {
        id: _id,
        direction,
        slot,
        reserve,
        window,
        start: _start,
    } = *route;
    if slot.number() < 4 || reserve < 1 || reserve > MOST_RESERVE {
        return false;
    }
    if window < 1 || window > WIDEST_WINDOW {
        return false;
    }
    direction == Direction::Receives || window == WIDEST_WINDOW
}

fn are_routes(routes: &[Route]) -> bool
    ensures { IsTrue result ↔ All IsRoute routes.now }
{
    for route in routes {
        if !is_route(route) {
            return false;
        }
    }
    true
}

// Whether none of the routes has this Data ID.
fn is_free(routes: &[Route], id: u16) -> bool
    ensures { IsTrue result ↔ All (λ r. r.id ≢ id) routes.now }
{
    for route in routes {
        if route.id == id {
            return false;
        }
    }
    true
}

fn have_own_ids(routes: &[Route]) -> bool
    ensures { IsTrue result ↔ AllPairs (λ r s. r.id ≢ s.id) routes.now }
{
    for (i, route) in routes.iter().enumerate() {
        if !is_free(&routes[..i], route.id) {
            return false;
        }
    }
    true
}

impl NodeConfig {
    ghost use Rattle.std.specs.Prelude.{◌≡◌, IfOk};
    ghost use Rattle.std.specs.Option.{SomeIff};
    ghost use Rattle.freshness_routes.specs.Config.{IsConfig};

    /// The configuration of this identifier and these routes; `None` if it isn't one: there are more than 256 routes,
    /// or two with one Data ID, or a number of a route is out of bounds, or the identifier is zero.
    pub fn new(uid: Uid, routes: Vec<Route>) -> Option<NodeConfig>
        ensures { SomeIff result (IsConfig (record { uid = uid; routes = routes.items }))
            (record { uid = uid; routes = routes.items }) }
    {
        let listed = routes.as_slice();
        if listed.len() > MOST_ROUTES
            || uid.is_zero()
            || !are_routes(listed)
            || !have_own_ids(listed)
        {
            return None;
        }
        let routes = Routes::of(routes);
        Some(NodeConfig { uid, routes })
    }

    /// An equal configuration in memory of its own.
    pub fn copy(&self, alloc: Global) -> Result<NodeConfig, Memory>
        ensures { IfOk result (λ c. c ≡ self.now) }
    {
        match Vec::from_slice(alloc, self.routes.as_slice()) {
            Ok(routes) => Ok(NodeConfig {
                uid: self.uid,
                routes: Routes::of(routes),
            }),
            Err(_) => Err(Memory),
        }
    }
}
