//! Routes, and lists of them.
ghost use Rattle.std.specs.Prelude.{◌≡◌};

use memory_update::SlotId;
use std::marker::Model;

/// Whether a route sends or receives.
#[derive(Clone, Copy, Debug, PartialEq, Eq)]
pub enum Direction {
    /// The node sends under the route's Data ID.
    Sends,
    /// The node receives under it.
    Receives,
}

/// What a node sends or receives under one Data ID.
#[derive(Clone, Copy, Debug, PartialEq, Eq)]
pub struct Route {
    /// The Data ID.
    pub id: u16,
    /// Whether the node sends or receives.
    pub direction: Direction,
    /// The slot of the key.
    pub slot: SlotId,
    /// How much freshness is reserved at a time, 1 to 128.
    pub reserve: u16,
    /// How far above its counter a receiver accepts freshness, 1 to 256; 256 if the route sends.
    pub window: u16,
    /// The first bound, at which the counter begins.
    pub start: u64,
}

/// The routes of a node. Contracts see the list of them.
#[derive(Debug, Drop)]
pub struct Routes {
    routes: Vec<Route>,
}

impl Model for Routes {
    ghost use Rattle.std.specs.Prelude.{List};
    ghost use Rattle.freshness_routes.specs.declared.routes.Route.{Route};

    ghost Value = { List Route };

    ghost view = { λ r. r.routes.items };
}

impl Routes {
    /// These routes; it takes no memory.
    pub fn of(routes: Vec<Route>) -> Routes
        ensures { result ≡ routes.items }
    {
        Routes { routes }
    }

    /// The routes in their order.
    pub fn as_slice(&self) -> &[Route]
        ensures { result.now ≡ self.now }
    {
        self.routes.as_slice()
    }

    /// The vector that holds the routes; it takes no memory.
    pub fn into_vec(self) -> Vec<Route>
        ensures { result.items ≡ self }
    {
        self.routes
    }
}
