//! What a node knows, beside its store.
ghost use Rattle.std.specs.Prelude.{◌≡◌, ◌<◌, ◌+◌, length, false, Some, MatchOption, IfOk, IfErr, OnOk, OnErr};
ghost use Rattle.freshness_routes.specs.Config.{IsConfig};
ghost use Rattle.freshness_routes.specs.declared.config.TheConstants.{MOST_ROUTES};
ghost use Rattle.secoc_node.specs.Causes.{AttachCause, LifeCause};
ghost use Rattle.bus_machine.specs.Node.{place_in};
ghost use Rattle.secoc_node.specs.Keeping.{BeginsLife, FindsRoute};

use crate::counters::{RouteCounter, begin_again, check_bounds, counters_of};
use crate::faults::{AttachFault, CutFault, NodeFault};
use crate::routes::place_of;
use cell_store::Cells;
use freshness_manager::{Direction, NodeConfig, Route};
use she_engine::Engine;
use std::alloc::Global;

/// The bound of a route that was to be put when the disk failed.
#[derive(Clone, Copy, Debug, PartialEq, Eq)]
pub struct PendingBound {
    /// The place of the route, counted from 0.
    pub route: u16,
    /// The bound.
    pub bound: u64,
}

/// What a node knows while it has power, and, once a call of its disk failed, which change that call was to make.
#[derive(Drop)]
pub struct Known {
    /// The identifier and the routes.
    pub config: NodeConfig,
    /// The engine. A slot that a load was to put when the disk failed is pending there.
    pub engine: Engine,
    /// A counter for each route.
    pub counters: Vec<RouteCounter>,
    /// No call of the disk failed since the last power-up.
    pub up: bool,
    /// The bound that a send or a receive was to put when the disk failed.
    pub pending: Option<PendingBound>,
}

impl Known {
    /// What a node knows at the beginning of its first life over these cells.
    pub fn attach<C: Cells>(
        alloc: Global,
        config: NodeConfig,
        cells: &C,
    ) -> Result<Known, AttachFault>
        requires count { length (C.state cells.now).cells ≡ 14 + length config.routes }
        ensures good { IsConfig config }
        ensures begins { IfOk result (BeginsLife config (C.state cells.now).cells) }
        ensures cause { IfErr result (AttachCause config.routes (C.state cells.now).cells) }
    {
        let engine = match Engine::attach(config.uid, cells) {
            Ok(engine) => engine,
            Err(bad) => return Err(AttachFault::BadSlot(bad.0)),
        };
        let routes = config.routes.as_slice();
        if let Err(bad) = check_bounds(cells, routes) {
            return Err(AttachFault::BadBound(bad.0));
        }
        let counters = match counters_of(alloc, cells, routes) {
            Ok(counters) => counters,
            Err(_) => return Err(AttachFault::Memory),
        };
        Ok(Known {
            config,
            engine,
            counters,
            up: true,
            pending: None,
        })
    }

    /// Begins a new life over these cells, which were read anew. If they are no node's, nothing has changed.
    pub fn power_up<C: Cells>(&mut self, cells: &C) -> Result<(), CutFault>
        requires count { length (C.state cells.now).cells ≡ 14 + length self.old.config.routes }
        requires counters { length self.old.counters.items ≡ length self.old.config.routes }
        ensures begins { OnOk result (BeginsLife self.old.config (C.state cells.now).cells self.new) }
        ensures as_before { OnErr result (self.new ≡ self.old) }
        ensures cause { IfErr result (LifeCause self.old.config.routes (C.state cells.now).cells) }
    {
        let engine = match Engine::attach(self.config.uid, cells) {
            Ok(engine) => engine,
            Err(bad) => return Err(CutFault::BadSlot(bad.0)),
        };
        let routes = self.config.routes.as_slice();
        if let Err(bad) = check_bounds(cells, routes) {
            return Err(CutFault::BadBound(bad.0));
        }
        begin_again(&mut self.counters, cells, routes);
        self.engine = engine;
        self.up = true;
        self.pending = None;
        Ok(())
    }

    /// The route with this Data ID and direction, and its place, if there is one.
    pub fn route(&self, id: u16, direction: Direction) -> Option<(usize, Route)>
        ensures { let routes = self.now.config.routes
            in MatchOption result (place_in routes id direction ≡ length routes)
            (λ found. FindsRoute routes id direction found.0 found.1) }
    {
        let routes = self.config.routes.as_slice();
        match place_of(routes, id, direction) {
            Some(place) => Some((place, routes[place])),
            None => None,
        }
    }

    /// From now on no call is served until the power is cut.
    pub fn fail(&mut self) -> NodeFault
        ensures down { self.new ≡ record self.old { up = false } }
        ensures fault { result ≡ NodeFault.Faulted }
    {
        self.up = false;
        NodeFault::Faulted
    }

    /// The same, with a bound of a route that was to be put.
    pub fn fail_at(&mut self, route: usize, bound: u64) -> NodeFault
        requires { route < MOST_ROUTES }
        ensures down { self.new
            ≡ record self.old { up = false; pending = Some (record { route = route; bound = bound }) } }
        ensures fault { result ≡ NodeFault.Faulted }
    {
        self.pending = Some(PendingBound {
            route: route as u16,
            bound,
        });
        self.fail()
    }
}
