//! The counters of a node's routes, and the bounds at which they begin.
ghost use Rattle.std.specs.Prelude.{◌≡◌, ◌<◌, ◌≤◌, ◌+◌, ℕ, length, IfOk, IfErr, OnOk, OnErr};
ghost use Rattle.freshness_routes.specs.Config.{IsRoute};
ghost use Rattle.freshness_routes.specs.declared.config.TheConstants.{MOST_ROUTES};
ghost use Rattle.freshness_store.specs.Bound.{HoldsNoBound};
ghost use Rattle.secoc_node.specs.Cells.{cell_in, HoldsBounds, FirstBadBound};
ghost use Rattle.secoc_node.specs.Counters.{freshness_in, BeginsAt, BeginRoutes, AreRoutes};

use cell_store::Cells;
use freshness_manager::{Direction, Route, Rx, Tx};
use freshness_store::{BadBound, read_bound};
use std::alloc::{AllocError, Global};

/// The counter of a route.
#[derive(Debug, Drop)]
pub enum RouteCounter {
    /// Of one that sends.
    Sends(Tx),
    /// Of one that receives.
    Receives(Rx),
}

impl RouteCounter {
    /// The last freshness in use.
    pub fn freshness(&self) -> u64
        ensures { result ≡ freshness_in self.now }
    {
        match self {
            RouteCounter::Sends(tx) => tx.counter(),
            RouteCounter::Receives(rx) => rx.counter(),
        }
    }
}

/// The cell of the bound of the route at this place.
pub fn cell_of_bound(route: usize) -> u16
    requires { route < MOST_ROUTES }
    ensures { result ≡ 14 + route }
{
    14 + route as u16
}

/// The counter of a route, which begins at the bound in this cell. `BadBound` exactly if the cell holds none of the
/// route.
fn counter_at<C: Cells>(cells: &C, cell: u16, route: &Route) -> Result<RouteCounter, BadBound>
    requires inside { cell < length (C.state cells.now).cells }
    requires route { IsRoute route.now }
    ensures begins { IfOk result (BeginsAt (C.state cells.now).cells cell route.now) }
    ensures none { OnErr result
        (HoldsNoBound (cell_in (C.state cells.now).cells cell) route.now.id route.now.direction) }
    ensures named { IfErr result (λ bad. bad.0 ≡ cell) }
{
    match read_bound(cells, cell, route.id, route.direction) {
        Ok(bound) => Ok(match route.direction {
            Direction::Sends => {
                RouteCounter::Sends(Tx::restore(cell, route.id, route.reserve, bound))
            }
            Direction::Receives => RouteCounter::Receives(Rx::restore(
                cell,
                route.id,
                route.reserve,
                route.window,
                bound,
            )),
        }),
        Err(bad) => Err(bad),
    }
}

/// Looks whether the cell of each route's bound holds one. `BadBound` names the lowest that doesn't.
pub fn check_bounds<C: Cells>(cells: &C, routes: &[Route]) -> Result<(), BadBound>
    requires count { length (C.state cells.now).cells ≡ 14 + length routes.now }
    requires few { length routes.now ≤ MOST_ROUTES }
    ensures all { OnOk result (HoldsBounds routes.now (C.state cells.now).cells) }
    ensures bad { IfErr result (λ bad. FirstBadBound routes.now (C.state cells.now).cells bad.0) }
{
    for (place, route) in routes.iter().enumerate() {
        if let Err(bad) = read_bound(cells, cell_of_bound(place), route.id, route.direction) {
            return Err(bad);
        }
    }
    Ok(())
}

/// A counter for each route, which begins at its bound.
pub fn counters_of<C: Cells>(
    alloc: Global,
    cells: &C,
    routes: &[Route],
) -> Result<Vec<RouteCounter>, AllocError>
    requires count { length (C.state cells.now).cells ≡ 14 + length routes.now }
    requires routes { AreRoutes routes.now }
    requires all { HoldsBounds routes.now (C.state cells.now).cells }
    ensures { IfOk result (λ counters. BeginRoutes routes.now (C.state cells.now).cells counters.items) }
{
    let mut counters = Vec::with_capacity(alloc, routes.len())?;
    for (place, route) in routes.iter().enumerate() {
        let Ok(counter) = counter_at(cells, cell_of_bound(place), route) else {
            unreachable!();
        };
        counters.push(counter)?;
    }
    Ok(counters)
}

/// Lets each route's counter begin again at its bound.
pub fn begin_again<C: Cells>(counters: &mut [RouteCounter], cells: &C, routes: &[Route])
    requires as_many { length counters.old ≡ length routes.now }
    requires count { length (C.state cells.now).cells ≡ 14 + length routes.now }
    requires routes { AreRoutes routes.now }
    requires all { HoldsBounds routes.now (C.state cells.now).cells }
    ensures { BeginRoutes routes.now (C.state cells.now).cells counters.new }
{
    for place in 0..routes.len() {
        let Ok(counter) = counter_at(cells, cell_of_bound(place), &routes[place]) else {
            unreachable!();
        };
        counters[place] = counter;
    }
}
