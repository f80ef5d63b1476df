//! A configuration one step within and one step past each of its bounds, its copy, and a receiver's last bound.
use crate::comparing::holds;
use freshness_routes::{Direction, NodeConfig, Route, bound_due};
use key_slots::SlotId;
use memory_update::Uid;
use std::alloc::Global;

const UID: [u8; 15] = [0, 0, 0, 0, 0, 0, 0, 0, 0, 0, 0, 0, 0, 0, 1];

// Direction, slot, reserve, window, and whether such a route is one.
const ROUTES: &[(Direction, u8, u16, u16, bool)] = &[
    (Direction::Receives, 4, 1, 1, true),
    (Direction::Receives, 13, 128, 256, true),
    (Direction::Receives, 3, 1, 1, false),
    (Direction::Receives, 0, 1, 1, false),
    (Direction::Receives, 4, 0, 1, false),
    (Direction::Receives, 4, 129, 1, false),
    (Direction::Receives, 4, 1, 0, false),
    (Direction::Receives, 4, 1, 257, false),
    (Direction::Sends, 4, 1, 256, true),
    (Direction::Sends, 13, 128, 256, true),
    (Direction::Sends, 4, 1, 255, false),
    (Direction::Sends, 4, 1, 257, false),
    (Direction::Sends, 4, 0, 256, false),
    (Direction::Sends, 3, 1, 256, false),
];

/// A route by its Data ID, with a row's direction, slot, reserve and window.
fn route_of(id: u16, row: &(Direction, u8, u16, u16, bool), start: u64) -> Option<Route> {
    Some(Route {
        id,
        direction: row.0,
        slot: SlotId::new(row.1)?,
        reserve: row.2,
        window: row.3,
        start,
    })
}

fn receiving(id: u16) -> Option<Route> {
    route_of(id, &(Direction::Receives, 4, 1, 256, true), 7)
}

/// Routes with the Data IDs 0, 1 and on.
fn numbered(alloc: Global, count: u16) -> Option<Vec<Route>> {
    let mut routes = Vec::new(alloc);
    for id in 0..count {
        routes.push(receiving(id)?).ok()?;
    }
    Some(routes)
}

/// Whether a node with this identifier and these routes is one.
fn makes_node(uid: [u8; 15], routes: Option<Vec<Route>>) -> Option<bool> {
    Some(NodeConfig::new(Uid::of(uid), routes?).is_some())
}

/// One route.
fn one_route(alloc: Global, row: &(Direction, u8, u16, u16, bool)) -> Option<Vec<Route>> {
    let route = route_of(0x6bc1, row, u64::MAX)?;
    vec![in alloc; route].ok()
}

#[test]
fn a_route_has_its_bounds(rt: HostRuntime) {
    for (place, row) in ROUTES.iter().enumerate() {
        let is_one = makes_node(UID, one_route(rt.alloc(), row));
        holds(&rt, place, is_one == Some(row.4));
    }
}

const COUNTS: &[(u16, bool)] = &[(0, true), (1, true), (2, true), (256, true), (257, false)];

#[test]
fn a_node_has_at_most_256_routes(rt: HostRuntime) {
    for row in COUNTS {
        let is_one = makes_node(UID, numbered(rt.alloc(), row.0));
        holds(&rt, row.0, is_one == Some(row.1));
    }
}

/// Three routes, and a fourth with the Data ID of the first.
fn twice(alloc: Global) -> Option<Vec<Route>> {
    let mut routes = numbered(alloc, 3)?;
    routes.push(receiving(0)?).ok()?;
    Some(routes)
}

#[test]
fn data_ids_and_the_identifier_are_asked(rt: HostRuntime) {
    let is_one = makes_node(UID, twice(rt.alloc()));
    holds(&rt, "a Data ID twice", is_one == Some(false));
    let is_one = makes_node([0; 15], numbered(rt.alloc(), 1));
    holds(&rt, "an identifier of zeros", is_one == Some(false));
}

fn is_equal(copy: &NodeConfig, config: &NodeConfig) -> bool {
    copy.uid == config.uid && copy.routes.as_slice() == config.routes.as_slice()
}

/// Whether a copy of the configuration is equal, and has so many routes as a vector, too.
fn is_copied(alloc: Global, config: &NodeConfig, count: usize) -> bool {
    match config.copy(alloc) {
        Ok(copy) => is_equal(&copy, config) && copy.routes.into_vec().len() == count,
        Err(_) => false,
    }
}

fn most_routes(alloc: Global) -> Option<NodeConfig> {
    NodeConfig::new(Uid::of(UID), numbered(alloc, 256)?)
}

fn are_copied(alloc: Global) -> bool {
    match most_routes(alloc) {
        Some(config) => is_copied(alloc, &config, 256),
        None => false,
    }
}

#[test]
fn a_copy_is_equal(rt: HostRuntime) {
    holds(&rt, "a copy", are_copied(rt.alloc()));
}

/// From a bound of 100 no window reaches the last freshness. Lives of senders and receivers are rows of checks/.
#[test]
fn a_bound_ends_at_the_last_freshness(rt: HostRuntime) {
    let bound = bound_due(100, 128, u64::MAX);
    holds(&rt, "bound", bound == Some(u64::MAX));
}
