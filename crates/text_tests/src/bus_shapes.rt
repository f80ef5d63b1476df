//! Buses of two nodes or three; each route uses slot 4.
use bus_config::{BusConfig, Name, NodeLine};
use cell_store::{Kind, Version};
use freshness_routes::{Direction, NodeConfig, Route};
use memory_update::{SlotId, Uid};
use std::alloc::Global;

fn routes_of(alloc: Global, routes: &[(u16, Direction)]) -> Option<Vec<Route>> {
    let mut listed = Vec::new(alloc);
    for route in routes {
        let route = Route {
            id: route.0,
            direction: route.1,
            slot: SlotId::new(4)?,
            reserve: 1,
            window: 256,
            start: 0,
        };
        listed.push(route).ok()?;
    }
    Some(listed)
}

/// A node with these routes.
fn node(alloc: Global, name: &[u8], last: u8, routes: &[(u16, Direction)]) -> Option<NodeLine> {
    let name = Name::of(name)?;
    let uid = Uid::of([0, 0, 0, 0, 0, 0, 0, 0, 0, 0, 0, 0, 0, 0, last]);
    let config = NodeConfig::new(uid, routes_of(alloc, routes)?)?;
    Some(NodeLine { name, config })
}

/// The routes of the nodes `left` and `right`, and whether there is a node `third` without one after them.
pub(crate) type Shape = (
    &'static [(u16, Direction)],
    &'static [(u16, Direction)],
    bool,
);

fn is_pushed(nodes: &mut Vec<NodeLine>, node: Option<NodeLine>) -> bool {
    match node {
        Some(node) => nodes.push(node).is_ok(),
        None => false,
    }
}

fn are_pushed(alloc: Global, shape: &Shape, nodes: &mut Vec<NodeLine>) -> bool {
    is_pushed(nodes, node(alloc, b"left", 1, shape.0))
        && is_pushed(nodes, node(alloc, b"right", 2, shape.1))
        && (!shape.2 || is_pushed(nodes, node(alloc, b"third", 3, &[])))
}

/// The bus of this shape.
pub(crate) fn bus_of(alloc: Global, shape: &Shape) -> Option<BusConfig> {
    let mut nodes = Vec::new(alloc);
    if !are_pushed(alloc, shape, &mut nodes) {
        return None;
    }
    BusConfig::new(Kind::Twin, Version::One, nodes)
}
