//! Buses one step within and one step past each of their bounds, and some calls once.
use crate::comparing::{holds, same};
use bus_config::{BusConfig, Name, NodeLine, place_named, sent_again};
use cell_store::{Kind, Version};
use freshness_routes::{Direction, NodeConfig, Route};
use memory_update::{SlotId, Uid};
use std::alloc::Global;
use std::process::Abort;
use std::test::Fail;

fn route_of(id: u16, is_sent: bool) -> Option<Route> {
    let direction = if is_sent {
        Direction::Sends
    } else {
        Direction::Receives
    };
    Some(Route {
        id,
        direction,
        slot: SlotId::new(4)?,
        reserve: 1,
        window: 256,
        start: 0,
    })
}

// A node with these routes, each a Data ID and whether it is sent.
fn node(alloc: Global, name: &[u8], routes: &[(u16, bool)]) -> Result<NodeLine, Fail> {
    let mut listed = Vec::new(alloc);
    for (id, is_sent) in routes {
        listed.push(route_of(*id, *is_sent).ok_or("a route")?)?;
    }
    Ok(NodeLine {
        name: Name::of(name).ok_or("a name")?,
        config: NodeConfig::new(Uid::of([1; 15]), listed).ok_or("a node")?,
    })
}

/// Nodes with these names and routes.
type Nodes = &'static [(&'static [u8], &'static [(u16, bool)])];

fn nodes_of(alloc: Global, rows: Nodes) -> Result<Vec<NodeLine>, Fail> {
    let mut nodes = Vec::new(alloc);
    for (name, routes) in rows {
        nodes.push(node(alloc, name, routes)?)?;
    }
    Ok(nodes)
}

const TWO: Nodes = &[
    (b"left", &[(0x6bc1, true), (0x7bc1, false)]),
    (b"right", &[(0x6bc1, false), (0x7bc1, true)]),
];

/// A name, and the place of its node.
const PLACES: &[(&[u8], Option<u8>)] = &[
    (b"left", Some(0)),
    (b"right", Some(1)),
    (b"lef", None),
    (b"leftx", None),
    (b"", None),
];

fn is_the_bus(rt: &impl Abort, bus: &BusConfig) {
    same(rt, "kind", &bus.kind(), &Kind::Log);
    same(rt, "version", &bus.version(), &Version::Two);
    same(rt, "nodes", &bus.nodes().len(), &2);
    for (name, place) in PLACES {
        same(rt, name.len(), &bus.find(name), place);
    }
    same(rt, "place", &place_named(bus.nodes(), b"right"), &Some(1));
    same(rt, "sent again", &sent_again(bus.nodes()), &None);
}

#[test]
fn a_bus_of_two_nodes_is_one_and_its_nodes_are_found(rt: HostRuntime) -> Result<(), Fail> {
    let nodes = nodes_of(rt.alloc(), TWO)?;
    let bus = BusConfig::new(Kind::Log, Version::Two, nodes).ok_or("a bus")?;
    is_the_bus(&rt, &bus);
    Ok(())
}

// A node that receives so many Data IDs, counted from 0.
fn hearer(alloc: Global, name: &[u8], count: u16) -> Result<NodeLine, Fail> {
    let mut routes = Vec::new(alloc);
    for id in 0..count {
        routes.push((id, false))?;
    }
    node(alloc, name, routes.as_slice())
}

const EIGHT: &[&[u8]] = &[b"a", b"b", b"c", b"d", b"e", b"f", b"g", b"h"];

const NINE: &[&[u8]] = &[b"a", b"b", b"c", b"d", b"e", b"f", b"g", b"h", b"i"];

const SAME: &[&[u8]] = &[b"ab", b"ac", b"ab"];

const OTHER: &[&[u8]] = &[b"ab", b"ac"];

/// The names of nodes, how many routes each has, the version, and whether such a bus is one.
const BUSES: &[(&[&[u8]], u16, Version, bool)] = &[
    (&[], 1, Version::One, false),
    (EIGHT, 64, Version::One, true),
    (NINE, 1, Version::One, false),
    (EIGHT, 65, Version::One, false),
    (OTHER, 65, Version::Two, true),
    (EIGHT, 256, Version::Two, true),
    (SAME, 1, Version::One, false),
    (OTHER, 1, Version::One, true),
];

fn hearers(alloc: Global, names: &[&[u8]], count: u16) -> Result<Vec<NodeLine>, Fail> {
    let mut nodes = Vec::new(alloc);
    for name in names {
        nodes.push(hearer(alloc, name, count)?)?;
    }
    Ok(nodes)
}

#[test]
fn a_bus_has_its_bounds(rt: HostRuntime) -> Result<(), Fail> {
    for (names, count, version, is_one) in BUSES {
        let nodes = hearers(rt.alloc(), names, *count)?;
        let made = BusConfig::new(Kind::Twin, *version, nodes);
        same(&rt, *count, &made.is_some(), is_one);
    }
    Ok(())
}

/// The routes of three nodes; the last sends what the others send.
const SENDERS: Nodes = &[
    (b"a", &[(1, true), (2, true), (3, false)]),
    (b"b", &[(1, false), (3, true)]),
    (b"c", &[(4, true), (2, true), (1, true)]),
];

fn send_again(rt: &impl Abort, nodes: &[NodeLine]) {
    holds(rt, "three nodes", nodes.len() == 3);
    same(rt, "two nodes", &sent_again(&nodes[..2]), &None);
    same(rt, "three nodes", &sent_again(nodes), &Some(2));
}

#[test]
fn a_data_id_is_sent_by_one_route(rt: HostRuntime) -> Result<(), Fail> {
    let nodes = nodes_of(rt.alloc(), SENDERS)?;
    send_again(&rt, nodes.as_slice());
    let made = BusConfig::new(Kind::Twin, Version::One, nodes);
    holds(&rt, "BusConfig::new", made.is_none());
    Ok(())
}
