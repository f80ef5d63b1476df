// A whole bus.

ghost use Rattle.std.specs.Prelude.{◌≡◌, ◌↔◌, ◌≢◌, ◌≤◌, IsTrue, All, AllPairs, length};
ghost use Rattle.freshness_routes.specs.Config.{IsConfig};
ghost use Rattle.bus_config.specs.Names.{is_name};
ghost use Rattle.bus_config.specs.Buses.{most_routes as routes_at_most};

use crate::node_lines::{NodeLine, place_named, sent_again};
use cell_store::{Kind, Version};
use freshness_routes::MOST_ROUTES;
use std::marker::Model;

/// A bus: which stores its nodes keep, and its 1 to 8 nodes, whose names differ. A node has at most 64 routes if the
/// stores are of version 1, and at most 256 if they are of version 2. No two routes of the bus send one Data ID.
#[derive(Debug, Drop)]
pub struct BusConfig {
    kind: Kind,
    version: Version,
    nodes: Vec<NodeLine>,
}

impl Model for BusConfig {
    ghost use Rattle.bus_config.specs.Buses.{NamedBus, IsNamedBus};

    ghost Value = { NamedBus };

    ghost view = { λ b. record { kind = b.kind; version = b.version; nodes = b.nodes.items } };

    ghost invariant = { λ b. IsNamedBus (record { kind = b.kind; version = b.version; nodes = b.nodes.items }) };
}

/// How many routes a node has at most if the stores are of this version: 64 in version 1, and 256 in version 2.
pub fn most_routes(version: Version) -> usize
    ensures { result ≡ routes_at_most version }
{
    match version {
        Version::One => 64,
        Version::Two => MOST_ROUTES,
    }
}

// Whether each node has at most so many routes.
fn have_few_routes(nodes: &[NodeLine], most: usize) -> bool
    ensures few { IsTrue result ↔ All (λ node. length node.config.routes ≤ most) nodes.now }
    ensures configs { IsTrue result → All (λ node. IsConfig node.config) nodes.now }
{
    for node in nodes {
        if node.config.routes.as_slice().len() > most {
            return false;
        }
    }
    true
}

// Whether the names differ.
fn have_own_names(nodes: &[NodeLine]) -> bool
    ensures own { IsTrue result ↔ AllPairs (λ m n. m.name ≢ n.name) nodes.now }
    ensures named { IsTrue result → All (λ node. IsTrue (is_name node.name)) nodes.now }
{
    for (place, node) in nodes.iter().enumerate() {
        if place_named(&nodes[..place], node.name.bytes()).is_some() {
            return false;
        }
    }
    true
}

impl BusConfig {
    ghost use Rattle.std.specs.Prelude.{◌≡◌, ◌<◌, IfSome, length};
    ghost use Rattle.std.specs.Option.{SomeIff};
    ghost use Rattle.bus_config.specs.Buses.{IsNamedBus, place_named};

    /// The bus of these nodes; `None` if there aren't 1 to 8 nodes, or two have one name, or one has more routes than
    /// the version allows, or two routes send one Data ID. It takes no memory.
    pub fn new(kind: Kind, version: Version, nodes: Vec<NodeLine>) -> Option<BusConfig>
        ensures { SomeIff result (IsNamedBus (record { kind = kind; version = version; nodes = nodes.items }))
            (record { kind = kind; version = version; nodes = nodes.items }) }
    {
        let listed = nodes.as_slice();
        if listed.is_empty() || listed.len() > 8 || !have_own_names(listed) {
            return None;
        }
        if !have_few_routes(listed, most_routes(version)) {
            return None;
        }
        if sent_again(listed).is_some() {
            return None;
        }
        Some(BusConfig {
            kind,
            version,
            nodes,
        })
    }

    /// How the stores of the nodes keep their cells.
    pub fn kind(&self) -> Kind
        ensures { result ≡ self.now.kind }
    {
        self.kind
    }

    /// Where the stores of the nodes lie on their disks.
    pub fn version(&self) -> Version
        ensures { result ≡ self.now.version }
    {
        self.version
    }

    /// The nodes in their order, 1 to 8.
    pub fn nodes(&self) -> &[NodeLine]
        ensures value { result.now ≡ self.now.nodes }
        ensures is_bus { IsNamedBus self.now }
    {
        self.nodes.as_slice()
    }

    /// The place of the node with this name, counted from 0; `None` if the bus has no such node.
    pub fn find(&self, name: &[u8]) -> Option<u8>
        ensures value { result ≡ place_named self.now.nodes name.now }
        ensures inside { IfSome result (λ i. i < length self.now.nodes) }
    {
        let place = place_named(self.nodes.as_slice(), name)?;
        Some(place as u8)
    }
}
