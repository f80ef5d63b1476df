// Nodes under their names, and what a list of them sends.

ghost use Rattle.std.specs.Prelude.{◌≡◌, ◌≢◌, ◌==◌, ◌&&◌, ◌++◌, IsNone, All, AllPairs};
ghost use Rattle.std.specs.List.{list_any};
ghost use Rattle.freshness_routes.specs.declared.routes.Direction.TheVariants.{Sends};
ghost use Rattle.bus_machine.specs.Node.{same_direction};
ghost use Rattle.bus_config.specs.Buses.{ids_sent, ids_sent_by, again_after, place_named as place_of_name, sent_again as first_sent_again};

use crate::names::Name;
use freshness_routes::{Direction, NodeConfig, Route};

/// A node of a bus: its name and its configuration.
#[derive(Debug, Drop)]
pub struct NodeLine {
    pub name: Name,
    pub config: NodeConfig,
}

/// The place of the first node with this name, counted from 0; `None` if there is none.
pub fn place_named(nodes: &[NodeLine], name: &[u8]) -> Option<usize>
    ensures value { result ≡ place_of_name nodes.now name.now }
    ensures nowhere { IsNone result → All (λ node. node.name ≢ name.now) nodes.now }
{
    nodes.iter().position(|node| node.name.bytes() == name)
}

// Whether one of the routes sends this Data ID.
fn sends(routes: &[Route], id: u16) -> bool
    ensures { result ≡ list_any (λ one. one == id) (ids_sent_by routes.now) }
{
    routes.iter().any(|route| route.direction == Direction::Sends && route.id == id)
}

// Whether one of the nodes sends this Data ID.
fn is_sent(nodes: &[NodeLine], id: u16) -> bool
    ensures { result ≡ list_any (λ one. one == id) (ids_sent nodes.now) }
{
    nodes
        .iter()
        .any(|node| sends(node.config.routes.as_slice(), id))
}

// Whether a route sends a Data ID that one of these nodes or of these routes sends.
fn sends_again(before: &[NodeLine], earlier: &[Route], route: &Route) -> bool
    ensures { result
        ≡ (same_direction route.now.direction Sends
        && list_any (λ one. one == route.now.id) (ids_sent before.now ++ ids_sent_by earlier.now)) }
{
    let Route { id, direction, .. } = *route;
    if direction != Direction::Sends {
        return false;
    }
    is_sent(before, id) || sends(earlier, id)
}

// The first Data ID of the routes that is sent before, by one of these nodes or by an earlier route.
fn again_in(before: &[NodeLine], routes: &[Route]) -> Option<u16>
    ensures { result ≡ again_after (ids_sent before.now) (ids_sent_by routes.now) }
{
    for (place, route) in routes.iter().enumerate() {
        if sends_again(before, &routes[..place], route) {
            return Some(route.id);
        }
    }
    None
}

/// The first Data ID, in the order of the nodes and of their routes, that is sent by a route and by an earlier one;
/// `None` if each is sent by one route.
pub fn sent_again(nodes: &[NodeLine]) -> Option<u16>
    ensures value { result ≡ first_sent_again nodes.now }
    ensures once { IsNone result → AllPairs (λ i j. i ≢ j) (ids_sent nodes.now) }
{
    for (place, node) in nodes.iter().enumerate() {
        let again = again_in(&nodes[..place], node.config.routes.as_slice());
        if again.is_some() {
            return again;
        }
    }
    None
}
