// Where a node's routes are.
ghost use Rattle.std.specs.Prelude.{◌≡◌, ◌<◌, length, MatchOption};
ghost use Rattle.bus_machine.specs.Node.{same_direction, place_in};

use freshness_manager::{Direction, Route};

fn is_same(direction: Direction, other: Direction) -> bool
    ensures { result ≡ same_direction direction other }
{
    match (direction, other) {
        (Direction::Sends, Direction::Sends) => true,
        (Direction::Receives, Direction::Receives) => true,
        _ => false,
    }
}

/// The place of the route with this Data ID and direction, if there is one.
pub fn place_of(routes: &[Route], id: u16, direction: Direction) -> Option<usize>
    ensures { MatchOption result (place_in routes.now id direction ≡ length routes.now)
        (λ k. (k ≡ place_in routes.now id direction) × (k < length routes.now)) }
{
    for (place, route) in routes.iter().enumerate() {
        if route.id == id && is_same(route.direction, direction) {
            return Some(place);
        }
    }
    None
}
