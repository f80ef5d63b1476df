//! Pairs of Data IDs: what arrives under the first departs under the second.
ghost use Rattle.std.specs.Prelude.{◌≡◌, ◌≢◌, ◌↔◌, ◌<◌, ◌≤◌, IsTrue, All, MatchOption, length, take};
ghost use Rattle.freshness_routes.specs.declared.config.TheConstants.{MOST_ROUTES};
ghost use Rattle.secoc_gateway.specs.Gateway.{second_of as second_in};
ghost use Rattle.secoc_gateway.specs.Pairs.{pair_in, IsGoodAfter, AreGood, IsLowestBad};

use freshness_manager::{Direction, Route};
use secoc_node::place_of;

/// The second Data ID of the pair with this first one.
pub fn second_of(pairs: &[(u16, u16)], id: u16) -> Option<u16>
    ensures { result ≡ second_in pairs.now id }
{
    pairs.iter().find(|pair| pair.0 == id).map(|pair| pair.1)
}

// Whether no earlier pair has either Data ID of this one at its place.
fn is_new(earlier: &[(u16, u16)], pair: (u16, u16)) -> bool
    ensures { IsTrue result ↔ All (λ p. (p.0 ≢ pair.0) × (p.1 ≢ pair.1)) earlier.now }
{
    for other in earlier {
        if other.0 == pair.0 || other.1 == pair.1 {
            return false;
        }
    }
    true
}

// Whether these routes receive the first of this pair and send the second, and no earlier pair has one of them.
fn is_good_after(routes: &[Route], earlier: &[(u16, u16)], pair: (u16, u16)) -> bool
    ensures { IsTrue result ↔ IsGoodAfter routes.now earlier.now pair }
{
    if place_of(routes, pair.0, Direction::Receives).is_none() {
        return false;
    }
    if place_of(routes, pair.1, Direction::Sends).is_none() {
        return false;
    }
    is_new(earlier, pair)
}

/// The place of the lowest pair that a gateway over a node with these routes doesn't take, counted from 0.
pub fn lowest_bad(routes: &[Route], pairs: &[(u16, u16)]) -> Option<u16>
    requires { length routes.now ≤ MOST_ROUTES }
    ensures lowest { MatchOption result (AreGood routes.now pairs.now) (IsLowestBad routes.now pairs.now) }
    ensures within { MatchOption result (Unit {0}) (λ place. place ≤ MOST_ROUTES) }
{
    for (place, pair) in pairs.iter().enumerate() {
        if !is_good_after(routes, &pairs[..place], *pair) {
            return Some(place as u16);
        }
    }
    None
}
