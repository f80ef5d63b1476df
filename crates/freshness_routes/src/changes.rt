//! How far a bound moves.
ghost use Rattle.std.specs.Prelude.{◌≡◌, ◌≤◌};
ghost use Rattle.freshness_routes.specs.Changes.{bound_ahead as ahead_of_freshness, bound_due as due_of_freshness};

/// The bound that covers this freshness and what is left of a reserve after it, at most 2^64 - 1. It is the one rule
/// of how far a bound moves: senders, receivers and the library for C call it.
pub fn bound_ahead(reserve: u16, freshness: u64) -> u64
    requires { 1 ≤ reserve }
    ensures { result ≡ ahead_of_freshness reserve freshness }
{
    freshness.saturating_add(u64::from(reserve - 1))
}

/// The bound that a node puts before it sends or accepts this freshness. `None` if its bound suffices.
pub fn bound_due(bound: u64, reserve: u16, freshness: u64) -> Option<u64>
    requires { 1 ≤ reserve }
    ensures { result ≡ due_of_freshness bound reserve freshness }
{
    if freshness <= bound {
        return None;
    }
    Some(bound_ahead(reserve, freshness))
}
