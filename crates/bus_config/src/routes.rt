// The routes of a node.

ghost use Rattle.std.specs.List.{list_any};
ghost use Rattle.std.specs.Prelude.{◌≡◌, ◌==◌, ◌≢◌, ◌+◌, ◌≤◌, [], map, length, codes, IsFalse, IfOk, IfSome, All, AllPairs};
ghost use Rattle.toml.specs.View.{view, table_view};
ghost use Rattle.freshness_routes.specs.Config.{IsRoute};
ghost use Rattle.freshness_routes.specs.declared.config.TheConstants.{MOST_ROUTES};
ghost use Rattle.bus_config.specs.Values.{whole_in, start_in};
ghost use Rattle.bus_config.specs.Rows.{route_in_row, window_in, optional, next_route as next_route_in};
ghost use Rattle.bus_config.specs.BusFile.{routes_from};
ghost use Rattle.bus_config.specs.Answers.{AnswersAsList};

use crate::fault::ConfigFault;
use crate::tables::{has_only, member};
use crate::values;
use freshness_routes::{Direction, MOST_RESERVE, Route};
use secured_pdu::WIDEST_WINDOW;
use std::alloc::Global;
use toml::{Table, Value};

// The window of a route: 1 to 256, and if it sends 256, with no key for it.
fn window(row: &Table, direction: Direction) -> Option<u16>
    ensures { result ≡ window_in direction (table_view row.now) }
{
    match (member(row, "window"), direction) {
        (None, _) => Some(WIDEST_WINDOW),
        (Some(_), Direction::Sends) => None,
        (Some(value), Direction::Receives) => values::whole(value, 1, WIDEST_WINDOW),
    }
}

fn reserve(row: &Table) -> Option<u16>
    ensures { result ≡ optional 1 (whole_in 1 MOST_RESERVE) (codes "reserve") (table_view row.now) }
{
    match member(row, "reserve") {
        None => Some(1),
        Some(value) => values::whole(value, 1, MOST_RESERVE),
    }
}

fn start(row: &Table) -> Option<u64>
    ensures { result ≡ optional 0 start_in (codes "start") (table_view row.now) }
{
    match member(row, "start") {
        None => Some(0),
        Some(value) => values::start(value),
    }
}

#[tactic(auto, unfolding(crate::specs::Rows::route_in_row))]
fn route(row: &Table) -> Option<Route>
    ensures value { result ≡ route_in_row (table_view row.now) }
    ensures is_route { IfSome result IsRoute }
{
    if !has_only(
        row,
        &["id", "direction", "slot", "reserve", "window", "start"],
    ) {
        return None;
    }
    let id = values::id(member(row, "id")?)?;
    let direction = values::direction(member(row, "direction")?)?;
    let slot = values::slot(member(row, "slot")?)?;
    let reserve = reserve(row)?;
    let window = window(row, direction)?;
    let start = start(row)?;
    Some(Route {
        id,
        direction,
        slot,
        reserve,
        window,
        start,
    })
}

// Whether one of the routes has this Data ID.
fn is_taken(routes: &[Route], id: u16) -> bool
    ensures value { result ≡ list_any (λ r. r.id == id) routes.now }
    ensures free { IsFalse result → All (λ r. r.id ≢ id) routes.now }
{
    routes.iter().any(|route| route.id == id)
}

// The route of a row, with a Data ID that none of those before it has.
#[tactic(auto, unfolding(crate::specs::Rows::next_route))]
fn next_route(before: &[Route], row: &Value) -> Option<Route>
    ensures value { result ≡ next_route_in before.now (view row.now) }
    ensures is_route { IfSome result IsRoute }
    ensures new { IfSome result (λ route. All (λ r. r.id ≢ route.id) before.now) }
{
    let route = route(row.as_table()?)?;
    if is_taken(before, route.id) {
        return None;
    }
    Some(route)
}

// The routes of the node with this number.
#[tactic(auto, unfolding(crate::specs::BusFile::routes_from))]
pub(crate) fn read_routes(
    alloc: Global,
    node: u8,
    rows: &[Value],
) -> Result<Vec<Route>, ConfigFault>
    requires { length rows.now ≤ MOST_ROUTES }
    ensures exact { AnswersAsList (routes_from node [] (map view rows.now)) result }
    ensures counted { IfOk result (λ routes. length routes.items ≡ length rows.now) }
    ensures are_routes { IfOk result (λ routes. All IsRoute routes.items) }
    ensures own_ids { IfOk result (λ routes. AllPairs (λ r s. r.id ≢ s.id) routes.items) }
{
    let mut routes = Vec::new(alloc);
    for (place, row) in rows.iter().enumerate() {
        match next_route(routes.as_slice(), row) {
            Some(route) => routes.push(route)?,
            None => return Err(ConfigFault::Route(node, place as u16 + 1)),
        }
    }
    Ok(routes)
}
