//! Which number of a route is outside its range: for the bench, where `BAD_VALUE` says less.
ghost use Rattle.std.specs.Prelude.{◌≡◌, ◌↔◌};
ghost use Rattle.freshness_routes.specs.declared.routes.Direction.{Direction};
ghost use Rattle.rathonsi_c.specs.Faults.{FieldOutside, IsNoField, TellsFault};
ghost use Rattle.rathonsi_c.specs.Routes.{InRanges, InUse};

use crate::opened::is_open;
use crate::route::RathonsiRoute;
use freshness_routes::MOST_RESERVE;
use secured_pdu::WIDEST_WINDOW;

/// The number of the first field outside its range, as `rathonsi_route_fault` tells it, or 0.
pub fn field_outside(route: &RathonsiRoute) -> u32
    ensures field { FieldOutside route.now IsNoField result }
    ensures none { (result ≡ 0) ↔ ((direction : Direction) × InRanges route.now direction) }
{
    let RathonsiRoute {
        cell,
        reserve,
        window,
        slot,
        direction,
        booted,
        freshness_only,
        ..
    } = *route;
    if cell < 14 {
        return 1;
    }
    if reserve < 1 || reserve > MOST_RESERVE {
        return 2;
    }
    if window < 1 || window > WIDEST_WINDOW {
        return 3;
    }
    if slot < 4 || slot > 13 {
        return 4;
    }
    if direction != 1 && direction != 2 {
        return 5;
    }
    if booted > 1 {
        return 6;
    }
    if freshness_only > 1 { 7 } else { 0 }
}

/// For the bench: the number of the first field of a route that is outside its range. 1: `cell`. 2: `reserve`. 3:
/// `window`. 4: `slot`. 5: `direction`. 6: `booted`. 7: `freshness_only`. 8: none is, but the route isn't open. 0: none
/// is, and it is open.
#[unsafe(no_mangle)]
pub extern "C" fn rathonsi_route_fault(route: &RathonsiRoute) -> u32
    ensures told { TellsFault route.now result }
    ensures in_use { (result ≡ 0) ↔ ((direction : Direction) × InUse route.now direction) }
{
    let field = field_outside(route);
    if field != 0 {
        return field;
    }
    if is_open(route) { 0 } else { 8 }
}
