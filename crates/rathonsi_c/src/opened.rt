//! Which routes are open, and whether a call moved their counter since. A check value stands beside `opened`, over what an
//! open route may not change but by a call.
ghost use Rattle.std.specs.Prelude.{◌≡◌, ◌↔◌, ◌^◌, ◌<◌, IsTrue};
ghost use Rattle.rathonsi_c.specs.Routes.{IsOpened, HasMoved, at_counter, opened_at, sealed, check_number, check_of};

use crate::route::RathonsiRoute;

/// The check value is below this number, the greatest prime that three bytes hold.
pub const CHECK_PRIME: u64 = 16_777_213;

/// `opened` of a route whose counter is where the opening put it.
pub const FRESH: u8 = 1;

/// `opened` of a route whose counter a call moved since.
pub const MOVED: u8 = 2;

// The number of the check value.
fn number_of(route: &RathonsiRoute) -> u32
    ensures value { result ≡ check_number route.now }
    ensures fits { result < 2 ^ 24 }
{
    // 2^24 is the prime and 3: numbers of 32 bits are enough.
    let low = (route.counter % 16_777_216) as u32;
    let middle = (route.counter / 16_777_216 % 16_777_216) as u32;
    let high = (route.counter / 281_474_976_710_656) as u32;
    let near = u32::from(route.cell % 256) * 65536 + u32::from(route.data_id);
    let way = u32::from(route.opened) * 65536 + u32::from(route.direction) * 256;
    let far = way + u32::from(route.cell / 256);
    (low + 3 * (middle + near) + 9 * (high + far)) % CHECK_PRIME as u32 + 1
}

// The check value of the route's fields.
fn check_bytes(route: &RathonsiRoute) -> [u8; 3]
    ensures { result ≡ check_of route.now }
{
    let [_, high, middle, low] = number_of(route).to_be_bytes();
    [high, middle, low]
}

// Gives the route the check value of its fields.
fn seal(route: &mut RathonsiRoute)
    ensures { route.new ≡ sealed route.old }
{
    route.check = check_bytes(route);
}

/// Whether `rathonsi_route_open` opened the route, and the calls alone moved its counter since.
pub fn is_open(route: &RathonsiRoute) -> bool
    ensures { IsTrue result ↔ IsOpened route.now }
{
    if route.opened != FRESH && route.opened != MOVED {
        return false;
    }
    route.check == check_bytes(route)
}

/// Whether it is open, and a call moved its counter since it was opened.
pub fn has_moved(route: &RathonsiRoute) -> bool
    ensures { IsTrue result ↔ HasMoved route.now }
{
    route.opened == MOVED && is_open(route)
}

/// Makes this the counter of the route.
pub fn move_counter(route: &mut RathonsiRoute, counter: u64)
    ensures { route.new ≡ at_counter route.old counter }
{
    route.counter = counter;
    route.opened = MOVED;
    seal(route);
}

/// The mark that an opening gives the route: one that is open keeps its own.
pub fn mark_of(route: &RathonsiRoute) -> u8
    ensures still_moved { HasMoved route.now → result ≡ MOVED }
    ensures fresh { ¬ HasMoved route.now → result ≡ FRESH }
{
    if has_moved(route) { MOVED } else { FRESH }
}

/// Opens the route at this bound, with this mark.
pub fn open_at(route: &mut RathonsiRoute, bound: u64, mark: u8)
    ensures { route.new ≡ opened_at route.old bound mark }
{
    route.counter = bound;
    route.opened = mark;
    seal(route);
}
