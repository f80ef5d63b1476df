//! What the bytes of a store say of the cells of a bus's routes.
ghost use Rattle.std.specs.Prelude.{◌≡◌, ◌<◌, ◌≤◌, ◌+◌, ◌↔◌, length, IsTrue, IfOk, IfErr, OnOk, MatchOption};
ghost use Rattle.cell_store.specs.declared.kinds.Kind.TheVariants.{Twin};
ghost use Rattle.cell_store.specs.Layout.{part};
ghost use Rattle.cell_store.specs.Twin.{twin_size, first_at, is_live};
ghost use Rattle.freshness_routes.specs.declared.config.TheConstants.{MOST_ROUTES};
ghost use Rattle.store_growing.specs.StoreHeaders.{cells_counted, HasFirstHead};
ghost use Rattle.store_growing.specs.RouteCells.{route_cell, HoldsRoute, AreErased, IsFree, FreeFrom, CanGrow, HasSlot};
ghost use Rattle.store_growing.specs.RouteCells.{HaveSlots, RefusesBytes};
ghost use Rattle.store_growing.specs.LookSteps.{HaveJust, UsedAt, RefusesSlot, RefusesSlots};

use crate::faults::GrowFault;
use cell_store::{LIVE, pair_place};
use freshness_routes::Route;
use freshness_store::bound_in;
use slot_disk::slot_in;
use store_plan::cell_in;

/// How many cells the key slots have: those of the routes come after them.
pub(crate) const SLOT_COUNT: u16 = 14;

/// How many of the routes, from the first on, have their cells in these bytes of a store with its fourteen slots; or
/// why the others can't get theirs.
pub(crate) fn routes_there(image: &[u8], routes: &[Route]) -> Result<u16, GrowFault>
    requires few { length routes.now ≤ MOST_ROUTES }
    requires room { twin_size (route_cell (length routes.now) + 1) ≤ length image.now }
    requires head { HasFirstHead Twin image.now }
    ensures found { IfOk result (CanGrow routes.now image.now) }
    ensures refused { IfErr result (RefusesBytes routes.now image.now) }
{
    slots_there(image)?;
    let most = routes.len() as u16;
    let there = held_first(image, routes);
    if let Some(place) = used_from(image, there, most) {
        return Err(GrowFault::BadBound(SLOT_COUNT + place));
    }
    if is_erased_pair(image, SLOT_COUNT + most) {
        Ok(there)
    } else {
        Err(GrowFault::TooSmall)
    }
}

/// Looks whether the first fourteen cells hold a key slot each.
fn slots_there(image: &[u8]) -> Result<(), GrowFault>
    requires { twin_size 14 ≤ length image.now }
    ensures holds { OnOk result (HaveSlots image.now 14) }
    ensures refused { IfErr result (RefusesSlots image.now) }
{
    for cell in 0..SLOT_COUNT {
        slot_there(image, cell)?;
    }
    Ok(())
}

/// Looks whether this cell holds a key slot.
fn slot_there(image: &[u8], cell: u16) -> Result<(), GrowFault>
    requires { twin_size (cell + 1) ≤ length image.now }
    ensures holds { OnOk result (HasSlot image.now cell) }
    ensures refused { IfErr result (RefusesSlot image.now cell) }
{
    match cell_in(image, cell) {
        Ok(bytes) => match slot_in(&bytes) {
            Some(_slot) => Ok(()),
            None => Err(GrowFault::BadSlot(cell)),
        },
        Err(_) => Err(GrowFault::Damaged(cell)),
    }
}

/// How many of the routes, from the first on, have their cells.
fn held_first(image: &[u8], routes: &[Route]) -> u16
    requires few { length routes.now ≤ MOST_ROUTES }
    requires room { twin_size (route_cell (length routes.now)) ≤ length image.now }
    ensures { HaveJust routes.now image.now result }
{
    let most = routes.len() as u16;
    for place in 0..most {
        if !holds_route(image, SLOT_COUNT + place, &routes[usize::from(place)]) {
            return place;
        }
    }
    most
}

/// Whether this cell holds a bound of the route.
fn holds_route(image: &[u8], cell: u16, route: &Route) -> bool
    requires few { cell < 1024 }
    requires room { twin_size (cell + 1) ≤ length image.now }
    ensures { IsTrue result ↔ HoldsRoute image.now cell route.now }
{
    match cell_in(image, cell) {
        Ok(bytes) => bound_in(&bytes, route.id, route.direction).is_some(),
        Err(_) => false,
    }
}

/// The first of these places whose cell can't be written.
fn used_from(image: &[u8], from: u16, to: u16) -> Option<u16>
    requires few { to ≤ MOST_ROUTES }
    requires room { twin_size (route_cell to) ≤ length image.now }
    ensures { MatchOption result (FreeFrom image.now from to) (UsedAt image.now from to) }
{
    for place in from..to {
        if !is_free(image, SLOT_COUNT + place) {
            return Some(place);
        }
    }
    None
}

/// Whether this cell can be written.
fn is_free(image: &[u8], cell: u16) -> bool
    requires few { cell < 1024 }
    requires room { twin_size (cell + 1) ≤ length image.now }
    ensures { IsTrue result ↔ IsFree image.now cell }
{
    if is_counted(image, cell) {
        return false;
    }
    if is_open(image, cell) {
        return false;
    }
    is_erased_copy(image, pair_place(cell) as usize + 34)
}

/// Whether the number in the header counts this cell.
fn is_counted(image: &[u8], cell: u16) -> bool
    requires { 32 ≤ length image.now }
    ensures { IsTrue result ↔ (cell < cells_counted image.now) }
{
    u16::from_be_bytes([image[10], image[11]]) > cell
}

/// Whether the gate of the first copy of this cell is live.
fn is_open(image: &[u8], cell: u16) -> bool
    requires { twin_size (cell + 1) ≤ length image.now }
    ensures { IsTrue result ↔ IsTrue (is_live (part (first_at cell) 34 image.now)) }
{
    image[pair_place(cell) as usize] == LIVE
}

/// Whether a copy of a cell, 34 bytes from this address on, is as an erase leaves it.
fn is_erased_copy(image: &[u8], at: usize) -> bool
    requires { at + 34 ≤ length image.now }
    ensures { IsTrue result ↔ AreErased at 34 image.now }
{
    if image[at..at + 34] == [0; 34][..] {
        return true;
    }
    image[at..at + 34] == [0xff; 34][..]
}

/// Whether a whole cell is as an erase leaves it.
fn is_erased_pair(image: &[u8], cell: u16) -> bool
    requires few { cell < 1024 }
    requires room { twin_size (cell + 1) ≤ length image.now }
    ensures { IsTrue result ↔ AreErased (first_at cell) 68 image.now }
{
    let at = pair_place(cell) as usize;
    if image[at..at + 68] == [0; 68][..] {
        return true;
    }
    image[at..at + 68] == [0xff; 68][..]
}
