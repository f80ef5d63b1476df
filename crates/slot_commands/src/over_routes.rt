//! What is wrong with the cells of a store if the routes of the unit's node are known.
ghost use Rattle.std.specs.Prelude.{◌≡◌, ◌≤◌, ◌++◌, map as each, drop, length, Some, OnOk, option_map};
ghost use Rattle.text_lines.specs.Written.{written};
ghost use Rattle.slot_commands.specs.Cells.{slot_count};
ghost use Rattle.slot_commands.specs.Checked.{PushesFinding};
ghost use Rattle.slot_commands.specs.RouteFindings.{not_its_bound_words, no_cell_words, lacking_lines, route_of_place};
ghost use Rattle.slot_commands.specs.Stores.{written_lines};

use crate::cells::{SLOT_COUNT, direction_name, push_bad};
use crate::checking::push_by_itself;
use freshness_routes::Route;
use freshness_store::bound_in;
use std::alloc::AllocError;
use text_lines::pushing::{end_line, push_hex, push_number, push_word};

/// Adds a line if the cell isn't that of its place: a slot, and after the slots the bound of the route there.
pub fn push_over_routes(
    text: &mut Vec<u8>,
    place: u16,
    cell: &[u8; 32],
    routes: &[Route],
) -> Result<(), AllocError>
    ensures { OnOk result (PushesFinding (Some routes.now) place (Some cell.now) text.old.items text.new.items) }
{
    if place < SLOT_COUNT {
        return push_by_itself(text, place, cell);
    }
    match routes.get(usize::from(place - SLOT_COUNT)) {
        Some(route) => push_if_not_its(text, place, cell, routes, route),
        None => push_bad(text, place, b"NoRoute"),
    }
}

/// Adds a line if the cell doesn't hold the bound of this route, which is that of its place among these.
fn push_if_not_its(
    text: &mut Vec<u8>,
    place: u16,
    cell: &[u8; 32],
    routes: &[Route],
    route: &Route,
) -> Result<(), AllocError>
    requires from { slot_count ≤ place }
    requires route { route_of_place routes.now place ≡ Some route.now }
    ensures { OnOk result (PushesFinding (Some routes.now) place (Some cell.now) text.old.items text.new.items) }
{
    match bound_in(cell, route.id, route.direction) {
        Some(_bound) => Ok(()),
        None => push_not_its_bound(text, place, route),
    }
}

/// Adds the line of a cell that doesn't hold the bound of this route.
fn push_not_its_bound(text: &mut Vec<u8>, place: u16, route: &Route) -> Result<(), AllocError>
    ensures { OnOk result (text.new.items ≡ text.old.items ++ written (not_its_bound_words place route.now)) }
{
    text.extend_from_slice(b"cell")?;
    push_number(text, u32::from(place))?;
    push_word(text, b"BadBound")?;
    push_hex(text, &route.id.to_be_bytes())?;
    push_word(text, direction_name(route.direction))?;
    end_line(text)
}

/// Adds a line for each route that has no cell in a store of so many cells.
pub fn push_lacking(
    text: &mut Vec<u8>,
    cells: u16,
    routes: Option<&[Route]>,
) -> Result<(), AllocError>
    requires { slot_count ≤ cells }
    ensures { OnOk result (text.new.items
        ≡ text.old.items ++ written_lines (lacking_lines (option_map (λ r. r.now) routes.entry) cells)) }
{
    match routes {
        Some(routes) => push_routes_from(text, usize::from(cells - SLOT_COUNT), routes),
        None => Ok(()),
    }
}

/// Adds a line for each route from this one on, counted from 0.
fn push_routes_from(text: &mut Vec<u8>, from: usize, routes: &[Route]) -> Result<(), AllocError>
    ensures { OnOk result (text.new.items
        ≡ text.old.items ++ written_lines (each no_cell_words (drop from routes.now))) }
{
    if from >= routes.len() {
        return Ok(());
    }
    push_no_cells(text, &routes[from..])
}

/// Adds a line for each of these routes.
fn push_no_cells(text: &mut Vec<u8>, routes: &[Route]) -> Result<(), AllocError>
    ensures { OnOk result (text.new.items ≡ text.old.items ++ written_lines (each no_cell_words routes.now)) }
{
    for route in routes {
        push_no_cell(text, route)?;
    }
    Ok(())
}

/// Adds the line of a route that has no cell.
fn push_no_cell(text: &mut Vec<u8>, route: &Route) -> Result<(), AllocError>
    ensures { OnOk result (text.new.items ≡ text.old.items ++ written (no_cell_words route.now)) }
{
    text.extend_from_slice(b"route")?;
    push_hex(text, &route.id.to_be_bytes())?;
    push_word(text, direction_name(route.direction))?;
    push_word(text, b"NoCell")?;
    end_line(text)
}
