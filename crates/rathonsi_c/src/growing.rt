//! The size of a store, by what its cells say, and a store that gets the cell of one route more, by a software update.
//! Each software mends the number of cells at each power-up, and then grows the store for each route that the
//! production line didn't make.
ghost use Rattle.std.specs.Prelude.{◌≡◌, ◌≢◌, ◌+◌, ◌≤◌, ◌↔◌, ◌⊎◌, ℕ, length, IsTrue, IfOk, IfErr};
ghost use Rattle.cell_store.specs.Twin.{twin_size};
ghost use Rattle.store_plan.specs.Plans.{PlanFits, IsEmptyPlan};
ghost use Rattle.rathonsi_c.specs.Growing.{SaysSize, Untold, untold_status, SizeAnswers, GivesSize, MendAnswers};
ghost use Rattle.rathonsi_c.specs.Growing.{PlansNumber, HasPlace, IsSpare, GrowAnswers, NumberAnswers, OwnAnswers};
ghost use Rattle.rathonsi_c.specs.Growing.{PlansCell, PlansOwn};
ghost use Rattle.rathonsi_c.specs.Causes.{IsDone};
ghost use Rattle.rathonsi_c.specs.Images.{ImageBound};
ghost use Rattle.rathonsi_c.specs.Routes.{InRanges, CellAnswers};

use crate::images::id_is_held;
use crate::route::{RathonsiRoute, bound_of, direction_of};
use crate::{BAD_LENGTH, BAD_VALUE, BUSY, DAMAGED, DUPLICATE_ID, NO_STORE, OK, WRONG_CELL};
use freshness_store::{Direction, bound_bytes};
use store_plan::{
    Plan, TellFault, cell_in, cells_told, has_head, is_empty, may_grow, plan_count, plan_growth,
    plan_put,
};

// The status of an image that says no number of cells.
fn untold_status(fault: TellFault) -> i32
    ensures { result ≡ untold_status fault }
{
    match fault {
        TellFault::NoStore => NO_STORE,
        TellFault::TooShort => BAD_LENGTH,
        TellFault::Damaged => DAMAGED,
    }
}

// The number of cells that the image says, if it is one of fourteen slots and up to 256 routes.
fn told(image: &[u8]) -> Result<u16, TellFault>
    ensures told { IfOk result (SaysSize image.now) }
    ensures untold { IfErr result (Untold image.now) }
{
    if image.len() < 984 {
        return Err(TellFault::TooShort);
    }
    let cells = cells_told(image)?;
    if cells < 14 || cells > 270 {
        return Err(TellFault::Damaged);
    }
    Ok(cells)
}

/// Tells the size in bytes of the store that the image begins with: its header and so many cells as count, from the
/// first on. The number of cells in the header is the same, or a cut left another; then what is after the cells is
/// erased. `BAD_LENGTH`: the image is shorter than fourteen cells. `NO_STORE`: the rest of the header isn't that of a
/// store. `BAD_LENGTH`: each cell of the image counts, and the number is another. `DAMAGED`: the number counts a cell
/// that has no copy that counts, or one counts after such a cell. The first that applies.
#[unsafe(no_mangle)]
pub extern "C" fn rathonsi_store_size(image: &[u8], size: &mut u32) -> i32
    ensures answer { SizeAnswers image.now result }
    ensures told { result ≡ OK → GivesSize image.now size.new }
    ensures unchanged { result ≢ OK → size.new ≡ size.old }
{
    match told(image) {
        Ok(cells) => {
            *size = 32 + 68 * u32::from(cells);
            OK
        }
        Err(fault) => untold_status(fault),
    }
}

/// Plans the number of cells in the header, if it isn't what the cells say. The plan stays empty if it is. `BUSY`, and
/// then as `rathonsi_store_size`: the first that applies.
#[unsafe(no_mangle)]
pub extern "C" fn rathonsi_store_mend(image: &[u8], plan: &mut Plan) -> i32
    ensures answer { MendAnswers image.now plan.old result }
    ensures mends { result ≡ OK → PlansNumber image.now plan.old plan.new }
    ensures fits { result ≡ OK → IsEmptyPlan plan.new ⊎ PlanFits (length image.now) plan.new }
    ensures unchanged { result ≢ OK → plan.new ≡ plan.old }
{
    if !is_empty(plan) {
        return BUSY;
    }
    match told(image) {
        Ok(cells) => {
            if !has_head(image, cells) {
                *plan = plan_count(cells);
            }
            OK
        }
        Err(fault) => untold_status(fault),
    }
}

/// Plans the cell of this route, with this bound: as one more at the end of the store, or in a cell of zero bytes that
/// the store has. If the number of cells isn't what the cells say, it plans that number first, and the caller calls
/// again. The plan stays empty if the store has the route's cell. `BUSY`. `BAD_VALUE`: a number of the route is
/// outside its range. `BAD_LENGTH`: the image ends before the cell does, or no store has such a cell. Then as
/// `rathonsi_store_size`. `DUPLICATE_ID`: another cell has its Data ID and direction. `WRONG_CELL`: the cell is
/// another's, or cells before it are missing. `BAD_LENGTH`: the cell is the next one, and the image has no room for
/// one more. `DAMAGED`: what is there or after it isn't erased. The first that applies.
#[unsafe(no_mangle)]
pub extern "C" fn rathonsi_store_grow(
    route: &RathonsiRoute,
    bound: u64,
    image: &[u8],
    plan: &mut Plan,
) -> i32
    ensures answer { GrowAnswers route.now image.now plan.old result }
    ensures grows { result ≡ OK → PlansCell route.now bound image.now plan.old plan.new }
    ensures fits { result ≡ OK → IsEmptyPlan plan.new ⊎ PlanFits (length image.now) plan.new }
    ensures unchanged { result ≢ OK → plan.new ≡ plan.old }
{
    if !is_empty(plan) {
        return BUSY;
    }
    let Some(direction) = direction_of(route) else {
        return BAD_VALUE;
    };
    if !has_place(route.cell, image) {
        return BAD_LENGTH;
    }
    match told(image) {
        Ok(cells) => grow(route, direction, bound, image, cells, plan),
        Err(fault) => untold_status(fault),
    }
}

// Whether a store has this cell, and the image its place.
fn has_place(cell: u16, image: &[u8]) -> bool
    ensures { IsTrue result ↔ HasPlace cell image.now }
{
    cell < 270 && image.len() >= 32 + 68 * (cell as usize + 1)
}

// The same of a route in range, and an image whose cells say that there are so many.
fn grow(
    route: &RathonsiRoute,
    direction: Direction,
    bound: u64,
    image: &[u8],
    cells: u16,
    plan: &mut Plan,
) -> i32
    requires { InRanges route.now direction × HasPlace route.now.cell image.now × SaysSize image.now cells
        × IsEmptyPlan plan.old }
    ensures answer { NumberAnswers route.now image.now cells result }
    ensures grows { result ≡ OK → PlansCell route.now bound image.now plan.old plan.new }
    ensures fits { result ≡ OK → IsEmptyPlan plan.new ⊎ PlanFits (length image.now) plan.new }
    ensures unchanged { result ≢ OK → plan.new ≡ plan.old }
{
    if !has_head(image, cells) {
        *plan = plan_count(cells);
        return OK;
    }
    if id_is_held(image, cells, route.cell, route.data_id, direction) {
        return DUPLICATE_ID;
    }
    if route.cell < cells {
        return claim(route, direction, bound, image, plan);
    }
    if cells < route.cell {
        return WRONG_CELL;
    }
    if image.len() < 32 + 68 * (cells as usize + 2) {
        return BAD_LENGTH;
    }
    if !may_grow(image, cells) {
        return DAMAGED;
    }
    *plan = plan_growth(cells, &bound_bytes(route.data_id, direction, bound));
    OK
}

// The same of a cell that the store has: one of zero bytes becomes the route's.
fn claim(
    route: &RathonsiRoute,
    direction: Direction,
    bound: u64,
    image: &[u8],
    plan: &mut Plan,
) -> i32
    requires { InRanges route.now direction × (twin_size (route.now.cell + 1) ≤ length image.now)
        × IsEmptyPlan plan.old }
    ensures answer { OwnAnswers route.now image.now result }
    ensures claims { result ≡ OK → PlansOwn route.now direction bound image.now plan.old plan.new }
    ensures fits { result ≡ OK → IsEmptyPlan plan.new ⊎ PlanFits (length image.now) plan.new }
    ensures unchanged { result ≢ OK → plan.new ≡ plan.old }
{
    if !is_spare(image, route.cell) {
        return cell_status(route, direction, image);
    }
    match plan_put(
        image,
        route.cell,
        &bound_bytes(route.data_id, direction, bound),
    ) {
        Ok(made) => {
            *plan = made;
            OK
        }
        Err(_) => DAMAGED,
    }
}

// Whether the cell at this place holds zero bytes: it is nobody's.
fn is_spare(image: &[u8], cell: u16) -> bool
    requires { twin_size (cell + 1) ≤ length image.now }
    ensures { IsTrue result ↔ IsSpare image.now cell }
{
    match cell_in(image, cell) {
        Ok(bytes) => bytes == [0; 32],
        Err(_) => false,
    }
}

// What the image, which has the cell of a route in range, says of it.
fn cell_status(route: &RathonsiRoute, direction: Direction, image: &[u8]) -> i32
    requires { InRanges route.now direction }
    ensures answer { CellAnswers route.now image.now IsDone result }
    ensures kept { result ≡ OK
        → (bound : ℕ) × ImageBound image.now route.now.cell route.now.data_id direction bound }
{
    match bound_of(route, direction, image) {
        Ok(_) => OK,
        Err(refusal) => refusal.status(),
    }
}
