//! The image of a store: made on the production line, checked at power-up, and brought up to date.
ghost use Rattle.std.specs.Prelude.{◌≡◌, ◌≢◌, ◌*◌, ℕ, List, length, replicate, MatchOption};
ghost use Rattle.cell_store.specs.declared.kinds.Version.TheVariants.{One};
ghost use Rattle.cell_store.specs.Layout.{twin_layout};
ghost use Rattle.cell_store.specs.Store.{fresh_store};
ghost use Rattle.key_slots.specs.declared.memory.Slot.TheVariants.{Empty};
ghost use Rattle.slot_disk.specs.Cell.{slot_cell};
ghost use Rattle.store_plan.specs.Plans.{no_plan};
ghost use Rattle.rathonsi_c.specs.Stores.{IsSize, NoSize, IsWhole, MakeAnswers, CheckAnswers, RouteMakeAnswers, RouteMade, DoneAnswers};
ghost use Rattle.rathonsi_c.specs.Lives.{PlanDone};

use crate::images::id_is_held;
use crate::route::{RathonsiRoute, direction_of};
use crate::stale::is_stale;
use crate::{BAD_LENGTH, BAD_VALUE, DAMAGED, DUPLICATE_ID, NO_STORE, OK, STALE_PLAN};
use freshness_store::bound_bytes;
use store_plan::{ImageFault, Plan, check, count_of, done, is_within, make, make_cell};

/// The number of cells of an image of this size, if it is one of fourteen slots and up to 256 routes.
pub fn cells_of(size: usize) -> Option<u16>
    ensures { MatchOption result (NoSize size) (λ n. IsSize n size) }
{
    let Some(count) = count_of(size) else {
        return None;
    };
    if count < 14 || count > 270 {
        return None;
    }
    Some(count)
}

/// Makes the image of a store with fourteen empty slots, and a cell of zero bytes for each route. `BAD_LENGTH`: the
/// image doesn't have the size of a store of up to 256 routes.
#[unsafe(no_mangle)]
pub extern "C" fn rathonsi_store_make(image: &mut [u8]) -> i32
    ensures answer { MakeAnswers (length image.old) result }
    ensures made { (n : ℕ) → IsSize n (length image.old) → result ≡ OK
        → image.new ≡ fresh_store (twin_layout One) (replicate n (slot_cell Empty)) }
    ensures unchanged { result ≢ OK → image.new ≡ image.old }
{
    match cells_of(image.len()) {
        Some(cells) => {
            make(image, cells);
            OK
        }
        None => BAD_LENGTH,
    }
}

/// Makes the cell of a route hold this bound, as in a fresh store. `BAD_LENGTH` as above. `BAD_VALUE`: a number of the
/// route is outside its range, or the image has no such cell. `DUPLICATE_ID`: another cell has its Data ID and
/// direction already.
#[unsafe(no_mangle)]
pub extern "C" fn rathonsi_route_make(route: &RathonsiRoute, bound: u64, image: &mut [u8]) -> i32
    ensures answer { RouteMakeAnswers route.now image.old result }
    ensures made { result ≡ OK → RouteMade route.now bound image.old image.new }
    ensures unchanged { result ≢ OK → image.new ≡ image.old }
{
    let Some(cells) = cells_of(image.len()) else {
        return BAD_LENGTH;
    };
    let Some(direction) = direction_of(route) else {
        return BAD_VALUE;
    };
    if route.cell >= cells {
        return BAD_VALUE;
    }
    if id_is_held(image, cells, route.cell, route.data_id, direction) {
        return DUPLICATE_ID;
    }
    make_cell(
        image,
        route.cell,
        &bound_bytes(route.data_id, direction, bound),
    );
    OK
}

/// Checks an image that was read from the device: the header of a store of this size, and in every cell a copy that
/// counts. `BAD_LENGTH` as above, `NO_STORE`, `DAMAGED`: the first that applies.
#[unsafe(no_mangle)]
pub extern "C" fn rathonsi_store_check(image: &[u8]) -> i32
    ensures answer { CheckAnswers image.now result }
    ensures whole { result ≡ OK → IsWhole image.now }
{
    let Some(cells) = cells_of(image.len()) else {
        return BAD_LENGTH;
    };
    match check(image, cells) {
        Ok(()) => OK,
        Err(ImageFault::NoStore) => NO_STORE,
        Err(ImageFault::Damaged) => DAMAGED,
    }
}

/// Says that all writes of the plan are durable: brings the image up to date, and empties the plan. `BAD_VALUE`: a
/// write reaches beyond the image, or has more than the forty bytes that a plan keeps of it. `STALE_PLAN`: the plan
/// would lower a bound, or change a filled slot without a higher counter.
#[unsafe(no_mangle)]
pub extern "C" fn rathonsi_store_done(image: &mut [u8], plan: &mut Plan) -> i32
    ensures answer { DoneAnswers image.old plan.old result }
    ensures done { result ≡ OK → PlanDone image.old plan.old image.new plan.new }
    ensures emptied { result ≡ OK → plan.new ≡ no_plan }
    ensures unchanged { result ≢ OK → (image.new ≡ image.old) × (plan.new ≡ plan.old) }
{
    if !is_within(plan, image.len()) {
        return BAD_VALUE;
    }
    if is_stale(image, plan) {
        return STALE_PLAN;
    }
    done(image, plan);
    OK
}
