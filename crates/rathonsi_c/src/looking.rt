//! The first cell of a store that isn't as it should be.
ghost use Rattle.std.specs.Prelude.{◌≡◌, ◌+◌, ◌≤◌, ◌↔◌, length, IsTrue, IfSome, IfNone};
ghost use Rattle.cell_store.specs.declared.kinds.Version.TheVariants.{One};
ghost use Rattle.cell_store.specs.Layout.{twin_layout};
ghost use Rattle.cell_store.specs.Twin.{twin_size};
ghost use Rattle.cell_store.specs.Store.{HasHeader};
ghost use Rattle.rathonsi_c.specs.Looking.{IsInPlace, IsDuplicate, CellLooks, FirstOdd, NoneOdd, LookAnswers, TellsCell};

use crate::images::{bound_held, id_is_held};
use crate::store::cells_of;
use crate::{BAD_LENGTH, DAMAGED, DUPLICATE_ID, NO_STORE, OK, WRONG_CELL};
use slot_disk::slot_in;
use store_plan::{ImageFault, cell_in, check};

// Whether the cell at this place holds what its place is for.
fn is_in_place(cell: u16, bytes: &[u8; 32]) -> bool
    ensures { IsTrue result ↔ IsInPlace cell bytes.now }
{
    if cell < 14 {
        slot_in(bytes).is_some()
    } else {
        *bytes == [0; 32] || bound_held(bytes).is_some()
    }
}

// Whether these bytes, of the cell at this place, hold a bound of a Data ID and direction that a cell before it has.
fn is_duplicate(image: &[u8], cell: u16, bytes: &[u8; 32]) -> bool
    ensures { IsTrue result ↔ IsDuplicate image.now cell bytes.now }
{
    match bound_held(bytes) {
        Some(held) => id_is_held(image, cell, cell, held.id, held.direction),
        None => false,
    }
}

// What a cell is found to be: OK, or the status of what is wrong with it.
fn look_of(image: &[u8], cell: u16) -> i32
    requires { twin_size (cell + 1) ≤ length image.now }
    ensures { CellLooks image.now cell result }
{
    let Ok(bytes) = cell_in(image, cell) else {
        return DAMAGED;
    };
    if !is_in_place(cell, &bytes) {
        return WRONG_CELL;
    }
    if is_duplicate(image, cell, &bytes) {
        return DUPLICATE_ID;
    }
    OK
}

// The first cell that isn't as it should be, and its status.
#[derive(Clone, Copy)]
struct Odd {
    cell: u16,
    status: i32,
}

// The first such cell of an image of so many cells.
fn first_odd(image: &[u8], cells: u16) -> Option<Odd>
    requires { twin_size cells ≤ length image.now }
    ensures none { IfNone result (NoneOdd image.now cells) }
    ensures some { IfSome result (λ odd. FirstOdd image.now cells odd.cell odd.status) }
{
    for cell in 0..cells {
        let status = look_of(image, cell);
        if status != OK {
            return Some(Odd { cell, status });
        }
    }
    None
}

// Whether the image begins with the header of a store of so many cells.
fn has_header(image: &[u8], cells: u16) -> bool
    requires { length image.now ≡ twin_size cells }
    ensures { IsTrue result ↔ HasHeader (twin_layout One) cells image.now }
{
    match check(image, cells) {
        Ok(()) => true,
        Err(ImageFault::Damaged) => true,
        Err(ImageFault::NoStore) => false,
    }
}

/// Looks at each cell of an image, and names the first that isn't as it should be. `BAD_LENGTH`, `NO_STORE` as
/// `rathonsi_store_check` has them. `DAMAGED`: no copy of the cell counts. `WRONG_CELL`: it is one of the fourteen
/// and holds no slot, or one after them and holds neither a bound nor zero bytes. `DUPLICATE_ID`: it holds a bound of
/// a Data ID and direction that a cell before it has.
#[unsafe(no_mangle)]
pub extern "C" fn rathonsi_store_look(image: &[u8], cell: &mut u16) -> i32
    ensures answer { LookAnswers image.now result }
    ensures named { TellsCell image.now result cell.old cell.new }
{
    let Some(cells) = cells_of(image.len()) else {
        return BAD_LENGTH;
    };
    if !has_header(image, cells) {
        return NO_STORE;
    }
    match first_odd(image, cells) {
        Some(odd) => {
            *cell = odd.cell;
            odd.status
        }
        None => OK,
    }
}
