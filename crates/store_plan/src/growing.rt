// A store that gets a cell more at its end: the plan, and how many cells an image says that it has.
ghost use Rattle.std.specs.Prelude.{◌≡◌, ◌+◌, ◌<◌, ◌≤◌, ◌↔◌, ℕ, length, false, IsTrue, IfOk, IfErr, MatchOption};
ghost use Rattle.cell_store.specs.declared.kinds.Version.TheVariants.{One};
ghost use Rattle.cell_store.specs.Layout.{twin_layout, part, header};
ghost use Rattle.cell_store.specs.Twin.{twin_size, is_live};
ghost use Rattle.cell_store.specs.Store.{FewCells};
ghost use Rattle.store_plan.specs.Plans.{PlanFits};
ghost use Rattle.store_plan.specs.Growing.{PlansGrowth, PlansCount, HasHeadButCount, NoneFrom, CountsFirst, IsErased};
ghost use Rattle.store_plan.specs.Growing.{EndsErased, SaysCells, TellsNot, MayGrow};

use crate::images::{LAYOUT, has_head};
use crate::planning::{Plan, Write, cell_held, write_of};
use cell_store::{LIVE, is_header, marked, pair_place};

/// Why the cells of an image don't say how many there are.
#[derive(Clone, Copy, Debug, PartialEq, Eq)]
pub enum TellFault {
    /// The header, but for its number of cells, isn't that of a twin store of version 1.
    NoStore,
    /// Each cell of the image counts, and the number of cells is another: the store goes on after the image's end.
    TooShort,
    /// A cell that the number counts is damaged, or a cell counts after one that doesn't.
    Damaged,
}

/// The number of cells that an image says: as many as count, from the first on, at most 1024. The number in its header
/// is the same, or was cut. Then what is after the cells is erased.
pub fn cells_told(image: &[u8]) -> Result<u16, TellFault>
    requires { 32 ≤ length image.now }
    ensures told { IfOk result (SaysCells image.now) }
    ensures fault { IfErr result (TellsNot image.now) }
{
    if !has_head_but_count(image, 1) {
        return Err(TellFault::NoStore);
    }
    let cells = cells_counted(image);
    if has_head(image, cells) {
        return Ok(cells);
    }
    if image.len() < 32 + 68 * (cells as usize + 1) {
        return Err(TellFault::TooShort);
    }
    if ends_erased(image, cells) {
        Ok(cells)
    } else {
        Err(TellFault::Damaged)
    }
}

// How many cells of an image each have a copy that counts, from the first on.
fn cells_counted(image: &[u8]) -> u16
    requires { 32 ≤ length image.now }
    ensures { CountsFirst image.now result }
{
    for cell in 0..1024 {
        if cell_held(image, cell).is_err() {
            return cell;
        }
    }
    1024
}

// Whether no cell from this one on counts, as far as the image goes.
fn none_from(image: &[u8], from: u16) -> bool
    ensures { IsTrue result ↔ NoneFrom image.now from }
{
    for cell in from..1024 {
        if cell_held(image, cell).is_ok() {
            return false;
        }
    }
    true
}

// Whether the place of a cell is as an erase leaves it: all 00, or all ff.
fn is_erased(image: &[u8], cell: u16) -> bool
    requires { twin_size (cell + 1) ≤ length image.now }
    ensures { IsTrue result ↔ IsErased image.now cell }
{
    let at = pair_place(cell) as usize;
    if image[at..at + 68] == [0; 68][..] {
        return true;
    }
    image[at..at + 68] == [0xff; 68][..]
}

// Whether the image has room for a cell after so many, its place is erased, and no cell after it counts.
fn ends_erased(image: &[u8], cells: u16) -> bool
    requires { cells ≤ 1024 }
    ensures { IsTrue result ↔ EndsErased image.now cells }
{
    if image.len() < 32 + 68 * (cells as usize + 1) {
        return false;
    }
    is_erased(image, cells) && none_from(image, cells + 1)
}

/// Whether an image may get a cell after so many: no copy at its place is live, and what is after it is erased.
pub fn may_grow(image: &[u8], cells: u16) -> bool
    requires { cells < 1024 }
    ensures { IsTrue result ↔ MayGrow image.now cells }
{
    if !ends_erased(image, cells + 1) {
        return false;
    }
    let at = pair_place(cells) as usize;
    is_closed(image, at) && is_closed(image, at + 34)
}

// Whether the copy at this place isn't live.
fn is_closed(image: &[u8], at: usize) -> bool
    requires { at + 34 ≤ length image.now }
    ensures { IsTrue result ↔ (is_live (part at 34 image.now) ≡ false) }
{
    image[at] != LIVE
}

// Whether the image has the header of a store of so many cells, but for its count.
fn has_head_but_count(image: &[u8], cells: u16) -> bool
    requires { 32 ≤ length image.now }
    ensures { IsTrue result ↔ HasHeadButCount image.now cells }
{
    let mut head = [0; 32];
    head.copy_from_slice(&image[..32]);
    head[10..12].copy_from_slice(&cells.to_be_bytes());
    is_header(&head, LAYOUT, cells)
}

/// Plans a cell more at the end of a store, which holds this payload: its first copy, the gate of it, and then the
/// number of cells in the header.
pub fn plan_growth(cell: u16, payload: &[u8; 32]) -> Plan
    requires { FewCells (cell + 1) }
    ensures plans { PlansGrowth result cell payload.now }
    ensures fits { (n : ℕ) → twin_size (cell + 1) ≤ n → PlanFits n result }
{
    let at = pair_place(cell) as u32;
    Plan {
        first: write_of(at + 1, &marked(0, payload)),
        second: write_of(at, &[LIVE]),
        third: write_of(10, &(cell + 1).to_be_bytes()),
    }
}

/// Plans the number of cells alone.
pub fn plan_count(cells: u16) -> Plan
    ensures plans { PlansCount result cells }
    ensures fits { (n : ℕ) → 32 ≤ n → PlanFits n result }
{
    Plan {
        first: Write::NONE,
        second: Write::NONE,
        third: write_of(10, &cells.to_be_bytes()),
    }
}

/// The number of cells of the store with this header; none if it is no header of a twin store of version 1.
pub fn count_in(head: &[u8; 32]) -> Option<u16>
    ensures { MatchOption result ((n : ℕ) → FewCells n → ¬ (head.now ≡ header (twin_layout One) n))
        (λ n. FewCells n × (head.now ≡ header (twin_layout One) n)) }
{
    let count = u16::from_be_bytes([head[10], head[11]]);
    if count < 1 || count > 1024 {
        return None;
    }
    if is_header(head, LAYOUT, count) {
        Some(count)
    } else {
        None
    }
}
