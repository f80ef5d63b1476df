// Plans of a put, and what they make of the image.
ghost use Rattle.std.specs.Prelude.{◌≡◌, ◌≢◌, ◌+◌, ◌<◌, ◌≤◌, ◌↔◌, ℕ, List, [], ◌∷◌, length, slice_set, false, Some, None, IsTrue, IfOk, IsErr, IsErrOf};
ghost use Rattle.cut_disk.specs.Images.{splice};
ghost use Rattle.cell_store.specs.declared.kinds.Version.TheVariants.{One};
ghost use Rattle.cell_store.specs.Layout.{twin_layout};
ghost use Rattle.cell_store.specs.Twin.{twin_size, cell_at};
ghost use Rattle.cell_store.specs.Copies.{Keeps};
ghost use Rattle.cell_store.specs.Store.{Stands, Put};
ghost use Rattle.store_plan.specs.Plans.{WritesAt, WriteFits, PlanFits, PlansPut, IsEmptyPlan, RestIsZero, bytes_written, applied, no_write, no_plan};

use cell_store::{Held, LIVE, copy_place, held_in, marked, next, pair_place};

/// One write: so many bytes from an offset on. None if the size is 0.
#[derive(Clone, Copy, Debug, PartialEq, Eq)]
#[repr(C)]
pub struct Write {
    pub offset: u32,
    pub size: u32,
    pub bytes: [u8; 40],
}

/// The writes of a put, each durable before the next: the gate of the copy that doesn't count is closed, if it is live;
/// the mark and the payload are written behind it; it is opened.
#[derive(Clone, Copy, Debug, PartialEq, Eq)]
#[repr(C)]
pub struct Plan {
    pub first: Write,
    pub second: Write,
    pub third: Write,
}

/// Why there is no plan.
#[derive(Clone, Copy, Debug, PartialEq, Eq)]
pub enum PlanFault {
    /// The image ends before the cell does.
    NoCell,
    /// The cell has no copy that counts.
    Damaged,
}

impl Write {
    /// No write.
    pub const NONE: Write = Write {
        offset: 0,
        size: 0,
        bytes: [0; 40],
    };
}

impl Plan {
    /// No writes.
    pub const NONE: Plan = Plan {
        first: Write::NONE,
        second: Write::NONE,
        third: Write::NONE,
    };
}

pub(crate) fn write_of(offset: u32, bytes: &[u8]) -> Write
    requires { length bytes.now ≤ 40 }
    ensures writes { WritesAt result offset bytes.now }
    ensures rest { RestIsZero result }
{
    let mut all = [0; 40];
    let size = bytes.len();
    all[..size].copy_from_slice(bytes);
    Write {
        offset,
        size: size as u32,
        bytes: all,
    }
}

/// The copy of a cell that counts, and whether the other is live.
pub fn cell_held(image: &[u8], cell: u16) -> Result<Held, PlanFault>
    ensures no_cell { IsErrOf result PlanFault.NoCell ↔ (length image.now < twin_size (cell + 1)) }
    ensures damaged { IsErrOf result PlanFault.Damaged ↔ ((twin_size (cell + 1) ≤ length image.now)
        × (cell_at image.now cell ≡ None)) }
    ensures none { IsErr result → twin_size (cell + 1) ≤ length image.now → cell_at image.now cell ≡ None }
    ensures room { IfOk result (λ _. twin_size (cell + 1) ≤ length image.now) }
    ensures keeps { IfOk result (λ h. Keeps image.now cell h) }
    ensures held { IfOk result (λ h. cell_at image.now cell ≡ Some h.payload) }
{
    let at = pair_place(cell) as usize;
    if image.len() < at + 68 {
        return Err(PlanFault::NoCell);
    }
    let mut pair = [0; 68];
    pair.copy_from_slice(&image[at..at + 68]);
    match held_in(&pair) {
        Some(held) => Ok(held),
        None => Err(PlanFault::Damaged),
    }
}

/// What the image holds as this cell.
pub fn cell_in(image: &[u8], cell: u16) -> Result<[u8; 32], PlanFault>
    ensures no_cell { IsErrOf result PlanFault.NoCell ↔ (length image.now < twin_size (cell + 1)) }
    ensures damaged { IsErrOf result PlanFault.Damaged ↔ ((twin_size (cell + 1) ≤ length image.now)
        × (cell_at image.now cell ≡ None)) }
    ensures none { IsErr result → twin_size (cell + 1) ≤ length image.now → cell_at image.now cell ≡ None }
    ensures held { IfOk result (λ bytes. cell_at image.now cell ≡ Some bytes) }
    ensures room { IfOk result (λ _. twin_size (cell + 1) ≤ length image.now) }
{
    match cell_held(image, cell) {
        Ok(held) => Ok(held.payload),
        Err(fault) => Err(fault),
    }
}

/// Plans to put these bytes into a cell.
pub fn plan_put(image: &[u8], cell: u16, payload: &[u8; 32]) -> Result<Plan, PlanFault>
    ensures no_cell { IsErrOf result PlanFault.NoCell ↔ (length image.now < twin_size (cell + 1)) }
    ensures damaged { IsErrOf result PlanFault.Damaged ↔ ((twin_size (cell + 1) ≤ length image.now)
        × (cell_at image.now cell ≡ None)) }
    ensures none { IsErr result → twin_size (cell + 1) ≤ length image.now → cell_at image.now cell ≡ None }
    ensures plans { IfOk result (λ plan. PlansPut plan image.now cell payload.now) }
    ensures fits { IfOk result (λ plan. PlanFits (length image.now) plan) }
{
    match cell_held(image, cell) {
        Ok(held) => Ok(plan_beside(cell, &held, payload)),
        Err(fault) => Err(fault),
    }
}

// The plan of a put beside the copy that counts.
fn plan_beside(cell: u16, held: &Held, payload: &[u8; 32]) -> Plan
    ensures plans { (x : List ℕ) → twin_size (cell + 1) ≤ length x → Keeps x cell held.now
        → PlansPut result x cell payload.now }
    ensures fits { (n : ℕ) → twin_size (cell + 1) ≤ n → PlanFits n result }
{
    let at = copy_place(cell, held.side.other()) as u32;
    let copy = marked(next(held.mark), payload);
    Plan {
        first: closing(at, held.spare_is_live),
        second: write_of(at + 1, &copy),
        third: write_of(at, &[LIVE]),
    }
}

// The write that closes a gate, if it is live.
fn closing(at: u32, live: bool) -> Write
    ensures closes { IsTrue live → WritesAt result at (0 ∷ []) }
    ensures none { live ≡ false → result ≡ no_write }
    ensures rest { RestIsZero result }
    ensures offset { result.offset ≤ at }
    ensures size { result.size ≤ 1 }
{
    if live {
        write_of(at, &[0])
    } else {
        Write::NONE
    }
}

/// Whether no write of the plan has a byte.
pub fn is_empty(plan: &Plan) -> bool
    ensures { IsTrue result ↔ IsEmptyPlan plan.now }
{
    let Plan {
        first,
        second,
        third,
    } = *plan;
    first.size == 0 && second.size == 0 && third.size == 0
}

fn write_is_within(write: &Write, size: usize) -> bool
    ensures { IsTrue result ↔ WriteFits size write.now }
{
    let Write {
        offset,
        size: count,
        ..
    } = *write;
    count <= 40 && (count == 0 || offset as usize + count as usize <= size)
}

/// Whether each write of the plan that has a byte stays within so many bytes, and has at most the forty that a plan
/// keeps of it.
pub fn is_within(plan: &Plan, size: usize) -> bool
    ensures { IsTrue result ↔ PlanFits size plan.now }
{
    write_is_within(&plan.first, size)
        && write_is_within(&plan.second, size)
        && write_is_within(&plan.third, size)
}

fn apply(image: &mut [u8], write: &Write)
    requires { WriteFits (length image.old) write.now }
    ensures { image.new ≡ splice write.now.offset (bytes_written write.now) image.old }
{
    if write.size == 0 {
        return;
    }
    let at = write.offset as usize;
    let size = write.size as usize;
    image[at..at + size].copy_from_slice(&write.bytes[..size]);
}

/// Says that all writes of the plan are durable: brings the image up to date, and empties the plan.
pub fn done(image: &mut [u8], plan: &mut Plan)
    requires { PlanFits (length image.old) plan.old }
    ensures image { image.new ≡ applied plan.old image.old }
    ensures empty { plan.new ≡ no_plan }
    ensures put { (cell : ℕ) (bytes : List ℕ) → PlansPut plan.old image.old cell bytes
        → Put (twin_layout One) image.old cell bytes image.new }
    ensures cell { (cell : ℕ) (bytes : List ℕ) → PlansPut plan.old image.old cell bytes
        → cell_at image.new cell ≡ Some bytes }
    ensures others { (cell other : ℕ) (bytes : List ℕ) → PlansPut plan.old image.old cell bytes
        → other ≢ cell → cell_at image.new other ≡ cell_at image.old other }
    ensures stands { (cells : List (List ℕ)) (cell : ℕ) (bytes : List ℕ)
        → Stands (twin_layout One) image.old cells → cell < length cells
        → PlansPut plan.old image.old cell bytes
        → Stands (twin_layout One) image.new (slice_set cells cell bytes) }
{
    apply(image, &plan.first);
    apply(image, &plan.second);
    apply(image, &plan.third);
    *plan = Plan::NONE;
}
