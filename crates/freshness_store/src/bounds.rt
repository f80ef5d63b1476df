// The bounds of a store.
ghost use Rattle.std.specs.Prelude.{◌≡◌, ◌<◌, [], length, slice_index_or, false, IfOk, IfErr, OnOk, OnErr};
ghost use Rattle.cell_store.specs.Cells.{Puts, FailsPut};
ghost use Rattle.freshness_store.specs.Bound.{bound_cell, HoldsBound, HoldsNoBound};

use crate::cell::{bound_bytes, bound_in};
use cell_store::{Cells, PutFailed};
use freshness_routes::Direction;

/// The cell at this place is no bound's of the Data ID and the direction that were asked for.
#[derive(Clone, Copy, Debug, PartialEq, Eq, Drop)]
pub struct BadBound(pub u16);

/// The bound of this Data ID and direction, kept in the cell at this place. `BadBound` exactly if the cell holds none
/// of them.
pub fn read_bound<C: Cells>(
    cells: &C,
    place: u16,
    id: u16,
    direction: Direction,
) -> Result<u64, BadBound>
    requires { place < length (C.state cells.now).cells }
    ensures bound { IfOk result (HoldsBound (slice_index_or (C.state cells.now).cells place []) id direction) }
    ensures none { OnErr result (HoldsNoBound (slice_index_or (C.state cells.now).cells place []) id direction) }
    ensures named { IfErr result (λ bad. bad.0 ≡ place) }
{
    let mut cell = [0; 32];
    cells.get(place, &mut cell);
    match bound_in(&cell, id, direction) {
        Some(bound) => Ok(bound),
        None => Err(BadBound(place)),
    }
}

/// Puts the cell of a bound, with the conditions and answers of a put. If it fails on a settled store, the cell on the
/// disk is as before or the new bound's, whatever a power cut leaves.
pub fn put_bound<C: Cells>(
    cells: &mut C,
    place: u16,
    id: u16,
    direction: Direction,
    bound: u64,
) -> Result<(), PutFailed>
    requires place { place < length (C.state cells.old).cells }
    requires whole { (C.state cells.old).broken ≡ false }
    ensures put { OnOk result (Puts place (bound_cell id direction bound) (C.state cells.old) (C.state cells.new)) }
    ensures failed { OnErr result
        (FailsPut place (bound_cell id direction bound) (C.state cells.old) (C.state cells.new)) }
{
    cells.put(place, &bound_bytes(id, direction, bound))
}
