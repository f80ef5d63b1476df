// A change of a bound that may be due.
ghost use Rattle.std.specs.Prelude.{◌≡◌, ◌<◌, [], length, false, OnOk, IfErr};
ghost use Rattle.cut_disk.specs.Calls.{Runs};
ghost use Rattle.freshness_manager.specs.Changing.{MakesChange, FailsDue};

use cell_store::Cells;
use freshness_store::{Direction, put_bound};

/// The put of a bound that was due failed.
#[derive(Clone, Copy, Debug, PartialEq, Eq)]
pub struct PutFailed {
    /// The bound that was to be put.
    pub bound: u64,
}

/// Puts the bound that is due; if none is, nothing is read or written.
pub(crate) fn put_change<C: Cells>(
    cells: &mut C,
    place: u16,
    id: u16,
    direction: Direction,
    change: Option<u64>,
) -> Result<(), PutFailed>
    requires place { place < length (C.state cells.old).cells }
    requires whole { (C.state cells.old).broken ≡ false }
    ensures made { OnOk result (MakesChange place id direction change (C.state cells.old) (C.state cells.new)) }
    ensures failed { IfErr result
        (λ f. FailsDue place id direction change f.bound (C.state cells.old) (C.state cells.new)) }
    ensures runs { Runs [] 6 (C.state cells.old).disk (C.state cells.new).disk }
{
    let Some(bound) = change else {
        return Ok(());
    };
    match put_bound(cells, place, id, direction, bound) {
        Ok(()) => Ok(()),
        Err(_) => Err(PutFailed { bound }),
    }
}
