//! The row of a start that is refused for what stands on the disk.
ghost use Rattle.std.specs.Prelude.{◌≡◌};
ghost use Rattle.kept_starts.specs.KeepRows.{keep_row};

use crate::first::KeepFault;
use bus_world::{StartFault, start_refusal};
use cell_store::Reread;
use disk_looks::standing_refusal;
use program_edge::Refusal;

/// The refusal of a start that doesn't go on: 10, with the line of the store that stands, or that of the node's store
/// that failed or isn't there, as [`start_refusal`] tells it. It is 7 only if the look was out of memory: making a line
/// takes none.
pub fn keep_refusal(fault: KeepFault) -> Refusal
    ensures { result ≡ keep_row fault }
{
    match fault {
        KeepFault::OtherStore(there) => standing_refusal(10, there),
        KeepFault::NotFormatted => start_refusal(&StartFault::Store(1, Reread::NotFormatted)),
        KeepFault::Damaged(place) => start_refusal(&StartFault::Store(1, Reread::Damaged(place))),
        KeepFault::BadSlot(slot) => start_refusal(&StartFault::BadSlot(1, slot)),
        KeepFault::BadBound(cell) => start_refusal(&StartFault::BadBound(1, cell)),
        KeepFault::DiskFailed => start_refusal(&StartFault::Store(1, Reread::DiskFailed)),
        KeepFault::Memory => Refusal::no_memory(),
    }
}
