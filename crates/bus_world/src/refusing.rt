//! The rows of a program's answers for a start that is refused.
ghost use Rattle.std.specs.Prelude.{◌≡◌};
ghost use Rattle.bus_world.specs.declared.start.StartFault.TheVariants.{Store};
ghost use Rattle.bus_world.specs.StartRows.{start_row};

use crate::start::StartFault;
use cell_store::Reread;
use program_edge::Refusal;

/// The refusal of a start that is refused. It is 9 and its text if the disks aren't such as the bus needs, and 10 and
/// its text if a store fails. It is 7 only if the start was out of memory: making a text takes none.
pub fn start_refusal(fault: &StartFault) -> Refusal
    ensures { result ≡ start_row fault.now }
{
    match fault {
        StartFault::TooFew => Refusal::fixed(9, "disks: too few\n"),
        StartFault::TooSmall(node) => {
            Refusal::numbered(9, "disks: node ", u32::from(*node), " too small\n")
        }
        StartFault::Store(node, reread) => store_refusal(u32::from(*node), *reread),
        StartFault::BadSlot(node, slot) => {
            let (node, slot) = (u32::from(*node), u32::from(slot.number()));
            Refusal::twice_numbered(10, "store: node ", node, ": BadSlot ", slot, "\n")
        }
        StartFault::BadBound(node, cell) => {
            let (node, cell) = (u32::from(*node), u32::from(*cell));
            Refusal::twice_numbered(10, "store: node ", node, ": BadBound ", cell, "\n")
        }
        StartFault::Memory => Refusal::no_memory(),
    }
}

/// The refusal of a store that isn't written, or isn't read again.
fn store_refusal(node: u32, reread: Reread) -> Refusal
    ensures { result ≡ start_row (Store node reread) }
{
    match reread {
        Reread::DiskFailed => Refusal::numbered(10, "store: node ", node, ": DiskFailed\n"),
        Reread::NotFormatted => Refusal::numbered(10, "store: node ", node, ": NotFormatted\n"),
        Reread::Damaged(place) => {
            let place = u32::from(place);
            Refusal::twice_numbered(10, "store: node ", node, ": Damaged ", place, "\n")
        }
    }
}
