// A plan, done on a disk.
ghost use Rattle.std.specs.Prelude.{◌≡◌, ℕ, ◌<◌, List, [], length, slice_set, true, false, OnOk, OnErr};
ghost use Rattle.cut_disk.specs.Calls.{Rose, Runs};
ghost use Rattle.cell_store.specs.Cells.{Puts, FailsPut};
ghost use Rattle.store_plan.specs.Plans.{WriteFits, PlanFits};
ghost use Rattle.store_plan.specs.Performing.{WriteDone, WriteTorn, MakesFirm, DoesPlan, LeavesPlanCut, Serves, store_on};
ghost use Rattle.store_plan.specs.Performing.{DoesEach, StopsAtFailure};

use crate::planning::{Plan, Write};
use cut_disk::{Disk, DiskFailed, write_and_sync};

// Does one write, which is durable then.
fn do_write<D: Disk>(disk: &mut D, write: &Write) -> Result<(), DiskFailed>
    requires { WriteFits (D.state disk.old).size write.now }
    ensures runs { Runs [] 2 (D.state disk.old) (D.state disk.new) }
    ensures faults { OnOk result ((D.state disk.new).faults ≡ (D.state disk.old).faults) }
    ensures failed { OnErr result (Rose (D.state disk.old).faults (D.state disk.new).faults) }
    ensures done { OnOk result (WriteDone write.now (D.state disk.old).told (D.state disk.new).told) }
    ensures torn { OnErr result (WriteTorn write.now (D.state disk.old).told (D.state disk.new).told) }
    ensures whole { OnOk result (MakesFirm write.now (D.state disk.old).told (D.state disk.new).told) }
{
    if write.size == 0 {
        return Ok(());
    }
    write_and_sync(
        disk,
        u64::from(write.offset),
        &write.bytes[..write.size as usize],
    )
}

/// Does the writes of a plan in their order, each durable before the next, and none after one that failed. An Ok says
/// that all of them are done and durable, if no byte was loose before. If the plan is one of a put for the bytes of the
/// disk, this has the contract of a store's put. If no byte was loose, the disk has the new list after an Ok. After a
/// failure every image that a power cut may leave then stands for the old list or the new one.
pub fn perform<D: Disk>(disk: &mut D, plan: &Plan) -> Result<(), DiskFailed>
    requires { PlanFits (D.state disk.old).size plan.now }
    ensures runs { Runs [] 6 (D.state disk.old) (D.state disk.new) }
    ensures faults { OnOk result ((D.state disk.new).faults ≡ (D.state disk.old).faults) }
    ensures failed { OnErr result (Rose (D.state disk.old).faults (D.state disk.new).faults) }
    ensures each { OnOk result (DoesEach plan.now (D.state disk.old) (D.state disk.new)) }
    ensures stops { OnErr result (StopsAtFailure plan.now (D.state disk.old) (D.state disk.new)) }
    ensures whole { OnOk result (DoesPlan plan.now (D.state disk.old).told (D.state disk.new).told) }
    ensures cut { LeavesPlanCut plan.now (D.state disk.old).told (D.state disk.new).told }
    ensures puts { OnOk result ((cells : List (List ℕ)) (cell : ℕ) (bytes : List ℕ) → cell < length cells
        → Serves plan.now (D.state disk.old).told cell bytes
        → Puts cell bytes (store_on cells (D.state disk.old) false)
        (store_on (slice_set cells cell bytes) (D.state disk.new) false)) }
    ensures fails { OnErr result ((cells : List (List ℕ)) (cell : ℕ) (bytes : List ℕ) → cell < length cells
        → Serves plan.now (D.state disk.old).told cell bytes
        → FailsPut cell bytes (store_on cells (D.state disk.old) false) (store_on cells (D.state disk.new) true)) }
{
    do_write(disk, &plan.first)?;
    do_write(disk, &plan.second)?;
    do_write(disk, &plan.third)
}
