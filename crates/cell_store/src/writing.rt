// Writes that outlast a power cut.
ghost use Rattle.std.specs.Prelude.{◌≡◌, ◌+◌, ◌≤◌, ℕ, List, [], ◌∷◌, length, Some, OnOk, OnErr, if◌then◌else◌};
ghost use Rattle.cut_disk.specs.State.{Told};
ghost use Rattle.cut_disk.specs.Calls.{Rose, Runs};
ghost use Rattle.cut_disk.specs.Images.{Tears};
ghost use Rattle.cut_disk.specs.Lasting.{Lasts};
ghost use Rattle.cell_store.specs.Layout.{part};
ghost use Rattle.cell_store.specs.Twin.{is_live, live_copy};
ghost use Rattle.cell_store.specs.Writing.{LeavesOutside, ClosesGate, LeavesUnfinished};

use crate::copies::{LIVE, marked};
use cut_disk::{Disk, DiskFailed, write_and_sync};

/// Closes the gate at this address, unless it is closed already: then nothing is written.
fn close_gate<D: Disk>(disk: &mut D, at: u64, live: bool) -> Result<(), DiskFailed>
    requires inside { at + 1 ≤ (D.state disk.old).size }
    requires gate { (t : Told) → (D.state disk.old).told ≡ Some t
        → is_live (part at 1 t.bytes) ≡ live }
    ensures runs { Runs [] (if live then 2 else 0) (D.state disk.old) (D.state disk.new) }
    ensures faults { OnOk result ((D.state disk.new).faults ≡ (D.state disk.old).faults) }
    ensures failed { OnErr result (Rose (D.state disk.old).faults (D.state disk.new).faults) }
    ensures closed { OnOk result ((n : ℕ) → ClosesGate n at (D.state disk.old).told (D.state disk.new).told) }
    ensures torn { OnErr result ((n : ℕ) (bytes : List ℕ) → LeavesUnfinished n at bytes (D.state disk.old).told
        (D.state disk.new).told) }
{
    if !live {
        return Ok(());
    }
    write_and_sync(disk, at, &[0])
}

/// Opens the gate at this address.
fn open_gate<D: Disk>(disk: &mut D, at: u64) -> Result<(), DiskFailed>
    requires { at + 1 ≤ (D.state disk.old).size }
    ensures runs { Runs [] 2 (D.state disk.old) (D.state disk.new) }
    ensures faults { OnOk result ((D.state disk.new).faults ≡ (D.state disk.old).faults) }
    ensures failed { OnErr result (Rose (D.state disk.old).faults (D.state disk.new).faults) }
    ensures written { OnOk result (Lasts at (167 ∷ []) (D.state disk.old).told
        (D.state disk.new).told) }
    ensures torn { OnErr result (Tears at 1 (D.state disk.old).told (D.state disk.new).told) }
{
    write_and_sync(disk, at, &[LIVE])
}

/// Leaves a live gate at this address and these bytes behind it, in at most six calls, or in four if the gate is
/// closed. All of them are behind a closed gate until they are synced. A gate that is closed already isn't written
/// again: that write could leave it open over what an earlier put, which wasn't finished, left there.
pub fn write_gated<D: Disk>(
    disk: &mut D,
    at: u64,
    live: bool,
    bytes: &[u8],
) -> Result<(), DiskFailed>
    requires inside { at + 1 + length bytes.now ≤ (D.state disk.old).size }
    requires gate { (t : Told) → (D.state disk.old).told ≡ Some t
        → is_live (part at 1 t.bytes) ≡ live }
    ensures runs { Runs [] (if live then 6 else 4) (D.state disk.old) (D.state disk.new) }
    ensures faults { OnOk result ((D.state disk.new).faults ≡ (D.state disk.old).faults) }
    ensures failed { OnErr result (Rose (D.state disk.old).faults (D.state disk.new).faults) }
    ensures outside { LeavesOutside at (1 + length bytes.now) (D.state disk.old).told
        (D.state disk.new).told }
    ensures written { OnOk result (Lasts at (167 ∷ bytes.now) (D.state disk.old).told
        (D.state disk.new).told) }
    ensures torn { OnErr result (LeavesUnfinished (length bytes.now) at (167 ∷ bytes.now)
        (D.state disk.old).told (D.state disk.new).told) }
{
    close_gate(disk, at, live)?;
    write_and_sync(disk, at + 1, bytes)?;
    open_gate(disk, at)
}

/// Makes the copy at this address a live one with this mark and payload.
pub fn write_copy<D: Disk>(
    disk: &mut D,
    at: u64,
    live: bool,
    mark: u8,
    payload: &[u8; 32],
) -> Result<(), DiskFailed>
    requires inside { at + 34 ≤ (D.state disk.old).size }
    requires gate { (t : Told) → (D.state disk.old).told ≡ Some t
        → is_live (part at 34 t.bytes) ≡ live }
    ensures runs { Runs [] 6 (D.state disk.old) (D.state disk.new) }
    ensures faults { OnOk result ((D.state disk.new).faults ≡ (D.state disk.old).faults) }
    ensures failed { OnErr result (Rose (D.state disk.old).faults (D.state disk.new).faults) }
    ensures written { OnOk result (Lasts at (live_copy mark payload.now) (D.state disk.old).told
        (D.state disk.new).told) }
    ensures torn { OnErr result (LeavesUnfinished 33 at (live_copy mark payload.now)
        (D.state disk.old).told (D.state disk.new).told) }
{
    write_gated(disk, at, live, &marked(mark, payload))
}
