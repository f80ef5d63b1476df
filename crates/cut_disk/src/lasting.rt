//! Calls over any disk, with what a power cut leaves of them.
ghost use Rattle.std.specs.Prelude.{◌≡◌, ◌+◌, ◌≤◌, [], ◌∷◌, length, OnOk, OnErr};
ghost use Rattle.cut_disk.specs.State.{Cut};
ghost use Rattle.cut_disk.specs.Images.{Tears};
ghost use Rattle.cut_disk.specs.Calls.{Rose, Runs};
ghost use Rattle.cut_disk.specs.Lasting.{Lasts, LastsTorn};

use crate::{CutDisk, Disk, DiskFailed, Torn};

/// Writes these bytes from the address `at` on, and makes them and all that was written before outlast a
/// power cut.
pub fn write_and_sync<D: Disk>(disk: &mut D, at: u64, bytes: &[u8]) -> Result<(), DiskFailed>
    requires inside { at + length bytes.now ≤ (D.state disk.old).size }
    ensures runs { Runs [] 2 (D.state disk.old) (D.state disk.new) }
    ensures count { OnOk result ((D.state disk.new).faults ≡ (D.state disk.old).faults) }
    ensures failed { OnErr result (Rose (D.state disk.old).faults (D.state disk.new).faults) }
    ensures lasts { OnOk result (Lasts at bytes.now (D.state disk.old).told (D.state disk.new).told) }
    ensures torn { OnErr result (Tears at (length bytes.now) (D.state disk.old).told (D.state disk.new).told) }
{
    match disk.write(at, bytes) {
        Ok(()) => disk.sync(),
        Err(failed) => Err(failed),
    }
}

/// Does the same, and cuts the power: the bytes are there after it, or some of them may be if the answer was that the
/// disk failed.
pub fn write_and_cut<D: CutDisk>(
    disk: &mut D,
    at: u64,
    bytes: &[u8],
    torn: Torn,
) -> Result<(), DiskFailed>
    requires inside { at + length bytes.now ≤ (D.state disk.old).size }
    ensures runs { Runs (Cut torn ∷ []) 3 (D.state disk.old) (D.state disk.new) }
    ensures count { OnOk result ((D.state disk.new).faults ≡ (D.state disk.old).faults) }
    ensures failed { OnErr result (Rose (D.state disk.old).faults (D.state disk.new).faults) }
    ensures lasts { OnOk result (Lasts at bytes.now (D.state disk.old).told (D.state disk.new).told) }
    ensures torn { OnErr result (LastsTorn at (length bytes.now) (D.state disk.old).told (D.state disk.new).told) }
{
    let outcome = write_and_sync(disk, at, bytes);
    disk.power_cut(torn);
    outcome
}
