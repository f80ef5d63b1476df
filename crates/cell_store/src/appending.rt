// A put into the first free place of the bank that counts.
ghost use Rattle.std.specs.Prelude.{◌≡◌, ◌+◌, ◌<◌, ◌≤◌, [], length, Some, OnOk, OnErr, IfOk};
ghost use Rattle.cut_disk.specs.State.{Told};
ghost use Rattle.cut_disk.specs.Calls.{Rose, Runs};
ghost use Rattle.cell_store.specs.Layout.{log_layout};
ghost use Rattle.cell_store.specs.Store.{FewCells, store_size};
ghost use Rattle.cell_store.specs.LogKept.{KeepsLog, PutsLog, LeavesEither, LogBesides};

use crate::banks::{Bank, place_address, record_of};
use crate::kinds::Version;
use crate::writing::write_gated;
use cut_disk::{Disk, DiskFailed};

/// Writes the record that changes this cell into the first free place, in four calls. What stands there is behind a
/// closed gate, whatever an earlier put, which wasn't finished, left of it.
pub fn append<D: Disk>(
    disk: &mut D,
    version: Version,
    bank: Bank,
    cells: &[[u8; 32]],
    cell: u16,
    payload: &[u8; 32],
) -> Result<Bank, DiskFailed>
    requires few { FewCells (length cells.now) }
    requires below { cell < length cells.now }
    requires free { bank.used < 64 }
    requires room { store_size (log_layout version) (length cells.now) ≤ (D.state disk.old).size }
    requires keeps { (t : Told) → (D.state disk.old).told ≡ Some t
        → KeepsLog version (length cells.now) t.bytes cells.now bank }
    ensures runs { Runs [] 4 (D.state disk.old) (D.state disk.new) }
    ensures faults { OnOk result ((D.state disk.new).faults ≡ (D.state disk.old).faults) }
    ensures failed { OnErr result (Rose (D.state disk.old).faults (D.state disk.new).faults) }
    ensures besides { LogBesides version (length cells.now) (D.state disk.old).told
        (D.state disk.new).told }
    ensures done { IfOk result (λ b. PutsLog version (length cells.now) cell payload.now cells.now b
        (D.state disk.old).told (D.state disk.new).told) }
    ensures images { OnErr result (LeavesEither version cell payload.now cells.now
        (D.state disk.old).told (D.state disk.new).told) }
{
    let at = version.base() + place_address(cells.len() as u16, bank.side, bank.used);
    write_gated(disk, at, false, &record_of(cell, payload))?;
    Ok(Bank {
        side: bank.side,
        mark: bank.mark,
        used: bank.used + 1,
        spare_is_live: bank.spare_is_live,
    })
}
