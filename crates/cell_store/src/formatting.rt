// Writing a fresh twin store.
ghost use Rattle.std.specs.Prelude.{◌≡◌, ◌+◌, ◌*◌, ◌<◌, ◌≤◌, [], length, OnOk, OnErr};
ghost use Rattle.cut_disk.specs.Calls.{Rose, Runs, Grows};
ghost use Rattle.cell_store.specs.Layout.{base, twin_layout};
ghost use Rattle.cell_store.specs.Store.{FewCells, store_size};
ghost use Rattle.cell_store.specs.Writing.{LeavesOutside};
ghost use Rattle.cell_store.specs.Formats.{Formats, LeavesUnformed, Pairs, FirmPairs};

use crate::copies::fresh_cell;
use crate::kinds::{Kind, Layout, Version};
use crate::layout::{HEADER, header, pair_place};
use cut_disk::{Disk, DiskFailed, write_and_sync};

/// Writes the two copies of each cell, 68 bytes in one call.
pub fn write_pairs<D: Disk>(
    disk: &mut D,
    version: Version,
    cells: &[[u8; 32]],
) -> Result<(), DiskFailed>
    requires few { length cells.now ≤ 1024 }
    requires room { store_size (twin_layout version) (length cells.now) ≤ (D.state disk.old).size }
    ensures runs { Runs [] (length cells.now) (D.state disk.old) (D.state disk.new) }
    ensures outside { LeavesOutside (base version + 32) (68 * length cells.now)
        (D.state disk.old).told (D.state disk.new).told }
    ensures faults { OnOk result ((D.state disk.new).faults ≡ (D.state disk.old).faults) }
    ensures failed { OnErr result (Rose (D.state disk.old).faults (D.state disk.new).faults) }
    ensures pairs { OnOk result (Pairs version cells.now (D.state disk.old).told
        (D.state disk.new).told) }
{
    let base = version.base();
    for (cell, payload) in cells.iter().enumerate() {
        disk.write(base + pair_place(cell as u16), &fresh_cell(payload))?;
    }
    Ok(())
}

/// Does the same, and then syncs once.
pub fn write_cells<D: Disk>(
    disk: &mut D,
    version: Version,
    cells: &[[u8; 32]],
) -> Result<(), DiskFailed>
    requires few { length cells.now ≤ 1024 }
    requires room { store_size (twin_layout version) (length cells.now) ≤ (D.state disk.old).size }
    ensures runs { Runs [] (length cells.now + 1) (D.state disk.old) (D.state disk.new) }
    ensures grows { OnOk result (Grows (D.state disk.old) (D.state disk.new)) }
    ensures faults { OnOk result ((D.state disk.new).faults ≡ (D.state disk.old).faults) }
    ensures failed { OnErr result (Rose (D.state disk.old).faults (D.state disk.new).faults) }
    ensures pairs { OnOk result (FirmPairs version cells.now (D.state disk.old).told
        (D.state disk.new).told) }
    ensures torn { OnErr result (LeavesOutside (base version + 32) (68 * length cells.now)
        (D.state disk.old).told (D.state disk.new).told) }
{
    write_pairs(disk, version, cells)?;
    disk.sync()
}

/// Writes a fresh store of these cells: no header first, and the header last, when all of them are
/// synced.
pub fn write_store<D: Disk>(
    disk: &mut D,
    version: Version,
    cells: &[[u8; 32]],
) -> Result<(), DiskFailed>
    requires few { FewCells (length cells.now) }
    requires room { store_size (twin_layout version) (length cells.now) ≤ (D.state disk.old).size }
    ensures runs { Runs [] (5 + length cells.now) (D.state disk.old) (D.state disk.new) }
    ensures grows { OnOk result (Grows (D.state disk.old) (D.state disk.new)) }
    ensures faults { OnOk result ((D.state disk.new).faults ≡ (D.state disk.old).faults) }
    ensures failed { OnErr result (Rose (D.state disk.old).faults (D.state disk.new).faults) }
    ensures fresh { OnOk result (Formats (twin_layout version) cells.now (D.state disk.old).told
        (D.state disk.new).told) }
    ensures unformed { OnErr result (LeavesUnformed (twin_layout version) cells.now
        (D.state disk.old).told (D.state disk.new).told) }
{
    let base = version.base();
    let layout = Layout {
        kind: Kind::Twin,
        version,
    };
    let head = header(layout, cells.len() as u16);
    write_and_sync(disk, base, &[0; HEADER])?;
    write_cells(disk, version, cells)?;
    write_and_sync(disk, base, &head)
}
