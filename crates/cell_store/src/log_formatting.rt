// Writing a fresh log store.
ghost use Rattle.std.specs.Prelude.{◌≡◌, ◌+◌, ◌*◌, ◌<◌, ◌≤◌, [], ◌∷◌, length, replicate, OnOk, OnErr};
ghost use Rattle.std.specs.List.{flat_map};
ghost use Rattle.cut_disk.specs.Calls.{Rose, Runs, Grows};
ghost use Rattle.cell_store.specs.Layout.{base, log_layout};
ghost use Rattle.cell_store.specs.Log.{log_size, live_bank};
ghost use Rattle.cell_store.specs.Store.{FewCells, store_size};
ghost use Rattle.cell_store.specs.Writing.{LeavesOutside, Loosens, Wrote};
ghost use Rattle.cell_store.specs.Formats.{FirmCells, Formats, LeavesUnformed};

use crate::banks::bank_address;
use crate::copies::{LIVE, Side};
use crate::kinds::{Kind, Layout, Version};
use crate::layout::{HEADER, header};
use cut_disk::{Disk, DiskFailed, write_and_sync};

/// Writes the cells one after the other, each in one call.
fn write_list<D: Disk>(disk: &mut D, at: u64, cells: &[[u8; 32]]) -> Result<(), DiskFailed>
    requires few { length cells.now ≤ 1024 }
    requires room { at + 32 * length cells.now ≤ (D.state disk.old).size }
    ensures runs { Runs [] (length cells.now) (D.state disk.old) (D.state disk.new) }
    ensures loosens { Loosens at (32 * length cells.now) (D.state disk.old).told
        (D.state disk.new).told }
    ensures faults { OnOk result ((D.state disk.new).faults ≡ (D.state disk.old).faults) }
    ensures failed { OnErr result (Rose (D.state disk.old).faults (D.state disk.new).faults) }
    ensures wrote { OnOk result (Wrote at (flat_map (λ c. c) cells.now) (D.state disk.old).told
        (D.state disk.new).told) }
{
    for (cell, payload) in cells.iter().enumerate() {
        disk.write(at + 32 * cell as u64, payload)?;
    }
    Ok(())
}

/// Writes so many times 32 zero bytes.
fn write_zeros<D: Disk>(disk: &mut D, at: u64, times: u16) -> Result<(), DiskFailed>
    requires { at + 32 * times ≤ (D.state disk.old).size }
    ensures runs { Runs [] times (D.state disk.old) (D.state disk.new) }
    ensures loosens { Loosens at (32 * times) (D.state disk.old).told (D.state disk.new).told }
    ensures faults { OnOk result ((D.state disk.new).faults ≡ (D.state disk.old).faults) }
    ensures failed { OnErr result (Rose (D.state disk.old).faults (D.state disk.new).faults) }
    ensures wrote { OnOk result (Wrote at (replicate (32 * times) 0) (D.state disk.old).told
        (D.state disk.new).told) }
{
    for i in 0..times {
        disk.write(at + 32 * u64::from(i), &[0; 32])?;
    }
    Ok(())
}

/// Writes a live bank with the mark 0, these cells and no record.
fn write_live_bank<D: Disk>(disk: &mut D, at: u64, cells: &[[u8; 32]]) -> Result<(), DiskFailed>
    requires few { length cells.now ≤ 1024 }
    requires room { at + 2242 + 32 * length cells.now ≤ (D.state disk.old).size }
    ensures runs { Runs [] (71 + length cells.now) (D.state disk.old) (D.state disk.new) }
    ensures loosens { Loosens at (2242 + 32 * length cells.now) (D.state disk.old).told
        (D.state disk.new).told }
    ensures faults { OnOk result ((D.state disk.new).faults ≡ (D.state disk.old).faults) }
    ensures failed { OnErr result (Rose (D.state disk.old).faults (D.state disk.new).faults) }
    ensures wrote { OnOk result (Wrote at (live_bank 0 cells.now) (D.state disk.old).told
        (D.state disk.new).told) }
{
    disk.write(at, &[LIVE, 0])?;
    write_list(disk, at + 2, cells)?;
    write_zeros(disk, at + 2 + 32 * cells.len() as u64, 70)
}

/// Writes a closed bank of zeros except for its mark, which is 2, with room for so many cells.
fn write_closed_bank<D: Disk>(disk: &mut D, at: u64, cells: u16) -> Result<(), DiskFailed>
    requires few { cells ≤ 1024 }
    requires room { at + 2242 + 32 * cells ≤ (D.state disk.old).size }
    ensures runs { Runs [] (71 + cells) (D.state disk.old) (D.state disk.new) }
    ensures loosens { Loosens at (2242 + 32 * cells) (D.state disk.old).told
        (D.state disk.new).told }
    ensures faults { OnOk result ((D.state disk.new).faults ≡ (D.state disk.old).faults) }
    ensures failed { OnErr result (Rose (D.state disk.old).faults (D.state disk.new).faults) }
    ensures wrote { OnOk result (Wrote at (0 ∷ 2 ∷ replicate (2240 + 32 * cells) 0)
        (D.state disk.old).told (D.state disk.new).told) }
{
    disk.write(at, &[0, 2])?;
    write_zeros(disk, at + 2, 70 + cells)
}

/// Writes both banks, and then syncs once.
pub fn write_banks<D: Disk>(
    disk: &mut D,
    version: Version,
    cells: &[[u8; 32]],
) -> Result<(), DiskFailed>
    requires few { length cells.now ≤ 1024 }
    requires room { store_size (log_layout version) (length cells.now) ≤ (D.state disk.old).size }
    ensures runs { Runs [] (143 + 2 * length cells.now) (D.state disk.old) (D.state disk.new) }
    ensures grows { OnOk result (Grows (D.state disk.old) (D.state disk.new)) }
    ensures faults { OnOk result ((D.state disk.new).faults ≡ (D.state disk.old).faults) }
    ensures failed { OnErr result (Rose (D.state disk.old).faults (D.state disk.new).faults) }
    ensures banks { OnOk result (FirmCells (log_layout version) cells.now (D.state disk.old).told
        (D.state disk.new).told) }
    ensures torn { OnErr result (LeavesOutside (base version + 32) (4484 + 64 * length cells.now)
        (D.state disk.old).told (D.state disk.new).told) }
{
    let count = cells.len() as u16;
    write_live_bank(
        disk,
        version.base() + bank_address(count, Side::First),
        cells,
    )?;
    write_closed_bank(
        disk,
        version.base() + bank_address(count, Side::Second),
        count,
    )?;
    disk.sync()
}

/// Writes a fresh log store of these cells: no header first, and the header last, when both banks
/// are synced.
pub fn write_log<D: Disk>(
    disk: &mut D,
    version: Version,
    cells: &[[u8; 32]],
) -> Result<(), DiskFailed>
    requires few { FewCells (length cells.now) }
    requires room { store_size (log_layout version) (length cells.now) ≤ (D.state disk.old).size }
    ensures runs { Runs [] (147 + 2 * length cells.now) (D.state disk.old) (D.state disk.new) }
    ensures grows { OnOk result (Grows (D.state disk.old) (D.state disk.new)) }
    ensures faults { OnOk result ((D.state disk.new).faults ≡ (D.state disk.old).faults) }
    ensures failed { OnErr result (Rose (D.state disk.old).faults (D.state disk.new).faults) }
    ensures fresh { OnOk result (Formats (log_layout version) cells.now (D.state disk.old).told
        (D.state disk.new).told) }
    ensures unformed { OnErr result (LeavesUnformed (log_layout version) cells.now
        (D.state disk.old).told (D.state disk.new).told) }
{
    let base = version.base();
    let layout = Layout {
        kind: Kind::Log,
        version,
    };
    let head = header(layout, cells.len() as u16);
    write_and_sync(disk, base, &[0; HEADER])?;
    write_banks(disk, version, cells)?;
    write_and_sync(disk, base, &head)
}
