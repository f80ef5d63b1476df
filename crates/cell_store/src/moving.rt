// Moving a store from version 1 to version 2.
ghost use Rattle.std.specs.Prelude.{◌≡◌, ◌+◌, ◌*◌, ◌<◌, ◌≤◌, ℕ, [], length, slice_index_or, Some, OnOk, OnErr, IfErr};
ghost use Rattle.cut_disk.specs.State.{Told};
ghost use Rattle.cut_disk.specs.Calls.{Rose, Runs, Grows};
ghost use Rattle.cell_store.specs.declared.kinds.Version.TheVariants.{Two};
ghost use Rattle.cell_store.specs.Layout.{base, layout, twin_layout};
ghost use Rattle.cell_store.specs.Store.{FewCells, Stands, size_from_base, store_size};
ghost use Rattle.cell_store.specs.ReadOrder.{reads, reads_to, twin_reads, twin_reads_to};
ghost use Rattle.cell_store.specs.Reading.{ReadOnly, Leaves, Finds};
ghost use Rattle.cell_store.specs.Writing.{LeavesOutside};
ghost use Rattle.cell_store.specs.Formats.{Formats, FirmCells};
ghost use Rattle.cell_store.specs.Moving.{behind_header, calls_behind, move_calls, LeavesHeaderLast, Moves, Unmoved, OnlyDisk, KeepsCounted, LeavesBelow};

use crate::faults::Reread;
use crate::formatting::write_cells;
use crate::kinds::{Kind, Layout, Version};
use crate::layout::header;
use crate::log_formatting::write_banks;
use crate::log_reading::read_log;
use crate::reading::{read_cell, read_header};
use cut_disk::{Disk, DiskFailed, write_and_sync};

/// Reads as many cells of a twin store as there is room for. One call reads the header, and one reads each cell.
fn read_twin<D: Disk>(disk: &mut D, version: Version, cells: &mut [[u8; 32]]) -> Result<(), Reread>
    requires few { FewCells (length cells.old) }
    requires room { store_size (twin_layout version) (length cells.old) ≤ (D.state disk.old).size }
    ensures same { OnOk result (ReadOnly (twin_reads (length cells.old)) (D.state disk.old)
        (D.state disk.new)) }
    ensures grows { OnOk result (Grows (D.state disk.old) (D.state disk.new)) }
    ensures stands { OnOk result ((t : Told) → (D.state disk.old).told ≡ Some t
        → Stands (twin_layout version) t.bytes cells.new) }
    ensures leaves { IfErr result (Leaves (twin_reads (length cells.old)) twin_reads_to
        (D.state disk.old) (D.state disk.new)) }
    ensures finds { IfErr result (Finds (twin_layout version) (length cells.old)
        (D.state disk.old).told) }
{
    let count = cells.len();
    let layout = Layout {
        kind: Kind::Twin,
        version,
    };
    read_header(disk, layout, count as u16)?;
    for i in 0..count {
        cells[i] = read_cell(disk, version, i as u16)?.payload;
    }
    Ok(())
}

/// Reads the cells of a store of this kind and version, of as many as there is room for.
fn read_cells<D: Disk>(
    disk: &mut D,
    kind: Kind,
    version: Version,
    cells: &mut [[u8; 32]],
) -> Result<(), Reread>
    requires few { FewCells (length cells.old) }
    requires room { store_size (layout kind version) (length cells.old) ≤ (D.state disk.old).size }
    ensures same { OnOk result (ReadOnly (reads kind (length cells.old)) (D.state disk.old)
        (D.state disk.new)) }
    ensures grows { OnOk result (Grows (D.state disk.old) (D.state disk.new)) }
    ensures stands { OnOk result ((t : Told) → (D.state disk.old).told ≡ Some t
        → Stands (layout kind version) t.bytes cells.new) }
    ensures leaves { IfErr result (Leaves (reads kind (length cells.old))
        (reads_to kind (length cells.old)) (D.state disk.old) (D.state disk.new)) }
    ensures finds { IfErr result (Finds (layout kind version) (length cells.old)
        (D.state disk.old).told) }
{
    match kind {
        Kind::Twin => read_twin(disk, version, cells),
        Kind::Log => match read_log(disk, version, cells) {
            Ok(_) => Ok(()),
            Err(fault) => Err(fault),
        },
    }
}

/// Writes what stands after the header of a fresh store, and then syncs once.
fn write_behind<D: Disk>(
    disk: &mut D,
    kind: Kind,
    version: Version,
    cells: &[[u8; 32]],
) -> Result<(), DiskFailed>
    requires few { length cells.now ≤ 1024 }
    requires room { store_size (layout kind version) (length cells.now) ≤ (D.state disk.old).size }
    ensures runs { Runs [] (calls_behind kind (length cells.now)) (D.state disk.old)
        (D.state disk.new) }
    ensures grows { OnOk result (Grows (D.state disk.old) (D.state disk.new)) }
    ensures faults { OnOk result ((D.state disk.new).faults ≡ (D.state disk.old).faults) }
    ensures failed { OnErr result (Rose (D.state disk.old).faults (D.state disk.new).faults) }
    ensures firm { OnOk result (FirmCells (layout kind version) cells.now (D.state disk.old).told
        (D.state disk.new).told) }
    ensures torn { OnErr result (LeavesOutside (base version + 32)
        (behind_header kind (length cells.now)) (D.state disk.old).told (D.state disk.new).told) }
{
    match kind {
        Kind::Twin => write_cells(disk, version, cells),
        Kind::Log => write_banks(disk, version, cells),
    }
}

/// Writes a fresh store of these cells, its header last, when all behind it is synced. No byte of the header is written
/// before that.
fn write_header_last<D: Disk>(
    disk: &mut D,
    kind: Kind,
    version: Version,
    cells: &[[u8; 32]],
) -> Result<(), DiskFailed>
    requires few { FewCells (length cells.now) }
    requires room { store_size (layout kind version) (length cells.now) ≤ (D.state disk.old).size }
    ensures runs { Runs [] (calls_behind kind (length cells.now) + 2) (D.state disk.old)
        (D.state disk.new) }
    ensures grows { OnOk result (Grows (D.state disk.old) (D.state disk.new)) }
    ensures faults { OnOk result ((D.state disk.new).faults ≡ (D.state disk.old).faults) }
    ensures failed { OnErr result (Rose (D.state disk.old).faults (D.state disk.new).faults) }
    ensures sized { (i : ℕ) → i < length cells.now → length (slice_index_or cells.now i []) ≡ 32 }
    ensures fresh { OnOk result (Formats (layout kind version) cells.now (D.state disk.old).told
        (D.state disk.new).told) }
    ensures torn { OnErr result (LeavesHeaderLast (layout kind version) cells.now
        (D.state disk.old).told (D.state disk.new).told) }
{
    let head = header(Layout { kind, version }, cells.len() as u16);
    write_behind(disk, kind, version, cells)?;
    write_and_sync(disk, version.base(), &head)
}

/// Makes of the store of this kind that counts, with as many cells as there is room for, one of version 2. If the
/// header of version 2 stands, that store is read and nothing is written. Else the store of version 1 is read, and
/// written as a fresh one of version 2, whose header comes last. If no byte was loose, the bytes before 32768 and those
/// after the store of version 2 stay as they are. Errors, in the order of reading: `DiskFailed`, `NotFormatted` if
/// neither header stands, and `Damaged` with the first damage of the version that counts.
pub fn move_up<D: Disk>(disk: &mut D, kind: Kind, cells: &mut [[u8; 32]]) -> Result<(), Reread>
    requires few { FewCells (length cells.old) }
    requires low { size_from_base kind (length cells.old) ≤ 32768 }
    requires room { store_size (layout kind Two) (length cells.old) ≤ (D.state disk.old).size }
    ensures runs { Runs [] (move_calls kind (length cells.old)) (D.state disk.old)
        (D.state disk.new) }
    ensures grows { OnOk result (Grows (D.state disk.old) (D.state disk.new)) }
    ensures faults { OnOk result ((D.state disk.new).faults ≡ (D.state disk.old).faults) }
    ensures moved { OnOk result (Moves kind cells.new (D.state disk.old).told (D.state disk.new).told) }
    ensures refused { IfErr result (Unmoved kind (length cells.old) (D.state disk.old)
        (D.state disk.new)) }
    ensures only { IfErr result (OnlyDisk kind (length cells.old) (D.state disk.old).told) }
    ensures images { KeepsCounted kind (length cells.old) (D.state disk.old).told
        (D.state disk.new).told }
    ensures besides { LeavesBelow kind (length cells.old) (D.state disk.old).told
        (D.state disk.new).told }
{
    match read_cells(disk, kind, Version::Two, cells) {
        Ok(()) => return Ok(()),
        Err(Reread::NotFormatted) => {}
        Err(Reread::DiskFailed) => return Err(Reread::DiskFailed),
        Err(Reread::Damaged(number)) => return Err(Reread::Damaged(number)),
    }
    read_cells(disk, kind, Version::One, cells)?;
    write_header_last(disk, kind, Version::Two, cells)?;
    Ok(())
}
