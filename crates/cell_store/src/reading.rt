// Reading a twin store: its header, and then the two copies of each cell.
ghost use Rattle.std.specs.Prelude.{◌≡◌, ◌+◌, ◌<◌, ◌≤◌, length, Some, OnOk, IfOk, IfErr};
ghost use Rattle.cut_disk.specs.State.{Told};
ghost use Rattle.cut_disk.specs.Calls.{Grows};
ghost use Rattle.cell_store.specs.Layout.{base, from_base, twin_layout};
ghost use Rattle.cell_store.specs.Twin.{twin_size};
ghost use Rattle.cell_store.specs.Store.{FewCells, HasHeader, store_size};
ghost use Rattle.cell_store.specs.Kept.{KeepsAll};
ghost use Rattle.cell_store.specs.Reading.{ReadOnly, Leaves, Finds, ToldKeeps, CellFault, HeaderFault};
ghost use Rattle.cell_store.specs.ReadOrder.{twin_reads, twin_reads_to};

use crate::copies::{Held, held_in};
use crate::faults::Reread;
use crate::kinds::{Kind, Layout, Version};
use crate::layout::{HEADER, PAIR, is_header, pair_place};
use cut_disk::Disk;

/// Reads the header in one call.
pub fn read_header<D: Disk>(disk: &mut D, layout: Layout, cells: u16) -> Result<(), Reread>
    requires { base layout.version + 32 ≤ (D.state disk.old).size }
    ensures same { OnOk result (ReadOnly 1 (D.state disk.old) (D.state disk.new)) }
    ensures grows { OnOk result (Grows (D.state disk.old) (D.state disk.new)) }
    ensures head { OnOk result ((t : Told) → (D.state disk.old).told ≡ Some t
        → HasHeader layout cells t.bytes) }
    ensures fault { IfErr result (HeaderFault layout cells (D.state disk.old) (D.state disk.new)) }
{
    let mut bytes = [0; HEADER];
    disk.read(layout.version.base(), &mut bytes)?;
    if is_header(&bytes, layout, cells) {
        Ok(())
    } else {
        Err(Reread::NotFormatted)
    }
}

/// Reads both copies of a cell in one call.
pub fn read_cell<D: Disk>(disk: &mut D, version: Version, cell: u16) -> Result<Held, Reread>
    requires { base version + twin_size (cell + 1) ≤ (D.state disk.old).size }
    ensures same { OnOk result (ReadOnly 1 (D.state disk.old) (D.state disk.new)) }
    ensures keeps { IfOk result (ToldKeeps version (D.state disk.old).told cell) }
    ensures fault { IfErr result (CellFault version cell (D.state disk.old) (D.state disk.new)) }
{
    let mut bytes = [0; PAIR];
    disk.read(version.base() + pair_place(cell), &mut bytes)?;
    match held_in(&bytes) {
        Some(held) => Ok(held),
        None => Err(Reread::Damaged(cell)),
    }
}

/// Reads the store of as many cells as `held` has into it, in one call for the header and one for
/// each cell.
pub fn read_store<D: Disk>(disk: &mut D, version: Version, held: &mut [Held]) -> Result<(), Reread>
    requires few { FewCells (length held.old) }
    requires room { store_size (twin_layout version) (length held.old) ≤ (D.state disk.old).size }
    ensures same { OnOk result (ReadOnly (twin_reads (length held.old)) (D.state disk.old)
        (D.state disk.new)) }
    ensures grows { OnOk result (Grows (D.state disk.old) (D.state disk.new)) }
    ensures keeps { OnOk result ((t : Told) → (D.state disk.old).told ≡ Some t
        → KeepsAll version (from_base version t.bytes) held.new) }
    ensures leaves { IfErr result (Leaves (twin_reads (length held.old)) twin_reads_to
        (D.state disk.old) (D.state disk.new)) }
    ensures finds { IfErr result (Finds (twin_layout version) (length held.old)
        (D.state disk.old).told) }
{
    let cells = held.len();
    let layout = Layout {
        kind: Kind::Twin,
        version,
    };
    read_header(disk, layout, cells as u16)?;
    for i in 0..cells {
        held[i] = read_cell(disk, version, i as u16)?;
    }
    Ok(())
}
