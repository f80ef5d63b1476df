// A put that fills the bank that doesn't count.
ghost use Rattle.std.specs.Prelude.{◌≡◌, ◌+◌, ◌*◌, ◌<◌, ◌≤◌, [], length, slice_set, slice_index_or, Some, OnOk, OnErr, IfOk};
ghost use Rattle.std.specs.List.{flat_map};
ghost use Rattle.cut_disk.specs.State.{Told};
ghost use Rattle.cut_disk.specs.Images.{splice};
ghost use Rattle.cut_disk.specs.Calls.{Rose, Runs};
ghost use Rattle.cell_store.specs.Layout.{log_layout};
ghost use Rattle.cell_store.specs.Log.{bank_rest};
ghost use Rattle.cell_store.specs.Store.{FewCells, store_size};
ghost use Rattle.cell_store.specs.LogKept.{KeepsLog, PutsLog, LeavesEither, LogBesides};

use crate::banks::{Bank, bank_address};
use crate::copies::next;
use crate::kinds::Version;
use crate::writing::write_gated;
use cut_disk::{Disk, DiskFailed};

/// The cell at this index, if one of the cells is replaced.
fn cell_with(cells: &[[u8; 32]], index: usize, cell: usize, payload: &[u8; 32]) -> [u8; 32]
    requires { index < length cells.now }
    ensures { result ≡ slice_index_or (slice_set cells.now cell payload.now) index [] }
{
    if index == cell {
        *payload
    } else {
        cells[index]
    }
}

/// Writes all cells, one of them replaced, behind the first byte.
fn fill_cells(room: &mut [u8], cells: &[[u8; 32]], cell: usize, payload: &[u8; 32])
    requires { length room.old ≡ 2241 + 32 * length cells.now }
    ensures { room.new ≡ splice 1 (flat_map (λ c. c) (slice_set cells.now cell payload.now)) room.old }
{
    for i in 0..cells.len() {
        let start = 1 + 32 * i;
        room[start..start + 32].copy_from_slice(&cell_with(cells, i, cell, payload));
    }
}

/// Makes of this room a bank without its gate, with this mark and these cells, one of them replaced.
fn fill_bank(room: &mut [u8], mark: u8, cells: &[[u8; 32]], cell: usize, payload: &[u8; 32])
    requires { length room.old ≡ 2241 + 32 * length cells.now }
    ensures { room.new ≡ bank_rest mark (slice_set cells.now cell payload.now) }
{
    room[0] = mark;
    fill_cells(room, cells, cell, payload);
    room[1 + 32 * cells.len()..].fill(0);
}

/// Writes all cells with the new one into the bank that doesn't count, in at most six calls.
pub fn refill<D: Disk>(
    disk: &mut D,
    version: Version,
    bank: Bank,
    cells: &[[u8; 32]],
    cell: u16,
    payload: &[u8; 32],
    room: &mut [u8],
) -> Result<Bank, DiskFailed>
    requires few { FewCells (length cells.now) }
    requires full { 64 ≤ bank.used }
    requires room { store_size (log_layout version) (length cells.now) ≤ (D.state disk.old).size }
    requires space { length room.old ≡ 2241 + 32 * length cells.now }
    requires keeps { (t : Told) → (D.state disk.old).told ≡ Some t
        → KeepsLog version (length cells.now) t.bytes cells.now bank }
    ensures runs { Runs [] 6 (D.state disk.old) (D.state disk.new) }
    ensures faults { OnOk result ((D.state disk.new).faults ≡ (D.state disk.old).faults) }
    ensures failed { OnErr result (Rose (D.state disk.old).faults (D.state disk.new).faults) }
    ensures besides { LogBesides version (length cells.now) (D.state disk.old).told
        (D.state disk.new).told }
    ensures done { IfOk result (λ b. PutsLog version (length cells.now) cell payload.now cells.now b
        (D.state disk.old).told (D.state disk.new).told) }
    ensures images { OnErr result (LeavesEither version cell payload.now cells.now
        (D.state disk.old).told (D.state disk.new).told) }
{
    let side = bank.side.other();
    let mark = next(bank.mark);
    fill_bank(room, mark, cells, cell as usize, payload);
    let at = version.base() + bank_address(cells.len() as u16, side);
    write_gated(disk, at, bank.spare_is_live, room)?;
    Ok(Bank {
        side,
        mark,
        used: 0,
        spare_is_live: true,
    })
}
