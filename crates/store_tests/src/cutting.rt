// Cells that are put, and a put that the power is cut in.
ghost use Rattle.std.specs.Prelude.{◌≡◌, ◌<◌, ◌≤◌, length, false};

use cell_store::CutCells;
use cut_disk::Torn;
use std::test::Fail;

/// A cell of zeros.
pub const ZEROS: [u8; 32] = [0; 32];

/// A cell that is put.
pub const ELEVENS: [u8; 32] = [0x11; 32];

/// Puts elevens into a cell of a store whose disk stops at this call, and cuts the power: whether the
/// put was done, and the cell that is read then.
pub fn put_and_cut<C: CutCells>(
    store: &mut C,
    cell: u16,
    calls: u64,
    torn: Torn,
) -> Result<(bool, [u8; 32]), Fail>
    requires calls { 1 ≤ calls }
    requires cell { cell < length (C.state store.old).cells }
    requires whole { (C.state store.old).broken ≡ false }
{
    let mut read = [0x5a; 32];
    store.stop_at(calls);
    let done = store.put(cell, &ELEVENS).is_ok();
    store.power_cut(torn)?;
    store.get(cell, &mut read);
    Ok((done, read))
}
