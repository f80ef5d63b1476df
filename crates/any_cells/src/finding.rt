// The store that counts on a disk, of any kind, version and number of cells.
ghost use Rattle.std.specs.Prelude.{◌≡◌, ◌≤◌, ℕ, List, Some, IfOk, IfErr, IfSome, OnOk};
ghost use Rattle.cut_disk.specs.State.{Told};
ghost use Rattle.cell_store.specs.declared.kinds.Version.TheVariants.{One, Two};
ghost use Rattle.cell_store.specs.Layout.{part, from_base};
ghost use Rattle.cell_store.specs.Reading.{ReadOnly};
ghost use Rattle.cell_store.specs.Store.{FewCells, Probes, FindsFew};
ghost use Rattle.any_cells.specs.Counting.{StoreThatCounts};
ghost use Rattle.any_cells.specs.Finding.{NotLooked};

use crate::looking::header_at;
use cell_store::{Kind, Probe, StoreFault, Version, probe};
use cut_disk::{Disk, DiskFailed};

/// The store that counts on a disk: its kind, its version, and its number of cells, 1 to 1024.
#[derive(Clone, Copy, Debug, PartialEq, Eq)]
pub struct CountingStore {
    pub kind: Kind,
    pub version: Version,
    pub cells: u16,
}

/// Which store counts on a disk, if one does: that of version 2 if its header stands and no other store has its header
/// at the first byte, and else that of version 1. It reads 32 bytes at 0, and 32 at 32768 if the disk has them, and
/// writes nothing. Errors: `TooSmall` for a disk of less than 32 bytes, and `DiskFailed`.
pub fn find_store<D: Disk>(disk: &mut D) -> Result<Option<CountingStore>, StoreFault>
    ensures found { IfOk result (λ found. (t : Told) → (D.state disk.old).told ≡ Some t
        → StoreThatCounts t.bytes found) }
    ensures few { IfOk result (λ found. IfSome found (λ store. FewCells store.cells)) }
    ensures room { IfOk result (λ _. 32 ≤ (D.state disk.old).size) }
    ensures as_before { OnOk result (ReadOnly 2 (D.state disk.old) (D.state disk.new)) }
    ensures refused { IfErr result (NotLooked (D.state disk.old) (D.state disk.new)) }
{
    let low = probe(disk)?;
    match header_at(disk, Version::Two) {
        Ok(high) => Ok(counting(low, high)),
        Err(DiskFailed) => Err(StoreFault::DiskFailed),
    }
}

/// The store that counts, by what stands at the two bases.
fn counting(low: Probe, high: Probe) -> Option<CountingStore>
    requires low { FindsFew low }
    requires high { FindsFew high }
    ensures few { IfSome result (λ store. FewCells store.cells) }
    ensures counts { (x : List ℕ) → Probes One (part 0 32 (from_base One x)) low
        → Probes Two (part 0 32 (from_base Two x)) high → StoreThatCounts x result }
{
    match (low, high) {
        (Probe::Store { kind, cells }, _) => Some(CountingStore {
            kind,
            version: if high == low {
                Version::Two
            } else {
                Version::One
            },
            cells,
        }),
        (_, Probe::Store { kind, cells }) => Some(CountingStore {
            kind,
            version: Version::Two,
            cells,
        }),
        _ => None,
    }
}
