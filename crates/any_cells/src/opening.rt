// Opening the store that stands on a disk, or a new one on a blank disk.
ghost use Rattle.std.specs.Prelude.{length, IfOk, IfErr};
ghost use Rattle.cell_store.specs.Layout.{layout};
ghost use Rattle.cell_store.specs.Store.{FewCells};
ghost use Rattle.any_cells.specs.Either.{any_state};
ghost use Rattle.any_cells.specs.Opening.{StoreOpened, NoStoreOpened};

use crate::looking::is_blank;
use crate::{AnyCells, store_size};
use cell_store::{Kind, Refused, StoreFault, Version, probe_as};
use cut_disk::Disk;
use std::alloc::Global;

/// Opens the store of this kind and version and of as many cells, 1 to 1024: if the 32 bytes at the version's base are
/// zero it formats the disk with these cells, and then it attaches the store. Anything else that stands there is only
/// read.
///
/// Errors, in this order: `TooSmall` before any call of the disk, `DiskFailed` of the look and of the
/// format, and those of attaching.
pub fn open_store<D: Disk>(
    alloc: Global,
    mut disk: D,
    kind: Kind,
    version: Version,
    cells: &[[u8; 32]],
) -> Result<AnyCells<D>, Refused<D>>
    requires { FewCells (length cells.now) }
    ensures opened { IfOk result (λ s. StoreOpened kind version cells.now (D.state disk)
        (any_state s)) }
    ensures refused { IfErr result (λ r. NoStoreOpened (layout kind version) cells.now
        (D.state disk) (D.state r.disk) r.fault) }
{
    let count = cells.len() as u16;
    if disk.size() < store_size(kind, version, count) {
        return Err(Refused {
            disk,
            fault: StoreFault::TooSmall,
        });
    }
    let probe = match probe_as(&mut disk, version) {
        Ok(probe) => probe,
        Err(fault) => return Err(Refused { disk, fault }),
    };
    if is_blank(probe) {
        return match AnyCells::format_as(disk, kind, version, cells) {
            Ok(disk) => AnyCells::attach_as(alloc, disk, kind, version, count),
            Err(refused) => Err(refused),
        };
    }
    AnyCells::attach_as(alloc, disk, kind, version, count)
}
