// Migrating a store of version 1 to version 2.
ghost use Rattle.std.specs.Prelude.{◌≤◌, length, IfOk, IfErr};
ghost use Rattle.cell_store.specs.declared.kinds.Version.TheVariants.{Two};
ghost use Rattle.cell_store.specs.Layout.{layout};
ghost use Rattle.cell_store.specs.Store.{store_size};
ghost use Rattle.any_cells.specs.Migrating.{FewToMigrate, MigratesDisk, LeavesUnmigrated};

use crate::store_size;
use cell_store::{Kind, Refused, StoreFault, Version, move_up};
use cut_disk::Disk;
use std::alloc::{AllocError, Global};

/// Makes of the store of this kind and of so many cells, 1 to 441, that counts on the disk one of version 2. Version 2
/// counts if its header stands: then that store is read and nothing is written. Else the store of version 1 is read and
/// written as a fresh one of version 2. The header comes last, when all behind it is synced. If no byte was loose and
/// the store stood, each image stands for the same cells in the version that counts in it, whenever that stops.
/// Migrating it again makes a store of version 2 of it. If no byte was loose, the bytes before 32768 and those after
/// the store of version 2 stay as they are. It makes the room for the cells once.
///
/// Errors, in this order: `TooSmall` for a disk smaller than a store of version 2, `Memory`; then in the order of
/// reading `DiskFailed`, `NotFormatted` if neither header stands, and `Damaged` with the first damage of the version
/// that counts.
pub fn migrate<D: Disk>(alloc: Global, disk: D, kind: Kind, cells: u16) -> Result<D, Refused<D>>
    requires { FewToMigrate cells }
    ensures migrated { IfOk result (λ d. MigratesDisk kind cells (D.state disk) (D.state d)) }
    ensures refused { IfErr result (λ r. LeavesUnmigrated kind cells (D.state disk) (D.state r.disk) r.fault) }
{
    if disk.size() < store_size(kind, Version::Two, cells) {
        return Err(Refused {
            disk,
            fault: StoreFault::TooSmall,
        });
    }
    match vec![in alloc; [0; 32]; usize::from(cells)] {
        Ok(room) => migrate_into(disk, kind, room),
        Err(AllocError) => Err(Refused {
            disk,
            fault: StoreFault::Memory,
        }),
    }
}

/// Does the same with room for as many cells.
fn migrate_into<D: Disk>(mut disk: D, kind: Kind, mut room: Vec<[u8; 32]>) -> Result<D, Refused<D>>
    requires few { FewToMigrate (length room.items) }
    requires room { store_size (layout kind Two) (length room.items) ≤ (D.state disk).size }
    ensures migrated { IfOk result (λ d. MigratesDisk kind (length room.items) (D.state disk) (D.state d)) }
    ensures refused { IfErr result
        (λ r. LeavesUnmigrated kind (length room.items) (D.state disk) (D.state r.disk) r.fault) }
{
    match move_up(&mut disk, kind, &mut room) {
        Ok(()) => Ok(disk),
        Err(fault) => Err(Refused {
            disk,
            fault: StoreFault::from(fault),
        }),
    }
}
