// Log stores over disks in memory.
ghost use Rattle.std.specs.Prelude.{◌≡◌, length, false, IfOk};

use crate::comparing::same;
use crate::cutting::{ELEVENS, ZEROS, put_and_cut};
use cell_store::*;
use cut_disk::{MemDisk, Torn};
use std::alloc::Global;
use std::test::Fail;

/// The bytes of a fresh store of version 1 of one cell of zeros.
fn fresh_bytes() -> [u8; 4580] {
    let mut bytes = [0; 4580];
    let head = [0x53, 0x45, 0x43, 0x4f, 0x43, 0x53, 0x54, 0x31, 2, 1, 0, 1];
    bytes[..12].copy_from_slice(&head);
    bytes[32] = 0xa7;
    bytes[2307] = 2;
    bytes
}

/// A disk with a fresh store of one cell of zeros in version 2.
fn fresh_store(alloc: Global) -> Result<MemDisk, Fail> {
    let disk = MemDisk::new(alloc, 37_348)?;
    match LogCells::format_as(disk, Version::Two, &[ZEROS]) {
        Ok(disk) => Ok(disk),
        Err(refused) => Err(Fail::from(refused.fault)),
    }
}

/// What is found for either version on a disk with a fresh store of version 2: none, and that store.
#[test]
fn a_log_store_of_version_two_is_probed(rt: HostRuntime) -> Result<(), Fail> {
    let mut disk = fresh_store(rt.alloc())?;
    let found = Probe::Store {
        kind: Kind::Log,
        cells: 1,
    };
    same(&rt, "probe", &probe(&mut disk), &Ok(Probe::Blank));
    let probed = probe_as(&mut disk, Version::Two);
    same(&rt, "probe_as", &probed, &Ok(found));
    Ok(())
}

#[test]
fn a_smaller_disk_is_too_small_for_a_log(rt: HostRuntime) -> Result<(), Fail> {
    let alloc = rt.alloc();
    same(&rt, "log_size(1)", &log_size(1), &4580);
    let disk = MemDisk::new(alloc, 4579)?;
    let Err(refused) = LogCells::format(disk, &[ZEROS]) else {
        return Err(Fail::from("it was formatted"));
    };
    same(&rt, "refused.fault", &refused.fault, &StoreFault::TooSmall);
    let Err(refused) = LogCells::attach(alloc, refused.disk, 1) else {
        return Err(Fail::from("it was attached"));
    };
    same(&rt, "refused.fault", &refused.fault, &StoreFault::TooSmall);
    Ok(())
}

/// Three bytes at a place, and the fault.
const DAMAGES: &[(usize, [u8; 3], Option<StoreFault>)] = &[
    (32, [0, 0, 0], Some(StoreFault::Damaged(0))),
    (66, [0xa7, 0, 1], Some(StoreFault::Damaged(1))),
    (101, [0xa7, 0, 0], Some(StoreFault::Damaged(2))),
    (8, [1, 1, 0], Some(StoreFault::NotFormatted)),
    (66, [0xa7, 0, 0], None),
];

/// Attaches the fresh bytes with these three at a place.
fn attach_damaged(
    alloc: Global,
    place: usize,
    changes: &[u8; 3],
) -> Result<Option<StoreFault>, Fail> {
    let mut bytes = fresh_bytes();
    if place < 4577 {
        bytes[place..place + 3].copy_from_slice(changes);
    }
    let disk = MemDisk::of(alloc, &bytes)?;
    match LogCells::attach(alloc, disk, 1) {
        Ok(_) => Ok(None),
        Err(refused) => Ok(Some(refused.fault)),
    }
}

#[test]
fn damages_of_a_log_are_found(rt: HostRuntime) -> Result<(), Fail> {
    for (place, changes, fault) in DAMAGES {
        let found = attach_damaged(rt.alloc(), *place, changes)?;
        same(&rt, *place, &found, fault);
    }
    Ok(())
}

/// A store of 1024 cells of zeros.
fn widest_store(alloc: Global) -> Result<LogCells<MemDisk>, Fail>
    ensures count { IfOk result (λ s. length s.cells ≡ 1024) }
    ensures whole { IfOk result (λ s. s.broken ≡ false) }
{
    let cells = vec![in alloc; ZEROS; 1024]?;
    let disk = MemDisk::new(alloc, 70052)?;
    let disk = match LogCells::format(disk, &cells) {
        Ok(disk) => disk,
        Err(refused) => return Err(Fail::from(refused.fault)),
    };
    match LogCells::attach(alloc, disk, 1024) {
        Ok(store) => Ok(store),
        Err(refused) => Err(Fail::from(refused.fault)),
    }
}

#[test]
fn a_log_store_has_up_to_1024_cells(rt: HostRuntime) -> Result<(), Fail> {
    let mut store = widest_store(rt.alloc())?;
    let read = put_and_cut(&mut store, 1023, 5, Torn::Old)?;
    same(&rt, "read", &read, &(true, ELEVENS));
    Ok(())
}
