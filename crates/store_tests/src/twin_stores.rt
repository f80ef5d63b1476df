// Stores over disks in memory.
ghost use Rattle.std.specs.Prelude.{◌≡◌, length, false, IfOk};

use crate::comparing::same;
use crate::cutting::{ELEVENS, ZEROS, put_and_cut};
use cell_store::*;
use cut_disk::{CutDisk, MemDisk, Torn};
use std::alloc::Global;
use std::test::Fail;

/// The header of a store of one cell in version 1, and its two copies when it is fresh.
fn fresh_bytes() -> [u8; 100] {
    let mut bytes = [0; 100];
    let head = [0x53, 0x45, 0x43, 0x4f, 0x43, 0x53, 0x54, 0x31, 1, 1, 0, 1];
    bytes[..12].copy_from_slice(&head);
    bytes[32] = 0xa7;
    bytes[66] = 0xa7;
    bytes[67] = 2;
    bytes
}

/// A store of 1024 cells of zeros.
fn widest_store(alloc: Global) -> Result<TwinCells<MemDisk>, Fail>
    ensures count { IfOk result (λ s. length s.cells ≡ 1024) }
    ensures whole { IfOk result (λ s. s.broken ≡ false) }
{
    let cells = vec![in alloc; ZEROS; 1024]?;
    let disk = MemDisk::new(alloc, 69664)?;
    let disk = match TwinCells::format(disk, &cells) {
        Ok(disk) => disk,
        Err(refused) => return Err(Fail::from(refused.fault)),
    };
    match TwinCells::attach(alloc, disk, 1024) {
        Ok(store) => Ok(store),
        Err(refused) => Err(Fail::from(refused.fault)),
    }
}

#[test]
fn a_store_has_up_to_1024_cells(rt: HostRuntime) -> Result<(), Fail> {
    let mut store = widest_store(rt.alloc())?;
    let read = put_and_cut(&mut store, 1023, 7, Torn::Old)?;
    same(&rt, "read", &read, &(true, ELEVENS));
    Ok(())
}

#[test]
fn a_smaller_disk_is_too_small(rt: HostRuntime) -> Result<(), Fail> {
    let alloc = rt.alloc();
    same(&rt, "twin_size(1)", &twin_size(1), &100);
    let disk = MemDisk::new(alloc, 99)?;
    let Err(refused) = TwinCells::format(disk, &[ZEROS]) else {
        return Err(Fail::from("it was formatted"));
    };
    same(&rt, "refused.fault", &refused.fault, &StoreFault::TooSmall);
    let Err(refused) = TwinCells::attach(alloc, refused.disk, 1) else {
        return Err(Fail::from("it was attached"));
    };
    same(&rt, "refused.fault", &refused.fault, &StoreFault::TooSmall);
    Ok(())
}

/// Attaches the fresh bytes with two of them changed.
fn attach_damaged(alloc: Global, changes: &[(usize, u8); 2]) -> Result<Option<StoreFault>, Fail> {
    let mut bytes = fresh_bytes();
    for (place, byte) in changes {
        if *place < 100 {
            bytes[*place] = *byte;
        }
    }
    let disk = MemDisk::of(alloc, &bytes)?;
    match TwinCells::attach(alloc, disk, 1) {
        Ok(_) => Ok(None),
        Err(refused) => Ok(Some(refused.fault)),
    }
}

const DAMAGES: &[((usize, u8), (usize, u8), Option<StoreFault>)] = &[
    ((32, 0), (66, 0), Some(StoreFault::Damaged(0))),
    ((33, 2), (33, 2), Some(StoreFault::Damaged(0))),
    ((0, 0), (0, 0), Some(StoreFault::NotFormatted)),
    ((66, 0), (66, 0), None),
];

#[test]
fn damaged_bytes_are_found(rt: HostRuntime) -> Result<(), Fail> {
    for (first, second, fault) in DAMAGES {
        let found = attach_damaged(rt.alloc(), &[*first, *second])?;
        same(&rt, "found", &found, fault);
    }
    Ok(())
}

/// A disk to be probed: blank with so many bytes, or with a fresh store of one cell, whose number of the kind is this
/// byte; and a fresh store of version 2.
#[derive(Clone, Copy)]
enum Probed {
    Blank(usize),
    Fresh(u8),
    FreshTwo,
}

fn disk_of(alloc: Global, probed: Probed) -> Result<MemDisk, Fail> {
    match probed {
        Probed::Blank(size) => {
            if size > 65_536 {
                return Err(Fail::from("a large disk"));
            }
            Ok(MemDisk::new(alloc, size)?)
        }
        Probed::Fresh(kind) => {
            let mut bytes = fresh_bytes();
            bytes[8] = kind;
            Ok(MemDisk::of(alloc, &bytes)?)
        }
        Probed::FreshTwo => {
            let disk = MemDisk::new(alloc, 32_868)?;
            match TwinCells::format_as(disk, Version::Two, &[ZEROS]) {
                Ok(disk) => Ok(disk),
                Err(refused) => Err(Fail::from(refused.fault)),
            }
        }
    }
}

/// What is found on it for this version, if its disk stops at this call; at none for 0.
fn found_on(
    alloc: Global,
    probed: Probed,
    version: Version,
    stop: u64,
) -> Result<Result<Probe, StoreFault>, Fail> {
    let mut disk = disk_of(alloc, probed)?;
    if stop > 0 {
        disk.stop_at(stop);
    }
    match version {
        Version::One => Ok(probe(&mut disk)),
        Version::Two => Ok(probe_as(&mut disk, Version::Two)),
    }
}

const FOUND: Probe = Probe::Store {
    kind: Kind::Twin,
    cells: 1,
};

const PROBES: &[(Probed, Version, u64, Result<Probe, StoreFault>)] = &[
    (Probed::Blank(32), Version::One, 0, Ok(Probe::Blank)),
    (
        Probed::Blank(31),
        Version::One,
        0,
        Err(StoreFault::TooSmall),
    ),
    (Probed::Fresh(1), Version::One, 0, Ok(FOUND)),
    (Probed::Fresh(3), Version::One, 0, Ok(Probe::Foreign)),
    (
        Probed::Fresh(3),
        Version::One,
        1,
        Err(StoreFault::DiskFailed),
    ),
    (Probed::FreshTwo, Version::One, 0, Ok(Probe::Blank)),
    (Probed::FreshTwo, Version::Two, 0, Ok(FOUND)),
    (
        Probed::Blank(32_799),
        Version::Two,
        0,
        Err(StoreFault::TooSmall),
    ),
];

#[test]
fn the_first_bytes_are_probed(rt: HostRuntime) -> Result<(), Fail> {
    for (place, (probed, version, stop, answer)) in PROBES.iter().enumerate() {
        let found = found_on(rt.alloc(), *probed, *version, *stop)?;
        same(&rt, place, &found, answer);
    }
    Ok(())
}
