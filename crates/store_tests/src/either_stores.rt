// Either store over disks in memory: probing, migration, a look at a disk, and opening.
ghost use Rattle.std.specs.Prelude.{◌≤◌};

use crate::comparing::{holds, same};
use crate::cutting::{ELEVENS, ZEROS};
use any_cells::{
    AnyCells, Found, look, migrate, open_store, probe_two, store_fault_text, store_size,
};
use cell_store::{Cells, CutCells, Kind, Probe, StoreFault, Version};
use cut_disk::{CutDisk, Disk, DiskFailed, MemDisk, Torn};
use std::alloc::Global;
use std::process::Abort;
use std::test::Fail;

/// A fresh store of two cells of zeros, in version 2.
fn fresh_store(alloc: Global, kind: Kind) -> Result<AnyCells<MemDisk>, Fail> {
    let disk = MemDisk::new(alloc, 40000)?;
    let disk = match AnyCells::format_as(disk, kind, Version::Two, &[ZEROS, ZEROS]) {
        Ok(disk) => disk,
        Err(refused) => return Err(Fail::from(refused.fault)),
    };
    match AnyCells::attach_as(alloc, disk, kind, Version::Two, 2) {
        Ok(store) => Ok(store),
        Err(refused) => Err(Fail::from(refused.fault)),
    }
}

/// What is found of a fresh store, whose disk fails at a call after.
fn found_two(alloc: Global, kind: Kind) -> Result<Result<Probe, StoreFault>, Fail> {
    let mut store = fresh_store(alloc, kind)?;
    if store.count() != 2 {
        return Err(Fail::from("not two cells"));
    }
    store.fail_at(9);
    let mut disk = store.release();
    Ok(probe_two(&mut disk))
}

#[test]
fn the_store_of_version_two_is_probed(rt: HostRuntime) -> Result<(), Fail> {
    for kind in [Kind::Twin, Kind::Log] {
        let found = Probe::Store { kind, cells: 2 };
        same(&rt, "found", &found_two(rt.alloc(), kind)?, &Ok(found));
    }
    let mut disk = MemDisk::new(rt.alloc(), 32799)?;
    let found = probe_two(&mut disk);
    same(&rt, "a small disk", &found, &Err(StoreFault::TooSmall));
    Ok(())
}

/// The size of a store of fifteen cells.
const SIZES: &[(Kind, Version, u64)] = &[
    (Kind::Twin, Version::One, 1052),
    (Kind::Log, Version::One, 5476),
    (Kind::Twin, Version::Two, 33820),
    (Kind::Log, Version::Two, 38244),
];

#[test]
fn sizes_are_those_of_kind_and_version(rt: HostRuntime) {
    for (kind, version, size) in SIZES {
        same(&rt, *size, &store_size(*kind, *version, 15), size);
    }
}

/// Fifteen cells, no two of them the same.
fn fifteen_cells() -> [[u8; 32]; 15] {
    let mut cells = [ZEROS; 15];
    for i in 0..15u8 {
        cells[usize::from(i)] = [i + 1; 32];
    }
    cells
}

/// A disk that just has room for fifteen cells in version 2, with a store of them in this version.
fn disk_of_fifteen(alloc: Global, kind: Kind, version: Version) -> Result<MemDisk, Fail> {
    let size = match kind {
        Kind::Twin => 33820,
        Kind::Log => 38244,
    };
    let disk = MemDisk::new(alloc, size)?;
    match AnyCells::format_as(disk, kind, version, &fifteen_cells()) {
        Ok(disk) => Ok(disk),
        Err(refused) => Err(Fail::from(refused.fault)),
    }
}

/// Whether a store of version 2 has the fifteen cells.
fn has_fifteen(alloc: Global, disk: MemDisk, kind: Kind) -> Result<bool, Fail> {
    let store = match AnyCells::attach_as(alloc, disk, kind, Version::Two, 15) {
        Ok(store) => store,
        Err(refused) => return Err(Fail::from(refused.fault)),
    };
    let mut all = true;
    for i in 0..15u8 {
        let mut read = [0; 32];
        store.get(u16::from(i), &mut read);
        all = all && read == [i + 1; 32];
    }
    Ok(all)
}

/// Migrates a store of version 1 whose disk stops at this call, cuts the power and migrates again:
/// whether the first was done, and the disk then.
fn stop_and_migrate(
    alloc: Global,
    kind: Kind,
    call: u64,
    torn: Torn,
) -> Result<(bool, MemDisk), Fail>
    requires { 1 ≤ call }
{
    let mut disk = disk_of_fifteen(alloc, kind, Version::One)?;
    disk.stop_at(call);
    let (done, mut disk) = match migrate(alloc, disk, kind, 15) {
        Ok(disk) => (true, disk),
        Err(refused) => (false, refused.disk),
    };
    disk.power_cut(torn);
    match migrate(alloc, disk, kind, 15) {
        Ok(disk) => Ok((done, disk)),
        Err(refused) => Err(Fail::from(refused.fault)),
    }
}

/// Whether the first migration is done, and the cells are all there.
fn keeps_the_cells(alloc: Global, kind: Kind, call: u64, torn: Torn) -> Result<(bool, bool), Fail> {
    if call == 0 {
        return Err(Fail::from("no call"));
    }
    let (done, disk) = stop_and_migrate(alloc, kind, call, torn)?;
    Ok((done, has_fifteen(alloc, disk, kind)?))
}

/// The kinds of cuts.
const TORN: [Torn; 5] = [
    Torn::Keep,
    Torn::Old,
    Torn::Half,
    Torn::Fill(0xa7),
    Torn::Fill(0),
];

/// A kind of store, and from which call on a stop comes after its migration.
const MIGRATIONS: [(Kind, u64); 2] = [(Kind::Twin, 36), (Kind::Log, 259)];

#[test]
fn a_migration_that_is_stopped_and_cut_keeps_the_cells(rt: HostRuntime) -> Result<(), Fail> {
    for (kind, behind) in MIGRATIONS {
        for call in 1..=behind {
            for torn in TORN {
                let came = keeps_the_cells(rt.alloc(), kind, call, torn)?;
                same(&rt, call, &came, &(call == behind, true));
            }
        }
    }
    Ok(())
}

/// Changes a byte of a disk, if it has that place.
fn changes(disk: &mut MemDisk, change: (u64, u8)) -> Result<(), Fail> {
    let (place, byte) = change;
    if place < disk.size() {
        disk.write(place, &[byte])?;
    }
    Ok(())
}

/// How a migration of this disk is refused, if it is.
fn migrated(alloc: Global, disk: MemDisk, kind: Kind) -> Option<StoreFault> {
    match migrate(alloc, disk, kind, 15) {
        Ok(_) => None,
        Err(refused) => Some(refused.fault),
    }
}

/// The store of fifteen cells that stands there, the bytes that are changed, and the fault.
type Migrated = (Kind, Version, (u64, u8), (u64, u8), Option<StoreFault>);

const MIGRATED: &[Migrated] = &[
    (Kind::Twin, Version::One, (0, 0x53), (0, 0x53), None),
    (Kind::Twin, Version::Two, (0, 0), (0, 0), None),
    (
        Kind::Twin,
        Version::One,
        (0, 0),
        (0, 0),
        Some(StoreFault::NotFormatted),
    ),
    (
        Kind::Twin,
        Version::Two,
        (32768, 0),
        (0, 0),
        Some(StoreFault::NotFormatted),
    ),
    (
        Kind::Twin,
        Version::One,
        (100, 0),
        (134, 0),
        Some(StoreFault::Damaged(1)),
    ),
    (
        Kind::Twin,
        Version::Two,
        (32868, 0),
        (32902, 0),
        Some(StoreFault::Damaged(1)),
    ),
    (
        Kind::Log,
        Version::One,
        (32, 0),
        (32, 0),
        Some(StoreFault::Damaged(0)),
    ),
    (
        Kind::Log,
        Version::Two,
        (32800, 0),
        (32800, 0),
        Some(StoreFault::Damaged(0)),
    ),
];

fn migrates_to(rt: &impl Abort, alloc: Global, place: usize, row: &Migrated) -> Result<(), Fail> {
    let (kind, version, first, second, fault) = row;
    let mut disk = disk_of_fifteen(alloc, *kind, *version)?;
    changes(&mut disk, *first)?;
    changes(&mut disk, *second)?;
    same(rt, place, &migrated(alloc, disk, *kind), fault);
    Ok(())
}

#[test]
fn a_migration_is_refused_by_size_and_by_the_bytes_that_count(rt: HostRuntime) -> Result<(), Fail> {
    for (place, row) in MIGRATED.iter().enumerate() {
        migrates_to(&rt, rt.alloc(), place, row)?;
    }
    let found = migrated(rt.alloc(), MemDisk::new(rt.alloc(), 33819)?, Kind::Twin);
    same(&rt, "a small disk", &found, &Some(StoreFault::TooSmall));
    Ok(())
}

/// What stands on a disk: a store of fifteen cells in version 1, one in version 2, both or none, and one byte that is
/// changed.
#[derive(Clone, Copy)]
struct Laid {
    one: bool,
    two: bool,
    kind: Kind,
    change: (u64, u8),
}

const NONE: (u64, u8) = (40000, 0);

fn lay(one: bool, two: bool, kind: Kind, change: (u64, u8)) -> Laid {
    Laid {
        one,
        two,
        kind,
        change,
    }
}

/// A disk of 40000 bytes with this on it.
fn disk_with(alloc: Global, laid: &Laid) -> Result<MemDisk, Fail> {
    let disk = with_store(MemDisk::new(alloc, 40000)?, laid, laid.one, Version::One)?;
    let mut disk = with_store(disk, laid, laid.two, Version::Two)?;
    changes(&mut disk, laid.change)?;
    disk.sync()?;
    Ok(disk)
}

/// The disk with a store of this version, if one is to stand there.
fn with_store(
    disk: MemDisk,
    laid: &Laid,
    is_there: bool,
    version: Version,
) -> Result<MemDisk, Fail> {
    if is_there {
        formatted(disk, laid.kind, version)
    } else {
        Ok(disk)
    }
}

fn formatted(disk: MemDisk, kind: Kind, version: Version) -> Result<MemDisk, Fail> {
    match AnyCells::format_as(disk, kind, version, &fifteen_cells()) {
        Ok(disk) => Ok(disk),
        Err(refused) => Err(Fail::from(refused.fault)),
    }
}

/// What is found on such a disk for a store of fifteen cells, if its disk stops at this call, and at none for 0.
fn looked(
    alloc: Global,
    laid: &Laid,
    kind: Kind,
    version: Version,
    stop: u64,
) -> Result<Result<Found, DiskFailed>, Fail> {
    let mut disk = disk_with(alloc, laid)?;
    if stop > 0 {
        disk.stop_at(stop);
    }
    if disk.size() < store_size(kind, version, 15) {
        return Err(Fail::from("a small disk"));
    }
    Ok(look(&mut disk, kind, version, 15))
}

fn finds(
    rt: &impl Abort,
    alloc: Global,
    laid: &Laid,
    kind: Kind,
    version: Version,
    found: Found,
) -> Result<(), Fail> {
    for stop in 0..4 {
        let wanted = if stop == 1 || stop == 2 {
            Err(DiskFailed)
        } else {
            Ok(found)
        };
        let looked = looked(alloc, laid, kind, version, stop)?;
        same(rt, stop, &looked, &wanted);
    }
    Ok(())
}

/// A disk to look at: whether stores of version 1 and 2 stand on it, whether these are of the other kind, the byte that
/// is changed, what is found.
type Look = (bool, bool, bool, (u64, u8), Found);

const LOOKS_FOR_ONE: &[Look] = &[
    (true, true, false, NONE, Found::Foreign),
    (false, true, false, NONE, Found::Foreign),
    (false, false, false, NONE, Found::Blank),
    (false, false, false, (32, 1), Found::Blank),
    (false, false, false, (32768, 1), Found::Blank),
    (false, true, true, NONE, Found::Blank),
    (true, false, false, NONE, Found::Standing),
    (true, true, false, (32768, 0), Found::Standing),
    (false, false, false, (31, 1), Found::Foreign),
    (true, false, false, (11, 14), Found::Foreign),
    (true, false, true, NONE, Found::Foreign),
];

const LOOKS_FOR_TWO: &[Look] = &[
    (false, true, false, NONE, Found::Standing),
    (true, true, false, NONE, Found::Standing),
    (true, false, false, NONE, Found::Older),
    (true, true, false, (32768, 0), Found::Older),
    (false, false, false, NONE, Found::Blank),
    (false, false, false, (0, 1), Found::Foreign),
    (false, false, false, (32799, 1), Found::Foreign),
    (false, true, false, (32779, 14), Found::Foreign),
    (false, true, true, NONE, Found::Foreign),
    (true, false, true, NONE, Found::Foreign),
];

fn other_than(kind: Kind) -> Kind {
    match kind {
        Kind::Twin => Kind::Log,
        Kind::Log => Kind::Twin,
    }
}

/// A look for a store of this kind and version.
fn finds_one(
    rt: &impl Abort,
    alloc: Global,
    kind: Kind,
    version: Version,
    row: &Look,
) -> Result<(), Fail> {
    let (one, two, is_other, change, found) = row;
    let standing = if *is_other { other_than(kind) } else { kind };
    finds(
        rt,
        alloc,
        &lay(*one, *two, standing, *change),
        kind,
        version,
        *found,
    )
}

/// Looks for a store of either kind in this version.
fn finds_each(
    rt: &impl Abort,
    alloc: Global,
    version: Version,
    looks: &[Look],
) -> Result<(), Fail> {
    for row in looks {
        finds_one(rt, alloc, Kind::Twin, version, row)?;
        finds_one(rt, alloc, Kind::Log, version, row)?;
    }
    Ok(())
}

#[test]
fn a_look_for_version_one_finds_by_both_headers(rt: HostRuntime) -> Result<(), Fail> {
    finds_each(&rt, rt.alloc(), Version::One, LOOKS_FOR_ONE)
}

#[test]
fn a_look_for_version_two_finds_by_both_headers(rt: HostRuntime) -> Result<(), Fail> {
    finds_each(&rt, rt.alloc(), Version::Two, LOOKS_FOR_TWO)
}

/// Two cells to begin with.
const TWO_CELLS: [[u8; 32]; 2] = [ELEVENS, [0x22; 32]];

/// The cell at this place of the store that is opened with two cells, or the fault, with the disk.
fn opened(
    alloc: Global,
    disk: MemDisk,
    kind: Kind,
    version: Version,
) -> (Result<[u8; 32], StoreFault>, MemDisk) {
    match open_store(alloc, disk, kind, version, &TWO_CELLS) {
        Ok(store) => {
            let mut cell = [0; 32];
            store.get(1, &mut cell);
            (Ok(cell), store.release())
        }
        Err(refused) => (Err(refused.fault), refused.disk),
    }
}

/// The bytes of a disk up to 34000.
fn bytes_of(disk: &mut MemDisk) -> Result<[u8; 34000], Fail> {
    let mut bytes = [0; 34000];
    if disk.size() < 34000 {
        return Err(Fail::from("a small disk"));
    }
    disk.read(0, &mut bytes)?;
    Ok(bytes)
}

/// Opens such a disk, which is refused and stays as it was.
fn is_refused(
    rt: &impl Abort,
    alloc: Global,
    laid: &Laid,
    version: Version,
    fault: StoreFault,
) -> Result<(), Fail> {
    let mut disk = disk_with(alloc, laid)?;
    let before = bytes_of(&mut disk)?;
    let (answer, mut after) = opened(alloc, disk, laid.kind, version);
    same(rt, "answer", &answer, &Err(fault));
    holds(rt, "bytes_of", bytes_of(&mut after)? == before);
    Ok(())
}

/// The disk of a store that is opened with other cells than it has.
fn reopened(alloc: Global, disk: MemDisk, kind: Kind, version: Version) -> Result<MemDisk, Fail> {
    match open_store(alloc, disk, kind, version, &[ZEROS, ZEROS]) {
        Ok(store) => Ok(store.release()),
        Err(refused) => Err(Fail::from(refused.fault)),
    }
}

/// What is read of a blank disk that is opened, and again after that.
fn found_again(
    alloc: Global,
    kind: Kind,
    version: Version,
) -> Result<[Result<[u8; 32], StoreFault>; 2], Fail> {
    let (made, disk) = opened(alloc, MemDisk::new(alloc, 40000)?, kind, version);
    let (found, _) = opened(alloc, reopened(alloc, disk, kind, version)?, kind, version);
    Ok([made, found])
}

#[test]
fn a_blank_disk_gets_a_store_that_is_found_again(rt: HostRuntime) -> Result<(), Fail> {
    for kind in [Kind::Twin, Kind::Log] {
        for version in [Version::One, Version::Two] {
            let found = found_again(rt.alloc(), kind, version)?;
            same(&rt, "found", &found, &[Ok([0x22; 32]); 2]);
        }
    }
    Ok(())
}

/// A version, whether stores of both versions stand there, and the byte that is changed.
const FOREIGN: &[(Version, bool, (u64, u8))] = &[
    (Version::One, true, NONE),
    (Version::One, true, (0, 0)),
    (Version::One, true, (31, 1)),
    (Version::One, false, (31, 1)),
    (Version::Two, true, NONE),
    (Version::Two, true, (32768, 0)),
    (Version::Two, true, (32799, 1)),
    (Version::Two, false, (32799, 1)),
];

#[test]
fn a_disk_with_anything_else_is_refused_as_it_was(rt: HostRuntime) -> Result<(), Fail> {
    for kind in [Kind::Twin, Kind::Log] {
        for (version, both, change) in FOREIGN {
            let laid = lay(*both, *both, kind, *change);
            is_refused(&rt, rt.alloc(), &laid, *version, StoreFault::NotFormatted)?;
        }
    }
    Ok(())
}

/// What is answered if a store of version 1 has lost both gates from this place on.
fn damaged(alloc: Global, kind: Kind, gate: u64) -> Result<Result<[u8; 32], StoreFault>, Fail> {
    let (_, mut disk) = opened(alloc, MemDisk::new(alloc, 40000)?, kind, Version::One);
    if gate > 100 || disk.size() != 40000 {
        return Err(Fail::from("a gate"));
    }
    disk.write(gate, &[0])?;
    disk.write(gate + 34, &[0])?;
    let (answer, _) = opened(alloc, disk, kind, Version::One);
    Ok(answer)
}

#[test]
fn a_damaged_store_and_a_small_disk_are_refused(rt: HostRuntime) -> Result<(), Fail> {
    let answer = damaged(rt.alloc(), Kind::Twin, 100)?;
    same(&rt, "a twin", &answer, &Err(StoreFault::Damaged(1)));
    let answer = damaged(rt.alloc(), Kind::Log, 32)?;
    same(&rt, "a log", &answer, &Err(StoreFault::Damaged(0)));
    let disk = MemDisk::new(rt.alloc(), 167)?;
    let (answer, disk) = opened(rt.alloc(), disk, Kind::Twin, Version::One);
    same(&rt, "a small disk", &answer, &Err(StoreFault::TooSmall));
    same(&rt, "a small disk", &disk.size(), &167);
    Ok(())
}

/// What is answered over a disk that stops at this call, and after a cut.
fn stopped(alloc: Global, call: u64) -> Result<[Result<[u8; 32], StoreFault>; 2], Fail> {
    if call == 0 {
        return Err(Fail::from("no call"));
    }
    let mut disk = MemDisk::new(alloc, 168)?;
    disk.stop_at(call);
    let (answer, mut disk) = opened(alloc, disk, Kind::Twin, Version::One);
    disk.power_cut(Torn::Old);
    let (again, _) = opened(alloc, disk, Kind::Twin, Version::One);
    Ok([answer, again])
}

/// A look, seven calls of a format, and three reads.
#[test]
fn opening_over_a_disk_that_stops_is_refused(rt: HostRuntime) -> Result<(), Fail> {
    for call in 1..12u64 {
        let answers = stopped(rt.alloc(), call)?;
        let wanted = [Err(StoreFault::DiskFailed), Ok([0x22; 32])];
        same(&rt, call, &answers, &wanted);
    }
    Ok(())
}

const TEXTS: &[(StoreFault, &str)] = &[
    (StoreFault::DiskFailed, "DiskFailed"),
    (StoreFault::NotFormatted, "NotFormatted"),
    (StoreFault::Damaged(0), "Damaged 0"),
    (StoreFault::Damaged(1023), "Damaged 1023"),
    (StoreFault::TooSmall, "TooSmall"),
];

#[test]
fn faults_are_told_by_name_and_number(rt: HostRuntime) -> Result<(), Fail> {
    for (place, (fault, text)) in TEXTS.iter().enumerate() {
        let told = store_fault_text(rt.alloc(), *fault)?;
        same(&rt, place, &told.as_str(), text);
    }
    Ok(())
}
