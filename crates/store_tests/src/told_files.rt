//! A file that tells its bytes, and the disk over it.
ghost use Rattle.std.specs.Prelude.{◌≡◌, ◌≤◌, length};
ghost use Rattle.cut_disk.specs.MemDisk.{contents};
ghost use Rattle.cell_store.specs.Layout.{layout};
ghost use Rattle.cell_store.specs.Store.{store_size};

use crate::comparing::same;
use cell_store::{Kind, StoreFault, TwinCells, Version, log_size, twin_size};
use cut_disk::{CutDisk, Disk, DiskFailed, MemDisk, Torn};
use file_disk::{ByteFile, FileDisk, FileFailed, MOST_HELD, room_to_hold};
use std::alloc::Global;
use std::test::Fail;

/// A file whose bytes are those of a disk in memory, and which tells them.
#[derive(Drop)]
struct DiskFile {
    disk: MemDisk,
}

impl ByteFile for DiskFile {
    ghost use Rattle.std.specs.Prelude.{true, length, Some, None};
    ghost use Rattle.cut_disk.specs.MemDisk.{contents};

    ghost is_open = { λ _. true };

    ghost calls = { λ _. None };

    ghost told = { λ file. Some (contents file.disk).bytes };

    ghost length_at_first = { λ file. length (contents file.disk).bytes };

    fn size(&self) -> u64 {
        self.disk.size()
    }

    fn read_at(&mut self, at: u64, out: &mut [u8]) -> Result<(), FileFailed> {
        match self.disk.read(at, out) {
            Ok(()) => Ok(()),
            Err(_) => Err(FileFailed),
        }
    }

    fn write_at(&mut self, at: u64, bytes: &[u8]) -> Result<(), FileFailed> {
        match self.disk.write(at, bytes) {
            Ok(()) => Ok(()),
            Err(_) => Err(FileFailed),
        }
    }

    fn sync_all(&mut self) -> Result<(), FileFailed> {
        match self.disk.sync() {
            Ok(()) => Ok(()),
            Err(_) => Err(FileFailed),
        }
    }
}

/// The disk over the file over this disk.
fn twice(disk: MemDisk) -> FileDisk<DiskFile>
    ensures size { (⟦<FileDisk<DiskFile> as Disk>⟧.state result).size ≡ length (contents disk).bytes }
{
    let size = disk.size();
    FileDisk::over(DiskFile { disk }, size)
}

/// Two writes, only the first of them synced, and a cut: whether the second was Ok, and the bytes then.
fn cut_behind_two_writes<D: CutDisk>(
    disk: &mut D,
    torn: Torn,
) -> Result<(bool, [u8; 4]), DiskFailed>
    requires size { (D.state disk.old).size ≡ 4 }
{
    disk.write(1, &[5, 6])?;
    disk.sync()?;
    let outcome = disk.write(2, &[7, 8]);
    disk.power_cut(torn);
    let mut bytes = [9; 4];
    disk.read(0, &mut bytes)?;
    Ok((outcome.is_ok(), bytes))
}

/// Of the disk and of the file the number of the one call that is to fail. A cut takes nothing from a file, also if its
/// sync of the file, the fourth call, fails; and a write that is armed to fail doesn't reach it.
#[test]
fn a_cut_over_a_file_that_tells_leaves_its_bytes(rt: HostRuntime) -> Result<(), Fail> {
    for (disk_fails, file_fails, torn, is_ok, bytes) in [
        (9, 9, Torn::Old, true, [0, 5, 7, 8]),
        (9, 4, Torn::Old, true, [0, 5, 7, 8]),
        (9, 3, Torn::Half, false, [0, 5, 7, 8]),
        (3, 9, Torn::Fill(0xa7), false, [0, 5, 6, 0]),
    ] {
        let mut disk = MemDisk::new(rt.alloc(), 4)?;
        disk.fail_at(file_fails);
        let mut over = twice(disk);
        over.fail_at(disk_fails);
        let left = cut_behind_two_writes(&mut over, torn)?;
        same(&rt, "left", &left, &(is_ok, bytes));
    }
    Ok(())
}

/// A disk with a store of three cells, with another byte here.
fn changed_store(alloc: Global, at: u64, byte: u8) -> Result<MemDisk, Fail> {
    let disk = MemDisk::new(alloc, 240)?;
    let mut disk = match TwinCells::format(disk, &[[0x11; 32]; 3]) {
        Ok(disk) => disk,
        Err(refused) => return Err(Fail::from(refused.fault)),
    };
    if at >= disk.size() {
        return Err(Fail::from("no such place"));
    }
    disk.write(at, &[byte])?;
    Ok(disk)
}

/// How such a store over the file over its disk is refused, if it is.
fn refusal(alloc: Global, at: u64, byte: u8) -> Result<Option<StoreFault>, Fail> {
    let disk = changed_store(alloc, at, byte)?;
    match TwinCells::attach(alloc, twice(disk), 3) {
        Ok(_) => Ok(None),
        Err(refused) => Ok(Some(refused.fault)),
    }
}

/// The byte that is another is of the header, of the mark of the second cell's copy that counts, and of what no cell
/// has.
#[test]
fn a_store_over_a_file_that_tells_is_refused_for_its_bytes(rt: HostRuntime) -> Result<(), Fail> {
    for (at, byte, want) in [
        (0, 0, Some(StoreFault::NotFormatted)),
        (101, 3, Some(StoreFault::Damaged(1))),
        (239, 7, None),
    ] {
        same(&rt, at, &refusal(rt.alloc(), at, byte)?, &want);
    }
    Ok(())
}

/// The size of a store, all of whose bytes are in memory.
fn held_size(kind: Kind, version: Version, cells: u16) -> u64
    requires { cells ≤ 1024 }
    ensures size { result ≡ store_size (layout kind version) cells }
    ensures held { result ≤ MOST_HELD }
{
    let size = match kind {
        Kind::Twin => twin_size(cells),
        Kind::Log => log_size(cells),
    };
    version.base() + size
}

#[test]
fn the_largest_store_is_held_of_its_file(rt: HostRuntime) {
    for (kind, version, size) in [
        (Kind::Twin, Version::One, 69_664),
        (Kind::Log, Version::One, 70_052),
        (Kind::Twin, Version::Two, 102_432),
        (Kind::Log, Version::Two, 102_820),
    ] {
        same(&rt, size, &held_size(kind, version, 1024), &size);
    }
}

/// The bytes of a disk of four over the held bytes of a file, whose calls fail from this one on: after a write that is
/// synced, and a power cut; and how many bytes the disk has.
fn held_bytes(alloc: Global, stops: u64) -> Result<(u64, Result<[u8; 4], DiskFailed>), Fail>
    requires { 1 ≤ stops }
{
    let mut below = MemDisk::new(alloc, 4)?;
    below.stop_at(stops);
    let room = room_to_hold(alloc)?;
    let mut disk = FileDisk::held(DiskFile { disk: below }, room);
    Ok((disk.size(), written_and_read(&mut disk)))
}

/// Two bytes are written and synced, and all are read.
fn written_and_read<D: Disk>(disk: &mut D) -> Result<[u8; 4], DiskFailed> {
    if disk.size() < 4 {
        return Err(DiskFailed);
    }
    disk.write(1, &[5, 6])?;
    disk.sync()?;
    let mut bytes = [9; 4];
    disk.read(0, &mut bytes)?;
    Ok(bytes)
}

/// The first call of the file reads what memory then holds: if it fails there is no file.
#[test]
fn a_held_file_fails_where_the_file_below_does(rt: HostRuntime) -> Result<(), Fail> {
    for (stops, size, bytes) in [
        (1, 65_536, Err(DiskFailed)),
        (2, 4, Err(DiskFailed)),
        (3, 4, Err(DiskFailed)),
        (4, 4, Err(DiskFailed)),
        (5, 4, Ok([0, 5, 6, 0])),
    ] {
        same(&rt, stops, &held_bytes(rt.alloc(), stops)?, &(size, bytes));
    }
    Ok(())
}
