//! The disk over a file.
ghost use Rattle.std.specs.Prelude.{◌≡◌, ◌+◌, ◌^◌, ◌<◌, ◌≤◌, length, Some, None, false, not, is_ok, if◌then◌else◌, OnOk, OnErr};
ghost use Rattle.basics.specs.FaultCount.{last_count, counted};
ghost use Rattle.cut_disk.specs.State.{Cut, Stop, Fail};
ghost use Rattle.cut_disk.specs.Arming.{fails, after_cut, with_stop, with_fail};
ghost use Rattle.cut_disk.specs.Images.{ReadsAs, WritesLoose, Tears, Syncs, CutsTo};
ghost use Rattle.cut_disk.specs.Calls.{Call};
ghost use Rattle.file_disk.specs.FileBytes.{TellsSize, loose_since};
ghost use Rattle.file_disk.specs.FileCalls.{ReadAt, WriteAt, SyncAll};

use crate::byte_file::{ByteFile, FileFailed};
use crate::held_file::{HeldFile, MOST_HELD};
use crate::system_file::SystemFile;
use crate::writes::with_write;
use basics::count_fault;
use boxcar::tag::Tag;
use cut_disk::{Arms, CutDisk, Disk, DiskFailed, Torn, count_call};

/// A disk over one file. It tells the bytes that its file tells, if that tells any, and no past. It is never quiet: any
/// call of the file may fail. A byte is loose if it was written since the last Ok sync or power cut. A power cut takes
/// nothing from the file and syncs it, so a later read gives what a cut of the system's own power leaves.
#[derive(Drop)]
pub struct FileDisk<F: ByteFile = HeldFile<SystemFile>> {
    file: F,
    size: u64,
    arms: Arms,
    /// How many calls have failed, or the last value of a `u64`.
    faults: u64,
    /// The writes since the last sync that was Ok, done or not. It has no bytes, and proofs alone read it.
    written: Tag,
    ghost sized: { size < 2 ^ 64 },
    ghost all_counted: { faults ≤ last_count },
    ghost as_told: { TellsSize size (F.told file) },
    ghost marked: { length (loose_since size written.numbers) ≡ size },
}

impl<F: ByteFile> FileDisk<HeldFile<F>> {
    ghost use Rattle.file_disk.specs.FileDisk.{file_contents, IsJustOpened};
    ghost use Rattle.file_disk.specs.HeldFile.{held_contents, HoldsFirst};

    /// A disk over the first bytes of this file, at most 131,072, which are read at once and held in memory. It tells
    /// them. If that read fails it is a disk of 65,536 zero bytes, each of whose reads, writes and syncs fails.
    pub fn held(file: F, room: Vec<u8>) -> FileDisk<HeldFile<F>>
        requires sized { TellsSize (F.length_at_first file) (F.told file) }
        requires room { length room.items ≡ MOST_HELD }
        ensures holds { HoldsFirst (F.length_at_first file) (F.calls file) (F.told file)
            (held_contents result.file) }
        ensures opened { IsJustOpened (file_contents result) }
    {
        let file = HeldFile::over(file, room);
        let size = file.size();
        FileDisk::over(file, size)
    }
}

impl<F: ByteFile> FileDisk<F> {
    ghost use Rattle.file_disk.specs.FileDisk.{file_contents, fresh_file_disk, counted_call};

    /// A disk over the first so many bytes of this file, which are all that it tells, if it tells any.
    pub fn over(file: F, size: u64) -> FileDisk<F>
        requires { TellsSize size (F.told file) }
        ensures contents { file_contents result
            ≡ fresh_file_disk size (F.is_open file) (F.calls file) (F.told file) }
        ensures over { result.file ≡ file }
    {
        FileDisk {
            file,
            size,
            arms: Arms::none(),
            faults: 0,
            written: Tag::empty(),
        }
    }

    /// Counts a call, which fails if it is armed to, and then doesn't touch the file.
    fn count(&mut self) -> Result<(), DiskFailed>
        ensures ok { is_ok result ≡ not (fails (file_contents self.old).arms) }
        ensures contents { file_contents self.new ≡ counted_call (file_contents self.old) }
    {
        count_call(&mut self.arms, &mut self.faults)
    }
}

/// The answer of a call of the disk to what the file answered. A failure is counted.
fn count_outcome(faults: &mut u64, outcome: Result<(), FileFailed>) -> Result<(), DiskFailed>
    ensures ok { is_ok result ≡ is_ok outcome }
    ensures faults { faults.new ≡ (if is_ok outcome then faults.old else counted faults.old) }
{
    if outcome.is_ok() {
        return Ok(());
    }
    count_fault(faults);
    Err(DiskFailed)
}

impl<F: ByteFile> Disk for FileDisk<F> {
    ghost use Rattle.file_disk.specs.FileDisk.{file_contents, file_disk_of, Passes};
    ghost use Rattle.file_disk.specs.FileLaws.{file_is_a_disk};
    ghost use Rattle.std.specs.Prelude.{refl};

    ghost state = { λ disk. file_disk_of (file_contents disk) };

    fn size(&self) -> u64 {
        self.size
    }

    fn read(&mut self, at: u64, out: &mut [u8]) -> Result<(), DiskFailed>
        requires inside { at + length out.old ≤ (file_contents self.old).size }
        ensures call { Call None (file_disk_of (file_contents self.old)) (file_disk_of (file_contents self.new)) }
        ensures passes { Passes (ReadAt at out.new (is_ok result)) (is_ok result) (file_contents self.old)
            (file_contents self.new) }
        ensures same { (file_contents self.new).told ≡ (file_contents self.old).told }
        ensures bytes { OnOk result (ReadsAs (file_contents self.old).told at out.new) }
    {
        self.count()?;
        let outcome = self.file.read_at(at, out);
        count_outcome(&mut self.faults, outcome)
    }

    fn write(&mut self, at: u64, bytes: &[u8]) -> Result<(), DiskFailed>
        requires inside { at + length bytes.now ≤ (file_contents self.old).size }
        ensures call { Call None (file_disk_of (file_contents self.old)) (file_disk_of (file_contents self.new)) }
        ensures passes { Passes (WriteAt at bytes.now (is_ok result)) (is_ok result) (file_contents self.old)
            (file_contents self.new) }
        ensures written { OnOk result
            (WritesLoose at bytes.now (file_contents self.old).told (file_contents self.new).told) }
        ensures torn { OnErr result
            (Tears at (length bytes.now) (file_contents self.old).told (file_contents self.new).told) }
    {
        self.written = with_write(&self.written, at, bytes.len());
        self.count()?;
        let outcome = self.file.write_at(at, bytes);
        count_outcome(&mut self.faults, outcome)
    }

    fn sync(&mut self) -> Result<(), DiskFailed>
        ensures call { Call None (file_disk_of (file_contents self.old)) (file_disk_of (file_contents self.new)) }
        ensures passes { Passes (SyncAll (is_ok result)) (is_ok result) (file_contents self.old)
            (file_contents self.new) }
        ensures synced { OnOk result (Syncs (file_contents self.old).told (file_contents self.new).told) }
        ensures same { OnErr result ((file_contents self.new).told ≡ (file_contents self.old).told) }
    {
        self.count()?;
        let outcome = self.file.sync_all();
        count_outcome(&mut self.faults, outcome)?;
        self.written = Tag::empty();
        Ok(())
    }

    ghost is_disk = { λ disk. file_is_a_disk (file_contents disk) (F.told disk.file)
        (loose_since disk.size disk.written.numbers) refl disk.sized disk.all_counted disk.as_told disk.marked };
}

impl<F: ByteFile> CutDisk for FileDisk<F> {
    ghost use Rattle.file_disk.specs.FileDisk.{file_contents, file_disk_of, LosesPower};

    fn power_cut(&mut self, _torn: Torn)
        ensures call { Call (Some (Cut _torn)) (file_disk_of (file_contents self.old))
            (file_disk_of (file_contents self.new)) }
        ensures contents { LosesPower (file_contents self.old) (file_contents self.new) }
        ensures left { CutsTo (file_contents self.old).told (file_contents self.new).told }

        // No byte of the file changes, and none of them is loose.
        ensures stays { Syncs (file_contents self.old).told (file_contents self.new).told }
    {
        self.arms.cut();
        let _ = self.file.sync_all();
        self.written = Tag::empty();
    }

    fn stop_at(&mut self, calls: u64)
        requires first { 1 ≤ calls }
        ensures call { Call (Some (Stop calls)) (file_disk_of (file_contents self.old))
            (file_disk_of (file_contents self.new)) }
        ensures contents { file_contents self.new
            ≡ record (file_contents self.old) { arms = with_stop calls (file_contents self.old).arms } }
    {
        self.arms.stop_at(calls);
    }

    fn fail_at(&mut self, calls: u64)
        requires first { 1 ≤ calls }
        ensures call { Call (Some (Fail calls)) (file_disk_of (file_contents self.old))
            (file_disk_of (file_contents self.new)) }
        ensures contents { file_contents self.new
            ≡ record (file_contents self.old) { arms = with_fail calls (file_contents self.old).arms } }
    {
        self.arms.fail_at(calls);
    }
}
