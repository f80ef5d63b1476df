//! A disk in memory that tells its past.
ghost use Rattle.std.specs.Prelude.{◌≡◌, ◌+◌, ◌*◌, ◌^◌, ◌≤◌, List, length, map, replicate, slice_range, Some, None, not, is_ok, IfOk, OnOk, OnErr};
ghost use Rattle.std.specs.Option.{option_map};
ghost use Rattle.cut_disk.specs.State.{Entry, past_entry, Cut, Stop, Fail};
ghost use Rattle.cut_disk.specs.Arming.{fails, with_stop, with_fail};
ghost use Rattle.cut_disk.specs.Images.{CutsTo};
ghost use Rattle.cut_disk.specs.Calls.{Call, newest};
ghost use Rattle.cut_disk.specs.Memory.{told_of, called, after_write, after_sync, cut};
ghost use Rattle.cut_disk.specs.MemDisk.{contents};
ghost use Rattle.cut_disk.specs.Tape.{entry_of, with_entry};

use crate::tape::{PastEntry, Tape};
use crate::{CutDisk, Disk, DiskFailed, Mark, MemDisk, Memory, Torn};
use std::alloc::Global;

/// A disk in memory, a [`MemDisk`] in every call, that also tells its past: its first state without a mark, and an
/// entry for each call, with the whole state that the call left. It tells its past while that has no more entries than
/// there is room for, and tells none from the next call on. It takes memory only when it is made.
#[derive(Drop)]
pub struct TapeDisk {
    disk: MemDisk,
    tape: Tape,
    ghost same_size: { tape.size ≡ length (contents disk).bytes },
    ghost newest: { (all : List Entry) → tape.past ≡ Some all
        → Some (told_of (contents disk)) ≡ newest (Some (told_of (contents disk))) all },
}

impl TapeDisk {
    ghost use Rattle.cut_disk.specs.TapeDisk.{tape_contents, fresh_tape};

    /// A disk of so many zero bytes, none of them loose, with room for so many entries.
    pub fn new(alloc: Global, size: usize, entries: u32) -> Result<TapeDisk, Memory>
        requires bytes { 1 ≤ size }
        requires room { 1 ≤ entries }
        requires small { size ≤ 2 ^ 24 }
        requires whole { size * entries ≤ 2 ^ 26 }
        ensures { IfOk result (λ disk. tape_contents disk ≡ fresh_tape entries (replicate size 0)) }
    {
        let disk = MemDisk::new(alloc, size)?;
        let mut tape = Tape::new(alloc, size, entries)?;
        note(&mut tape, &disk, None);
        Ok(TapeDisk { disk, tape })
    }

    /// The past, the oldest entry first, if the disk tells it.
    pub fn past(&self) -> Option<&[PastEntry]>
        ensures { option_map (λ entries. map entry_of entries.now) result ≡ (tape_contents self.now).past }
    {
        self.tape.past()
    }
}

impl Disk for TapeDisk {
    ghost use Rattle.cut_disk.specs.TapeDisk.{tape_contents, tape_disk_of, noted};
    ghost use Rattle.cut_disk.specs.TapeLaws.{tape_is_a_disk};

    ghost state = { λ disk. tape_disk_of (tape_contents disk) };

    fn size(&self) -> u64 {
        self.disk.size()
    }

    fn read(&mut self, at: u64, out: &mut [u8]) -> Result<(), DiskFailed>
        requires inside { at + length out.old ≤ length (tape_contents self.old).disk.bytes }
        ensures call { Call None (tape_disk_of (tape_contents self.old)) (tape_disk_of (tape_contents self.new)) }
        ensures exactly { is_ok result ≡ not (fails (tape_contents self.old).disk.arms) }
        ensures contents { tape_contents self.new
            ≡ noted None (called (tape_contents self.old).disk) (tape_contents self.old) }
        ensures bytes { OnOk result
            (out.new ≡ slice_range (tape_contents self.old).disk.bytes at (at + length out.old)) }
        ensures unread { OnErr result (out.new ≡ out.old) }
    {
        let outcome = self.disk.read(at, out);
        note(&mut self.tape, &self.disk, None);
        outcome
    }

    fn write(&mut self, at: u64, bytes: &[u8]) -> Result<(), DiskFailed>
        requires inside { at + length bytes.now ≤ length (tape_contents self.old).disk.bytes }
        ensures call { Call None (tape_disk_of (tape_contents self.old)) (tape_disk_of (tape_contents self.new)) }
        ensures exactly { is_ok result ≡ not (fails (tape_contents self.old).disk.arms) }
        ensures contents { tape_contents self.new
            ≡ noted None (after_write at bytes.now (called (tape_contents self.old).disk)) (tape_contents self.old) }
    {
        let outcome = self.disk.write(at, bytes);
        note(&mut self.tape, &self.disk, None);
        outcome
    }

    fn sync(&mut self) -> Result<(), DiskFailed>
        ensures call { Call None (tape_disk_of (tape_contents self.old)) (tape_disk_of (tape_contents self.new)) }
        ensures exactly { is_ok result ≡ not (fails (tape_contents self.old).disk.arms) }
        ensures synced { OnOk result
            (tape_contents self.new
            ≡ noted None (after_sync (called (tape_contents self.old).disk)) (tape_contents self.old)) }
        ensures unsynced { OnErr result
            (tape_contents self.new ≡ noted None (called (tape_contents self.old).disk) (tape_contents self.old)) }
    {
        let outcome = self.disk.sync();
        note(&mut self.tape, &self.disk, None);
        outcome
    }

    ghost is_disk = { λ disk. tape_is_a_disk disk };
}

impl CutDisk for TapeDisk {
    ghost use Rattle.cut_disk.specs.TapeDisk.{tape_contents, tape_disk_of, noted};

    fn power_cut(&mut self, torn: Torn)
        ensures call { Call (Some (Cut torn)) (tape_disk_of (tape_contents self.old))
            (tape_disk_of (tape_contents self.new)) }
        ensures contents { tape_contents self.new
            ≡ noted (Some (Cut torn)) (cut torn (tape_contents self.old).disk) (tape_contents self.old) }
        ensures left { CutsTo (tape_disk_of (tape_contents self.old)).told
            (tape_disk_of (tape_contents self.new)).told }
    {
        self.disk.power_cut(torn);
        note(&mut self.tape, &self.disk, Some(Mark::Cut(torn)));
    }

    fn stop_at(&mut self, calls: u64)
        requires first { 1 ≤ calls }
        ensures call { Call (Some (Stop calls)) (tape_disk_of (tape_contents self.old))
            (tape_disk_of (tape_contents self.new)) }
        ensures contents { tape_contents self.new
            ≡ noted (Some (Stop calls))
            (record (tape_contents self.old).disk { arms = with_stop calls (tape_contents self.old).disk.arms })
            (tape_contents self.old) }
    {
        self.disk.stop_at(calls);
        note(&mut self.tape, &self.disk, Some(Mark::Stop(calls)));
    }

    fn fail_at(&mut self, calls: u64)
        requires first { 1 ≤ calls }
        ensures call { Call (Some (Fail calls)) (tape_disk_of (tape_contents self.old))
            (tape_disk_of (tape_contents self.new)) }
        ensures contents { tape_contents self.new
            ≡ noted (Some (Fail calls))
            (record (tape_contents self.old).disk { arms = with_fail calls (tape_contents self.old).disk.arms })
            (tape_contents self.old) }
    {
        self.disk.fail_at(calls);
        note(&mut self.tape, &self.disk, Some(Mark::Fail(calls)));
    }
}

/// Adds the state of the disk to its past, with the mark of the call that left it.
fn note(tape: &mut Tape, disk: &MemDisk, mark: Option<Mark>)
    requires { tape.old.size ≡ length (contents disk.now).bytes }
    ensures { tape.new
        ≡ record tape.old
        { past = with_entry tape.old.room (past_entry (told_of (contents disk.now)) mark) tape.old.past } }
{
    tape.add(disk.bytes(), disk.loose(), mark);
}
