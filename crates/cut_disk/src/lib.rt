//! Disks that a power cut may leave half written.
//!
//! A [`Disk`] means its bytes, for each byte whether it is *loose*, its arms, its count of faults, whether it
//! is quiet, and its past. A written byte is loose until a sync. A power cut may leave any *image*: a list of
//! bytes of the disk's size that agrees at every byte that isn't loose. Nothing is assumed of sectors or of
//! the order of writes. docs/definitions.md has this in full, with what each call leaves. What is said of a
//! cut is said of every image, at each exit of each call, failed or not. No failure is hidden, and none is
//! invented. `Runs` says what any stretch of calls adds, `Lasts` and `LastsTorn` what it leaves ([`laws`]).
//! [`MemDisk`] is exact: arms, stops, four kinds of cut. [`TapeDisk`] tells its past, exactly while it has
//! room.
#![tactic(auto)]

ghost use Rattle.std.specs.Prelude.{◌≡◌, ◌+◌, ◌≤◌, false, length, Some, None, IsErr, IsTrue, OnOk, OnErr};
ghost use Rattle.cut_disk.specs.State.{DiskState, Cut, Stop, Fail};
ghost use Rattle.cut_disk.specs.Arming.{fails, after_call, after_cut, with_stop, with_fail};
ghost use Rattle.cut_disk.specs.Images.{ReadsAs, WritesLoose, Tears, Syncs, CutsTo};
ghost use Rattle.cut_disk.specs.Calls.{Rose, Call, IsDisk};

mod arming;
mod lasting;
pub mod laws;
mod mem_disk;
mod tape;
mod tape_disk;

pub use arming::{Arms, count_call};
pub use lasting::{write_and_cut, write_and_sync};
pub use mem_disk::MemDisk;
pub use tape::PastEntry;
pub use tape_disk::TapeDisk;

/// A read, a write or a sync failed.
#[derive(Clone, Copy, Debug, PartialEq, Eq, Drop)]
pub struct DiskFailed;

/// There was no memory for a disk.
#[derive(Clone, Copy, Debug, PartialEq, Eq, Drop)]
pub struct Memory;

/// What a power cut leaves of each loose byte.
#[derive(Clone, Copy, Debug, PartialEq, Eq, Drop)]
pub enum Torn {
    /// The byte as it was read.
    Keep,
    /// The byte of the last sync.
    Old,
    /// The byte as it was read at even addresses of the disk, and that of the last sync at odd ones.
    Half,
    /// This byte.
    Fill(u8),
}

/// A call that is no read, write or sync, with its argument: what marks an entry of a disk's past.
#[derive(Clone, Copy, Debug, PartialEq, Eq, Drop)]
pub enum Mark {
    Cut(Torn),
    Stop(u64),
    Fail(u64),
}

/// A disk of a fixed number of bytes, with addresses from 0. A byte that was written is loose until a sync:
/// a power cut may leave anything in its place.
pub trait Disk {
    /// What the disk means.
    ghost state: { Self → DiskState };

    /// The number of bytes.
    fn size(&self) -> u64
        ensures { result ≡ (state self.now).size };

    /// Fills `out` with the bytes from the address `at` on. No byte and no loose mark changes.
    fn read(&mut self, at: u64, out: &mut [u8]) -> Result<(), DiskFailed>
        requires inside { at + length out.old ≤ (state self.old).size }
        ensures call { Call None (state self.old) (state self.new) }
        ensures count { OnOk result ((state self.new).faults ≡ (state self.old).faults) }
        ensures failed { OnErr result (Rose (state self.old).faults (state self.new).faults) }
        ensures armed { IsTrue (fails (state self.old).arms) → IsErr result }
        ensures arms { (state self.new).arms ≡ after_call (state self.old).arms }
        ensures same { (state self.new).told ≡ (state self.old).told }
        ensures bytes { OnOk result (ReadsAs (state self.old).told at out.new) };

    /// Writes these bytes from the address `at` on. A write that fails leaves anything in their place.
    fn write(&mut self, at: u64, bytes: &[u8]) -> Result<(), DiskFailed>
        requires inside { at + length bytes.now ≤ (state self.old).size }
        ensures call { Call None (state self.old) (state self.new) }
        ensures count { OnOk result ((state self.new).faults ≡ (state self.old).faults) }
        ensures failed { OnErr result (Rose (state self.old).faults (state self.new).faults) }
        ensures armed { IsTrue (fails (state self.old).arms) → IsErr result }
        ensures arms { (state self.new).arms ≡ after_call (state self.old).arms }
        ensures written { OnOk result (WritesLoose at bytes.now (state self.old).told (state self.new).told) }
        ensures torn { OnErr result (Tears at (length bytes.now) (state self.old).told (state self.new).told) };

    /// Makes all that was written outlast a power cut. A sync that fails changes no byte and no loose mark.
    fn sync(&mut self) -> Result<(), DiskFailed>
        ensures call { Call None (state self.old) (state self.new) }
        ensures count { OnOk result ((state self.new).faults ≡ (state self.old).faults) }
        ensures failed { OnErr result (Rose (state self.old).faults (state self.new).faults) }
        ensures armed { IsTrue (fails (state self.old).arms) → IsErr result }
        ensures arms { (state self.new).arms ≡ after_call (state self.old).arms }
        ensures synced { OnOk result (Syncs (state self.old).told (state self.new).told) }
        ensures same { OnErr result ((state self.new).told ≡ (state self.old).told) };

    /// What holds of every disk.
    ghost is_disk: { (disk : Self) → IsDisk (state disk) };
}

/// A disk whose power can be cut, and whose calls can be made to fail. The calls that count are reads,
/// writes and syncs.
pub trait CutDisk: Disk {
    /// Cuts the power. It can't fail. It ends a stop, and what `stop_at` armed, but not what `fail_at` armed.
    fn power_cut(&mut self, torn: Torn)
        ensures call { Call (Some (Cut torn)) (Self.state self.old) (Self.state self.new) }
        ensures count { (Self.state self.new).faults ≡ (Self.state self.old).faults }
        ensures arms { (Self.state self.new).arms ≡ after_cut (Self.state self.old).arms }
        ensures left { CutsTo (Self.state self.old).told (Self.state self.new).told };

    /// From the call of this number on, counted from now, each call fails until the power is cut. It
    /// replaces an earlier arm of this kind, but doesn't end a stop that has begun.
    fn stop_at(&mut self, calls: u64)
        requires first { 1 ≤ calls }
        ensures call { Call (Some (Stop calls)) (Self.state self.old) (Self.state self.new) }
        ensures count { (Self.state self.new).faults ≡ (Self.state self.old).faults }
        ensures arms { (Self.state self.new).arms ≡ with_stop calls (Self.state self.old).arms }
        ensures same { (Self.state self.new).told ≡ (Self.state self.old).told }
        ensures loud { (Self.state self.new).quiet ≡ false };

    /// The call of this number, counted from now, fails. It replaces an earlier arm of this kind.
    fn fail_at(&mut self, calls: u64)
        requires first { 1 ≤ calls }
        ensures call { Call (Some (Fail calls)) (Self.state self.old) (Self.state self.new) }
        ensures count { (Self.state self.new).faults ≡ (Self.state self.old).faults }
        ensures arms { (Self.state self.new).arms ≡ with_fail calls (Self.state self.old).arms }
        ensures same { (Self.state self.new).told ≡ (Self.state self.old).told }
        ensures loud { (Self.state self.new).quiet ≡ false };
}
