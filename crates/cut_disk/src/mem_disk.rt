//! A disk in memory.
ghost use Rattle.std.specs.Prelude.{◌≡◌, ◌+◌, ◌^◌, ◌<◌, ◌≤◌, max, List, length, replicate, slice_range, false, not, is_ok, IfOk, OnOk, OnErr};
ghost use Rattle.basics.specs.FaultCount.{last_count};
ghost use Rattle.cut_disk.specs.Images.{splice};
ghost use Rattle.cut_disk.specs.Memory.{torn_byte, left_bytes};
ghost use Rattle.cut_disk.specs.Ranges.{IsSameOutside, IsFirmOutside};

use crate::arming::{Arms, count_call};
use crate::{CutDisk, Disk, DiskFailed, Memory, Torn};
use std::alloc::{AllocError, Global};

impl From<AllocError> for Memory {
    fn from(_: AllocError) -> Self {
        Memory
    }
}

/// A disk in memory. It tells its bytes. Its calls fail exactly if a stop or an arm says so, and a write that fails
/// places its bytes all the same.
#[derive(Drop)]
pub struct MemDisk {
    bytes: Vec<u8>,
    /// The bytes of the last sync.
    synced: Vec<u8>,
    /// For each byte whether it was written since then.
    loose: Vec<bool>,
    /// The range of the bytes that were written since then: outside of it none is loose, and each is that of the last
    /// sync.
    from: usize,
    to: usize,
    arms: Arms,
    /// How many calls have failed, or the last value of a `u64`.
    faults: u64,
    ghost as_many_synced: { length synced.items ≡ length bytes.items },
    ghost as_many_loose: { length loose.items ≡ length bytes.items },
    ghost sized: { length bytes.items ≤ 2 ^ 24 },
    ghost in_order: { from ≤ to },
    ghost inside: { to ≤ length bytes.items },
    ghost synced_outside: { IsSameOutside from to bytes.items synced.items },
    ghost firm_outside: { IsFirmOutside from to loose.items },
    ghost counted: { faults ≤ last_count },
}

impl MemDisk {
    ghost use Rattle.cut_disk.specs.Memory.{fresh};
    ghost use Rattle.cut_disk.specs.MemDisk.{contents};

    /// A disk of so many zero bytes, at most 2^24, none of them loose.
    pub fn new(alloc: Global, size: usize) -> Result<MemDisk, Memory>
        requires { size ≤ 2 ^ 24 }
        ensures { IfOk result (λ disk. contents disk ≡ fresh (replicate size 0)) }
    {
        Ok(MemDisk {
            bytes: vec![in alloc; 0; size]?,
            synced: vec![in alloc; 0; size]?,
            loose: vec![in alloc; false; size]?,
            from: 0,
            to: 0,
            arms: Arms::none(),
            faults: 0,
        })
    }

    /// A disk of these bytes, at most 2^24, none of them loose.
    pub fn of(alloc: Global, bytes: &[u8]) -> Result<MemDisk, Memory>
        requires { length bytes.now ≤ 2 ^ 24 }
        ensures { IfOk result (λ disk. contents disk ≡ fresh bytes.now) }
    {
        Ok(MemDisk {
            bytes: bytes.to_vec(alloc)?,
            synced: bytes.to_vec(alloc)?,
            loose: vec![in alloc; false; bytes.len()]?,
            from: 0,
            to: 0,
            arms: Arms::none(),
            faults: 0,
        })
    }

    /// The bytes as a read gives them.
    pub(crate) fn bytes(&self) -> &[u8]
        ensures { result.now ≡ (contents self.now).bytes }
    {
        &self.bytes
    }

    /// For each byte whether it is loose.
    pub(crate) fn loose(&self) -> &[bool]
        ensures { result.now ≡ (contents self.now).loose }
    {
        &self.loose
    }
}

impl Disk for MemDisk {
    ghost use Rattle.std.specs.Prelude.{None};
    ghost use Rattle.cut_disk.specs.Arming.{fails};
    ghost use Rattle.cut_disk.specs.Calls.{Call};
    ghost use Rattle.cut_disk.specs.Memory.{disk_of, called, after_write, after_sync};
    ghost use Rattle.cut_disk.specs.MemoryLaws.{contents_are_a_disk};
    ghost use Rattle.cut_disk.specs.MemDisk.{contents};

    ghost state = { λ disk. disk_of (contents disk) };

    fn size(&self) -> u64 {
        self.bytes.len() as u64
    }

    fn read(&mut self, at: u64, out: &mut [u8]) -> Result<(), DiskFailed>
        requires inside { at + length out.old ≤ length (contents self.old).bytes }
        ensures call { Call None (disk_of (contents self.old)) (disk_of (contents self.new)) }
        ensures exactly { is_ok result ≡ not (fails (contents self.old).arms) }
        ensures contents { contents self.new ≡ called (contents self.old) }
        ensures bytes { OnOk result (out.new ≡ slice_range (contents self.old).bytes at (at + length out.old)) }
        ensures unread { OnErr result (out.new ≡ out.old) }
    {
        count_call(&mut self.arms, &mut self.faults)?;
        let from = at as usize;
        out.copy_from_slice(&self.bytes[from..from + out.len()]);
        Ok(())
    }

    fn write(&mut self, at: u64, bytes: &[u8]) -> Result<(), DiskFailed>
        requires inside { at + length bytes.now ≤ length (contents self.old).bytes }
        ensures call { Call None (disk_of (contents self.old)) (disk_of (contents self.new)) }
        ensures exactly { is_ok result ≡ not (fails (contents self.old).arms) }
        ensures contents { contents self.new ≡ after_write at bytes.now (called (contents self.old)) }
    {
        let outcome = count_call(&mut self.arms, &mut self.faults);
        let at = at as usize;
        place(&mut self.bytes, at, bytes);
        mark(&mut self.loose, at, bytes.len(), true);
        let (from, to) = wider(self.from, self.to, at, at + bytes.len());
        self.from = from;
        self.to = to;
        outcome
    }

    fn sync(&mut self) -> Result<(), DiskFailed>
        ensures call { Call None (disk_of (contents self.old)) (disk_of (contents self.new)) }
        ensures exactly { is_ok result ≡ not (fails (contents self.old).arms) }
        ensures synced { OnOk result (contents self.new ≡ after_sync (called (contents self.old))) }
        ensures unsynced { OnErr result (contents self.new ≡ called (contents self.old)) }
    {
        count_call(&mut self.arms, &mut self.faults)?;
        firm_up(
            &self.bytes,
            &mut self.synced,
            &mut self.loose,
            self.from,
            self.to,
        );
        self.from = 0;
        self.to = 0;
        Ok(())
    }

    ghost is_disk = { λ disk. contents_are_a_disk (contents disk) disk.as_many_loose disk.sized disk.counted };
}

impl CutDisk for MemDisk {
    ghost use Rattle.cut_disk.specs.Arming.{with_stop, with_fail};
    ghost use Rattle.std.specs.Prelude.{Some};
    ghost use Rattle.cut_disk.specs.State.{Cut, Stop, Fail};
    ghost use Rattle.cut_disk.specs.Images.{CutsTo};
    ghost use Rattle.cut_disk.specs.Calls.{Call};
    ghost use Rattle.cut_disk.specs.Memory.{disk_of, cut};
    ghost use Rattle.cut_disk.specs.MemDisk.{contents};

    fn power_cut(&mut self, torn: Torn)
        ensures contents { contents self.new ≡ cut torn (contents self.old) }
        ensures call { Call (Some (Cut torn)) (disk_of (contents self.old)) (disk_of (contents self.new)) }
        ensures left { CutsTo (disk_of (contents self.old)).told (disk_of (contents self.new)).told }
    {
        tear(
            torn,
            &mut self.bytes,
            &self.synced,
            &self.loose,
            self.from,
            self.to,
        );
        firm_up(
            &self.bytes,
            &mut self.synced,
            &mut self.loose,
            self.from,
            self.to,
        );
        self.from = 0;
        self.to = 0;
        self.arms.cut();
    }

    fn stop_at(&mut self, calls: u64)
        requires first { 1 ≤ calls }
        ensures call { Call (Some (Stop calls)) (disk_of (contents self.old)) (disk_of (contents self.new)) }
        ensures contents { contents self.new
            ≡ record (contents self.old) { arms = with_stop calls (contents self.old).arms } }
    {
        self.arms.stop_at(calls);
    }

    fn fail_at(&mut self, calls: u64)
        requires first { 1 ≤ calls }
        ensures call { Call (Some (Fail calls)) (disk_of (contents self.old)) (disk_of (contents self.new)) }
        ensures contents { contents self.new
            ≡ record (contents self.old) { arms = with_fail calls (contents self.old).arms } }
    {
        self.arms.fail_at(calls);
    }
}

/// Copies the bytes into `into` from the index `at` on.
fn place(into: &mut [u8], at: usize, bytes: &[u8])
    requires { at + length bytes.now ≤ length into.old }
    ensures { into.new ≡ splice at bytes.now into.old }
{
    into[at..at + bytes.len()].copy_from_slice(bytes);
}

/// Marks so many bytes as loose or not, from the index `at` on.
fn mark(loose: &mut [bool], at: usize, count: usize, is_loose: bool)
    requires { at + count ≤ length loose.old }
    ensures { loose.new ≡ splice at (replicate count is_loose) loose.old }
{
    loose[at..at + count].fill(is_loose);
}

/// A range that has both this one, unless it is empty, and the one from `at` to `end`.
fn wider(from: usize, to: usize, at: usize, end: usize) -> (usize, usize)
    requires in_order { from ≤ to }
    requires in_order_too { at ≤ end }
    ensures in_order { result.0 ≤ result.1 }
    ensures has_this { from < to → (result.0 ≤ from) × (to ≤ result.1) }
    ensures has_that { (result.0 ≤ at) × (end ≤ result.1) }
    ensures no_more { result.1 ≤ max to end }
{
    if from == to {
        return (at, end);
    }
    (from.min(at), to.max(end))
}

/// Makes the bytes those of the last sync, none of them loose. Only those of the range may not be so already.
fn firm_up(bytes: &[u8], synced: &mut [u8], loose: &mut [bool], from: usize, to: usize)
    requires synced { length synced.old ≡ length bytes.now }
    requires loose { length loose.old ≡ length bytes.now }
    requires in_order { from ≤ to }
    requires inside { to ≤ length bytes.now }
    requires firm { IsFirmOutside from to loose.old }
    requires same { IsSameOutside from to bytes.now synced.old }
    ensures synced { synced.new ≡ bytes.now }
    ensures loose { loose.new ≡ replicate (length loose.old) false }
{
    place(synced, from, &bytes[from..to]);
    mark(loose, from, to - from, false);
}

/// Leaves of each loose byte what a power cut leaves of it. Only those of the range may be loose.
fn tear(torn: Torn, bytes: &mut [u8], synced: &[u8], loose: &[bool], from: usize, to: usize)
    requires synced { length synced.now ≡ length bytes.old }
    requires loose { length loose.now ≡ length bytes.old }
    requires in_order { from ≤ to }
    requires inside { to ≤ length bytes.old }
    requires firm { IsFirmOutside from to loose.now }
    ensures torn { bytes.new ≡ left_bytes torn bytes.old synced.now loose.now }
    ensures outside { IsSameOutside from to bytes.old bytes.new }
{
    for address in from..to {
        if loose[address] {
            bytes[address] = torn_byte(torn, address, bytes[address], synced[address]);
        }
    }
}

fn torn_byte(torn: Torn, address: usize, read: u8, synced: u8) -> u8
    ensures { result ≡ torn_byte torn address read synced }
{
    match torn {
        Torn::Keep => read,
        Torn::Old => synced,
        Torn::Half => { if address % 2 == 0 { read } else { synced } }
        Torn::Fill(byte) => byte,
    }
}
