//! What stands on a disk.
ghost use Rattle.std.specs.Prelude.{◌≡◌, ◌↔◌, ◌≤◌, ℕ, List, length, replicate, Some, IsTrue, IfOk, IfErr, OnOk};
ghost use Rattle.cut_disk.specs.State.{Told};
ghost use Rattle.cut_disk.specs.Calls.{AsBefore};
ghost use Rattle.store_growing.specs.StoreHeaders.{HeaderStands};
ghost use Rattle.disk_looks.specs.Looks.{AllZeros, LooksAs, FailsLook};

use cell_store::{Kind, Version};
use cut_disk::{Disk, DiskFailed};
use std::alloc::Global;
use store_growing::{StoreHeader, header_on};

/// What stands on a disk, for a start that wants a store of a kind, a version and a number of cells.
#[derive(Clone, Copy, Debug, PartialEq, Eq, Drop)]
pub enum Seen {
    /// All bytes are zeros: nothing was ever written.
    Unused,
    /// The header of this store stands.
    Standing,
    /// Version 2 is wanted, and the header of the same store stands in version 1, beside none of version 2. Such a store
    /// is moved.
    Older,
    /// The header of this other store stands.
    Other(StoreHeader),
    /// No header of a store stands, and a byte isn't zero.
    Neither,
}

/// Why a disk wasn't looked at.
#[derive(Clone, Copy, Debug, PartialEq, Eq, Drop)]
pub enum LookFault {
    /// A call of the disk failed.
    DiskFailed,
    /// There was no memory for the bytes of a disk without a header.
    Memory,
}

/// Looks what stands on a disk of at least 32 bytes, for a start that wants this store. It reads 32 bytes at 0, and 32
/// at 32768 if the disk has them. If no header stands there it reads all bytes, and takes memory for them twice. It
/// writes nothing.
pub fn look_whole<D: Disk>(
    alloc: Global,
    disk: &mut D,
    kind: Kind,
    version: Version,
    cells: u16,
) -> Result<Seen, LookFault>
    requires { 32 ≤ (D.state disk.old).size }
    ensures seen { IfOk result (λ seen. (t : Told) → (D.state disk.old).told ≡ Some t
        → LooksAs kind version cells t.bytes seen) }
    ensures as_before { OnOk result (AsBefore 3 (D.state disk.old) (D.state disk.new)) }
    ensures refused { IfErr result (FailsLook 3 (D.state disk.old) (D.state disk.new)) }
{
    match header_on(disk) {
        Ok(Some(there)) => Ok(seen_by(there, kind, version, cells)),
        Ok(None) => match is_zeroed(alloc, disk) {
            Ok(true) => Ok(Seen::Unused),
            Ok(false) => Ok(Seen::Neither),
            Err(fault) => Err(fault),
        },
        Err(DiskFailed) => Err(LookFault::DiskFailed),
    }
}

/// What the store whose header stands is for a start that wants this one.
fn seen_by(there: StoreHeader, kind: Kind, version: Version, cells: u16) -> Seen
    ensures { (x : List ℕ) → HeaderStands x (Some there) → LooksAs kind version cells x result }
{
    if !are_one_kind(there.layout.kind, kind) {
        return Seen::Other(there);
    }
    if there.cells != cells {
        return Seen::Other(there);
    }
    match (there.layout.version, version) {
        (Version::One, Version::One) | (Version::Two, Version::Two) => Seen::Standing,
        (Version::One, Version::Two) => Seen::Older,
        (Version::Two, Version::One) => Seen::Other(there),
    }
}

/// Whether these are one kind.
fn are_one_kind(one: Kind, other: Kind) -> bool
    ensures { IsTrue result ↔ (one ≡ other) }
{
    one == other
}

/// Whether all bytes of the disk are zeros: they are read.
pub fn is_zeroed<D: Disk>(alloc: Global, disk: &mut D) -> Result<bool, LookFault>
    ensures zeros { IfOk result (λ zeros. (t : Told) → (D.state disk.old).told ≡ Some t
        → (IsTrue zeros ↔ AllZeros t.bytes)) }
    ensures as_before { OnOk result (AsBefore 1 (D.state disk.old) (D.state disk.new)) }
    ensures refused { IfErr result (FailsLook 1 (D.state disk.old) (D.state disk.new)) }
{
    let size = disk.size() as usize;
    let Ok(zeros) = vec![in alloc; 0; size] else {
        return Err(LookFault::Memory);
    };
    let Ok(mut bytes) = vec![in alloc; 0; size] else {
        return Err(LookFault::Memory);
    };
    read_zeros(disk, bytes.as_mut_slice(), zeros.as_slice())
}

/// The same in room for the bytes, beside as many zeros.
fn read_zeros<D: Disk>(disk: &mut D, bytes: &mut [u8], zeros: &[u8]) -> Result<bool, LookFault>
    requires sized { length bytes.old ≡ (D.state disk.old).size }
    requires zeros { zeros.now ≡ replicate (D.state disk.old).size 0 }
    ensures zeros { IfOk result (λ zeros. (t : Told) → (D.state disk.old).told ≡ Some t
        → (IsTrue zeros ↔ AllZeros t.bytes)) }
    ensures as_before { OnOk result (AsBefore 1 (D.state disk.old) (D.state disk.new)) }
    ensures refused { IfErr result (FailsLook 1 (D.state disk.old) (D.state disk.new)) }
{
    match disk.read(0, bytes) {
        Ok(()) => Ok(bytes[..] == zeros[..]),
        Err(DiskFailed) => Err(LookFault::DiskFailed),
    }
}
