//! Blank disks in memory.
ghost use Rattle.std.specs.Prelude.{◌≡◌, ◌≤◌, ◌^◌, [], IsTrue, IfOk, IfErr};
ghost use Rattle.bus_programs.specs.Blank.{AreBlank};

use cut_disk::MemDisk;
use std::alloc::{AllocError, Global};

/// So many blank disks of so many bytes each, at most 2^24.
pub fn blank_disks(alloc: Global, count: usize, size: usize) -> Result<Vec<MemDisk>, AllocError>
    requires { size ≤ 2 ^ 24 }
    ensures { IfOk result (λ disks. AreBlank count size disks.items) }
{
    let mut disks = Vec::new(alloc);
    for index in 0..count {
        match MemDisk::new(alloc, size) {
            Ok(disk) => disks.push(disk)?,
            Err(_) => return Err(AllocError),
        }
    }
    Ok(disks)
}

/// So many blank disks of 65,536 bytes, if they are wanted; otherwise none, without taking memory.
pub fn disks_if(alloc: Global, wanted: bool, count: usize) -> Result<Vec<MemDisk>, AllocError>
    ensures given { IfOk result (λ disks. IsTrue wanted → AreBlank count 65536 disks.items) }
    ensures none { IfOk result (λ disks. ¬ IsTrue wanted → disks.items ≡ []) }
    ensures wanted { IfErr result (λ _. IsTrue wanted) }
{
    if wanted {
        return blank_disks(alloc, count, 65_536);
    }
    Ok(Vec::new(alloc))
}
