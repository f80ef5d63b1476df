//! Laws of disks over files: the contract of each function is the law, and its body is empty.
ghost use Rattle.std.specs.Prelude.{◌≡◌};
ghost use Rattle.file_disk.specs.FileBytes.{loose_since, with_marks};

use crate::byte_file::ByteFile;
use crate::file_disk::FileDisk;
use cut_disk::Disk;

/// A disk over a file tells the bytes that its file tells, and of each whether it was written since the last sync.
pub fn a_disk_tells_what_its_file_tells<F: ByteFile>(_disk: &FileDisk<F>)
    ensures { (⟦<FileDisk<F> as Disk>⟧.state _disk.now).told
        ≡ with_marks (F.told _disk.now.file) (loose_since _disk.now.size _disk.now.written.numbers) }
{}
