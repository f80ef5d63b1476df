//! A disk over a file, which keeps its bytes from one run of a program to the next.
//!
//! A read, a write or a sync of a [`FileDisk`] makes one call of its [`ByteFile`], over the same range and bytes. It is
//! Ok exactly if that call was; else the count rose by one. An armed call fails without touching the file. A power cut
//! makes one sync. If the file tells its bytes the disk tells them: loose is what was written since the last Ok sync or
//! cut. [`HeldFile`] reads a file's first bytes once, compares each read with them, and makes no further call after one
//! that differs. After a failed write or sync of a [`SystemFile`] each call fails. It and the calls that open it are
//! the trusted edge (docs/architecture.md): no clause says which file it is, what it holds, or that it is synced before
//! it is read. [`open_disk`] opens the one disk of an argument by any [`DiskOpener`], or is out of memory.
//! [`open_standing_disk`] never makes its file. [`DiskPaths`] is a program's opener; that it hands the argument to the
//! system, and makes no file that is to stand there, is tested.
#![tactic(auto)]

mod byte_file;
mod file_disk;
mod held_file;
pub mod laws;
mod opener;
mod system_file;
mod words;
mod writes;

pub use byte_file::{ByteFile, FileFailed};
pub use file_disk::FileDisk;
pub use held_file::{HeldFile, MOST_HELD, room_to_hold};
pub use opener::{DiskOpener, DiskPaths};
pub use system_file::SystemFile;
pub use words::{open_disk, open_disks, open_standing_disk, open_standing_disks};
