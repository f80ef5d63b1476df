//! What a disk over a file asks of the file.
ghost use Rattle.std.specs.Prelude.{◌≡◌, ℕ, Bool, false, List, length, Option, IsErr, is_ok, is_some, OnOk, OnErr};
ghost use Rattle.file_disk.specs.FileBytes.{IsInside, GivesBytes, PutsBytes, PutsAny};
ghost use Rattle.file_disk.specs.FileCalls.{FileCall, ReadAt, WriteAt, SyncAll, Notes};

/// A call of a file failed.
#[derive(Clone, Copy, Debug, PartialEq, Eq, Drop)]
pub struct FileFailed;

/// A file of bytes at offsets from 0. It may tell which calls were made of it, and what its bytes are. One that tells
/// its bytes reads as it was written.
pub trait ByteFile {
    /// Whether there is a file at all. If there is none each call fails.
    ghost is_open: { Self → Bool };

    /// The calls so far, the oldest first, each with what it read or wrote and whether it was Ok, if the file tells
    /// them.
    ghost calls: { Self → Option (List FileCall) };

    /// Its bytes, as a read gives them, if the file tells them.
    ghost told: { Self → Option (List ℕ) };

    /// Its length in bytes when it was opened.
    ghost length_at_first: { Self → ℕ };

    /// The same.
    fn size(&self) -> u64
        ensures { result ≡ length_at_first self.now };

    /// Fills `out` with the bytes from the offset `at` on. A file that ends before the range does fails.
    fn read_at(&mut self, at: u64, out: &mut [u8]) -> Result<(), FileFailed>
        requires inside { IsInside at (length out.old) (told self.old) }
        ensures open { is_open self.new ≡ is_open self.old }
        ensures closed { is_open self.old ≡ false → IsErr result }
        ensures notes { Notes (ReadAt at out.new (is_ok result)) (calls self.old) (calls self.new) }
        ensures same { told self.new ≡ told self.old }
        ensures bytes { OnOk result (GivesBytes at out.new (told self.old)) };

    /// Writes the bytes from the offset `at` on. A write that fails leaves anything in their place.
    fn write_at(&mut self, at: u64, bytes: &[u8]) -> Result<(), FileFailed>
        requires inside { IsInside at (length bytes.now) (told self.old) }
        ensures open { is_open self.new ≡ is_open self.old }
        ensures closed { is_open self.old ≡ false → IsErr result }
        ensures notes { Notes (WriteAt at bytes.now (is_ok result)) (calls self.old) (calls self.new) }
        ensures tells { is_some (told self.new) ≡ is_some (told self.old) }
        ensures written { OnOk result (PutsBytes at bytes.now (told self.old) (told self.new)) }
        ensures torn { OnErr result (PutsAny at (length bytes.now) (told self.old) (told self.new)) };

    /// Makes all that was written reach the device. No byte changes.
    fn sync_all(&mut self) -> Result<(), FileFailed>
        ensures open { is_open self.new ≡ is_open self.old }
        ensures closed { is_open self.old ≡ false → IsErr result }
        ensures notes { Notes (SyncAll (is_ok result)) (calls self.old) (calls self.new) }
        ensures same { told self.new ≡ told self.old };
}
