//! A file with its bytes in memory.
ghost use Rattle.std.specs.Prelude.{◌≡◌, ◌≢◌, ◌+◌, ◌≤◌, min, length, replicate, slice_range, take, true, false, Some, None, is_ok, IsErr, IfOk, OnOk, OnErr};
ghost use Rattle.cut_disk.specs.Images.{splice};
ghost use Rattle.file_disk.specs.FileBytes.{TellsSize, IsInside, GivesBytes, PutsBytes, PutsAny};
ghost use Rattle.file_disk.specs.FileCalls.{ReadAt, WriteAt, SyncAll, Notes};

use crate::byte_file::{ByteFile, FileFailed};
use crate::system_file::{FIRST_SIZE, SystemFile};
use std::alloc::{AllocError, Global};

/// How many bytes are in memory at most, from the first one on. The largest store, a log store of 1,024 cells in
/// version 2, ends after 102,820 bytes; this is the power of two above it.
pub const MOST_HELD: usize = 131_072;

/// A file that tells its bytes: those that it read as when it was opened, and what was written to it since then. They
/// are in memory, and each read of the file below is compared with them. One that gives other bytes fails, and so does
/// each call after it: a file that doesn't read as it was written keeps nothing.
///
/// If there is no file it tells 65,536 zero bytes, and each of its calls fails.
#[derive(Drop)]
pub struct HeldFile<F: ByteFile = SystemFile> {
    file: F,
    bytes: Vec<u8>,
    is_open: bool,
    /// A read gave other bytes than the held ones.
    differs: bool,
    ghost open_below: { is_open ≡ true → F.is_open file ≡ true },
    ghost inside_below: { is_open ≡ true → IsInside 0 (length bytes.items) (F.told file) },
}

/// Room for the bytes of a file.
pub fn room_to_hold(alloc: Global) -> Result<Vec<u8>, AllocError>
    ensures { IfOk result (λ room. length room.items ≡ MOST_HELD) }
{
    vec![in alloc; 0; MOST_HELD]
}

impl<F: ByteFile> HeldFile<F> {
    ghost use Rattle.file_disk.specs.HeldFile.{held_contents, is_asked, HoldsFirst};

    /// Holds the first bytes of this file, at most 131,072. They are read at once; if that fails there is no file.
    pub fn over(file: F, room: Vec<u8>) -> HeldFile<F>
        requires sized { TellsSize (F.length_at_first file) (F.told file) }
        requires room { length room.items ≡ MOST_HELD }
        ensures { HoldsFirst (F.length_at_first file) (F.calls file) (F.told file) (held_contents result) }
    {
        let mut file = file;
        let mut room = room;
        let count = file.size().min(MOST_HELD as u64) as usize;
        let is_open = reads_first(&mut file, &mut room, count);
        let bytes = first_held(room, count, is_open);
        HeldFile {
            file,
            bytes,
            is_open,
            differs: false,
        }
    }

    /// Ok if a call is to be passed on to the file below.
    fn asked(&self) -> Result<(), FileFailed>
        ensures { is_ok result ≡ is_asked (held_contents self.now) }
    {
        if self.is_open && !self.differs {
            Ok(())
        } else {
            Err(FileFailed)
        }
    }
}

/// Reads so many bytes of the file, from the first one on, to the beginning of the room, and says whether that was Ok.
fn reads_first<F: ByteFile>(file: &mut F, room: &mut [u8], count: usize) -> bool
    requires fits { count ≤ length room.old }
    requires inside { IsInside 0 count (F.told file.old) }
    ensures sized { length room.new ≡ length room.old }
    ensures open { result ≡ true → F.is_open file.new ≡ true }
    ensures notes { Notes (ReadAt 0 (take count room.new) result) (F.calls file.old) (F.calls file.new) }
    ensures same { F.told file.new ≡ F.told file.old }
    ensures bytes { result ≡ true → GivesBytes 0 (take count room.new) (F.told file.old) }
{
    file.read_at(0, &mut room[..count]).is_ok()
}

/// So many bytes that were read, or the zero bytes of no file.
fn first_held(read: Vec<u8>, count: usize, is_open: bool) -> Vec<u8>
    requires { length read.items ≡ MOST_HELD }
    ensures opened { is_open ≡ true → result.items ≡ take count read.items }
    ensures none { is_open ≡ false → result.items ≡ replicate 65536 0 }
{
    let mut bytes = read;
    if is_open {
        bytes.truncate(count);
    } else {
        bytes.truncate(FIRST_SIZE as usize);
        bytes.fill(0);
    }
    bytes
}

/// Whether the held bytes from the index `at` on are these.
fn are_held(bytes: &[u8], at: usize, out: &[u8]) -> bool
    requires { at + length out.now ≤ length bytes.now }
    ensures held { result ≡ true → out.now ≡ slice_range bytes.now at (at + length out.now) }
    ensures others { result ≡ false → out.now ≢ slice_range bytes.now at (at + length out.now) }
{
    out == &bytes[at..at + out.len()]
}

/// Holds these instead of as many bytes from the index `at` on.
fn hold(held: &mut [u8], at: usize, bytes: &[u8])
    requires { at + length bytes.now ≤ length held.old }
    ensures { held.new ≡ splice at bytes.now held.old }
{
    held[at..at + bytes.len()].copy_from_slice(bytes);
}

impl<F: ByteFile> ByteFile for HeldFile<F> {
    ghost use Rattle.file_disk.specs.HeldFile.{held_contents, ReadsHeld, WritesHeld, SyncsHeld};

    ghost is_open = { λ file. file.is_open };

    ghost calls = { λ _. None };

    ghost told = { λ file. Some file.bytes.items };

    ghost length_at_first = { λ file. length file.bytes.items };

    fn size(&self) -> u64
        ensures { result ≡ length (held_contents self.now).bytes }
    {
        self.bytes.len() as u64
    }

    fn read_at(&mut self, at: u64, out: &mut [u8]) -> Result<(), FileFailed>
        requires inside { at + length out.old ≤ length (held_contents self.old).bytes }
        ensures open { (held_contents self.new).is_open ≡ (held_contents self.old).is_open }
        ensures closed { (held_contents self.old).is_open ≡ false → IsErr result }
        ensures notes { Notes (ReadAt at out.new (is_ok result)) None None }
        ensures same { Some (held_contents self.new).bytes ≡ Some (held_contents self.old).bytes }
        ensures bytes { OnOk result (GivesBytes at out.new (Some (held_contents self.old).bytes)) }
        ensures passes { ReadsHeld at out.new (is_ok result) (held_contents self.old) (held_contents self.new) }
    {
        self.asked()?;
        self.file.read_at(at, out)?;
        if !are_held(&self.bytes, at as usize, out) {
            self.differs = true;
            return Err(FileFailed);
        }
        Ok(())
    }

    fn write_at(&mut self, at: u64, bytes: &[u8]) -> Result<(), FileFailed>
        requires inside { at + length bytes.now ≤ length (held_contents self.old).bytes }
        ensures open { (held_contents self.new).is_open ≡ (held_contents self.old).is_open }
        ensures closed { (held_contents self.old).is_open ≡ false → IsErr result }
        ensures notes { Notes (WriteAt at bytes.now (is_ok result)) None None }
        ensures written { OnOk result (PutsBytes at bytes.now
            (Some (held_contents self.old).bytes) (Some (held_contents self.new).bytes)) }
        ensures torn { OnErr result (PutsAny at (length bytes.now)
            (Some (held_contents self.old).bytes) (Some (held_contents self.new).bytes)) }
        ensures passes { WritesHeld at bytes.now (is_ok result) (held_contents self.old) (held_contents self.new) }
    {
        self.asked()?;
        self.file.write_at(at, bytes)?;
        hold(&mut self.bytes, at as usize, bytes);
        Ok(())
    }

    fn sync_all(&mut self) -> Result<(), FileFailed>
        ensures open { (held_contents self.new).is_open ≡ (held_contents self.old).is_open }
        ensures closed { (held_contents self.old).is_open ≡ false → IsErr result }
        ensures notes { Notes (SyncAll (is_ok result)) None None }
        ensures same { Some (held_contents self.new).bytes ≡ Some (held_contents self.old).bytes }
        ensures passes { SyncsHeld (is_ok result) (held_contents self.old) (held_contents self.new) }
    {
        self.asked()?;
        self.file.sync_all()
    }
}
