//! A file of the system.
ghost use Rattle.std.specs.Prelude.{◌≡◌, true, false, None, not, is_ok, IsErr, IfOk};
ghost use Rattle.file_disk.specs.FileCalls.{ReadAt, WriteAt, SyncAll, Notes};
ghost use Rattle.file_disk.specs.SystemFile.{is_there, length_of, has_failed};

use crate::byte_file::{ByteFile, FileFailed};
use crate::file_disk::FileDisk;
use crate::held_file::{HeldFile, room_to_hold};
use std::alloc::{AllocError, Global};
use std::fs::{File, OpenOptions};
use std::io::ErrorKind;
use std::os::unix::fs::{FileExt, OpenOptionsExt};
use std::path::Path;
use std::{fs, io, process};

/// The bytes of a file that is made, and of a disk over one that can't be opened.
pub const FIRST_SIZE: u64 = 65536;

/// A file of the system, or none, if it could be neither opened nor made. It tells no calls and no bytes (a
/// [`HeldFile`](crate::HeldFile) over it does). Each call of no file fails.
///
/// It is open in one place at a time. It is synced before it is read, and its folder is: what is read then stands on
/// its device, unless a sync of it failed in an earlier process. If the path is a link, the link's folder is synced.
/// Once a write or a sync of it has failed each further call fails: the system may have dropped what it couldn't write,
/// and the next sync would be Ok.
#[derive(Drop)]
pub struct SystemFile {
    file: Option<File>,
    /// The length when it was opened.
    size: u64,
    /// A write or a sync failed.
    failed: bool,
}

/// What is done if no file is at a path.
#[derive(Clone, Copy)]
enum Missing {
    /// It is made.
    IsMade,
    /// It can't be opened.
    Fails,
}

impl From<io::Error> for FileFailed {
    fn from(_: io::Error) -> Self {
        FileFailed
    }
}

impl SystemFile {
    /// Opens the file at this path, or makes it with 65,536 zero bytes if none is there. A file that nobody may write,
    /// or this process may not, is opened for reading alone. A directory, a pipe, a device or a socket is no file, and
    /// neither is one that is locked elsewhere, or whose sync fails.
    pub fn on(rt: &HostRuntime, path: &str) -> SystemFile
        ensures missing { is_there result ≡ false → length_of result ≡ FIRST_SIZE }
        ensures fresh { has_failed result ≡ false }
    {
        SystemFile::of(opened(rt, path, Missing::IsMade))
    }

    /// The same, if one is there: none is made.
    pub fn standing(rt: &HostRuntime, path: &str) -> SystemFile
        ensures missing { is_there result ≡ false → length_of result ≡ FIRST_SIZE }
        ensures fresh { has_failed result ≡ false }
    {
        SystemFile::of(opened(rt, path, Missing::Fails))
    }

    /// The file that was opened, or none.
    fn of(outcome: io::Result<SystemFile>) -> SystemFile
        requires there { IfOk outcome (λ file. is_there file ≡ true) }
        requires fresh { IfOk outcome (λ file. has_failed file ≡ false) }
        ensures missing { is_there result ≡ false → length_of result ≡ FIRST_SIZE }
        ensures fresh { has_failed result ≡ false }
    {
        match outcome {
            Ok(file) => file,
            Err(_) => SystemFile {
                file: None,
                size: FIRST_SIZE,
                failed: false,
            },
        }
    }

    /// The file, if no write and no sync of it has failed.
    fn sound(&self) -> Result<&File, FileFailed>
        ensures missing { is_there self.now ≡ false → IsErr result }
        ensures failed { has_failed self.now ≡ true → IsErr result }
    {
        match &self.file {
            Some(file) if !self.failed => Ok(file),
            _ => Err(FileFailed),
        }
    }

    /// The same, which has not become shorter.
    fn whole(&self) -> Result<&File, FileFailed>
        ensures missing { is_there self.now ≡ false → IsErr result }
        ensures failed { has_failed self.now ≡ true → IsErr result }
    {
        let file = self.sound()?;
        if file.metadata()?.len() < self.size {
            return Err(FileFailed);
        }
        Ok(file)
    }

    fn write_whole(&self, at: u64, bytes: &[u8]) -> Result<(), FileFailed>
        ensures missing { is_there self.now ≡ false → IsErr result }
        ensures failed { has_failed self.now ≡ true → IsErr result }
    {
        Ok(self.whole()?.write_all_at(bytes, at)?)
    }

    fn sync_whole(&self) -> Result<(), FileFailed>
        ensures missing { is_there self.now ≡ false → IsErr result }
        ensures failed { has_failed self.now ≡ true → IsErr result }
    {
        Ok(self.whole()?.sync_all()?)
    }
}

impl ByteFile for SystemFile {
    ghost is_open = { λ file. is_there file };

    ghost calls = { λ _. None };

    ghost told = { λ _. None };

    ghost length_at_first = { λ file. length_of file };

    /// The length of the file in bytes when it was opened, or 65,536 if there is none.
    fn size(&self) -> u64
        ensures { result ≡ length_of self.now }
    {
        self.size
    }

    fn read_at(&mut self, at: u64, out: &mut [u8]) -> Result<(), FileFailed>
        ensures open { is_there self.new ≡ is_there self.old }
        ensures closed { is_there self.old ≡ false → IsErr result }
        ensures notes { Notes (ReadAt at out.new (is_ok result)) None None }
        ensures failed { has_failed self.old ≡ true → IsErr result }
        ensures as_before { has_failed self.new ≡ has_failed self.old }
    {
        Ok(self.sound()?.read_exact_at(out, at)?)
    }

    fn write_at(&mut self, at: u64, bytes: &[u8]) -> Result<(), FileFailed>
        ensures open { is_there self.new ≡ is_there self.old }
        ensures closed { is_there self.old ≡ false → IsErr result }
        ensures notes { Notes (WriteAt at bytes.now (is_ok result)) None None }
        ensures failed { has_failed self.old ≡ true → IsErr result }
        ensures kept { has_failed self.new ≡ not (is_ok result) }
    {
        let outcome = self.write_whole(at, bytes);
        self.failed = outcome.is_err();
        outcome
    }

    fn sync_all(&mut self) -> Result<(), FileFailed>
        ensures open { is_there self.new ≡ is_there self.old }
        ensures closed { is_there self.old ≡ false → IsErr result }
        ensures notes { Notes (SyncAll (is_ok result)) None None }
        ensures failed { has_failed self.old ≡ true → IsErr result }
        ensures kept { has_failed self.new ≡ not (is_ok result) }
    {
        let outcome = self.sync_whole();
        self.failed = outcome.is_err();
        outcome
    }
}

/// Opens the file, or makes it if it is to be made, and syncs it and its folder: what a program that was killed has
/// left is then what a power cut leaves. Descriptors 0 to 2 are taken meanwhile: of a program that was started with a
/// stream closed the file doesn't become that stream.
fn opened(rt: &HostRuntime, path: &str, missing: Missing) -> io::Result<SystemFile>
    ensures there { IfOk result (λ file. is_there file ≡ true) }
    ensures fresh { IfOk result (λ file. has_failed file ≡ false) }
{
    let _input = File::open(rt, "/")?;
    let _output = File::open(rt, "/")?;
    let _error = File::open(rt, "/")?;
    let file = match (there(rt, path), missing) {
        (Err(error), Missing::IsMade) if error.kind() == ErrorKind::NotFound => made(rt, path)?,
        (outcome, _) => locked(outcome?)?,
    };
    file.sync_all()?;
    sync_folder(rt, path)?;
    let size = file.metadata()?.len();
    Ok(SystemFile {
        file: Some(file),
        size,
        failed: false,
    })
}

/// The file, which is locked nowhere else, and is here from now on.
fn locked(file: File) -> io::Result<File> {
    file.try_lock()?;
    Ok(file)
}

/// Makes the entry of this path in its folder reach the device.
fn sync_folder(rt: &HostRuntime, path: &str) -> io::Result<()> {
    let folder = match Path::new(path).parent() {
        Some(folder) if folder.to_string_lossy() != "" => File::open(rt, folder)?,
        _ => File::open(rt, ".")?,
    };
    folder.sync_all()
}

/// Opens a file that is there: for writing too, unless it is write-protected. What is no file isn't opened at all: a
/// pipe would wait for another program.
fn there(rt: &HostRuntime, path: &str) -> io::Result<File> {
    let metadata = fs::metadata(rt, path)?;
    if !metadata.is_file() {
        return Err(ErrorKind::InvalidInput.into());
    }
    if metadata.permissions().readonly() {
        return File::open(rt, path);
    }
    let outcome = OpenOptions::new().read(true).write(true).open(rt, path);
    match outcome {
        Err(error) if is_protection(error.kind()) => File::open(rt, path),
        outcome => outcome,
    }
}

fn is_protection(kind: ErrorKind) -> bool {
    matches!(
        kind,
        ErrorKind::PermissionDenied | ErrorKind::ReadOnlyFilesystem
    )
}

/// Makes a file of zero bytes at this path. It is made under another name, and has this one only once it is whole and
/// on its device: no other start, at the same moment or after a kill, finds a part of it. If another start has made the
/// file meanwhile, that one is opened. If the folder's file system has no second names, it is made in place.
fn made(rt: &HostRuntime, path: &str) -> io::Result<File> {
    let Ok(name) = format!(in rt.alloc(); "{path}.{}", process::id(rt.process())) else {
        return made_in_place(rt, path);
    };
    let Ok(file) = new_file(rt, &name) else {
        return made_in_place(rt, path);
    };
    let outcome = given_name(rt, &file, &name, path);
    fs::remove_file(rt, &name)?;
    match outcome? {
        Ok(()) => Ok(file),
        Err(error) if error.kind() == ErrorKind::AlreadyExists => locked(there(rt, path)?),
        Err(_) => made_in_place(rt, path),
    }
}

/// Fills a new file, and gives it this path as a second name. The inner outcome is the second name's.
fn given_name(rt: &HostRuntime, file: &File, name: &str, path: &str) -> io::Result<io::Result<()>> {
    fill(file)?;
    Ok(fs::hard_link(rt, name, path))
}

/// Makes a file of zero bytes at this path, or leaves none.
fn made_in_place(rt: &HostRuntime, path: &str) -> io::Result<File> {
    let file = new_file(rt, path)?;
    match fill(&file) {
        Ok(()) => Ok(file),
        Err(error) => {
            fs::remove_file(rt, path)?;
            Err(error)
        }
    }
}

/// Makes an empty file. Its owner alone may read it, since keys will stand in it.
fn new_file(rt: &HostRuntime, path: &str) -> io::Result<File> {
    OpenOptions::new()
        .read(true)
        .write(true)
        .create_new(true)
        .mode(0o600)
        .open(rt, path)
}

/// Locks a new file, and makes it zero bytes that stand on its device.
fn fill(file: &File) -> io::Result<()> {
    file.try_lock()?;
    file.set_len(FIRST_SIZE)?;
    file.sync_all()
}

impl FileDisk<HeldFile<SystemFile>> {
    ghost use Rattle.file_disk.specs.FileDisk.{file_contents, IsJustOpened};

    /// A disk over the file at this path, which is made with 65,536 zero bytes if it isn't there. It tells its bytes:
    /// those that the file reads as now, of a longer file the first 131,072, which alone are the disk. They stay in
    /// memory. A file that can't be opened and made, or read, is a disk of 65,536 zero bytes whose reads, writes and
    /// syncs all fail. If there is no memory nothing is opened or made. No clause says which file is opened.
    pub fn on(
        alloc: Global,
        rt: &HostRuntime,
        path: &str,
    ) -> Result<FileDisk<HeldFile<SystemFile>>, AllocError>
        ensures { IfOk result (λ disk. IsJustOpened (file_contents disk)) }
    {
        let room = room_to_hold(alloc)?;
        Ok(FileDisk::held(SystemFile::on(rt, path), room))
    }

    /// The same over a file that is there: none is made. If none is there it is the disk of one that can't be opened.
    pub fn standing(
        alloc: Global,
        rt: &HostRuntime,
        path: &str,
    ) -> Result<FileDisk<HeldFile<SystemFile>>, AllocError>
        ensures { IfOk result (λ disk. IsJustOpened (file_contents disk)) }
    {
        let room = room_to_hold(alloc)?;
        Ok(FileDisk::held(SystemFile::standing(rt, path), room))
    }
}
