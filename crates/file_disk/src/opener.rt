//! What opens the disks that words name.
ghost use Rattle.std.specs.Prelude.{◌≡◌, ◌∷◌, ◌++◌, [], List, ℕ, IfOk, OnOk, OnErr};
ghost use Rattle.cut_disk.specs.State.{DiskState};
ghost use Rattle.file_disk.specs.NamedDisks.{TellsFirmBytes};

use crate::{FileDisk, HeldFile, SystemFile};
use cut_disk::CutDisk;
use program_edge::OpenedWords;
use std::alloc::{AllocError, Global};

/// What opens a disk by a word.
pub trait DiskOpener {
    type Opened: CutDisk + Drop;

    /// The arguments that it opened so far, the oldest first.
    ghost opened: { Self → List (List ℕ) };

    /// Those of them whose file it may have made, the oldest first.
    ghost made: { Self → List (List ℕ) };

    /// What is known of a disk that is opened by this word.
    ghost opens: { Self → List ℕ → DiskState → Type 0 };

    /// The disk that the word opens, which tells its bytes. If its file isn't there it is made. If nothing can be
    /// opened it is one each of whose reads, writes and syncs fails. If there is no memory for it nothing is opened.
    fn open(&mut self, alloc: Global, word: &str) -> Result<Self::Opened, AllocError>
        ensures disk { IfOk result (λ disk. opens self.old word.now (Self.Opened.state disk)) }
        ensures tells { IfOk result (λ disk. TellsFirmBytes (Self.Opened.state disk)) }
        ensures noted { OnOk result (opened self.new ≡ opened self.old ++ word.now ∷ []) }
        ensures unopened { OnErr result (opened self.new ≡ opened self.old) }
        ensures made { OnOk result (made self.new ≡ made self.old ++ word.now ∷ []) }
        ensures unmade { OnErr result (made self.new ≡ made self.old) };

    /// The same over a file that is there. None is made: if none is there each read, write and sync fails.
    fn open_standing(&mut self, alloc: Global, word: &str) -> Result<Self::Opened, AllocError>
        ensures disk { IfOk result (λ disk. opens self.old word.now (Self.Opened.state disk)) }
        ensures tells { IfOk result (λ disk. TellsFirmBytes (Self.Opened.state disk)) }
        ensures noted { OnOk result (opened self.new ≡ opened self.old ++ word.now ∷ []) }
        ensures unopened { OnErr result (opened self.new ≡ opened self.old) }
        ensures unmade { made self.new ≡ made self.old };
}

/// Opens the disk over the file whose path the word is, and makes that file if it isn't there and is to be made; `-` is
/// a file of that name, too.
#[derive(Drop)]
pub struct DiskPaths<'a> {
    rt: &'a HostRuntime,
    opened: OpenedWords,
    made: OpenedWords,
}

impl<'a> DiskPaths<'a> {
    /// The files of this runtime; none was opened here.
    pub fn of(rt: &'a HostRuntime) -> DiskPaths<'a>
        ensures opened { result.opened ≡ [] }
        ensures made { result.made ≡ [] }
    {
        DiskPaths {
            rt,
            opened: OpenedWords::none(),
            made: OpenedWords::none(),
        }
    }
}

impl<'a> DiskOpener for DiskPaths<'a> {
    ghost use Rattle.file_disk.specs.NamedDisks.{IsFreshFileDisk};

    type Opened = FileDisk<HeldFile<SystemFile>>;

    ghost opened = { λ paths. paths.opened };

    ghost made = { λ paths. paths.made };

    // Nothing is armed on it, no call of it has failed yet, and it tells the bytes that the file read as: 65,536 zeros
    // if there is none. Which file the path names isn't known.
    ghost opens = { λ _ _ disk. IsFreshFileDisk disk };

    fn open(
        &mut self,
        alloc: Global,
        word: &str,
    ) -> Result<FileDisk<HeldFile<SystemFile>>, AllocError> {
        let disk = FileDisk::on(alloc, self.rt, word)?;
        self.opened = self.opened.and(word);
        self.made = self.made.and(word);
        Ok(disk)
    }

    fn open_standing(
        &mut self,
        alloc: Global,
        word: &str,
    ) -> Result<FileDisk<HeldFile<SystemFile>>, AllocError> {
        let disk = FileDisk::standing(alloc, self.rt, word)?;
        self.opened = self.opened.and(word);
        Ok(disk)
    }
}
