//! The disk that a word of a command line names.
ghost use Rattle.std.specs.Prelude.{◌≡◌, ◌≢◌, ◌∷◌, ◌++◌, [], None, map, option_map, IfOk, OnOk, OnErr};
ghost use Rattle.file_disk.specs.NamedDisks.{IsOpenedBy, DisksAreNamed, with_opened};

use crate::opener::DiskOpener;
use std::alloc::{AllocError, Global};

/// The one disk that the word opens, once. Room is asked for before it is opened; if there is none nothing is opened.
pub fn open_disk<P: DiskOpener>(
    alloc: Global,
    opener: &mut P,
    word: &str,
) -> Result<Vec<P::Opened>, AllocError>
    ensures disk { IfOk result (λ disks. IsOpenedBy (P.opens opener.old) word.now (map P.Opened.state disks.items)) }
    ensures noted { OnOk result (P.opened opener.new ≡ P.opened opener.old ++ word.now ∷ []) }
    ensures unopened { OnErr result (P.opened opener.new ≡ P.opened opener.old) }
    ensures made { OnOk result (P.made opener.new ≡ P.made opener.old ++ word.now ∷ []) }
    ensures unmade { OnErr result (P.made opener.new ≡ P.made opener.old) }
{
    let mut disks = Vec::with_capacity(alloc, 1)?;
    let disk = opener.open(alloc, word)?;
    disks.push(disk)?;
    Ok(disks)
}

/// The same over a file that is there: none is made. If none is there each read, write and sync of the disk fails.
pub fn open_standing_disk<P: DiskOpener>(
    alloc: Global,
    opener: &mut P,
    word: &str,
) -> Result<Vec<P::Opened>, AllocError>
    ensures disk { IfOk result (λ disks. IsOpenedBy (P.opens opener.old) word.now (map P.Opened.state disks.items)) }
    ensures noted { OnOk result (P.opened opener.new ≡ P.opened opener.old ++ word.now ∷ []) }
    ensures unopened { OnErr result (P.opened opener.new ≡ P.opened opener.old) }
    ensures unmade { P.made opener.new ≡ P.made opener.old }
{
    let mut disks = Vec::with_capacity(alloc, 1)?;
    let disk = opener.open_standing(alloc, word)?;
    disks.push(disk)?;
    Ok(disks)
}

/// The one disk that a word opens, once; none, without taking memory, if there is no word. Where there is no memory
/// nothing is opened.
pub fn open_disks<P: DiskOpener>(
    alloc: Global,
    opener: &mut P,
    word: Option<&str>,
) -> Result<Vec<P::Opened>, AllocError>
    ensures named { IfOk result (λ disks. DisksAreNamed (P.opens opener.old) (P.opened opener.old) (P.opened opener.new)
        (option_map (λ w. w.now) word.entry) (map P.Opened.state disks.items)) }
    ensures unopened { OnErr result (P.opened opener.new ≡ P.opened opener.old) }
    ensures wanted { OnErr result (option_map (λ w. w.now) word.entry ≢ None) }
    ensures made { OnOk result
        (P.made opener.new ≡ with_opened (option_map (λ w. w.now) word.entry) (P.made opener.old)) }
    ensures unmade { OnErr result (P.made opener.new ≡ P.made opener.old) }
{
    match word {
        Some(word) => open_disk(alloc, opener, word),
        None => Ok(Vec::new(alloc)),
    }
}

/// The same over a file that is there: none is made. If none is there each read, write and sync of the disk fails.
pub fn open_standing_disks<P: DiskOpener>(
    alloc: Global,
    opener: &mut P,
    word: Option<&str>,
) -> Result<Vec<P::Opened>, AllocError>
    ensures named { IfOk result (λ disks. DisksAreNamed (P.opens opener.old) (P.opened opener.old) (P.opened opener.new)
        (option_map (λ w. w.now) word.entry) (map P.Opened.state disks.items)) }
    ensures unopened { OnErr result (P.opened opener.new ≡ P.opened opener.old) }
    ensures wanted { OnErr result (option_map (λ w. w.now) word.entry ≢ None) }
    ensures unmade { P.made opener.new ≡ P.made opener.old }
{
    match word {
        Some(word) => open_standing_disk(alloc, opener, word),
        None => Ok(Vec::new(alloc)),
    }
}
