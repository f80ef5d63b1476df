//! What a worked example runs over.
ghost use Rattle.std.specs.Prelude.{◌≡◌, map, string_bytes, IfOk};
ghost use Rattle.bus_programs.specs.Blank.{AreBlank};

use crate::disks::blank_disks;
use cut_disk::MemDisk;
use std::alloc::{AllocError, Global};

/// The arguments of an example, and so many blank disks of 65,536 bytes.
pub fn example_inputs(
    alloc: Global,
    words: &[&str],
    count: usize,
) -> Result<(Vec<String>, Vec<MemDisk>), AllocError>
    ensures words { IfOk result (λ made. map string_bytes made.0.items ≡ map (λ text. text.now) words.now) }
    ensures disks { IfOk result (λ made. AreBlank count 65536 made.1.items) }
{
    let words = texts_of(alloc, words)?;
    let disks = blank_disks(alloc, count, 65_536)?;
    Ok((words, disks))
}

/// These texts as arguments.
fn texts_of(alloc: Global, texts: &[&str]) -> Result<Vec<String>, AllocError>
    ensures { IfOk result (λ words. map string_bytes words.items ≡ map (λ text. text.now) texts.now) }
{
    let mut words = Vec::new(alloc);
    for text in texts {
        words.push(String::from_str(alloc, text)?)?;
    }
    Ok(words)
}
