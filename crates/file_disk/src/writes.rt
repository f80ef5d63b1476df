//! The writes of a disk since its last sync: numbers that proofs alone read.
ghost use Rattle.std.specs.Prelude.{◌≡◌, ◌∷◌};

use boxcar::tag::{Names, Tag};

/// One write more.
#[derive(Drop)]
struct Write<'a> {
    earlier: &'a Tag,
    at: u64,
    count: usize,
}

/// The write's address and its number of bytes stand before the numbers of the earlier ones.
struct Newest;

impl<'a> Names<Write<'a>> for Newest {
    ghost numbers = { λ write. write.at ∷ write.count ∷ write.earlier.now.numbers };
}

/// The earlier writes, and one of so many bytes at this address.
pub(crate) fn with_write(earlier: &Tag, at: u64, count: usize) -> Tag
    ensures { result.numbers ≡ at ∷ count ∷ earlier.now.numbers }
{
    Tag::of::<Write<'_>, Newest>(&Write { earlier, at, count })
}
