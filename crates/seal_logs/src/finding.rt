//! Which deed is the latest, where a bank ends, and whether a line was lost.
ghost use Rattle.std.specs.Prelude.{◌≡◌, ◌*◌, ◌+◌, ◌<◌, ◌≤◌, ◌^◌, ℕ, suc, length, true, false, Some, None};
ghost use Rattle.seal_logs.specs.Reads.{reads_in, EndsBefore, LacksLine, ReadsDeed};
ghost use Rattle.seal_logs.specs.Found.{LatestIs, LatestSeen, later_deed};

use crate::{LogSizes, PlaceRead};
use seal_parts::{LineBody, LogDeed};

/// A deed, and where it stands.
#[derive(Clone, Copy, Debug, PartialEq, Eq, Drop)]
pub struct FoundDeed {
    pub bank: u8,
    pub place: u32,
    pub generation: u64,
    pub deed: LogDeed,
}

/// The latest deed of all that were read.
#[derive(Clone, Copy, Debug, PartialEq, Eq, Drop)]
pub enum Latest {
    NoDeed,
    One(FoundDeed),
    /// Two banks have a deed of this generation, and none has a later one.
    Tie(u64),
}

/// The deed of a place, if one is read.
pub(crate) fn deed_in(read: &PlaceRead) -> Option<(u64, LogDeed)>
    ensures some { (generation : ℕ) (deed : LogDeed) → result ≡ Some (generation, deed)
        → ReadsDeed read.now generation deed }
    ensures none { result ≡ None → (generation : ℕ) (deed : LogDeed) → ReadsDeed read.now generation deed → ⊥ }
{
    match read.line {
        Some(line) => match line.body {
            LineBody::Does(deed) => Some((line.generation, deed)),
            LineBody::Copies(_, _) => None,
        },
        None => None,
    }
}

/// The place is read as a deed of this generation.
fn is_deed_of(read: &PlaceRead, generation: u64) -> bool
    ensures is { result ≡ true → (deed : LogDeed) × ReadsDeed read.now generation deed }
    ensures isnt { result ≡ false → (deed : LogDeed) → ReadsDeed read.now generation deed → ⊥ }
{
    match deed_in(read) {
        Some((other, _)) => other == generation,
        None => false,
    }
}

/// The latest of some deeds, and one more behind those of its bank.
fn later(best: Latest, found: FoundDeed) -> Latest
    ensures { result ≡ later_deed best found }
{
    match best {
        Latest::NoDeed => Latest::One(found),
        Latest::One(old) => {
            if old.generation < found.generation {
                Latest::One(found)
            } else if old.generation != found.generation {
                best
            } else if old.bank == found.bank {
                Latest::One(found)
            } else {
                Latest::Tie(old.generation)
            }
        }
        Latest::Tie(generation) => {
            if generation < found.generation {
                Latest::One(found)
            } else {
                best
            }
        }
    }
}

/// The latest deed of the banks before this one, and of this one.
fn latest_to(reads: &[PlaceRead], sizes: LogSizes, bank: u8, best: Latest) -> Latest
    requires inside { bank < sizes.banks }
    requires fits { length reads.now ≡ sizes.banks * sizes.places }
    ensures { LatestSeen sizes (reads_in sizes reads.now) bank 0 best
        → LatestSeen sizes (reads_in sizes reads.now) (suc bank) 0 result }
{
    let start = bank as usize * sizes.places as usize;
    let mut best = best;
    for place in sizes.cells as u32..sizes.places {
        best = match deed_in(&reads[start + place as usize]) {
            Some((generation, deed)) => later(
                best,
                FoundDeed {
                    bank,
                    place,
                    generation,
                    deed,
                },
            ),
            None => best,
        };
    }
    best
}

/// Finds the latest deed.
pub fn find_latest(reads: &[PlaceRead], sizes: LogSizes) -> Latest
    requires fits { length reads.now ≡ sizes.banks * sizes.places }
    ensures { LatestIs sizes (reads_in sizes reads.now) result }
{
    let mut best = Latest::NoDeed;
    for bank in 0..sizes.banks {
        best = latest_to(reads, sizes, bank, best);
    }
    best
}

/// The first place of a bank from which on no place may have been begun.
pub fn next_free(reads: &[PlaceRead], sizes: LogSizes, bank: u8, generation: u64) -> u32
    requires inside { bank < sizes.banks }
    requires room { sizes.cells ≤ sizes.places }
    requires fits { length reads.now ≡ sizes.banks * sizes.places }
    ensures { EndsBefore sizes (reads_in sizes reads.now bank) generation result }
{
    let start = bank as usize * sizes.places as usize;
    let mut next = sizes.cells as u32;
    for place in sizes.cells as u32..sizes.places {
        let read = &reads[start + place as usize];
        if read.is_begun || is_deed_of(read, generation) {
            next = place + 1;
        }
    }
    next
}

/// Whether a confirm of a bank is read, and no deed of this generation beside it.
pub fn lacks_line(reads: &[PlaceRead], sizes: LogSizes, bank: u8, generation: u64) -> bool
    requires inside { bank < sizes.banks }
    requires fits { length reads.now ≡ sizes.banks * sizes.places }
    ensures lacks { result ≡ true → LacksLine sizes (reads_in sizes reads.now bank) generation }
    ensures has { result ≡ false → LacksLine sizes (reads_in sizes reads.now bank) generation → ⊥ }
{
    let start = bank as usize * sizes.places as usize;
    for place in sizes.cells as u32..sizes.places {
        let read = &reads[start + place as usize];
        if read.is_confirmed && !is_deed_of(read, generation) {
            return true;
        }
    }
    false
}
