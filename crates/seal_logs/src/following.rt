//! The copy of a bank, the deeds that follow it, and what they make of its cells.
ghost use Rattle.std.specs.Prelude.{◌≡◌, ◌*◌, ◌+◌, ◌<◌, ◌≤◌, ℕ, List, Option, length, take, true, false, Some, None};
ghost use Rattle.seal_parts.specs.declared.LineBody.TheVariants.{Copies};
ghost use Rattle.seal_logs.specs.Reads.{reads_in, IsCopyRead, ReadsDeed, IsChain, MakesOf, after_body};

use crate::finding::deed_in;
use crate::{LogSizes, PlaceRead};
use seal_parts::{DeedBody, LineBody, LogDeed};

/// The bytes of this cell in a copy of this generation, if a place is read so.
fn copied_in(read: &PlaceRead, generation: u64, cell: usize) -> Option<[u8; 32]>
    ensures some { (payload : List ℕ) → result ≡ Some payload
        → read.now.line ≡ Some (record { generation = generation; body = Copies cell payload }) }
    ensures none { result ≡ None → (payload : List ℕ)
        → read.now.line ≡ Some (record { generation = generation; body = Copies cell payload }) → ⊥ }
{
    match read.line {
        Some(line) => {
            if line.generation != generation {
                return None;
            }
            match line.body {
                LineBody::Copies(other, payload) => {
                    if other as usize == cell {
                        return Some(payload);
                    }
                    None
                }
                LineBody::Does(_) => None,
            }
        }
        None => None,
    }
}

/// Whether a copy of this generation is read in a bank. `cells` has its cells then.
pub fn read_copy(
    reads: &[PlaceRead],
    sizes: LogSizes,
    bank: u8,
    generation: u64,
    cells: &mut [[u8; 32]],
) -> bool
    requires inside { bank < sizes.banks }
    requires fits { length reads.now ≡ sizes.banks * sizes.places }
    requires room { length cells.old ≤ sizes.places }
    ensures copy { result ≡ true → IsCopyRead (reads_in sizes reads.now bank) generation cells.new }
    ensures none { result ≡ false → (now : List (List ℕ)) → length now ≡ length cells.old
        → IsCopyRead (reads_in sizes reads.now bank) generation now → ⊥ }
{
    let start = bank as usize * sizes.places as usize;
    for i in 0..cells.len() {
        match copied_in(&reads[start + i], generation, i) {
            Some(payload) => cells[i] = payload,
            None => return false,
        }
    }
    true
}

/// The deed of this generation of a place, if one is read.
fn deed_of(read: &PlaceRead, generation: u64) -> Option<LogDeed>
    ensures some { (deed : LogDeed) → result ≡ Some deed → ReadsDeed read.now generation deed }
    ensures none { result ≡ None → (deed : LogDeed) → ReadsDeed read.now generation deed → ⊥ }
{
    match deed_in(read) {
        Some((other, deed)) => {
            if other == generation {
                return Some(deed);
            }
            None
        }
        None => None,
    }
}

/// Follows the deeds of a bank from this one back to the copy, and says how many they are. Their places are the first
/// ones of `chain` then, the last deed first. None if one of them isn't read.
pub fn follow(
    reads: &[PlaceRead],
    sizes: LogSizes,
    bank: u8,
    generation: u64,
    last: Option<u32>,
    chain: &mut [u32],
) -> Option<usize>
    requires inside { bank < sizes.banks }
    requires fits { length reads.now ≡ sizes.banks * sizes.places }
    requires room { sizes.places ≤ length chain.old }
    ensures chain { (count : ℕ) → result ≡ Some count
        → IsChain sizes (reads_in sizes reads.now bank) generation sizes.places last (take count chain.new) }
    ensures count { (count : ℕ) → result ≡ Some count → count ≤ length chain.new }
    ensures broken { result ≡ None → (places : List ℕ)
        → IsChain sizes (reads_in sizes reads.now bank) generation sizes.places last places → ⊥ }
{
    let start = bank as usize * sizes.places as usize;
    let mut next = last;
    let mut limit = sizes.places;
    for count in 0..chain.len() {
        match next {
            Some(at) => {
                if at < sizes.cells as u32 || at >= limit {
                    return None;
                }
                match deed_of(&reads[start + at as usize], generation) {
                    Some(deed) => {
                        chain[count] = at;
                        limit = at;
                        next = deed.prev;
                    }
                    None => return None,
                }
            }
            None => return Some(count),
        }
    }
    match next {
        Some(_) => None,
        None => Some(chain.len()),
    }
}

/// Makes of the cells what a deed says.
fn make_deed(cells: &mut [[u8; 32]], deed: &LogDeed)
    ensures { cells.new ≡ after_body deed.now.body cells.old }
{
    match deed.body {
        DeedBody::Puts(cell, payload) => {
            if (cell as usize) < cells.len() {
                cells[cell as usize] = payload;
            }
        }
        DeedBody::Opens => {}
        DeedBody::Moves(_, _) => {}
        DeedBody::IsNew => {}
    }
}

/// Makes of the cells of a copy what the deeds of a chain say, the last of which is its first.
pub fn make_cells(
    reads: &[PlaceRead],
    sizes: LogSizes,
    bank: u8,
    generation: u64,
    chain: &[u32],
    cells: &mut [[u8; 32]],
)
    requires inside { bank < sizes.banks }
    requires fits { length reads.now ≡ sizes.banks * sizes.places }
    requires chain { (last : Option ℕ)
        × IsChain sizes (reads_in sizes reads.now bank) generation sizes.places last chain.now }
    ensures { MakesOf (reads_in sizes reads.now bank) generation chain.now cells.old cells.new }
{
    let start = bank as usize * sizes.places as usize;
    let count = chain.len();
    for i in 0..count {
        let at = chain[count - 1 - i];
        match deed_of(&reads[start + at as usize], generation) {
            Some(deed) => make_deed(cells, &deed),
            None => {}
        }
    }
}
