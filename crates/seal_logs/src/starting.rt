//! What a start makes of what it read.
ghost use Rattle.std.specs.Prelude.{◌≡◌, ◌≢◌, ◌⊎◌, ◌↔◌, ◌*◌, ◌-◌, ◌<◌, ◌≤◌, true, false, length};
ghost use Rattle.seal_parts.specs.declared.DeedBody.TheVariants.{IsNew};
ghost use Rattle.seal_logs.specs.Reads.{reads_in, EndsBefore};
ghost use Rattle.seal_logs.specs.Starts.{IsMove, IsLatestDeed, IsClean, HasHome, LacksHomeLine, IsLogDamaged, StartFinds};
ghost use Rattle.seal_logs.specs.Starts.{home_bank as bank_of_home, home_generation as generation_of_home};

use crate::finding::{FoundDeed, Latest, find_latest, lacks_line, next_free};
use crate::following::{follow, make_cells, read_copy};
use crate::{LogSizes, PlaceRead};
use seal_parts::DeedBody;

/// The store that a start has found.
#[derive(Clone, Copy, Debug, PartialEq, Eq, Drop)]
pub struct FoundStore {
    pub latest: FoundDeed,
    /// How many deeds the latest one's chain lacks of two.
    pub lacking: u32,
    /// The first place of the latest deed's bank from which on none may have been begun.
    pub next: u32,
    /// Whether nothing was begun behind the latest deed, and its last confirm is read: then it isn't programmed again.
    pub is_clean: bool,
    /// The bank that has the cells' copy, and its generation: that of the latest deed, or the one that it moves to.
    pub home: u8,
    pub generation: u64,
    /// The same place of that bank.
    pub home_next: u32,
}

/// What a start makes of what it read.
#[derive(Clone, Copy, Debug, PartialEq, Eq, Drop)]
pub enum StartEnd {
    NoStore,
    /// A line that was done was lost.
    Damaged,
    /// No place is left for the deed that is to be programmed again.
    Exhausted,
    Found(FoundStore),
}

/// The bank that has the copy of the cells, as the latest deed says.
fn home_bank(latest: &FoundDeed) -> u8
    ensures { result ≡ bank_of_home latest.now latest.now.deed.body }
{
    match latest.deed.body {
        DeedBody::Moves(bank, _) => bank,
        DeedBody::IsNew => latest.bank,
        DeedBody::Opens => latest.bank,
        DeedBody::Puts(_, _) => latest.bank,
    }
}

/// The generation of that bank.
fn home_generation(latest: &FoundDeed) -> u64
    ensures { result ≡ generation_of_home latest.now latest.now.deed.body }
{
    match latest.deed.body {
        DeedBody::Moves(_, generation) => generation,
        DeedBody::IsNew => latest.generation,
        DeedBody::Opens => latest.generation,
        DeedBody::Puts(_, _) => latest.generation,
    }
}

/// Whether a deed says that there is no store yet.
fn is_new(body: &DeedBody) -> bool
    ensures is { result ≡ true → body.now ≡ IsNew }
    ensures isnt { result ≡ false → body.now ≢ IsNew }
{
    match body {
        DeedBody::IsNew => true,
        DeedBody::Moves(_, _) => false,
        DeedBody::Opens => false,
        DeedBody::Puts(_, _) => false,
    }
}

/// Whether a deed moves the store to another bank.
pub fn is_move(body: &DeedBody) -> bool
    ensures is { result ≡ true → IsMove body.now }
    ensures isnt { result ≡ false → IsMove body.now → ⊥ }
{
    match body {
        DeedBody::Moves(_, _) => true,
        DeedBody::IsNew => false,
        DeedBody::Opens => false,
        DeedBody::Puts(_, _) => false,
    }
}

/// Whether a copy of the cells is read in the bank that the latest deed says, and no line of that bank was lost.
/// `cells` has the copy then.
fn has_home(reads: &[PlaceRead], sizes: LogSizes, latest: FoundDeed, cells: &mut [[u8; 32]]) -> bool
    requires fits { length reads.now ≡ sizes.banks * sizes.places }
    requires alike { length cells.old ≡ sizes.cells }
    requires room { sizes.cells ≤ sizes.places }
    requires latest { IsLatestDeed sizes (reads_in sizes reads.now) latest }
    requires old { latest.deed.body ≢ IsNew }
    ensures has { result ≡ true → HasHome sizes (reads_in sizes reads.now) latest cells.new }
    ensures lines { result ≡ true → LacksHomeLine sizes (reads_in sizes reads.now) latest → ⊥ }
    ensures lacks { result ≡ false → IsLogDamaged sizes (reads_in sizes reads.now) }
{
    let home = home_bank(&latest);
    let generation = home_generation(&latest);
    if home >= sizes.banks {
        return false;
    }
    if !read_copy(reads, sizes, home, generation, cells) {
        return false;
    }
    !lacks_line(reads, sizes, home, generation)
}

/// Whether nothing was begun behind the latest deed, and its last confirm is read.
fn is_clean(reads: &[PlaceRead], sizes: LogSizes, latest: &FoundDeed, next: u32) -> bool
    requires fits { length reads.now ≡ sizes.banks * sizes.places }
    requires inside { latest.now.bank < sizes.banks }
    requires below { latest.now.place < sizes.places }
    ensures { (result ≡ true) ↔ IsClean (reads_in sizes reads.now) latest.now next }
{
    let at = latest.bank as usize * sizes.places as usize + latest.place as usize;
    let read = &reads[at];
    latest.place + 1 == next && read.is_closed
}

/// Whether a place is left for each deed that a start programs.
fn has_room(sizes: LogSizes, found: &FoundStore) -> bool
    ensures room { result ≡ true → found.now.is_clean ≡ false → found.now.next < sizes.places }
    ensures home { result ≡ true → IsMove found.now.latest.deed.body → found.now.home_next < sizes.places }
    ensures full { result ≡ false → ((found.now.is_clean ≡ false) × (sizes.places ≤ found.now.next))
        ⊎ (IsMove found.now.latest.deed.body × (sizes.places ≤ found.now.home_next)) }
{
    if !found.is_clean && found.next >= sizes.places {
        return false;
    }
    if is_move(&found.latest.deed.body) && found.home_next >= sizes.places {
        return false;
    }
    true
}

/// The store of this latest deed, whose chain has so many deeds.
fn found_of(reads: &[PlaceRead], sizes: LogSizes, latest: FoundDeed, deeds: usize) -> FoundStore
    requires fits { length reads.now ≡ sizes.banks * sizes.places }
    requires room { sizes.cells ≤ sizes.places }
    requires inside { latest.bank < sizes.banks }
    requires below { latest.place < sizes.places }
    requires home { bank_of_home latest latest.deed.body < sizes.banks }
    ensures latest { result.latest ≡ latest }
    ensures lacking { result.lacking ≡ 2 - deeds }
    ensures home { result.home ≡ bank_of_home latest latest.deed.body }
    ensures generation { result.generation ≡ generation_of_home latest latest.deed.body }
    ensures next { EndsBefore sizes (reads_in sizes reads.now latest.bank) latest.generation result.next }
    ensures home_next { EndsBefore sizes (reads_in sizes reads.now (bank_of_home latest latest.deed.body))
        (generation_of_home latest latest.deed.body) result.home_next }
    ensures clean { (result.is_clean ≡ true) ↔ IsClean (reads_in sizes reads.now) latest result.next }
{
    let home = home_bank(&latest);
    let generation = home_generation(&latest);
    let next = next_free(reads, sizes, latest.bank, latest.generation);
    FoundStore {
        latest,
        lacking: 2usize.saturating_sub(deeds) as u32,
        next,
        is_clean: is_clean(reads, sizes, &latest, next),
        home,
        generation,
        home_next: next_free(reads, sizes, home, generation),
    }
}

/// What a start makes of what it read. `cells` are then those of the store that it has found; `chain` has anything.
pub fn find_start(
    reads: &[PlaceRead],
    sizes: LogSizes,
    cells: &mut [[u8; 32]],
    chain: &mut [u32],
) -> StartEnd
    requires fits { length reads.now ≡ sizes.banks * sizes.places }
    requires alike { length cells.old ≡ sizes.cells }
    requires room { sizes.cells ≤ sizes.places }
    requires chain { sizes.places ≤ length chain.old }
    ensures finds { StartFinds sizes (reads_in sizes reads.now) result cells.new }
{
    let latest = match find_latest(reads, sizes) {
        Latest::One(found) => found,
        Latest::NoDeed => return StartEnd::NoStore,
        Latest::Tie(_) => return StartEnd::Damaged,
    };
    let bank = latest.bank;
    let generation = latest.generation;
    if lacks_line(reads, sizes, bank, generation) {
        return StartEnd::Damaged;
    }
    let count = match follow(reads, sizes, bank, generation, Some(latest.place), chain) {
        Some(count) => count,
        None => return StartEnd::Damaged,
    };
    if is_new(&latest.deed.body) {
        return StartEnd::NoStore;
    }
    if !has_home(reads, sizes, latest, cells) {
        return StartEnd::Damaged;
    }
    let found = found_of(reads, sizes, latest, count);
    if !has_room(sizes, &found) {
        return StartEnd::Exhausted;
    }
    if !is_move(&latest.deed.body) {
        make_cells(reads, sizes, bank, generation, &chain[..count], cells);
    }
    StartEnd::Found(found)
}
