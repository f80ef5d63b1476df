//! The places of a ledger, in memory and in a store.
ghost use Rattle.std.specs.Prelude.{◌≡◌, ◌<◌, ◌≤◌, ◌+◌, ℕ, length, None, Some, set, is_none, position, IfOk, IfErr, OnOk, OnErr, MatchOption, IsTrue, ◌↔◌, false, take, slice_index_or};
ghost use Rattle.cell_store.specs.Cells.{Puts, FailsPut};
ghost use Rattle.key_campaign.specs.Entries.{place_count, place_for, empty_place, no_entries, entry_at};
ghost use Rattle.key_campaign.specs.Places.{FoundEntry, IsNext, HasNoNext, ReadSoFar};
ghost use Rattle.key_campaign.specs.Adopting.{says_more, TakesAdopted, AnswersUnput};
ghost use Rattle.key_campaign.specs.Cell.{place_cell, HoldEntries, FirstBadEntry};

use crate::cell::{entry_bytes, place_in};
use crate::faults::LedgerFault;
use crate::{Adoption, LedgerEntry};
use cell_store::{Cells, PutFailed};
use key_slots::{Counter28, SlotId};
use memory_update::Uid;
use std::marker::Model;

/// 256 places, each empty or an entry. Contracts see them as their list.
#[derive(Clone, Copy, Drop)]
pub struct Places {
    places: [Option<LedgerEntry>; 256],
}

impl Model for Places {
    ghost use Rattle.std.specs.Prelude.{◌≡◌, List, Option, length};
    ghost use Rattle.key_campaign.specs.declared.entries.LedgerEntry.{LedgerEntry};

    ghost Value = { List (Option LedgerEntry) };

    ghost view = { λ p. p.places };

    ghost invariant = { λ p. length p.places ≡ 256 };

    ghost inverse = { λ l. record { places = l } };
}

// The place at which the entry of this unit and slot stands first, and the entry.
fn find_in(places: &[Option<LedgerEntry>], uid: &Uid, id: SlotId) -> Option<(usize, LedgerEntry)>
    ensures { MatchOption result (place_for uid.now id places.now ≡ length places.now)
        (λ found. FoundEntry uid.now id places.now found.0 found.1) }
{
    for (place, held) in places.iter().enumerate() {
        if let Some(entry) = held {
            if entry.uid == *uid && entry.id == id {
                return Some((place, *entry));
            }
        }
    }
    None
}

// The first empty place.
fn empty_in(places: &[Option<LedgerEntry>]) -> Option<usize>
    ensures { result ≡ position is_none places.now }
{
    places.iter().position(|place| place.is_none())
}

/// Whether an entry says more than the one that is held of its unit and slot: a higher counter, or the same, and it
/// alone is confirmed.
fn says_more(held: &LedgerEntry, entry: &LedgerEntry) -> bool
    ensures { result ≡ says_more (Some held.now) entry.now }
{
    let (last, counter) = (held.counter.number(), entry.counter.number());
    last < counter || (last == counter && (entry.confirmed && !held.confirmed))
}

impl Places {
    /// Each place is empty.
    #[tactic(auto, unfolding(crate::specs::Entries::no_entries, crate::specs::Entries::place_count))]
    pub fn empty() -> Places
        ensures { result ≡ no_entries }
    {
        Places {
            places: [None; 256],
        }
    }

    /// The entry of this unit and slot, and its place, if there is one.
    pub fn find(&self, uid: &Uid, id: SlotId) -> Option<(usize, LedgerEntry)>
        ensures { MatchOption result (place_for uid.now id self.now ≡ length self.now)
            (λ found. FoundEntry uid.now id self.now found.0 found.1) }
    {
        find_in(&self.places, uid, id)
    }

    /// The place and the counter of the next update that is issued for this unit and slot. Errors: `Full`, then
    /// `Spent`.
    pub fn next(&self, uid: &Uid, id: SlotId) -> Result<(u16, Counter28), LedgerFault>
        ensures next { IfOk result (λ next. IsNext uid.now id self.now next.0 next.1) }
        ensures none { IfErr result (HasNoNext uid.now id self.now) }
    {
        let (place, last) = match self.find(uid, id) {
            Some((place, entry)) => (place, entry.counter.number()),
            None => match empty_in(&self.places) {
                Some(place) => (place, 0),
                None => return Err(LedgerFault::Full),
            },
        };
        match Counter28::new(last + 1) {
            Some(counter) => Ok((place as u16, counter)),
            None => Err(LedgerFault::Spent),
        }
    }

    /// The place at which an entry that is known from elsewhere is to be put, if it says more than what is there of its
    /// unit and slot; else the answer of the ledger, which has as much, or more, or no place.
    pub fn place_to_adopt(&self, entry: &LedgerEntry) -> Result<u16, Result<Adoption, LedgerFault>>
        ensures place { IfOk result (TakesAdopted self.now entry.now) }
        ensures answer { IfErr result (AnswersUnput self.now entry.now) }
    {
        match self.find(&entry.uid, entry.id) {
            Some((place, held)) => {
                if says_more(&held, entry) {
                    return Ok(place as u16);
                }
                if held.counter.number() == entry.counter.number() {
                    return Err(Ok(Adoption::Held));
                }
                Err(Ok(Adoption::Behind(held.counter)))
            }
            None => match empty_in(&self.places) {
                Some(place) => Ok(place as u16),
                None => Err(Err(LedgerFault::Full)),
            },
        }
    }

    /// What stands at a place.
    pub fn get(&self, place: usize) -> Option<LedgerEntry>
        requires { place < 256 }
        ensures { result ≡ entry_at self.now place }
    {
        self.places[place]
    }

    /// Whether one of the places before this one has an entry of this unit and slot.
    pub fn repeats(&self, place: usize, uid: &Uid, id: SlotId) -> bool
        requires { place ≤ length self.now }
        ensures { IsTrue result ↔ (place_for uid.now id (take place self.now) < place) }
    {
        find_in(&self.places[..place], uid, id).is_some()
    }

    /// Puts an entry at a place.
    pub fn set(&mut self, place: usize, entry: LedgerEntry)
        requires { place < 256 }
        ensures { self.new ≡ set self.old place (Some entry) }
    {
        self.places[place] = Some(entry);
    }
}

// Reads one more place into places that are empty from there on; whether it has one that may follow those before.
fn read_next<C: Cells>(cells: &C, place: u16, places: &mut Places) -> bool
    requires inside { place < 256 }
    requires count { length (C.state cells.now).cells ≡ place_count }
    requires so_far { ReadSoFar (C.state cells.now).cells place places.old }
    ensures read { IsTrue result → ReadSoFar (C.state cells.now).cells (place + 1) places.new }
    ensures bad { result ≡ false → FirstBadEntry (C.state cells.now).cells place }
{
    let mut cell = [0; 32];
    cells.get(place, &mut cell);
    match place_in(&cell) {
        Some(None) => true,
        Some(Some(entry)) => {
            if places.repeats(usize::from(place), &entry.uid, entry.id) {
                return false;
            }
            places.set(usize::from(place), entry);
            true
        }
        None => false,
    }
}

/// The places that the cells hold; or, exactly if there is a bad cell, the number of the lowest. A bad one is neither
/// empty nor an entry, or repeats the unit and slot of an earlier one.
pub fn read_places<C: Cells>(cells: &C) -> Result<Places, u16>
    requires { length (C.state cells.now).cells ≡ place_count }
    ensures places { IfOk result (HoldEntries (C.state cells.now).cells) }
    ensures count { IfOk result (λ places. length places ≡ place_count) }
    ensures bad { IfErr result (FirstBadEntry (C.state cells.now).cells) }
{
    let mut places = Places::empty();
    for place in 0..256 {
        if !read_next(cells, place, &mut places) {
            return Err(place);
        }
    }
    Ok(places)
}

/// Puts the cell of an entry, with the conditions and answers of a put. If it fails, the cell on the disk is as before
/// or the entry's, whatever a power cut leaves.
pub fn put_entry<C: Cells>(cells: &mut C, place: u16, entry: &LedgerEntry) -> Result<(), PutFailed>
    requires place { place < length (C.state cells.old).cells }
    requires whole { (C.state cells.old).broken ≡ false }
    ensures put { OnOk result (Puts place (place_cell (Some entry.now)) (C.state cells.old) (C.state cells.new)) }
    ensures failed { OnErr result (FailsPut place (place_cell (Some entry.now))
        (C.state cells.old) (C.state cells.new)) }
{
    cells.put(place, &entry_bytes(entry))
}
