//! What a cell of a unit's store holds.
ghost use Rattle.std.specs.Prelude.{◌≡◌, ◌≤◌, ◌++◌, ℕ, OnOk};
ghost use Rattle.freshness_routes.specs.declared.routes.Direction.{Direction};
ghost use Rattle.freshness_store.specs.Bound.{direction_number};
ghost use Rattle.text_lines.specs.Written.{written};
ghost use Rattle.text_lines.specs.Spaced.{spaced};
ghost use Rattle.slot_commands.specs.StoreWords.{slot_words, bound_words, cell_words, flag_names, named_if};
ghost use Rattle.slot_commands.specs.StoreWords.{slot_state_words, direction_word, damaged_place_words};
ghost use Rattle.slot_commands.specs.Cells.{slot_count};
ghost use Rattle.slot_commands.specs.Meanings.{Means, PushesMeaning};

use freshness_store::{Direction, bound_in};
use key_slots::{Flags, Slot};
use slot_disk::slot_in;
use std::alloc::AllocError;
use text_lines::pushing::{end_line, push_hex, push_number, push_word};

/// How many cells are key slots; each further one is a bound's.
pub const SLOT_COUNT: u16 = 14;

/// What a cell holds of what its place may hold.
#[derive(Clone, Copy, PartialEq, Eq, Drop)]
pub enum Meaning {
    /// A key slot.
    Slot(Slot),
    /// How far the freshness of a route may have gone.
    Bound {
        /// The Data ID.
        id: u16,
        /// The direction of the route.
        direction: Direction,
        /// The bound.
        bound: u64,
    },
    /// No slot, at the place of one.
    BadSlot,
    /// No bound, at the place of one.
    BadBound,
}

/// What the cell at this place holds.
pub fn meaning_of(place: u16, cell: &[u8; 32]) -> Meaning
    ensures { Means place cell.now result }
{
    if place < SLOT_COUNT {
        match slot_in(cell) {
            Some(slot) => Meaning::Slot(slot),
            None => Meaning::BadSlot,
        }
    } else {
        bound_of(cell)
    }
}

/// The bound that a cell holds: bytes 1 to 3 name its direction and Data ID.
fn bound_of(cell: &[u8; 32]) -> Meaning
    ensures { (place : ℕ) → slot_count ≤ place → Means place cell.now result }
{
    let [_, number, high, low, ..] = *cell;
    let id = u16::from_be_bytes([high, low]);
    let direction = direction_of(number);
    match bound_in(cell, id, direction) {
        Some(bound) => Meaning::Bound {
            id,
            direction,
            bound,
        },
        None => Meaning::BadBound,
    }
}

/// The direction with this number in a cell, if one has it, and else any.
fn direction_of(number: u8) -> Direction
    ensures { (direction : Direction) → number ≡ direction_number direction → result ≡ direction }
{
    if number == 1 {
        Direction::Sends
    } else {
        Direction::Receives
    }
}

/// Adds the line of the cell at this place: what it holds, and no key.
pub fn push_meaning(text: &mut Vec<u8>, place: u16, meaning: &Meaning) -> Result<(), AllocError>
    ensures { OnOk result (PushesMeaning place meaning.now text.old.items text.new.items) }
{
    match meaning {
        Meaning::Slot(slot) => push_slot(text, place, slot),
        Meaning::Bound {
            id,
            direction,
            bound,
        } => push_bound(text, place, *id, *direction, *bound),
        Meaning::BadSlot => push_bad(text, place, b"BadSlot"),
        Meaning::BadBound => push_bad(text, place, b"BadBound"),
    }
}

/// Adds the line of a cell that has this fault.
pub fn push_bad(text: &mut Vec<u8>, place: u16, fault: &[u8]) -> Result<(), AllocError>
    ensures { OnOk result (text.new.items ≡ text.old.items ++ written (cell_words place fault.now)) }
{
    text.extend_from_slice(b"cell")?;
    push_number(text, u32::from(place))?;
    push_word(text, fault)?;
    end_line(text)
}

/// Adds the line of a damaged place of a log store.
pub fn push_damaged_place(text: &mut Vec<u8>, place: u16) -> Result<(), AllocError>
    ensures { OnOk result (text.new.items ≡ text.old.items ++ written (damaged_place_words place)) }
{
    text.extend_from_slice(b"place")?;
    push_number(text, u32::from(place))?;
    push_word(text, b"Damaged")?;
    end_line(text)
}

fn push_slot(text: &mut Vec<u8>, place: u16, slot: &Slot) -> Result<(), AllocError>
    ensures { OnOk result (text.new.items ≡ text.old.items ++ written (slot_words place slot.now)) }
{
    text.extend_from_slice(b"slot")?;
    push_number(text, u32::from(place))?;
    push_slot_state(text, slot)?;
    end_line(text)
}

/// Adds whether the slot is empty, or its counter and flags.
fn push_slot_state(text: &mut Vec<u8>, slot: &Slot) -> Result<(), AllocError>
    ensures { OnOk result (text.new.items ≡ text.old.items ++ spaced (slot_state_words slot.now)) }
{
    match slot {
        Slot::Empty => push_word(text, b"empty"),
        Slot::Filled { counter, flags, .. } => {
            push_word(text, b"filled")?;
            push_number(text, counter.number())?;
            push_flags(text, *flags)
        }
    }
}

/// Adds the names of the flags that are set.
fn push_flags(text: &mut Vec<u8>, flags: Flags) -> Result<(), AllocError>
    ensures { OnOk result (text.new.items ≡ text.old.items ++ spaced (flag_names flags)) }
{
    push_if(text, flags.write, b"WRITE_PROTECTION")?;
    push_if(text, flags.boot, b"BOOT_PROTECTION")?;
    push_if(text, flags.debugger, b"DEBUGGER_PROTECTION")?;
    push_if(text, flags.usage, b"KEY_USAGE")?;
    push_if(text, flags.wildcard, b"WILDCARD")
}

/// Adds a name if its flag is set.
fn push_if(text: &mut Vec<u8>, set: bool, name: &[u8]) -> Result<(), AllocError>
    ensures { OnOk result (text.new.items ≡ text.old.items ++ spaced (named_if set name.now)) }
{
    if set { push_word(text, name) } else { Ok(()) }
}

fn push_bound(
    text: &mut Vec<u8>,
    place: u16,
    id: u16,
    direction: Direction,
    bound: u64,
) -> Result<(), AllocError>
    ensures { OnOk result (text.new.items ≡ text.old.items ++ written (bound_words place id direction bound)) }
{
    text.extend_from_slice(b"bound")?;
    push_number(text, u32::from(place))?;
    push_hex(text, &id.to_be_bytes())?;
    push_word(text, direction_name(direction))?;
    push_hex(text, &bound.to_be_bytes())?;
    end_line(text)
}

/// The word of a direction.
pub fn direction_name(direction: Direction) -> &'static [u8]
    ensures { result.now ≡ direction_word direction }
{
    match direction {
        Direction::Sends => b"sends",
        Direction::Receives => b"receives",
    }
}
