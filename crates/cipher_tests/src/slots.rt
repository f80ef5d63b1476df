//! Numbers of slots and counters, a slot that is emptied, uses of a key, the printed names, and slots as they are
//! shown.
use crate::blocks::block;
use crate::comparing::holds;
use key_slots::{Counter28, Erc, Flags, Purpose, Slot, SlotId, Slots, usable};
use std::alloc::Global;

/// A slot with a key and this number as its flags.
fn filled(flags: u8) -> Option<Slot> {
    Some(Slot::Filled {
        key: block(0x07070707_07070707_07070707_07070707),
        counter: Counter28::new(1)?,
        flags: Flags::of(flags % 32),
    })
}

/// The flag of a key that is protected by a boot.
const BOOT: u8 = 8;

/// A number, and that of the slot, or of the counter.
const SLOTS: &[(u8, Option<u8>)] = &[(13, Some(13)), (14, None), (255, None)];

const COUNTERS: &[(u32, Option<u32>)] = &[(268_435_455, Some(268_435_455)), (268_435_456, None)];

fn slot_number(number: u8) -> Option<u8> {
    Some(SlotId::new(number)?.number())
}

fn counter_number(number: u32) -> Option<u32> {
    Some(Counter28::new(number)?.number())
}

#[test]
fn slots_and_counters_have_their_bounds(rt: HostRuntime) {
    for row in SLOTS {
        holds(&rt, row.0, slot_number(row.0) == row.1);
    }
    for row in COUNTERS {
        holds(&rt, row.0, counter_number(row.0) == row.1);
    }
}

/// Slots with a key in the one of this number, with this number as its flags.
fn slots_with(number: u8, flags: u8) -> Option<Slots> {
    let mut slots = Slots::empty();
    slots.set(SlotId::new(number)?, filled(flags)?);
    Some(slots)
}

/// Whether a slot that had a key holds none once it is emptied.
fn is_emptied(number: u8) -> Option<bool> {
    let mut slots = slots_with(number, 0)?;
    let id = SlotId::new(number)?;
    slots.set(id, Slot::Empty);
    Some(*slots.get(id) == Slot::Empty)
}

#[test]
fn a_slot_is_emptied(rt: HostRuntime) {
    holds(&rt, "slot 2", is_emptied(2) == Some(true));
}

/// Whether a boot was made, a use, and what is answered of a slot whose key is protected by it.
struct Use(bool, Purpose, Result<(), Erc>);

const USES: &[Use] = &[
    Use(false, Purpose::Mac, Err(Erc::KeyInvalid)),
    Use(false, Purpose::Cipher, Err(Erc::KeyNotAvailable)),
    Use(true, Purpose::Cipher, Ok(())),
];

fn is_usable(row: &Use) -> bool {
    match filled(BOOT) {
        Some(slot) => usable(&slot, row.0, row.1) == row.2,
        None => false,
    }
}

#[test]
fn the_first_refusal_is_answered(rt: HostRuntime) {
    for (place, row) in USES.iter().enumerate() {
        holds(&rt, place, is_usable(row));
    }
    let answer = usable(&Slot::Empty, true, Purpose::Mac);
    holds(&rt, "an empty slot", answer == Err(Erc::KeyEmpty));
}

const NAMES: &[(Erc, &str)] = &[
    (Erc::KeyNotAvailable, "KEY_NOT_AVAILABLE"),
    (Erc::KeyInvalid, "KEY_INVALID"),
    (Erc::KeyEmpty, "KEY_EMPTY"),
    (Erc::NoSecureBoot, "NO_SECURE_BOOT"),
    (Erc::KeyWriteProtected, "KEY_WRITE_PROTECTED"),
    (Erc::KeyUpdateError, "KEY_UPDATE_ERROR"),
    (Erc::SequenceError, "SEQUENCE_ERROR"),
];

/// Whether the refusal is named and printed so.
fn is_named(alloc: Global, refusal: Erc, name: &str) -> bool {
    match format!(in alloc; "{refusal}") {
        Ok(printed) => refusal.name() == name && printed.as_str() == name,
        Err(_) => false,
    }
}

#[test]
fn refusals_have_their_printed_names(rt: HostRuntime) {
    for row in NAMES {
        holds(&rt, row.1, is_named(rt.alloc(), row.0, row.1));
    }
}

const SHOWN: &str = "Filled { counter: 1, flags: 8, .. }";

const ALL_SHOWN: &str = "Slots { slots: [Filled { counter: 1, flags: 8, .. }, Empty, ";

/// Whether a slot is shown so.
fn is_shown(alloc: Global, slot: &Slot) -> bool {
    match format!(in alloc; "{slot:?}") {
        Ok(shown) => shown.as_str() == SHOWN,
        Err(_) => false,
    }
}

/// Whether slots are shown so, at their beginning.
fn are_shown(alloc: Global, slots: &Slots) -> bool {
    match format!(in alloc; "{slots:?}") {
        Ok(shown) => shown.as_str().starts_with(ALL_SHOWN),
        Err(_) => false,
    }
}

fn is_filled_shown(alloc: Global) -> bool {
    match filled(BOOT) {
        Some(slot) => is_shown(alloc, &slot),
        None => false,
    }
}

fn are_filled_shown(alloc: Global) -> bool {
    match slots_with(0, BOOT) {
        Some(slots) => are_shown(alloc, &slots),
        None => false,
    }
}

#[test]
fn slots_are_shown_without_their_keys(rt: HostRuntime) {
    holds(&rt, SHOWN, is_filled_shown(rt.alloc()));
    holds(&rt, ALL_SHOWN, are_filled_shown(rt.alloc()));
}
