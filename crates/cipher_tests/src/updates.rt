//! Fields of a block as a number, and an update as it is shown.
use crate::blocks::block;
use crate::comparing::holds;
use key_slots::{Counter28, Flags, SlotId};
use memory_update::{Uid, Update, place, take};
use std::alloc::Global;

const KEY: u128 = 0x000102030405060708090a0b0c0d0e0f;

const OWN_UID: [u8; 15] = [1, 2, 3, 4, 5, 6, 7, 8, 9, 10, 11, 12, 13, 14, 15];

/// An update that a slot's own key authorises, with a large counter and some flags.
fn own_update() -> Option<Update> {
    Some(Update {
        uid: Uid::of(OWN_UID),
        id: SlotId::new(13)?,
        auth: SlotId::new(13)?,
        counter: Counter28::new(0xabcdef1)?,
        flags: Flags::of(22),
        key: block(KEY),
    })
}

/// 1 in the 28 bits from the top, and 31 in the five after them.
const FIELDS: u128 = 0x0000001f800000000000000000000000;

/// 1 in the 28 bits from the top.
const COUNTER: u128 = 0x00000010000000000000000000000000;

fn are_taken() -> bool {
    take::<28>(FIELDS, 0) == 1 && take::<5>(FIELDS, 28) == 31
}

fn are_placed() -> bool {
    place::<28>(0, 0, 1) == COUNTER && place::<1>(0, 127, 1) == 1
}

#[test]
fn fields_are_counted_from_the_top(rt: HostRuntime) {
    holds(&rt, "taken", are_taken());
    holds(&rt, "placed", are_placed());
}

const SHOWN: &str = "Update { id: 13, auth: 13, counter: 180150001, flags: 22, .. }";

fn is_shown(alloc: Global, update: &Update) -> bool {
    match format!(in alloc; "{update:?}") {
        Ok(shown) => shown.as_str() == SHOWN,
        Err(_) => false,
    }
}

fn is_own_update_shown(alloc: Global) -> bool {
    match own_update() {
        Some(update) => is_shown(alloc, &update),
        None => false,
    }
}

#[test]
fn an_update_is_shown_without_its_key(rt: HostRuntime) {
    holds(&rt, SHOWN, is_own_update_shown(rt.alloc()));
}
