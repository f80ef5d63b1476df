//! The slots of an engine, with the round keys of their keys.
ghost use Rattle.std.specs.Prelude.{◌≡◌, slice_set, MatchOption, None, Some};
ghost use Rattle.key_slots.specs.Slots.{IsSlots, key_of, slot_at};

use key_slots::{Slot, SlotId, Slots};
use she_aes::{Schedule, expand};
use std::marker::Model;

/// The fourteen slots, and with each filled one the round keys of its key. Contracts see it as the list of its slots.
#[derive(Drop)]
pub struct KeyMemory {
    slots: Slots,
    schedules: [Option<Schedule>; 14],
}

impl Model for KeyMemory {
    ghost use Rattle.std.specs.Prelude.{◌≡◌, List, map};
    ghost use Rattle.key_slots.specs.declared.memory.Slot.{Slot};
    ghost use Rattle.key_slots.specs.Slots.{key_of};

    ghost Value = { List Slot };

    ghost view = { λ m. m.slots };

    ghost invariant = { λ m. m.schedules ≡ map key_of m.slots };
}

// The round keys of a slot's key, if it holds one.
fn schedule_of(slot: &Slot) -> Option<Schedule>
    ensures { result ≡ key_of slot.now }
{
    match slot {
        Slot::Empty => None,
        Slot::Filled { key, .. } => Some(expand(key)),
    }
}

impl KeyMemory {
    /// These slots.
    pub fn of(slots: Slots) -> KeyMemory
        requires { IsSlots slots }
        ensures { result ≡ slots }
    {
        let mut schedules = [None; 14];
        for number in 0..14 {
            let slot = slots.get(SlotId::new(number).unwrap());
            schedules[usize::from(number)] = schedule_of(slot);
        }
        KeyMemory { slots, schedules }
    }

    /// The fourteen slots.
    pub fn slots(&self) -> &Slots
        ensures { result.now ≡ self.now }
    {
        &self.slots
    }

    /// The round keys of the slot's key, if it holds one.
    pub fn schedule(&self, id: SlotId) -> Option<&Schedule>
        ensures { MatchOption result (key_of (slot_at self.now id) ≡ None)
            (λ schedule. key_of (slot_at self.now id) ≡ Some schedule.now) }
    {
        self.schedules[usize::from(id.number())].as_ref()
    }

    /// Puts `slot` at this number.
    pub fn set(&mut self, id: SlotId, slot: Slot)
        ensures value { self.new ≡ slice_set self.old id slot }
        ensures whole { IsSlots self.new }
    {
        self.schedules[usize::from(id.number())] = schedule_of(&slot);
        self.slots.set(id, slot);
    }
}
