//! The fourteen slots and what each holds.
ghost use Rattle.std.specs.Prelude.{◌≡◌, ◌≢◌, ◌<◌, ℕ, replicate, slice_get, slice_set, Some};
ghost use Rattle.key_slots.specs.declared.memory.Slot.TheVariants.{Empty};
ghost use Rattle.key_slots.specs.Flags.{flags_number, flags_from};
ghost use Rattle.key_slots.specs.Names.{shown_slot};
ghost use Rattle.key_slots.specs.Slots.{IsSlot, IsSlots};

use crate::numbers::{Counter28, SlotId};
use basics::Block;
use std::fmt;
use std::marker::Model;

/// The five flags of a slot, in the order of the SHE specification.
#[derive(Clone, Copy, Debug, PartialEq, Eq)]
pub struct Flags {
    /// WRITE_PROTECTION: the slot takes no update.
    pub write: bool,
    /// BOOT_PROTECTION: the key is there only after a successful secure boot.
    pub boot: bool,
    /// DEBUGGER_PROTECTION: stored, without further effect.
    pub debugger: bool,
    /// KEY_USAGE: the key serves MACs if it is set, and ciphers if it is not.
    pub usage: bool,
    /// WILDCARD: an update with a zero UID is refused.
    pub wildcard: bool,
}

impl Flags {
    /// The flags as a number of five bits, WRITE_PROTECTION the highest.
    pub fn number(self) -> u8
        ensures value { result ≡ flags_number self }
        ensures bound { result < 32 }
    {
        u8::from(self.write) * 16
            + u8::from(self.boot) * 8
            + u8::from(self.debugger) * 4
            + u8::from(self.usage) * 2
            + u8::from(self.wildcard)
    }

    /// The flags of a number of five bits, WRITE_PROTECTION the highest.
    pub fn of(number: u8) -> Flags
        requires { number < 32 }
        ensures value { result ≡ flags_from number }
        ensures number { flags_number result ≡ number }
    {
        Flags {
            write: number / 16 == 1,
            boot: number / 8 % 2 == 1,
            debugger: number / 4 % 2 == 1,
            usage: number / 2 % 2 == 1,
            wildcard: number % 2 == 1,
        }
    }
}

/// What a slot holds.
#[derive(Clone, Copy, PartialEq, Eq)]
pub enum Slot {
    /// No key; its counter counts as 0 and its flags as all clear.
    Empty,
    /// A key, with the counter and the flags of the update that put it there.
    Filled {
        /// The key, 16 bytes.
        key: Block,
        /// The counter of the last update.
        counter: Counter28,
        /// The flags of the last update.
        flags: Flags,
    },
}

// Counter and flags of a filled slot, and no key.
impl fmt::Debug for Slot {
    ghost debug_output = { λ s. Some (shown_slot s) };

    fn fmt<W: fmt::Write>(&self, f: &mut fmt::Formatter<W>) -> fmt::Result {
        match self {
            Slot::Empty => f.write_str("Empty"),
            Slot::Filled { counter, flags, .. } => write!(
                f,
                "Filled {{ counter: {}, flags: {}, .. }}",
                counter.number(),
                flags.number()
            ),
        }
    }
}

/// The key memory: slots 0 to 13. Contracts see it as the list of its fourteen slots.
#[derive(Clone, Copy, Debug, PartialEq, Eq)]
pub struct Slots {
    slots: [Slot; 14],
}

impl Model for Slots {
    ghost use Rattle.std.specs.Prelude.{List};
    ghost use Rattle.key_slots.specs.declared.memory.Slot.{Slot};
    ghost use Rattle.key_slots.specs.Slots.{IsSlots};

    ghost Value = { List Slot };

    ghost view = { λ s. s.slots };

    ghost invariant = { λ s. IsSlots s.slots };

    ghost inverse = { λ l. record { slots = l } };
}

impl Slots {
    /// Fourteen empty slots.
    pub fn empty() -> Slots
        ensures value { result ≡ replicate 14 Empty }
        ensures whole { IsSlots result }
    {
        Slots {
            slots: [Slot::Empty; 14],
        }
    }

    /// The slot of this number.
    pub fn get(&self, id: SlotId) -> &Slot
        ensures value { slice_get self.now id ≡ Some result.now }
        ensures is_slot { IsSlot result.now }
        ensures whole { IsSlots self.now }
    {
        &self.slots[usize::from(id.number())]
    }

    /// Puts `slot` at this number.
    pub fn set(&mut self, id: SlotId, slot: Slot)
        ensures value { self.new ≡ slice_set self.old id slot }
        ensures here { slice_get self.new id ≡ Some slot }
        ensures others { (k : ℕ) → k ≢ id → slice_get self.new k ≡ slice_get self.old k }
        ensures whole { IsSlots self.new }
    {
        self.slots[usize::from(id.number())] = slot;
    }
}
