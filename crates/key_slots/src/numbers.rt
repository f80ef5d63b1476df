//! The numbers of slots and the counters of updates.
ghost use Rattle.std.specs.Prelude.{◌≡◌, ◌<◌, ◌^◌};
ghost use Rattle.std.specs.Option.{SomeIff};

use std::marker::Model;

/// The number of a key slot, from 0 to 13.
///
/// 0 is SECRET_KEY, 1 MASTER_ECU_KEY, 2 BOOT_MAC_KEY, 3 BOOT_MAC, and 4 to 13 are KEY_1 to KEY_10.
/// Contracts see it as that number.
#[derive(Clone, Copy, Debug, PartialEq, Eq)]
pub struct SlotId {
    number: u8,
}

impl Model for SlotId {
    ghost use Rattle.std.specs.Prelude.{ℕ, ◌<◌};

    ghost Value = { ℕ };

    ghost view = { λ s. s.number };

    ghost invariant = { λ s. s.number < 14 };

    ghost inverse = { λ n. record { number = n } };
}

impl SlotId {
    /// The slot of this number; `None` from 14 on.
    pub fn new(number: u8) -> Option<SlotId>
        ensures { SomeIff result (number < 14) number }
    {
        if number < 14 {
            Some(SlotId { number })
        } else {
            None
        }
    }

    /// The slot's number.
    pub fn number(self) -> u8
        ensures value { result ≡ self }
        ensures bound { result < 14 }
    {
        self.number
    }
}

/// The counter of a key update, a number of 28 bits. Contracts see it as that number.
#[derive(Clone, Copy, Debug, PartialEq, Eq)]
pub struct Counter28 {
    number: u32,
}

impl Model for Counter28 {
    ghost use Rattle.std.specs.Prelude.{ℕ, ◌<◌, ◌^◌};

    ghost Value = { ℕ };

    ghost view = { λ c. c.number };

    ghost invariant = { λ c. c.number < 2 ^ 28 };

    ghost inverse = { λ n. record { number = n } };
}

impl Counter28 {
    /// The counter of this number; `None` from 2^28 on.
    pub fn new(number: u32) -> Option<Counter28>
        ensures { SomeIff result (number < 2 ^ 28) number }
    {
        if number < 1 << 28 {
            Some(Counter28 { number })
        } else {
            None
        }
    }

    /// The counter's number.
    pub fn number(self) -> u32
        ensures value { result ≡ self }
        ensures bound { result < 2 ^ 28 }
    {
        self.number
    }
}
