//! What the messages of a key update carry, and the messages themselves.
ghost use Rattle.std.specs.Prelude.{◌≡◌, ◌↔◌, IsTrue, replicate, Some};
ghost use Rattle.memory_update.specs.Identifier.{IsUid};
ghost use Rattle.memory_update.specs.Shown.{shown_update};

use basics::Block;
use key_slots::{Counter28, Flags, SlotId};
use std::fmt;
use std::marker::Model;

/// The unique identifier of an engine, 15 bytes. Contracts see it as the list of its bytes.
#[derive(Clone, Copy, Debug, PartialEq, Eq)]
pub struct Uid([u8; 15]);

impl Model for Uid {
    ghost use Rattle.std.specs.Prelude.{List, ℕ};
    ghost use Rattle.memory_update.specs.Identifier.{IsUid};

    ghost Value = { List ℕ };

    ghost view = { λ u. u.0 };

    ghost invariant = { λ u. IsUid u.0 };

    ghost inverse = { λ l. record { 0 = l } };
}

impl Uid {
    /// The identifier with these bytes.
    pub fn of(bytes: [u8; 15]) -> Uid
        ensures value { result ≡ bytes }
        ensures is_uid { IsUid result }
    {
        Uid(bytes)
    }

    /// Its 15 bytes.
    pub fn bytes(&self) -> &[u8; 15]
        ensures value { result.now ≡ self.now }
        ensures is_uid { IsUid self.now }
    {
        &self.0
    }

    /// Its 15 bytes as a slice.
    pub fn as_slice(&self) -> &[u8]
        ensures value { result.now ≡ self.now }
        ensures is_uid { IsUid self.now }
    {
        &self.0
    }

    /// Whether all its bytes are zero: a request with this identifier is meant for every engine.
    pub fn is_zero(&self) -> bool
        ensures zero { IsTrue result ↔ (self.now ≡ replicate 15 0) }
        ensures is_uid { IsUid self.now }
    {
        self.0 == [0; 15]
    }
}

/// A key update: what is to be put into slot `id`, authorised by the key of slot `auth`.
#[derive(Clone, Copy, PartialEq, Eq)]
pub struct Update {
    /// The identifier of the engine that the update is for, or zero.
    pub uid: Uid,
    /// The slot that is updated.
    pub id: SlotId,
    /// The slot whose key authorises the update.
    pub auth: SlotId,
    /// The new counter.
    pub counter: Counter28,
    /// The new flags.
    pub flags: Flags,
    /// The new key.
    pub key: Block,
}

// The slots, the counter and the flags, and no key.
impl fmt::Debug for Update {
    ghost debug_output = { λ u. Some (shown_update u) };

    fn fmt<W: fmt::Write>(&self, f: &mut fmt::Formatter<W>) -> fmt::Result {
        write!(
            f,
            "Update {{ id: {}, auth: {}, counter: {}, flags: {}, .. }}",
            self.id.number(),
            self.auth.number(),
            self.counter.number(),
            self.flags.number()
        )
    }
}

/// The messages M1, M2 and M3, of 16, 32 and 16 bytes.
#[derive(Clone, Copy, Debug, PartialEq, Eq)]
pub struct Request {
    /// UID (120 bits), ID (4) and AuthID (4), in the clear.
    pub m1: Block,
    /// Counter (28 bits), flags (5), padding (95) and new key (128), encrypted.
    pub m2: [Block; 2],
    /// The MAC of M1 and M2.
    pub m3: Block,
}

/// The messages M4 and M5, of 32 and 16 bytes.
#[derive(Clone, Copy, Debug, PartialEq, Eq)]
pub struct Reply {
    /// The engine's UID (120 bits), ID (4) and AuthID (4), then the counter (28), a 1 and 99 zero
    /// bits, encrypted.
    pub m4: [Block; 2],
    /// The MAC of M4.
    pub m5: Block,
}

/// What M1 says in the clear.
#[derive(Clone, Copy, Debug, PartialEq, Eq)]
pub struct Head {
    /// The identifier of the engine that the request is for, or zero.
    pub uid: Uid,
    /// The slot that is to be updated.
    pub id: SlotId,
    /// The slot whose key authorises the update.
    pub auth: SlotId,
}

/// Why a request carries no update under an authorising key.
#[derive(Clone, Copy, Debug, PartialEq, Eq)]
pub enum Unseal {
    /// ID or AuthID is no number of a slot.
    BadId,
    /// M3 is not the MAC of M1 and M2 under the authorising key.
    BadMac,
}
