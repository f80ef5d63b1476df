//! Bytes that arrive, of any number.

ghost use Rattle.std.specs.Prelude.{◌≡◌, length};
ghost use Rattle.basics.specs.Bytes.{IsBytes};

use basics::{Bytes, Pdu};
use std::alloc::Global;
use std::marker::Model;

/// Bytes of any number. Those that a PDU may have, up to 64, stand in the value itself and take no memory; more than
/// these stand in a vector. A contract sees the list of them.
#[derive(Debug, Drop)]
pub struct ReceivedBytes {
    short: Pdu,
    long: Bytes,
}

impl Model for ReceivedBytes {
    ghost use Rattle.std.specs.Prelude.{◌≡◌, ◌⊎◌, ◌++◌, [], List, ℕ};

    ghost Value = { List ℕ };

    ghost view = { λ r. r.short ++ r.long };

    // One of the two is empty.
    ghost invariant = { λ r. (r.short ≡ []) ⊎ (r.long ≡ []) };
}

impl ReceivedBytes {
    /// The bytes of a PDU: no memory is taken.
    pub fn of_pdu(alloc: Global, pdu: Pdu) -> ReceivedBytes
        ensures { result ≡ pdu }
    {
        ReceivedBytes {
            short: pdu,
            long: Bytes::of(Vec::new(alloc)),
        }
    }

    /// The bytes of the vector, which is taken over: no memory is taken.
    pub fn of(bytes: Bytes) -> ReceivedBytes
        ensures { result ≡ bytes }
    {
        ReceivedBytes {
            short: Pdu::of(&[]).unwrap(),
            long: bytes,
        }
    }

    /// The bytes in their order.
    pub fn bytes(&self) -> &[u8]
        ensures value { result.now ≡ self.now }
        ensures are_bytes { IsBytes (length self.now) self.now }
    {
        let long = self.long.bytes();
        if long.is_empty() {
            self.short.bytes()
        } else {
            long
        }
    }
}
