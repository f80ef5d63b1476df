// A PDU: at most 64 bytes.

ghost use Rattle.std.specs.Prelude.{◌≡◌, ◌↔◌, ◌<◌, ◌≤◌, ◌⊎◌, ℕ, List, true, false, IsNone, IfSome, length, replicate};
ghost use Rattle.std.specs.Fn.{FnOnceReturnsAtMut};
ghost use Rattle.basics.specs.Bytes.{IsBytes};

use crate::bytes::told;
use std::fmt;
use std::marker::Model;

/// A PDU, as a frame of CAN FD carries it: 0 to 64 bytes. A contract sees the list of them.
#[derive(Clone, Copy, PartialEq, Eq)]
pub struct Pdu {
    bytes: [u8; 64],
    len: usize,
}

impl Model for Pdu {
    ghost use Rattle.std.specs.Prelude.{◌≡◌, ◌-◌, ◌++◌, List, ℕ, length, take, replicate};
    ghost use Rattle.basics.specs.Padded.{IsPadded};

    ghost Value = { List ℕ };

    ghost view = { λ p. take p.len p.bytes };

    ghost invariant = { λ p. IsPadded p.bytes p.len };

    ghost inverse = { λ xs. record { bytes = xs ++ replicate (64 - length xs) 0; len = length xs } };
}

impl Pdu {
    /// The PDU with these bytes, and `None` exactly if there are more than 64.
    pub fn of(bytes: &[u8]) -> Option<Pdu>
        ensures refused { IsNone result ↔ 64 < length bytes.now }
        ensures value { IfSome result (λ p. p ≡ bytes.now) }
    {
        if bytes.len() > 64 {
            return None;
        }
        let mut padded = [0; 64];
        padded[..bytes.len()].copy_from_slice(bytes);
        Some(Pdu {
            bytes: padded,
            len: bytes.len(),
        })
    }

    /// The PDU of the `len` bytes that `fill` leaves: it gets as many zeros, and writes over them in their place.
    /// `None` if `len` is more than 64, or if `fill` answers false.
    pub fn filled_by<F: FnOnce(&mut [u8]) -> bool>(len: usize, fill: F) -> Option<Pdu>
        requires { F.IsAlwaysCallable fill }
        ensures too_long { 64 < len → IsNone result }
        ensures refused { IsNone result
            → (64 < len) ⊎ ((bytes : List ℕ) × FnOnceReturnsAtMut F.FnOnce fill (replicate len 0) false bytes) }
        ensures size { IfSome result (λ p. length p ≡ len) }
        ensures value { IfSome result (λ p. FnOnceReturnsAtMut F.FnOnce fill (replicate len 0) true p) }
    {
        if len > 64 {
            return None;
        }
        let mut bytes = [0; 64];
        if !fill(&mut bytes[..len]) {
            return None;
        }
        Some(Pdu { bytes, len })
    }

    /// The bytes in their order.
    pub fn bytes(&self) -> &[u8]
        ensures value { result.now ≡ self.now }
        ensures are_bytes { IsBytes (length self.now) self.now }
        ensures most { length self.now ≤ 64 }
    {
        told(&self.bytes[..self.len])
    }
}

impl fmt::Debug for Pdu {
    fn fmt<W: fmt::Write>(&self, f: &mut fmt::Formatter<W>) -> fmt::Result {
        let bytes = self.bytes();
        write!(f, "{bytes:?}")
    }
}
