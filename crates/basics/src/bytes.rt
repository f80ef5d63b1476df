// Bytes in a vector.

ghost use Rattle.std.specs.Prelude.{◌≡◌, length};
ghost use Rattle.basics.specs.Bytes.{IsBytes};

use std::marker::Model;

/// Bytes in a vector, any number of them. A contract sees the list.
#[derive(Debug, Drop)]
pub struct Bytes {
    bytes: Vec<u8>,
}

impl Model for Bytes {
    ghost use Rattle.std.specs.Prelude.{List, ℕ};

    ghost Value = { List ℕ };

    ghost view = { λ b. b.bytes.items };
}

impl Bytes {
    /// The bytes of the vector, which is taken over: no memory is taken.
    pub fn of(bytes: Vec<u8>) -> Bytes
        ensures { result ≡ bytes.items }
    {
        Bytes { bytes }
    }

    /// The bytes in their order.
    pub fn bytes(&self) -> &[u8]
        ensures value { result.now ≡ self.now }
        ensures are_bytes { IsBytes (length self.now) self.now }
    {
        told(self.bytes.as_slice())
    }

    /// The vector that holds the bytes: no memory is taken.
    pub fn into_vec(self) -> Vec<u8>
        ensures { result.items ≡ self }
    {
        self.bytes
    }
}

// The same bytes: of a slice that is passed a proof knows that its items are bytes.
pub(crate) fn told(bytes: &[u8]) -> &[u8]
    ensures value { result.now ≡ bytes.now }
    ensures are_bytes { IsBytes (length bytes.now) bytes.now }
{
    bytes
}
