// The names of nodes.

ghost use Rattle.std.specs.Prelude.{◌≡◌, IsTrue};
ghost use Rattle.std.specs.Option.{SomeIff};
ghost use Rattle.bus_config.specs.Names.{is_name_byte as is_byte_of_a_name, is_name as is_a_name};

use std::marker::Model;

/// The name of a node: 1 to 16 bytes, each a lower-case letter, a digit, `-` or `_`, and the first a letter. Contracts
/// see the list of the bytes.
#[derive(Debug, Drop)]
pub struct Name {
    bytes: [u8; 16],
    len: usize,
}

impl Model for Name {
    ghost use Rattle.std.specs.Prelude.{List, ℕ, ◌≤◌, IsTrue, take};
    ghost use Rattle.bus_config.specs.Names.{is_name};

    ghost Value = { List ℕ };

    ghost view = { λ n. take n.len n.bytes };

    ghost invariant = { λ n. (n.len ≤ 16) × IsTrue (is_name (take n.len n.bytes)) };
}

fn is_name_byte(byte: &u8) -> bool
    ensures { result ≡ is_byte_of_a_name byte.now }
{
    byte.is_ascii_lowercase() || byte.is_ascii_digit() || *byte == b'-' || *byte == b'_'
}

fn is_name(word: &[u8]) -> bool
    ensures { result ≡ is_a_name word.now }
{
    if word.is_empty() || word.len() > 16 || !word[0].is_ascii_lowercase() {
        return false;
    }
    word.iter().all(is_name_byte)
}

impl Name {
    ghost use Rattle.std.specs.Prelude.{◌≡◌, IsTrue};
    ghost use Rattle.std.specs.Option.{SomeIff};
    ghost use Rattle.bus_config.specs.Names.{is_name as is_a_name};

    /// The name with these bytes; `None` if they are no name.
    pub fn of(word: &[u8]) -> Option<Name>
        ensures { SomeIff result (IsTrue (is_a_name word.now)) word.now }
    {
        if !is_name(word) {
            return None;
        }
        let mut bytes = [0; 16];
        bytes[..word.len()].copy_from_slice(word);
        Some(Name {
            bytes,
            len: word.len(),
        })
    }

    /// Its bytes, 1 to 16.
    pub fn bytes(&self) -> &[u8]
        ensures value { result.now ≡ self.now }
        ensures named { IsTrue (is_a_name self.now) }
    {
        &self.bytes[..self.len]
    }
}
