// Which of the three ciphers this build takes. They mean the same.
//
// `bin/build_c --source` writes another answer of `chosen` into the C. What is proved holds for each answer: the word
// `choice` of the contracts stays closed in every proof but that of `chosen`.
ghost use Rattle.std.specs.Prelude.{◌≡◌};
ghost use Rattle.she_aes.specs.Cipher.{IsBlock};
ghost use Rattle.she_aes.specs.Choice.{choice};
ghost use Rattle.she_aes.specs.RoundKeys.{keys_for};

use crate::expansion::added_keys;
use crate::key_columns::{keys_by_tables, keys_by_words};
use crate::rounds::State;

// What a cipher works with.
#[derive(Clone, Copy)]
pub(crate) enum Cipher {
    // shuffles of 16 bytes
    Shuffles,
    // words of 32 bits, bit by bit
    Words,
    // tables that are read at places that depend on the key and the text
    Tables,
}

// The cipher of this build.
pub(crate) fn chosen() -> Cipher
    ensures { result ≡ choice }
{
    Cipher::Shuffles
}

// The round keys of the ten rounds in the form that it takes.
pub(crate) fn keys_of(key: &State) -> [State; 10]
    ensures { IsBlock key.now → result ≡ keys_for choice key.now }
{
    match chosen() {
        Cipher::Shuffles => added_keys(key),
        Cipher::Words => keys_by_words(key),
        Cipher::Tables => keys_by_tables(key),
    }
}
