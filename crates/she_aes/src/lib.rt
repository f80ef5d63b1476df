//! AES-128 (FIPS 197, 5), and CBC and ECB (SP 800-38A, 6.1, 6.2) of any number of blocks.
//!
//! [`expand`], [`encrypt`], [`decrypt`] and the modes equal the cipher over the field of 256 elements. Each
//! direction undoes the other, for every key and block, in each mode ([`laws`]). No call refuses, and none
//! takes memory.
//!
//! There are three ciphers under one contract, and a build takes one of them. That by shuffles of bytes is the default.
//! That by words works on the bits of words of 32 bits, without a table. That by shuffles reads none at a place that
//! depends on a key or a text if the processor shuffles bytes; that by tables does. Decryption is by shuffles in each.
//! This was seen in the code that was built: no clause speaks of it.
#![tactic(auto)]

mod by_shuffles;
mod by_tables;
mod by_words;
mod choice;
mod circuits;
mod columns;
mod expansion;
mod inverse;
mod key_columns;
pub mod laws;
mod modes;
mod planes;
mod rounds;
mod substitution;

ghost use Rattle.std.specs.Prelude.{◌≡◌};
ghost use Rattle.she_aes.specs.Cipher.{IsBlock, enc, dec};

pub use basics::Block;
use choice::{Cipher, chosen};
pub use modes::{cbc_decrypt, cbc_encrypt, ecb_decrypt, ecb_encrypt};
use rounds::State;
use std::marker::Model;

/// The round keys of a key (FIPS 197, section 5.2). A contract sees the key itself.
#[derive(Clone, Copy)]
pub struct Schedule {
    // the key, which is the first round key
    key: State,
    // those of the ten rounds, in the form that the cipher of this build takes
    rounds: [State; 10],
}

impl Model for Schedule {
    ghost use Rattle.std.specs.Prelude.{List, ℕ};
    ghost use Rattle.she_aes.specs.RoundKeys.{keys_for, AreKeysFor};
    ghost use Rattle.she_aes.specs.Choice.{choice};

    ghost Value = { List ℕ };

    ghost view = { λ s. s.key };

    ghost invariant = { λ s. AreKeysFor choice s.key s.rounds };

    ghost inverse = { λ key. record { key = key; rounds = keys_for choice key } };
}

/// The round keys of a key, by the key expansion of FIPS 197, section 5.2.
pub fn expand(key: &Block) -> Schedule
    ensures value { result ≡ key.now }
    ensures is_block { IsBlock result }
{
    let bytes = key.bytes();
    Schedule {
        key: *bytes,
        rounds: choice::keys_of(bytes),
    }
}

/// The block encrypted under the key of the schedule (FIPS 197, section 5.1).
pub fn encrypt(schedule: &Schedule, block: &Block) -> Block
    ensures value { result ≡ enc schedule.now block.now }
    ensures is_block { IsBlock result }
    ensures of_blocks { IsBlock schedule.now × IsBlock block.now }
{
    let key = &schedule.key;
    let rounds = &schedule.rounds;
    match chosen() {
        Cipher::Shuffles => by_shuffles::encrypted(key, rounds, block),
        Cipher::Words => by_words::encrypted(key, rounds, block),
        Cipher::Tables => by_tables::encrypted(key, rounds, block),
    }
}

/// The block decrypted under the key of the schedule (FIPS 197, section 5.3): the block that `encrypt`
/// takes to this one.
pub fn decrypt(schedule: &Schedule, block: &Block) -> Block
    ensures value { result ≡ dec schedule.now block.now }
    ensures is_block { IsBlock result }
    ensures of_blocks { IsBlock schedule.now × IsBlock block.now }
{
    let key = &schedule.key;
    let rounds = &schedule.rounds;
    match chosen() {
        Cipher::Shuffles => by_shuffles::decrypted(key, rounds, block),
        Cipher::Words => by_shuffles::decrypted_plain(key, rounds, block),
        Cipher::Tables => by_shuffles::decrypted_plain(key, rounds, block),
    }
}

/// What [`encrypt`] gives under the expanded key, by shuffles of bytes, whichever cipher the build takes.
pub fn encrypt_by_shuffles(key: &Block, block: &Block) -> Block
    ensures value { result ≡ enc key.now block.now }
    ensures is_block { IsBlock result }
{
    let bytes = key.bytes();
    by_shuffles::encrypted(bytes, &expansion::added_keys(bytes), block)
}

/// The same over words of 32 bits, bit by bit. No table is read, and no place depends on the key or the block.
pub fn encrypt_by_words(key: &Block, block: &Block) -> Block
    ensures value { result ≡ enc key.now block.now }
    ensures is_block { IsBlock result }
{
    let bytes = key.bytes();
    by_words::encrypted(bytes, &key_columns::keys_by_words(bytes), block)
}

/// The same by tables of words. It reads them at places that depend on the key and the block.
pub fn encrypt_by_tables(key: &Block, block: &Block) -> Block
    ensures value { result ≡ enc key.now block.now }
    ensures is_block { IsBlock result }
{
    let bytes = key.bytes();
    by_tables::encrypted(bytes, &key_columns::keys_by_tables(bytes), block)
}
