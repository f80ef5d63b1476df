// The cipher and its inverse by shuffles of bytes.
ghost use Rattle.std.specs.Prelude.{◌≡◌};
ghost use Rattle.she_aes.specs.Cipher.{IsBlock, enc, dec};
ghost use Rattle.she_aes.specs.RoundKeys.{IsAddedUnder, IsPlainUnder};

use crate::inverse;
use crate::rounds::{self, State};
use basics::Block;
use std::simd::prelude::*;

// The block encrypted, from what the rounds add.
pub(crate) fn encrypted(key: &State, added: &[State; 10], block: &Block) -> Block
    ensures value { IsAddedUnder key.now added.now → result ≡ enc key.now block.now }
    ensures is_block { IsBlock result }
    ensures of_block { IsBlock block.now }
{
    let s0 = rounds::begin(key, block.bytes());
    let s1 = rounds::round(&added[0], s0);
    let s2 = rounds::round(&added[1], s1);
    let s3 = rounds::round(&added[2], s2);
    let s4 = rounds::round(&added[3], s3);
    let s5 = rounds::round(&added[4], s4);
    let s6 = rounds::round(&added[5], s5);
    let s7 = rounds::round(&added[6], s6);
    let s8 = rounds::round(&added[7], s7);
    let s9 = rounds::round(&added[8], s8);
    Block::of(rounds::last_round(&added[9], s9).to_array())
}

// The block decrypted, from what the rounds add.
pub(crate) fn decrypted(key: &State, added: &[State; 10], block: &Block) -> Block
    ensures value { IsAddedUnder key.now added.now → result ≡ dec key.now block.now }
    ensures is_block { IsBlock result }
    ensures of_block { IsBlock block.now }
{
    let k10 = rounds::last_key_of(&added[9]);
    let s9 = inverse::undo_last_round(&k10, u8x16::from_array(*block.bytes()));
    let s8 = inverse::undo_round(&rounds::key_of(&added[8]), s9);
    let s7 = inverse::undo_round(&rounds::key_of(&added[7]), s8);
    let s6 = inverse::undo_round(&rounds::key_of(&added[6]), s7);
    let s5 = inverse::undo_round(&rounds::key_of(&added[5]), s6);
    let s4 = inverse::undo_round(&rounds::key_of(&added[4]), s5);
    let s3 = inverse::undo_round(&rounds::key_of(&added[3]), s4);
    let s2 = inverse::undo_round(&rounds::key_of(&added[2]), s3);
    let s1 = inverse::undo_round(&rounds::key_of(&added[1]), s2);
    let s0 = inverse::undo_round(&rounds::key_of(&added[0]), s1);
    Block::of(rounds::add_round_key(key, s0).to_array())
}

// The block decrypted, from the round keys.
pub(crate) fn decrypted_plain(key: &State, plain: &[State; 10], block: &Block) -> Block
    ensures value { IsPlainUnder key.now plain.now → result ≡ dec key.now block.now }
    ensures is_block { IsBlock result }
    ensures of_block { IsBlock block.now }
{
    let s9 = inverse::undo_last_round(&plain[9], u8x16::from_array(*block.bytes()));
    let s8 = inverse::undo_round(&plain[8], s9);
    let s7 = inverse::undo_round(&plain[7], s8);
    let s6 = inverse::undo_round(&plain[6], s7);
    let s5 = inverse::undo_round(&plain[5], s6);
    let s4 = inverse::undo_round(&plain[4], s5);
    let s3 = inverse::undo_round(&plain[3], s4);
    let s2 = inverse::undo_round(&plain[2], s3);
    let s1 = inverse::undo_round(&plain[1], s2);
    let s0 = inverse::undo_round(&plain[0], s1);
    Block::of(rounds::add_round_key(key, s0).to_array())
}
