// The rounds of the cipher (FIPS 197, section 5.1), on the 16 bytes of the state at once.
//
// Between two rounds each byte of the state is its pair. A round key comes as the round adds it: with the constant of
// the S-box, which the substitution before it leaves out, and in pairs, except for the last one, which comes in bytes.
ghost use Rattle.std.specs.Prelude.{◌≡◌, List, ℕ, map};
ghost use Rattle.she_aes.specs.Field.{mul};
ghost use Rattle.she_aes.specs.Cipher.{IsBlock, xor_blocks, add_round_key, sub_bytes, shift_rows, mix_columns};
ghost use Rattle.she_aes.specs.Pairs.{in_pairs, without_constant};

use crate::substitution::{
    CONSTANT, LEFT, LEFT_PAIR, LEFT_PAIR_DOUBLED, RIGHT, RIGHT_PAIR, RIGHT_PAIR_DOUBLED,
    bytes_without_constant, inverted, joined, pairs, quotients,
};
use std::simd::prelude::*;

// The 16 bytes of the state, column by column.
pub(crate) type State = [u8; 16];

// The exclusive or, byte by byte.
#[inline(always)]
pub(crate) fn xor(a: &State, b: &State) -> State
    ensures { result ≡ xor_blocks a.now b.now }
{
    (u8x16::from_array(*a) ^ u8x16::from_array(*b)).to_array()
}

// AddRoundKey.
#[inline(always)]
pub(crate) fn add_round_key(key: &State, state: u8x16) -> u8x16
    ensures { result ≡ add_round_key key.now state }
{
    state ^ u8x16::from_array(*key)
}

// ShiftRows: row r moves left by r places.
#[inline(always)]
fn shift_rows(state: u8x16) -> u8x16
    ensures { result ≡ shift_rows state }
{
    state.swizzle([0, 5, 10, 15, 4, 9, 14, 3, 8, 13, 2, 7, 12, 1, 6, 11])
}

// MixColumns in pairs, of a state that comes once and doubled.
#[inline(always)]
fn mix_columns(once: u8x16, doubled: u8x16) -> u8x16
    ensures { (s : List ℕ) → IsBlock s → once ≡ in_pairs s → doubled ≡ in_pairs (map (mul 2) s)
        → result ≡ in_pairs (mix_columns s) }
{
    let below = once.swizzle([1, 2, 3, 0, 5, 6, 7, 4, 9, 10, 11, 8, 13, 14, 15, 12]);
    let above = once.swizzle([3, 0, 1, 2, 7, 4, 5, 6, 11, 8, 9, 10, 15, 12, 13, 14]);
    let sums = doubled ^ below;
    let sums_below = sums.swizzle([1, 2, 3, 0, 5, 6, 7, 4, 9, 10, 11, 8, 13, 14, 15, 12]);
    sums ^ sums_below ^ above
}

// The state before the rounds, in pairs.
#[inline(always)]
pub(crate) fn begin(key: &State, block: &State) -> u8x16
    ensures { result ≡ in_pairs (add_round_key key.now block.now) }
{
    pairs(add_round_key(key, u8x16::from_array(*block)))
}

// A round of the cipher but the last.
#[inline(always)]
pub(crate) fn round(key: &State, state: u8x16) -> u8x16
    ensures { (k s : List ℕ) → IsBlock k → IsBlock s → key.now ≡ in_pairs (without_constant k) → state ≡ in_pairs s
        → result ≡ in_pairs (add_round_key k (mix_columns (shift_rows (sub_bytes s)))) }
{
    let shifted = shift_rows(state);
    let (first, second) = quotients(shifted);
    let once = joined(LEFT_PAIR, RIGHT_PAIR, first, second);
    let doubled = joined(LEFT_PAIR_DOUBLED, RIGHT_PAIR_DOUBLED, first, second);
    add_round_key(key, mix_columns(once, doubled))
}

// The last round, which has no MixColumns: the block.
#[inline(always)]
pub(crate) fn last_round(key: &State, state: u8x16) -> u8x16
    ensures { (k s : List ℕ) → IsBlock k → IsBlock s → key.now ≡ without_constant k → state ≡ in_pairs s
        → result ≡ add_round_key k (shift_rows (sub_bytes s)) }
{
    let shifted = shift_rows(state);
    let substituted = inverted(LEFT, RIGHT, shifted);
    add_round_key(key, substituted)
}

// A round key from what a round adds.
#[inline(always)]
pub(crate) fn key_of(added: &State) -> State
    ensures { (k : List ℕ) → IsBlock k → added.now ≡ in_pairs (without_constant k) → result ≡ k }
{
    bytes_without_constant(u8x16::from_array(*added)).to_array()
}

// The last round key from what the last round adds.
#[inline(always)]
pub(crate) fn last_key_of(added: &State) -> State
    ensures { (k : List ℕ) → IsBlock k → added.now ≡ without_constant k → result ≡ k }
{
    (u8x16::from_array(*added) ^ u8x16::splat(CONSTANT)).to_array()
}
