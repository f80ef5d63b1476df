// The inverse maps of a round (FIPS 197, section 5.3), on the 16 bytes of the state at once.
ghost use Rattle.std.specs.Prelude.{◌≡◌, map};
ghost use Rattle.she_aes.specs.Field.{mul};
ghost use Rattle.she_aes.specs.Cipher.{add_round_key, mix_columns, inv_sub_bytes, inv_shift_rows, inv_mix_columns};

use crate::rounds::{State, add_round_key};
use crate::substitution::inv_sub_bytes;
use std::simd::prelude::*;

// InvShiftRows: row r moves right by r places.
#[inline(always)]
fn inv_shift_rows(state: u8x16) -> u8x16
    ensures { result ≡ inv_shift_rows state }
{
    state.swizzle([0, 13, 10, 7, 4, 1, 14, 11, 8, 5, 2, 15, 12, 9, 6, 3])
}

// Each byte times x, the element 02.
#[inline(always)]
fn double(bytes: u8x16) -> u8x16
    ensures { result ≡ map (mul 2) bytes }
{
    let carried = bytes.simd_ge(u8x16::splat(0x80));
    (bytes + bytes) ^ carried.select(u8x16::splat(0x1b), u8x16::splat(0))
}

// MixColumns.
#[inline(always)]
fn mix_columns(state: u8x16) -> u8x16
    ensures { result ≡ mix_columns state }
{
    let below = state.swizzle([1, 2, 3, 0, 5, 6, 7, 4, 9, 10, 11, 8, 13, 14, 15, 12]);
    let sums = state ^ below;
    let opposite = sums.swizzle([2, 3, 0, 1, 6, 7, 4, 5, 10, 11, 8, 9, 14, 15, 12, 13]);
    double(sums) ^ below ^ opposite
}

// InvMixColumns: its matrix is that of MixColumns times the circulant matrix of 5, 0, 4 and 0.
#[inline(always)]
fn inv_mix_columns(state: u8x16) -> u8x16
    ensures { result ≡ inv_mix_columns state }
{
    let opposite = state.swizzle([2, 3, 0, 1, 6, 7, 4, 5, 10, 11, 8, 9, 14, 15, 12, 13]);
    mix_columns(state ^ double(double(state ^ opposite)))
}

// The state before the last round.
#[inline(always)]
pub(crate) fn undo_last_round(key: &State, state: u8x16) -> u8x16
    ensures { result ≡ inv_sub_bytes (inv_shift_rows (add_round_key key.now state)) }
{
    let shifted = add_round_key(key, state);
    let substituted = inv_shift_rows(shifted);
    inv_sub_bytes(substituted)
}

// The state before another round.
#[inline(always)]
pub(crate) fn undo_round(key: &State, state: u8x16) -> u8x16
    ensures { result ≡ inv_sub_bytes (inv_shift_rows (inv_mix_columns (add_round_key key.now state))) }
{
    let mixed = add_round_key(key, state);
    let shifted = inv_mix_columns(mixed);
    let substituted = inv_shift_rows(shifted);
    inv_sub_bytes(substituted)
}
