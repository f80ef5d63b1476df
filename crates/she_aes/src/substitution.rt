// SubBytes and its inverse (FIPS 197, sections 5.1.1 and 5.3.2) by byte shuffles: no table is read at a secret index.
//
// A byte is taken for a pair of elements of the field of 16, an upper and a lower one: the field of 256 is an extension
// of it. There its inverse is found by look-ups in tables of 16 bytes. Each look-up is one shuffle of all 16 bytes of
// the state. The quotient by 0 isn't an element of the field: it is a place from 128 on, and what is looked up there is
// 0. (M. Hamburg, Accelerating AES with vector permute instructions, 2009.)
//
// The sum of two bytes is taken for the sum of their pairs, so between two rounds the state stays in pairs.
ghost use Rattle.std.specs.Prelude.{◌≡◌, List, ℕ, All, IsTrue, map, bit_xor};
ghost use Rattle.std.specs.Simd.Lanes.{zip2};
ghost use Rattle.she_aes.specs.Lookups.{is_place, entry};
ghost use Rattle.she_aes.specs.Substitution.{pair, first, second, inverse_by};
ghost use Rattle.she_aes.specs.Pairs.{in_pairs, without_constant};
ghost use Rattle.she_aes.specs.Cipher.{IsBlock, inv_sub_bytes};

use std::simd::prelude::*;

// A table of 16 bytes, one for each nibble.
pub(crate) type Table = [u8; 16];

// The inverse of each element of the field of 16, whose modulus is x^4 + x + 1. That of 0 is a place from 128 on.
const INVERSES: Table = [
    0x80, 0x01, 0x09, 0x0e, 0x0d, 0x0b, 0x07, 0x06, 0x0f, 0x02, 0x0c, 0x05, 0x0a, 0x04, 0x03, 0x08,
];

// The element x divided by each. That by 0 is a place from 128 on.
const QUOTIENTS: Table = [
    0x80, 0x02, 0x01, 0x0f, 0x09, 0x05, 0x0e, 0x0c, 0x0d, 0x04, 0x0b, 0x0a, 0x07, 0x08, 0x06, 0x03,
];

// The pair of elements that a byte is taken for by the S-box: what its low four bits add to it, and what its high four
// bits add.
const LOW: Table = [
    0x00, 0x11, 0xdc, 0xcd, 0xfd, 0xec, 0x21, 0x30, 0x57, 0x46, 0x8b, 0x9a, 0xaa, 0xbb, 0x76, 0x67,
];

const HIGH: Table = [
    0x00, 0xe6, 0x2d, 0xcb, 0x6e, 0x88, 0x43, 0xa5, 0x07, 0xe1, 0x2a, 0xcc, 0x69, 0x8f, 0x44, 0xa2,
];

// The byte that the S-box gives for the inverse, except for the constant 63: what the two quotients add to it.
pub(crate) const LEFT: Table = [
    0x00, 0x9f, 0x61, 0x16, 0xc2, 0x2a, 0x77, 0xe8, 0x89, 0x4b, 0x5d, 0x3c, 0xb5, 0xa3, 0xd4, 0xfe,
];

pub(crate) const RIGHT: Table = [
    0x00, 0xcb, 0xd7, 0xb0, 0x21, 0x8d, 0x67, 0xac, 0x7b, 0x5a, 0xea, 0x3d, 0x46, 0xf6, 0x91, 0x1c,
];

// The pair of that byte.
pub(crate) const LEFT_PAIR: Table = [
    0x00, 0x86, 0x52, 0xc7, 0xb5, 0xa6, 0x95, 0x13, 0x41, 0xf4, 0x33, 0x61, 0x20, 0xe7, 0x72, 0xd4,
];

pub(crate) const RIGHT_PAIR: Table = [
    0x00, 0xf3, 0xbf, 0xcc, 0x3c, 0xbc, 0x73, 0x80, 0x3f, 0x03, 0xcf, 0x70, 0x4f, 0x83, 0xf0, 0x4c,
];

// The pair of that byte times x, the element 02.
pub(crate) const LEFT_PAIR_DOUBLED: Table = [
    0x00, 0xc1, 0xb5, 0x87, 0x86, 0x75, 0x32, 0xf3, 0x46, 0xc0, 0x47, 0xf2, 0xb4, 0x33, 0x01, 0x74,
];

pub(crate) const RIGHT_PAIR_DOUBLED: Table = [
    0x00, 0xbc, 0x20, 0x3f, 0xb2, 0x11, 0x1f, 0xa3, 0x83, 0x31, 0x0e, 0x2e, 0xad, 0x92, 0x8d, 0x9c,
];

// The byte of a pair, plus the constant 63, which stands in the first of these tables.
const BYTE_OF_LOWER: Table = [
    0x63, 0xd0, 0x8a, 0x39, 0xb9, 0x0a, 0x50, 0xe3, 0x9f, 0x2c, 0x76, 0xc5, 0x45, 0xf6, 0xac, 0x1f,
];

const BYTE_OF_UPPER: Table = [
    0x00, 0xb2, 0xb5, 0x07, 0x3a, 0x88, 0x8f, 0x3d, 0xac, 0x1e, 0x19, 0xab, 0x96, 0x24, 0x23, 0x91,
];

// The same for the inverse S-box, which begins with the inverse of the affine map: its constant stands in the first of
// these tables.
const LOW_OF_INVERSE: Table = [
    0xec, 0x09, 0xf0, 0x15, 0x87, 0x62, 0x9b, 0x7e, 0xb8, 0x5d, 0xa4, 0x41, 0xd3, 0x36, 0xcf, 0x2a,
];

const HIGH_OF_INVERSE: Table = [
    0x00, 0xd7, 0x28, 0xff, 0x3d, 0xea, 0x15, 0xc2, 0xc1, 0x16, 0xe9, 0x3e, 0xfc, 0x2b, 0xd4, 0x03,
];

const LEFT_OF_INVERSE: Table = [
    0x00, 0x24, 0x91, 0x19, 0x23, 0x8f, 0x88, 0xac, 0x3d, 0x1e, 0x07, 0x96, 0xab, 0xb2, 0x3a, 0xb5,
];

const RIGHT_OF_INVERSE: Table = [
    0x00, 0x3b, 0xe4, 0xc8, 0x03, 0x14, 0x2c, 0x17, 0xf3, 0xf0, 0x38, 0xdc, 0x2f, 0xe7, 0xcb, 0xdf,
];

// The constant of the S-box, which the tables `LEFT` and `RIGHT` and those of their pairs leave out, and its pair.
pub(crate) const CONSTANT: u8 = 0x63;

pub(crate) const PAIR_OF_CONSTANT: u8 = 0x8e;

// Each byte as its pair.
#[inline(always)]
pub(crate) fn pairs(bytes: u8x16) -> u8x16
    ensures { result ≡ in_pairs bytes }
{
    paired(LOW, HIGH, bytes)
}

// The byte of each pair, plus the constant of the S-box.
#[inline(always)]
pub(crate) fn bytes_without_constant(pairs: u8x16) -> u8x16
    ensures { (bytes : List ℕ) → IsBlock bytes → pairs ≡ in_pairs bytes → result ≡ without_constant bytes }
{
    paired(BYTE_OF_LOWER, BYTE_OF_UPPER, pairs)
}

// InvSubBytes.
#[inline(always)]
pub(crate) fn inv_sub_bytes(state: u8x16) -> u8x16
    ensures { result ≡ inv_sub_bytes state }
{
    let pairs = paired(LOW_OF_INVERSE, HIGH_OF_INVERSE, state);
    inverted(LEFT_OF_INVERSE, RIGHT_OF_INVERSE, pairs)
}

// What the two tables take each byte for: the sum of what they have for its low four bits and for its high four bits.
#[inline(always)]
fn paired(low: Table, high: Table, bytes: u8x16) -> u8x16
    ensures { result ≡ map (pair low high) bytes }
{
    look_up(low, bytes & u8x16::splat(15)) ^ look_up(high, bytes >> u8x16::splat(4))
}

// What the two tables give for the inverse of each pair.
#[inline(always)]
pub(crate) fn inverted(left: Table, right: Table, pairs: u8x16) -> u8x16
    ensures { result ≡ map (inverse_by left right) pairs }
{
    let (first, second) = quotients(pairs);
    joined(left, right, first, second)
}

// The two quotients by which the inverse of each pair is found.
#[inline(always)]
pub(crate) fn quotients(pairs: u8x16) -> (u8x16, u8x16)
    ensures first { result.0 ≡ map first pairs }
    ensures first_fits { All (λ place. IsTrue (is_place place)) result.0 }
    ensures second { result.1 ≡ map second pairs }
    ensures second_fits { All (λ place. IsTrue (is_place place)) result.1 }
{
    let upper = pairs >> u8x16::splat(4);
    let lower = pairs & u8x16::splat(15);
    let total = upper ^ lower;
    let quotient = look_up(QUOTIENTS, lower);
    let from_upper = look_up(INVERSES, upper) ^ quotient;
    let from_total = look_up(INVERSES, total) ^ quotient;
    let first = look_up(INVERSES, from_upper) ^ total;
    let second = look_up(INVERSES, from_total) ^ upper;
    (first, second)
}

// What the two tables give for two quotients together.
#[inline(always)]
pub(crate) fn joined(left: Table, right: Table, first: u8x16, second: u8x16) -> u8x16
    requires first_fits { All (λ place. IsTrue (is_place place)) first }
    requires second_fits { All (λ place. IsTrue (is_place place)) second }
    ensures { result ≡ zip2 bit_xor (map (entry left) first) (map (entry right) second) }
{
    look_up(left, first) ^ look_up(right, second)
}

// The bytes at these places of the table, one by one: one shuffle. From 128 on the byte is 0.
#[inline(always)]
fn look_up(table: Table, places: u8x16) -> u8x16
    requires { All (λ place. IsTrue (is_place place)) places }
    ensures { result ≡ map (entry table) places }
{
    u8x16::from_array(table).swizzle_dyn(places)
}
