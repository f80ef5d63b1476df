// The key expansion (FIPS 197, section 5.2), a round key at a time and in pairs.
ghost use Rattle.std.specs.Prelude.{◌≡◌, ◌<◌, List, ℕ};
ghost use Rattle.she_aes.specs.Cipher.{IsBlock};
ghost use Rattle.she_aes.specs.KeySteps.{next_round_key};
ghost use Rattle.she_aes.specs.Pairs.{pair_of, in_pairs, without_constant};
ghost use Rattle.she_aes.specs.RoundKeys.{added_keys};

use crate::rounds::State;
use crate::substitution::{
    LEFT_PAIR, PAIR_OF_CONSTANT, RIGHT_PAIR, bytes_without_constant, inverted, pairs,
};
use std::simd::prelude::*;

// The round key after this one, from the pair of the power of x that is added to it.
#[inline(always)]
fn next_round_key(power: u8, key: u8x16) -> u8x16
    ensures { (p : ℕ) (k : List ℕ) → p < 256 → IsBlock k → power ≡ pair_of p → key ≡ in_pairs k
        → result ≡ in_pairs (next_round_key p k) }
{
    let zeros = u8x16::splat(0);
    // in each column the last word, turned and substituted
    let turned = inverted(LEFT_PAIR, RIGHT_PAIR, key).swizzle([
        13, 14, 15, 12, 13, 14, 15, 12, 13, 14, 15, 12, 13, 14, 15, 12,
    ]);
    // each word and the one before it, and then each word and all before it
    let neighbours = key
        ^ zeros.shuffle(
            key,
            [0, 0, 0, 0, 16, 17, 18, 19, 20, 21, 22, 23, 24, 25, 26, 27],
        );
    let sums = neighbours
        ^ zeros.shuffle(
            neighbours,
            [0, 0, 0, 0, 0, 0, 0, 0, 16, 17, 18, 19, 20, 21, 22, 23],
        );
    let powers = u8x16::from_array([
        power, 0, 0, 0, power, 0, 0, 0, power, 0, 0, 0, power, 0, 0, 0,
    ]);
    sums ^ (turned ^ (powers ^ u8x16::splat(PAIR_OF_CONSTANT)))
}

// What a round adds, from its key in pairs.
#[inline(always)]
fn added(key: u8x16) -> State
    ensures { (k : List ℕ) → IsBlock k → key ≡ in_pairs k → result ≡ in_pairs (without_constant k) }
{
    (key ^ u8x16::splat(PAIR_OF_CONSTANT)).to_array()
}

// What the ten rounds add under the key.
pub(crate) fn added_keys(key: &State) -> [State; 10]
    ensures { result ≡ added_keys key.now }
{
    let k0 = pairs(u8x16::from_array(*key));
    // the pairs of the powers of x: 01, 02, 04, 08, 10, 20, 40, 80, 1b and 36
    let k1 = next_round_key(0x11, k0);
    let k2 = next_round_key(0xdc, k1);
    let k3 = next_round_key(0xfd, k2);
    let k4 = next_round_key(0x57, k3);
    let k5 = next_round_key(0xe6, k4);
    let k6 = next_round_key(0x2d, k5);
    let k7 = next_round_key(0x6e, k6);
    let k8 = next_round_key(0x07, k7);
    let k9 = next_round_key(0x7c, k8);
    let k10 = next_round_key(0xea, k9);
    [
        added(k1),
        added(k2),
        added(k3),
        added(k4),
        added(k5),
        added(k6),
        added(k7),
        added(k8),
        added(k9),
        bytes_without_constant(k10).to_array(),
    ]
}
