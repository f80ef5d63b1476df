// The key expansion (FIPS 197, section 5.2), a round key at a time and in columns.
ghost use Rattle.std.specs.Prelude.{◌≡◌, ◌<◌, List, ℕ, [], ◌∷◌};
ghost use Rattle.basics.specs.Numbers.{number_of};
ghost use Rattle.she_aes.specs.Cipher.{IsBlock, column, sub_word, rot_word};
ghost use Rattle.she_aes.specs.Columns.{in_columns};
ghost use Rattle.she_aes.specs.KeySteps.{next_round_key};
ghost use Rattle.she_aes.specs.RoundKeys.{plain_keys};

use crate::by_tables;
use crate::columns::{Columns, bytes_of, columns_of};
use crate::planes::sub_bytes;
use crate::rounds::State;

// The last column of a round key, turned and substituted, by planes.
fn turned_by_words(key: &Columns) -> u32
    ensures { (k : List ℕ) → IsBlock k → key.now ≡ in_columns k
        → result ≡ number_of (sub_word (rot_word (column k 3))) }
{
    let [_, _, _, last] = *key;
    let [a, b, c, d] = last.to_be_bytes();
    let [word, _, _, _] = sub_bytes(&[u32::from_be_bytes([b, c, d, a]), 0, 0, 0]);
    word
}

// The same by a table.
fn turned_by_tables(key: &Columns) -> u32
    ensures { (k : List ℕ) → IsBlock k → key.now ≡ in_columns k
        → result ≡ number_of (sub_word (rot_word (column k 3))) }
{
    let [_, _, _, last] = *key;
    let [a, b, c, d] = last.to_be_bytes();
    u32::from_be_bytes([
        by_tables::substitute(b),
        by_tables::substitute(c),
        by_tables::substitute(d),
        by_tables::substitute(a),
    ])
}

// The round key after this one, from its last column, turned and substituted, and the power of x that is added to it.
fn next_key(power: u32, turned: u32, key: &Columns) -> Columns
    ensures { (p : ℕ) (k : List ℕ) → p < 256 → IsBlock k → power ≡ number_of (p ∷ 0 ∷ 0 ∷ 0 ∷ [])
        → turned ≡ number_of (sub_word (rot_word (column k 3))) → key.now ≡ in_columns k
        → result ≡ in_columns (next_round_key p k) }
{
    let [a, b, c, d] = *key;
    let first = a ^ (turned ^ power);
    let second = b ^ first;
    let third = c ^ second;
    [first, second, third, d ^ third]
}

fn next_by_words(power: u32, key: &Columns) -> Columns
    ensures { (p : ℕ) (k : List ℕ) → p < 256 → IsBlock k → power ≡ number_of (p ∷ 0 ∷ 0 ∷ 0 ∷ [])
        → key.now ≡ in_columns k → result ≡ in_columns (next_round_key p k) }
{
    next_key(power, turned_by_words(key), key)
}

fn next_by_tables(power: u32, key: &Columns) -> Columns
    ensures { (p : ℕ) (k : List ℕ) → p < 256 → IsBlock k → power ≡ number_of (p ∷ 0 ∷ 0 ∷ 0 ∷ [])
        → key.now ≡ in_columns k → result ≡ in_columns (next_round_key p k) }
{
    next_key(power, turned_by_tables(key), key)
}

// The round keys of the ten rounds, each from the one before it by this function.
macro_rules! round_keys {
    ($key:expr, $next:ident) => {{
        let k0 = columns_of($key);
        let k1 = $next(0x0100_0000, &k0);
        let k2 = $next(0x0200_0000, &k1);
        let k3 = $next(0x0400_0000, &k2);
        let k4 = $next(0x0800_0000, &k3);
        let k5 = $next(0x1000_0000, &k4);
        let k6 = $next(0x2000_0000, &k5);
        let k7 = $next(0x4000_0000, &k6);
        let k8 = $next(0x8000_0000, &k7);
        let k9 = $next(0x1b00_0000, &k8);
        let k10 = $next(0x3600_0000, &k9);
        [
            bytes_of(&k1),
            bytes_of(&k2),
            bytes_of(&k3),
            bytes_of(&k4),
            bytes_of(&k5),
            bytes_of(&k6),
            bytes_of(&k7),
            bytes_of(&k8),
            bytes_of(&k9),
            bytes_of(&k10),
        ]
    }};
}

pub(crate) fn keys_by_words(key: &State) -> [State; 10]
    ensures { IsBlock key.now → result ≡ plain_keys key.now }
{
    round_keys!(key, next_by_words)
}

pub(crate) fn keys_by_tables(key: &State) -> [State; 10]
    ensures { IsBlock key.now → result ≡ plain_keys key.now }
{
    round_keys!(key, next_by_tables)
}
