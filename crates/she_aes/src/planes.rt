// SubBytes over words of 32 bits, bit by bit: neither a table nor a place depends on the state.
//
// Bit k of each byte of the state stands in plane k, in a lane of its own: that of byte r of column c, counted from the
// lowest byte, is bit 8 * r + c. The other lanes are of no account.
ghost use Rattle.std.specs.Prelude.{◌≡◌, ◌+◌, ◌*◌, ◌<◌, List, ℕ, slice_index};
ghost use Rattle.std.specs.Int.{bit_at};
ghost use Rattle.she_aes.specs.Cipher.{IsBlock, sub_bytes};
ghost use Rattle.she_aes.specs.Columns.{in_columns};

use crate::circuits::{Planes, substituted};
use crate::columns::Columns;

// The constant of the S-box, in each byte.
const CONSTANT: u32 = 0x6363_6363;

// The even and the odd bits of a word, and its even and odd pairs of bits.
const EVEN_BITS: u32 = 0x5555_5555;

const ODD_BITS: u32 = 0xaaaa_aaaa;

const EVEN_PAIRS: u32 = 0x3333_3333;

const ODD_PAIRS: u32 = 0xcccc_cccc;

// The low nibble of each byte of a word.
const LOW_NIBBLES: u32 = 0x0f0f_0f0f;

// SubBytes.
pub(crate) fn sub_bytes(columns: &Columns) -> Columns
    ensures { (s : List ℕ) → IsBlock s → columns.now ≡ in_columns s → result ≡ in_columns (sub_bytes s) }
{
    let planes = planes_of(columns);
    let boxed = columns_of(&substituted(&planes));
    let [a, b, c, d] = boxed;
    [a ^ CONSTANT, b ^ CONSTANT, c ^ CONSTANT, d ^ CONSTANT]
}

// The planes of a state.
#[inline(always)]
fn planes_of(columns: &Columns) -> Planes
    ensures { (r c k : ℕ) → r < 4 → c < 4 → k < 8
        → bit_at (slice_index result k) (8 * r + c) ≡ bit_at (slice_index columns.now c) (8 * r + k) }
{
    let [a, b, c, d] = turned(columns);
    [a, b, c, d, a >> 4, b >> 4, c >> 4, d >> 4]
}

// The state of these planes.
#[inline(always)]
fn columns_of(planes: &Planes) -> Columns
    ensures { (r c k : ℕ) → r < 4 → c < 4 → k < 8
        → bit_at (slice_index result c) (8 * r + k) ≡ bit_at (slice_index planes.now k) (8 * r + c) }
{
    let [a, b, c, d, e, f, g, h] = *planes;
    turned(&[nibbles(a, e), nibbles(b, f), nibbles(c, g), nibbles(d, h)])
}

// The low nibble of each byte as in the first word, and the high one as the low one of the second.
#[inline(always)]
fn nibbles(low: u32, high: u32) -> u32
    ensures low { (r c : ℕ) → r < 4 → c < 4 → bit_at result (8 * r + c) ≡ bit_at low (8 * r + c) }
    ensures high { (r c : ℕ) → r < 4 → c < 4 → bit_at result (8 * r + 4 + c) ≡ bit_at high (8 * r + c) }
{
    (low & LOW_NIBBLES) ^ ((high & LOW_NIBBLES) << 4)
}

// In each nibble of the four words, bit i of word j goes to bit j of word i.
#[inline(always)]
fn turned(words: &Columns) -> Columns
    ensures { (q i j : ℕ) → q < 8 → i < 4 → j < 4
        → bit_at (slice_index result i) (4 * q + j) ≡ bit_at (slice_index words.now j) (4 * q + i) }
{
    let [a, b, c, d] = *words;
    let e = (a & EVEN_BITS) ^ ((b & EVEN_BITS) << 1);
    let f = ((a >> 1) & EVEN_BITS) ^ (b & ODD_BITS);
    let g = (c & EVEN_BITS) ^ ((d & EVEN_BITS) << 1);
    let h = ((c >> 1) & EVEN_BITS) ^ (d & ODD_BITS);
    [
        (e & EVEN_PAIRS) ^ ((g & EVEN_PAIRS) << 2),
        (f & EVEN_PAIRS) ^ ((h & EVEN_PAIRS) << 2),
        ((e >> 2) & EVEN_PAIRS) ^ (g & ODD_PAIRS),
        ((f >> 2) & EVEN_PAIRS) ^ (h & ODD_PAIRS),
    ]
}
