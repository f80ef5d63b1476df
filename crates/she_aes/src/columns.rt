// The state and the round keys as four words of 32 bits: a column each, its first row in the highest byte.
ghost use Rattle.std.specs.Prelude.{◌≡◌, ◌<◌, List, ℕ, [], ◌∷◌};
ghost use Rattle.basics.specs.Numbers.{number_of};
ghost use Rattle.she_aes.specs.Cipher.{IsBlock, circulant, add_round_key, shift_rows, mix_columns};
ghost use Rattle.she_aes.specs.Columns.{in_columns};

use crate::rounds::State;

// The four columns.
pub(crate) type Columns = [u32; 4];

// The columns of 16 bytes.
#[inline(always)]
pub(crate) fn columns_of(bytes: &State) -> Columns
    ensures { result ≡ in_columns bytes.now }
{
    let [a, b, c, d, e, f, g, h, i, j, k, l, m, n, o, p] = *bytes;
    [
        u32::from_be_bytes([a, b, c, d]),
        u32::from_be_bytes([e, f, g, h]),
        u32::from_be_bytes([i, j, k, l]),
        u32::from_be_bytes([m, n, o, p]),
    ]
}

// The 16 bytes of the columns.
#[inline(always)]
pub(crate) fn bytes_of(columns: &Columns) -> State
    ensures { (s : List ℕ) → IsBlock s → columns.now ≡ in_columns s → result ≡ s }
{
    let [first, second, third, fourth] = *columns;
    let [a, b, c, d] = first.to_be_bytes();
    let [e, f, g, h] = second.to_be_bytes();
    let [i, j, k, l] = third.to_be_bytes();
    let [m, n, o, p] = fourth.to_be_bytes();
    [a, b, c, d, e, f, g, h, i, j, k, l, m, n, o, p]
}

// AddRoundKey, with the key in bytes.
#[inline(always)]
pub(crate) fn with_key(key: &State, columns: &Columns) -> Columns
    ensures { (s : List ℕ) → IsBlock s → IsBlock key.now → columns.now ≡ in_columns s
        → result ≡ in_columns (add_round_key key.now s) }
{
    let [a, b, c, d] = *columns;
    let [k, l, m, n] = columns_of(key);
    [a ^ k, b ^ l, c ^ m, d ^ n]
}

// ShiftRows.
#[inline(always)]
pub(crate) fn shifted(columns: &Columns) -> Columns
    ensures { (s : List ℕ) → IsBlock s → columns.now ≡ in_columns s → result ≡ in_columns (shift_rows s) }
{
    let [a, b, c, d, e, f, g, h, i, j, k, l, m, n, o, p] = bytes_of(columns);
    columns_of(&[a, f, k, p, e, j, o, d, i, n, c, h, m, b, g, l])
}

// MixColumns.
#[inline(always)]
pub(crate) fn mixed(columns: &Columns) -> Columns
    ensures { (s : List ℕ) → IsBlock s → columns.now ≡ in_columns s → result ≡ in_columns (mix_columns s) }
{
    let [a, b, c, d] = *columns;
    [
        mixed_column(a),
        mixed_column(b),
        mixed_column(c),
        mixed_column(d),
    ]
}

// A column times the matrix of MixColumns.
#[inline(always)]
fn mixed_column(column: u32) -> u32
    ensures { (a b c d : ℕ) → a < 256 → b < 256 → c < 256 → d < 256 → column ≡ number_of (a ∷ b ∷ c ∷ d ∷ [])
        → result ≡ number_of (circulant 2 3 1 1 (a ∷ b ∷ c ∷ d ∷ [])) }
{
    let below = (column << 8) ^ (column >> 24);
    let sums = column ^ below;
    let carries = (sums >> 7) & 0x0101_0101;
    let products = carries ^ (carries << 1) ^ (carries << 3) ^ (carries << 4);
    let doubled = ((sums & 0x7f7f_7f7f) << 1) ^ products;
    doubled ^ below ^ (sums << 16) ^ (sums >> 16)
}
