// The cipher over words of 32 bits, bit by bit, for processors that shuffle no bytes. It reads no table, and no place
// depends on the key or the text.
ghost use Rattle.std.specs.Prelude.{◌≡◌, List, ℕ};
ghost use Rattle.she_aes.specs.Cipher.{IsBlock, add_round_key, sub_bytes, shift_rows, mix_columns, enc};
ghost use Rattle.she_aes.specs.Columns.{in_columns};
ghost use Rattle.she_aes.specs.RoundKeys.{IsPlainUnder};

use crate::columns::{Columns, bytes_of, columns_of, mixed, shifted, with_key};
use crate::planes::sub_bytes;
use crate::rounds::State;
use basics::Block;

// A round of the cipher but the last.
fn round(key: &State, columns: &Columns) -> Columns
    ensures { (s : List ℕ) → IsBlock s → IsBlock key.now → columns.now ≡ in_columns s
        → result ≡ in_columns (add_round_key key.now (mix_columns (shift_rows (sub_bytes s)))) }
{
    with_key(key, &mixed(&shifted(&sub_bytes(columns))))
}

// The last round, which has no MixColumns.
fn last_round(key: &State, columns: &Columns) -> Columns
    ensures { (s : List ℕ) → IsBlock s → IsBlock key.now → columns.now ≡ in_columns s
        → result ≡ in_columns (add_round_key key.now (shift_rows (sub_bytes s))) }
{
    with_key(key, &shifted(&sub_bytes(columns)))
}

// The block encrypted, from the round keys.
pub(crate) fn encrypted(key: &State, plain: &[State; 10], block: &Block) -> Block
    ensures value { IsPlainUnder key.now plain.now → result ≡ enc key.now block.now }
    ensures is_block { IsBlock result }
    ensures of_block { IsBlock block.now }
{
    let s0 = with_key(key, &columns_of(block.bytes()));
    let s1 = round(&plain[0], &s0);
    let s2 = round(&plain[1], &s1);
    let s3 = round(&plain[2], &s2);
    let s4 = round(&plain[3], &s3);
    let s5 = round(&plain[4], &s4);
    let s6 = round(&plain[5], &s5);
    let s7 = round(&plain[6], &s6);
    let s8 = round(&plain[7], &s7);
    let s9 = round(&plain[8], &s8);
    let s10 = last_round(&plain[9], &s9);
    Block::of(bytes_of(&s10))
}
