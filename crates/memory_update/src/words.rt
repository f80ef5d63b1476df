//! Bit fields of a word of 128 bits, counted from its top.
ghost use Rattle.std.specs.Prelude.{◌≡◌, ◌+◌, ◌^◌, ◌<◌, ◌≤◌};
ghost use Rattle.memory_update.specs.Fields.{bit_field, with_bit_field};

/// The `W` bits of the word that begin `at` bits below its top, as a number.
#[tactic(auto, using(crate::proofs::FieldSteps::field_taken))]
pub fn take<const W: u32>(word: u128, at: u32) -> u128
    requires width { 1 ≤ W × W ≤ 127 }
    requires inside { at + W ≤ 128 }
    ensures value { result ≡ bit_field W at word }
    ensures bound { result < 2 ^ W }
{
    (word >> (128 - at - W)) & ((1 << W) - 1)
}

/// The word with the `W` bits that begin `at` bits below its top set to `value`. These bits of the
/// word are zero before.
#[tactic(auto, using(crate::proofs::FieldSteps::field_placed, crate::proofs::FieldSteps::field_taken_again))]
pub fn place<const W: u32>(word: u128, at: u32, value: u128) -> u128
    requires width { 1 ≤ W × W ≤ 127 }
    requires inside { at + W ≤ 128 }
    requires fits { value < 2 ^ W }
    requires zero { bit_field W at word ≡ 0 }
    ensures value { result ≡ with_bit_field W at value word }
    ensures taken { bit_field W at result ≡ value }
{
    word | (value << (128 - at - W))
}
