//! Modes of operation of AES-128 (NIST SP 800-38A), over arrays of whole blocks.
//!
//! No call refuses, takes memory or pads.
ghost use Rattle.std.specs.Prelude.{◌≡◌, All};
ghost use Rattle.she_aes.specs.Cipher.{IsBlock};
ghost use Rattle.she_aes.specs.Modes.{ecb, ecb_inverse, cbc, cbc_inverse};

use crate::{Block, Schedule, decrypt, encrypt};

/// ECB encryption (section 6.1): each block by itself.
pub fn ecb_encrypt<const N: usize>(schedule: &Schedule, text: &[Block; N]) -> [Block; N]
    ensures value { result ≡ ecb schedule.now text.now }
    ensures are_blocks { All IsBlock result }
    ensures of_blocks { All IsBlock text.now }
{
    let mut out = *text;
    for (i, block) in text.iter().enumerate() {
        out[i] = encrypt(schedule, block);
    }
    out
}

/// ECB decryption (section 6.1): each block by itself.
pub fn ecb_decrypt<const N: usize>(schedule: &Schedule, text: &[Block; N]) -> [Block; N]
    ensures value { result ≡ ecb_inverse schedule.now text.now }
    ensures are_blocks { All IsBlock result }
    ensures of_blocks { All IsBlock text.now }
{
    let mut out = *text;
    for (i, block) in text.iter().enumerate() {
        out[i] = decrypt(schedule, block);
    }
    out
}

/// CBC encryption (section 6.2) from the given IV.
pub fn cbc_encrypt<const N: usize>(schedule: &Schedule, iv: &Block, text: &[Block; N]) -> [Block; N]
    ensures value { result ≡ cbc schedule.now iv.now text.now }
    ensures are_blocks { All IsBlock result }
    ensures of_blocks { All IsBlock text.now }
{
    let mut before = *iv;
    let mut out = *text;
    for (i, block) in text.iter().enumerate() {
        let cipher = encrypt(schedule, &block.xor(&before));
        out[i] = cipher;
        before = cipher;
    }
    out
}

/// CBC decryption (section 6.2) from the given IV.
pub fn cbc_decrypt<const N: usize>(schedule: &Schedule, iv: &Block, text: &[Block; N]) -> [Block; N]
    ensures value { result ≡ cbc_inverse schedule.now iv.now text.now }
    ensures are_blocks { All IsBlock result }
    ensures of_blocks { All IsBlock text.now }
{
    let mut before = *iv;
    let mut out = *text;
    for (i, block) in text.iter().enumerate() {
        out[i] = decrypt(schedule, block).xor(&before);
        before = *block;
    }
    out
}
