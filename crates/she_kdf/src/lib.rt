//! Key derivation (SHE specification, key derivation): the compression of Miyaguchi and Preneel over AES-128.
//!
//! `compress`, of any number of blocks, and `derive` equal their definitions and give a block. No call
//! refuses or takes memory.
#![tactic(auto)]

ghost use Rattle.std.specs.Prelude.{◌≡◌, All};
ghost use Rattle.basics.specs.Blocks.{IsBlock};
ghost use Rattle.she_kdf.specs.Derivation.{next_out, miyaguchi_preneel, constant_block, kdf};

use she_aes::{Block, encrypt, expand};

// KEY_UPDATE_ENC_C of the SHE specification.
const ENC_BYTES: [u8; 16] = [
    1, 1, b'S', b'H', b'E', 0, 0x80, 0, 0, 0, 0, 0, 0, 0, 0, 0xb0,
];

// KEY_UPDATE_MAC_C of the SHE specification.
const MAC_BYTES: [u8; 16] = [
    1, 2, b'S', b'H', b'E', 0, 0x80, 0, 0, 0, 0, 0, 0, 0, 0, 0xb0,
];

/// What a derived key is for.
#[derive(Clone, Copy, Debug, PartialEq, Eq)]
pub enum Constant {
    /// To encrypt, as K1 and K3 of a key update: KEY_UPDATE_ENC_C.
    Enc,

    /// To authenticate, as K2 and K4 of a key update: KEY_UPDATE_MAC_C.
    Mac,
}

impl Constant {
    /// The 16 bytes of the constant: its text, the padding, and the length in bits of what is compressed.
    pub fn block(self) -> Block
        ensures value { result ≡ constant_block self }
        ensures is_block { IsBlock result }
    {
        match self {
            Constant::Enc => Block::of(ENC_BYTES),
            Constant::Mac => Block::of(MAC_BYTES),
        }
    }
}

// The output after one more block.
#[tactic(auto, unfolding(crate::specs::Derivation::next_out))]
fn step(out: &Block, block: &Block) -> Block
    ensures value { result ≡ next_out out.now block.now }
    ensures is_block { IsBlock result }
    ensures of_block { IsBlock block.now }
{
    let encrypted = encrypt(&expand(out), block);
    encrypted.xor(block).xor(out)
}

/// The compression of whole blocks, from the zero block on. Of no blocks it is the zero block.
#[tactic(auto, unfolding(crate::specs::Derivation::miyaguchi_preneel))]
pub fn compress<const N: usize>(blocks: &[Block; N]) -> Block
    ensures value { result ≡ miyaguchi_preneel blocks.now }
    ensures is_block { IsBlock result }
    ensures of_blocks { All IsBlock blocks.now }
{
    let mut out = Block::zero();
    for block in blocks {
        out = step(&out, block);
    }
    out
}

/// The key that is derived from a key: the compression of the key and the constant.
#[tactic(auto, unfolding(crate::specs::Derivation::kdf))]
pub fn derive(key: &Block, constant: Constant) -> Block
    ensures value { result ≡ kdf key.now constant }
    ensures is_block { IsBlock result }
    ensures of_block { IsBlock key.now }
{
    compress(&[*key, constant.block()])
}
