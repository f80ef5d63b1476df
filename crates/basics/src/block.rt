// A block: 16 bytes.

ghost use Rattle.std.specs.Prelude.{◌≡◌, Some, codes};
ghost use Rattle.basics.specs.Blocks.{IsBlock, zero_block, xor_blocks};

use std::fmt;
use std::marker::Model;
use std::simd::prelude::*;

/// A block of 16 bytes: a key, a text, or a value that is made of them. Printed for debugging it shows no byte, since
/// it may be a key.
#[derive(Clone, Copy, PartialEq, Eq)]
pub struct Block {
    bytes: [u8; 16],
}

impl Model for Block {
    ghost use Rattle.std.specs.Prelude.{List, ℕ};
    ghost use Rattle.basics.specs.Blocks.{IsBlock};

    ghost Value = { List ℕ };

    ghost view = { λ b. b.bytes };

    ghost invariant = { λ b. IsBlock b.bytes };

    ghost inverse = { λ bytes. record { bytes = bytes } };
}

impl Block {
    /// The block with these 16 bytes.
    pub fn of(bytes: [u8; 16]) -> Block
        ensures value { result ≡ bytes }
        ensures is_block { IsBlock result }
    {
        Block { bytes }
    }

    /// The block of zero bytes.
    pub fn zero() -> Block
        ensures value { result ≡ zero_block }
        ensures is_block { IsBlock result }
    {
        Block::of([0; 16])
    }

    /// The 16 bytes, in the standard's order.
    pub fn bytes(&self) -> &[u8; 16]
        ensures value { result.now ≡ self.now }
        ensures is_block { IsBlock self.now }
    {
        &self.bytes
    }

    /// The 16 bytes as a slice.
    pub fn as_slice(&self) -> &[u8]
        ensures value { result.now ≡ self.now }
        ensures is_block { IsBlock self.now }
    {
        &self.bytes
    }

    /// The exclusive or of the two blocks, byte by byte.
    pub fn xor(&self, other: &Block) -> Block
        ensures value { result ≡ xor_blocks self.now other.now }
        ensures is_block { IsBlock result }
        ensures of_blocks { IsBlock self.now × IsBlock other.now }
    {
        let sum = u8x16::from_array(self.bytes) ^ u8x16::from_array(other.bytes);
        Block::of(sum.to_array())
    }
}

// The name of the type, and no byte.
impl fmt::Debug for Block {
    ghost debug_output = { λ _. Some (codes "Block") };

    fn fmt<W: fmt::Write>(&self, f: &mut fmt::Formatter<W>) -> fmt::Result {
        f.write_str("Block")
    }
}
