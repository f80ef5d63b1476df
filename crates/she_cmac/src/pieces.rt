//! The CMAC of a message (SP 800-38B, section 6.2), whole or in pieces.
ghost use Rattle.std.specs.Prelude.{◌≡◌, ◌≤◌, map};
ghost use Rattle.std.specs.List.{concat};
ghost use Rattle.basics.specs.Blocks.{IsBlock};
ghost use Rattle.she_cmac.specs.Cmac.{cmac};

use crate::subkeys::{first_subkey, second_subkey};
use she_aes::{Block, Schedule, encrypt};

/// What a [`Mac`] keeps beside its key: for a caller that keeps it between calls.
#[derive(Clone, Copy)]
pub struct MacParts {
    /// The chained value of the blocks before the last one.
    pub chain: [u8; 16],
    /// The block that may be the last one, filled up with zeros.
    pub block: [u8; 16],
    /// How many bytes of it were given, at most 16.
    pub filled: u8,
}

/// The CMAC of the bytes given so far: the chained value of the whole blocks, and the block that may be the last one.
#[derive(Drop)]
pub struct Mac<'a> {
    schedule: &'a Schedule,
    chain: Block,
    block: [u8; 16],
    filled: usize,
    ghost within: { filled ≤ 16 },
}

impl<'a> Mac<'a> {
    ghost use Rattle.std.specs.Prelude.{◌≡◌, ◌-◌, ◌<◌, ◌≤◌, ℕ, List, [], ◌∷◌, ◌++◌, length, min, take, IfNone, IfSome};
    ghost use Rattle.basics.specs.Blocks.{IsBlock};
    ghost use Rattle.she_cmac.specs.Cmac.{cmac, last_block};
    ghost use Rattle.she_cmac.specs.Took.{Holds, Took, TookParts};

    /// A MAC under this key that was given no byte yet.
    pub fn new(schedule: &'a Schedule) -> Mac<'a>
        ensures { Took schedule.now [] result }
    {
        Mac {
            schedule,
            chain: Block::zero(),
            block: [0; 16],
            filled: 0,
        }
    }

    /// What it keeps beside the key.
    pub fn parts(&self) -> MacParts
        ensures { (key message : List ℕ) → Took key message self.now → TookParts key message result }
    {
        MacParts {
            chain: *self.chain.bytes(),
            block: self.block,
            filled: self.filled as u8,
        }
    }

    /// The MAC that keeps this, under the same key; `None` if it keeps more than a block.
    pub fn from_parts(schedule: &'a Schedule, parts: &MacParts) -> Option<Mac<'a>>
        ensures none { IfNone result (16 < parts.now.filled) }
        ensures within { IfSome result (λ _. parts.now.filled ≤ 16) }
        ensures some { IfSome result (λ mac. (message : List ℕ) → TookParts schedule.now message parts.now
            → Took schedule.now message mac) }
    {
        if parts.filled > 16 {
            return None;
        }
        Some(Mac {
            schedule,
            chain: Block::of(parts.chain),
            block: parts.block,
            filled: usize::from(parts.filled),
        })
    }

    /// Takes the next bytes of the message, in pieces of any length.
    pub fn update(&mut self, bytes: &[u8])
        ensures { (key message : List ℕ) → Took key message self.old → Took key (message ++ bytes.now) self.new }
    {
        let mut done = 0;
        while done < bytes.len() {
            done += self.take(&bytes[done..]);
        }
    }

    /// The CMAC of all bytes given so far.
    pub fn finish(&self) -> Block
        ensures value { (key message : List ℕ) → Took key message self.now → result ≡ cmac key message }
        ensures is_block { IsBlock result }
    {
        let last = self.last_block();
        let mixed = self.chain.xor(&last);
        encrypt(self.schedule, &mixed)
    }

    // The last block of the message, complete or padded, with its subkey.
    fn last_block(&self) -> Block
        ensures { (key piece : List ℕ) (blocks : List (List ℕ)) → Holds key blocks piece self.now
            → result ≡ last_block key piece }
    {
        if self.filled == 16 {
            return Block::of(self.block).xor(&first_subkey(self.schedule));
        }
        let mut padded = self.block;
        padded[self.filled] = 0x80;
        Block::of(padded).xor(&second_subkey(self.schedule))
    }

    // Takes bytes from the beginning of these, up to the end of a block, and says how many. A block that is complete is
    // chained only when another byte comes after it.
    fn take(&mut self, bytes: &[u8]) -> usize
        requires { 0 < length bytes.now }
        ensures some { 0 < result × result ≤ length bytes.now }
        ensures took { (key message : List ℕ) → Took key message self.old
            → Took key (message ++ take result bytes.now) self.new }
    {
        if self.filled < 16 {
            return self.keep(bytes);
        }
        self.chain_block();
        self.keep(bytes)
    }

    // Chains the block that is kept, which is complete.
    fn chain_block(&mut self)
        requires { self.old.filled ≡ 16 }
        ensures chained { (key piece : List ℕ) (blocks : List (List ℕ)) → Holds key blocks piece self.old
            → Holds key (blocks ++ piece ∷ []) [] self.new }
        ensures empty { self.new.filled ≡ 0 }
    {
        self.chain = encrypt(self.schedule, &self.chain.xor(&Block::of(self.block)));
        self.block = [0; 16];
        self.filled = 0;
    }

    // Keeps the block at the beginning of these bytes, if nothing is kept.
    fn keep_block(&mut self, bytes: &[u8])
        requires { 16 ≤ length bytes.now }
        ensures { (key : List ℕ) (blocks : List (List ℕ)) → Holds key blocks [] self.old
            → Holds key blocks (take 16 bytes.now) self.new }
    {
        self.block.copy_from_slice(&bytes[..16]);
        self.filled = 16;
    }

    // Keeps, after the bytes that are kept, as many of these as fit, and says how many. A whole block is taken as one.
    fn keep(&mut self, bytes: &[u8]) -> usize
        ensures count { result ≡ min (length bytes.now) (16 - self.old.filled) }
        ensures kept { (key piece : List ℕ) (blocks : List (List ℕ)) → Holds key blocks piece self.old
            → Holds key blocks (piece ++ take result bytes.now) self.new }
    {
        if self.filled == 0 && bytes.len() >= 16 {
            self.keep_block(bytes);
            return 16;
        }
        let count = bytes.len().min(16 - self.filled);
        let end = self.filled + count;
        self.block[self.filled..end].copy_from_slice(&bytes[..count]);
        self.filled = end;
        count
    }
}

/// The CMAC of the message under this key: all 16 bytes; a shorter tag is its first bytes.
pub fn cmac(schedule: &Schedule, message: &[u8]) -> Block
    ensures value { result ≡ cmac schedule.now message.now }
    ensures is_block { IsBlock result }
{
    let mut mac = Mac::new(schedule);
    mac.update(message);
    mac.finish()
}

/// The CMAC of the message that these parts make, one after another.
pub fn cmac_of_parts(schedule: &Schedule, parts: &[&[u8]]) -> Block
    ensures value { result ≡ cmac schedule.now (concat (map (λ part. part.now) parts.now)) }
    ensures is_block { IsBlock result }
{
    let mut mac = Mac::new(schedule);
    for part in parts {
        mac.update(part);
    }
    mac.finish()
}
