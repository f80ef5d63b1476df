// The blocks that the messages are made of.
ghost use Rattle.std.specs.Prelude.{◌≡◌, ◌+◌, ◌*◌, ◌^◌, ◌<◌};
ghost use Rattle.basics.specs.Numbers.{number_of, bytes_of};
ghost use Rattle.basics.specs.Blocks.{IsBlock};
ghost use Rattle.she_kdf.specs.Derivation.{kdf};
ghost use Rattle.key_slots.specs.Flags.{flags_number};
ghost use Rattle.memory_update.specs.Fields.{bit_field};
ghost use Rattle.memory_update.specs.Messages.{head_number, IsUid};

use crate::messages::Uid;
use crate::words::{place, take};
use key_slots::{Counter28, Flags, SlotId};
use she_aes::{Block, Schedule, expand};
use she_kdf::{Constant, derive};

// The round keys of the key that is derived from this one.
pub(crate) fn derived(key: &Block, constant: Constant) -> Schedule
    ensures schedule { result ≡ kdf key.now constant }
    ensures key { IsBlock key.now }
{
    expand(&derive(key, constant))
}

// UID, ID and AuthID: M1, and the first block of M4.
pub(crate) fn head_block(uid: &Uid, id: SlotId, auth: SlotId) -> Block
    ensures value { result ≡ bytes_of 16 (head_number uid.now id auth) }
    ensures uid { IsUid uid.now }
    ensures id { id < 14 }
    ensures auth { auth < 14 }
{
    let mut block = [id.number() * 16 + auth.number(); 16];
    block[..15].copy_from_slice(uid.as_slice());
    Block::of(block)
}

// A word that begins with the counter.
fn counter_word(counter: Counter28) -> u128
    ensures value { result ≡ counter * 2 ^ 100 }
    ensures fits { counter < 2 ^ 28 }
{
    place::<28>(0, 0, u128::from(counter.number()))
}

// The counter, the flags and zero padding: the first block of the plain text of M2.
pub(crate) fn plain_block(counter: Counter28, flags: Flags) -> Block
    ensures value { result ≡ bytes_of 16 (counter * 2 ^ 100 + flags_number flags * 2 ^ 95) }
    ensures fits { counter < 2 ^ 28 }
{
    let word = place::<5>(counter_word(counter), 28, u128::from(flags.number()));
    Block::of(word.to_be_bytes())
}

// The counter and a 1: the plain text of the second block of M4.
pub(crate) fn counter_block(counter: Counter28) -> Block
    ensures value { result ≡ bytes_of 16 (counter * 2 ^ 100 + 2 ^ 99) }
    ensures fits { counter < 2 ^ 28 }
{
    let word = place::<1>(counter_word(counter), 28, 1);
    Block::of(word.to_be_bytes())
}

// The counter in the first block of the plain text of M2.
pub(crate) fn counter_in(word: u128) -> Counter28
    ensures value { result ≡ bit_field 28 0 word }
    ensures bound { result < 2 ^ 28 }
{
    Counter28::new(take::<28>(word, 0) as u32).unwrap()
}

// The flags in that block.
pub(crate) fn flags_in(word: u128) -> Flags
    ensures { flags_number result ≡ bit_field 5 28 word }
{
    Flags::of(take::<5>(word, 28) as u8)
}

// The block as a big-endian number.
pub(crate) fn word_of(block: &Block) -> u128
    ensures { result ≡ number_of block.now }
{
    u128::from_be_bytes(*block.bytes())
}
