//! The forms of keys, blocks, Data IDs, freshness and PDUs.

ghost use Rattle.std.specs.Prelude.{◌≡◌, ◌≤◌, IfOk};
ghost use Rattle.secoc_words.specs.Forms.{key_form, two_form, data_id_form, fresh_form};
ghost use Rattle.text_lines.specs.Forms.{hex_bytes_form, bytes_form};

use crate::received_bytes::ReceivedBytes;
use basics::{Block, Pdu};
use hex::{FromHex, decode_to_slice};
use std::alloc::Global;
use text_lines::Memory;
use text_lines::forms::bytes;

/// A key, or another block of 16 bytes: 32 hexadecimal digits.
#[tactic(auto, unfolding(crate::specs::Forms::key_form))]
pub fn key(word: &[u8]) -> Option<Block>
    ensures { result ≡ key_form word.now }
{
    let bytes = <[u8; 16] as FromHex>::from_hex(word).ok()?;
    Some(Block::of(bytes))
}

/// Two blocks, one after the other: 64 hexadecimal digits.
#[tactic(auto, unfolding(crate::specs::Forms::two_form))]
pub fn two(word: &[u8]) -> Option<[Block; 2]>
    ensures { result ≡ two_form word.now }
{
    if word.len() != 64 {
        return None;
    }
    let (first, second) = word.split_at(32);
    Some([key(first)?, key(second)?])
}

/// A Data ID: four hexadecimal digits, the higher byte first.
#[tactic(auto, unfolding(crate::specs::Forms::data_id_form), using(crate::proofs::BigEndian::number_of_two))]
pub fn data_id(word: &[u8]) -> Option<u16>
    ensures { result ≡ data_id_form word.now }
{
    let bytes = <[u8; 2] as FromHex>::from_hex(word).ok()?;
    Some(u16::from_be_bytes(bytes))
}

/// A freshness: 16 hexadecimal digits, the highest byte first.
#[tactic(auto, unfolding(crate::specs::Forms::fresh_form), using(crate::proofs::BigEndian::number_of_eight))]
pub fn fresh(word: &[u8]) -> Option<u64>
    ensures { result ≡ fresh_form word.now }
{
    let bytes = <[u8; 8] as FromHex>::from_hex(word).ok()?;
    Some(u64::from_be_bytes(bytes))
}

/// Bytes that arrive, of any number: two hexadecimal digits a byte, or `-` for no bytes. Up to 64 bytes ask for no
/// memory.
#[tactic(auto, unfolding(text_lines::specs::Forms::bytes_form, text_lines::specs::Forms::hex_bytes_form))]
pub fn received(alloc: Global, word: &[u8]) -> Result<Option<ReceivedBytes>, Memory>
    ensures { IfOk result (λ found. found ≡ bytes_form word.now) }
{
    if word.len() < 2 || word.len() > 129 {
        return Ok(bytes(alloc, word)?.map(ReceivedBytes::of));
    }
    match pdu(word, 0, 64) {
        Some(pdu) => Ok(Some(ReceivedBytes::of_pdu(alloc, pdu))),
        None => Ok(None),
    }
}

/// A PDU of a number of bytes from `least` to `most`, which is at most 64: two hexadecimal digits a byte. No memory is
/// asked for.
#[tactic(auto, unfolding(text_lines::specs::Forms::hex_bytes_form))]
pub fn pdu(word: &[u8], least: usize, most: usize) -> Option<Pdu>
    requires { most ≤ 64 }
    ensures { result ≡ hex_bytes_form least most word.now }
{
    let count = word.len() / 2;
    if count < least || count > most {
        return None;
    }
    Pdu::filled_by(count, |bytes| decode_to_slice(word, bytes).is_ok())
}
