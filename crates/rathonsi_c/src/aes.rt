//! AES-128 over texts of whole blocks, in place, and its CMAC.
ghost use Rattle.std.specs.Prelude.{◌≡◌, ◌≢◌, ◌↔◌, ◌+◌, ◌≤◌, ◌%◌, ◌++◌, length, take, drop};
ghost use Rattle.std.specs.List.{concat};
ghost use Rattle.basics.specs.Blocks.{IsBlock};
ghost use Rattle.she_aes.specs.Modes.{ecb, ecb_inverse, cbc, cbc_inverse};
ghost use Rattle.she_cmac.specs.Cmac.{cmac};
ghost use Rattle.rathonsi_c.specs.Calls.{IsKey, TakesText, whole_blocks};

use crate::keys::schedule_of;
use crate::{BAD_LENGTH, OK};
use she_aes::{Block, Schedule, decrypt, encrypt};
use she_cmac::cmac;

/// Encrypts a text of whole blocks in place, each block by itself (ECB, SP 800-38A, section 6.1). The key has 16 bytes,
/// the text a multiple of 16, which may be 0; else it is `BAD_LENGTH`.
#[unsafe(no_mangle)]
pub extern "C" fn rathonsi_aes128_encrypt(key: &[u8], text: &mut [u8]) -> i32
    ensures done { (result ≡ OK) ↔ TakesText key.now text.old }
    ensures bad_length { (result ≡ BAD_LENGTH) ↔ ¬ TakesText key.now text.old }
    ensures value { result ≡ OK → text.new ≡ concat (ecb key.now (whole_blocks text.old)) }
    ensures unchanged { result ≢ OK → text.new ≡ text.old }
{
    let Some(schedule) = schedule_of(key) else {
        return BAD_LENGTH;
    };
    if text.len() % 16 != 0 {
        return BAD_LENGTH;
    }
    encrypt_blocks(&schedule, text);
    OK
}

/// Decrypts such a text in place (ECB, section 6.1).
#[unsafe(no_mangle)]
pub extern "C" fn rathonsi_aes128_decrypt(key: &[u8], text: &mut [u8]) -> i32
    ensures done { (result ≡ OK) ↔ TakesText key.now text.old }
    ensures bad_length { (result ≡ BAD_LENGTH) ↔ ¬ TakesText key.now text.old }
    ensures value { result ≡ OK → text.new ≡ concat (ecb_inverse key.now (whole_blocks text.old)) }
    ensures unchanged { result ≢ OK → text.new ≡ text.old }
{
    let Some(schedule) = schedule_of(key) else {
        return BAD_LENGTH;
    };
    if text.len() % 16 != 0 {
        return BAD_LENGTH;
    }
    decrypt_blocks(&schedule, text);
    OK
}

/// Encrypts a text of whole blocks in place, chained from an IV of 16 bytes (CBC, SP 800-38A, section 6.2). Lengths as
/// for [`rathonsi_aes128_encrypt`].
#[unsafe(no_mangle)]
pub extern "C" fn rathonsi_aes128_cbc_encrypt(key: &[u8], iv: &[u8; 16], text: &mut [u8]) -> i32
    ensures done { (result ≡ OK) ↔ TakesText key.now text.old }
    ensures bad_length { (result ≡ BAD_LENGTH) ↔ ¬ TakesText key.now text.old }
    ensures value { result ≡ OK → text.new ≡ concat (cbc key.now iv.now (whole_blocks text.old)) }
    ensures unchanged { result ≢ OK → text.new ≡ text.old }
{
    let Some(schedule) = schedule_of(key) else {
        return BAD_LENGTH;
    };
    if text.len() % 16 != 0 {
        return BAD_LENGTH;
    }
    encrypt_chain(&schedule, &Block::of(*iv), text);
    OK
}

/// Decrypts such a text in place (CBC, section 6.2).
#[unsafe(no_mangle)]
pub extern "C" fn rathonsi_aes128_cbc_decrypt(key: &[u8], iv: &[u8; 16], text: &mut [u8]) -> i32
    ensures done { (result ≡ OK) ↔ TakesText key.now text.old }
    ensures bad_length { (result ≡ BAD_LENGTH) ↔ ¬ TakesText key.now text.old }
    ensures value { result ≡ OK → text.new ≡ concat (cbc_inverse key.now iv.now (whole_blocks text.old)) }
    ensures unchanged { result ≢ OK → text.new ≡ text.old }
{
    let Some(schedule) = schedule_of(key) else {
        return BAD_LENGTH;
    };
    if text.len() % 16 != 0 {
        return BAD_LENGTH;
    }
    decrypt_chain(&schedule, &Block::of(*iv), text);
    OK
}

/// Writes the CMAC of a message of any length to `mac`, all 16 bytes (SP 800-38B, section 6.2). The key has 16 bytes;
/// else it is `BAD_LENGTH`.
#[unsafe(no_mangle)]
pub extern "C" fn rathonsi_cmac(key: &[u8], message: &[u8], mac: &mut [u8; 16]) -> i32
    ensures done { (result ≡ OK) ↔ IsKey key.now }
    ensures bad_length { (result ≡ BAD_LENGTH) ↔ ¬ IsKey key.now }
    ensures value { result ≡ OK → mac.new ≡ cmac key.now message.now }
    ensures unchanged { result ≢ OK → mac.new ≡ mac.old }
{
    let Some(schedule) = schedule_of(key) else {
        return BAD_LENGTH;
    };
    *mac = *cmac(&schedule, message).bytes();
    OK
}

// The block that begins at this place.
fn block_at(text: &[u8], at: usize) -> Block
    requires { at + 16 ≤ length text.now }
    ensures value { result ≡ take 16 (drop at text.now) }
    ensures is_block { IsBlock result }
{
    let mut bytes = [0; 16];
    bytes.copy_from_slice(&text[at..at + 16]);
    Block::of(bytes)
}

// Writes the block at this place.
fn put_block(text: &mut [u8], at: usize, block: &Block)
    requires { at + 16 ≤ length text.old }
    ensures front { take (at + 16) text.new ≡ take at text.old ++ block.now }
    ensures rest { drop (at + 16) text.new ≡ drop (at + 16) text.old }
{
    text[at..at + 16].copy_from_slice(block.as_slice());
}

// Encrypts each block of a text by itself.
fn encrypt_blocks(schedule: &Schedule, text: &mut [u8])
    requires { length text.old % 16 ≡ 0 }
    ensures { text.new ≡ concat (ecb schedule.now (whole_blocks text.old)) }
{
    for i in 0..text.len() / 16 {
        let block = block_at(text, 16 * i);
        put_block(text, 16 * i, &encrypt(schedule, &block));
    }
}

// Decrypts each block of a text by itself.
fn decrypt_blocks(schedule: &Schedule, text: &mut [u8])
    requires { length text.old % 16 ≡ 0 }
    ensures { text.new ≡ concat (ecb_inverse schedule.now (whole_blocks text.old)) }
{
    for i in 0..text.len() / 16 {
        let block = block_at(text, 16 * i);
        put_block(text, 16 * i, &decrypt(schedule, &block));
    }
}

// Encrypts the blocks of a text, each with the block of ciphertext before it, at first the IV.
fn encrypt_chain(schedule: &Schedule, iv: &Block, text: &mut [u8])
    requires { length text.old % 16 ≡ 0 }
    ensures { text.new ≡ concat (cbc schedule.now iv.now (whole_blocks text.old)) }
{
    let mut before = *iv;
    for i in 0..text.len() / 16 {
        let plain = block_at(text, 16 * i);
        before = encrypt(schedule, &plain.xor(&before));
        put_block(text, 16 * i, &before);
    }
}

// Decrypts the blocks of a text, each with the block of ciphertext before it, at first the IV.
fn decrypt_chain(schedule: &Schedule, iv: &Block, text: &mut [u8])
    requires { length text.old % 16 ≡ 0 }
    ensures { text.new ≡ concat (cbc_inverse schedule.now iv.now (whole_blocks text.old)) }
{
    let mut before = *iv;
    for i in 0..text.len() / 16 {
        let cipher = block_at(text, 16 * i);
        put_block(text, 16 * i, &decrypt(schedule, &cipher).xor(&before));
        before = cipher;
    }
}
