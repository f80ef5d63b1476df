//! Blocks as numbers, and what a test asks of each mode of the cipher.
use she_aes::{
    Block, Schedule, cbc_decrypt, cbc_encrypt, decrypt, ecb_decrypt, ecb_encrypt, encrypt,
    encrypt_by_shuffles, encrypt_by_tables, encrypt_by_words, expand,
};

/// The block of this number, big-endian.
pub(crate) fn block(number: u128) -> Block {
    Block::of(number.to_be_bytes())
}

/// The schedule of the key of this number.
pub(crate) fn schedule(key: u128) -> Schedule {
    expand(&block(key))
}

/// Whether the text is encrypted to the ciphertext under the key, by each of the three ciphers, and
/// the ciphertext decrypted to the text.
pub(crate) fn agrees(key: u128, text: u128, ciphertext: u128) -> bool {
    let schedule = schedule(key);
    encrypt(&schedule, &block(text)) == block(ciphertext)
        && by_each(&block(key), &block(text)) == [block(ciphertext); 3]
        && decrypt(&schedule, &block(ciphertext)) == block(text)
}

/// What each of the three ciphers gives.
pub(crate) fn by_each(key: &Block, text: &Block) -> [Block; 3] {
    [
        encrypt_by_shuffles(key, text),
        encrypt_by_words(key, text),
        encrypt_by_tables(key, text),
    ]
}

/// The blocks of these numbers.
pub(crate) fn blocks(numbers: [u128; 2]) -> [Block; 2] {
    [block(numbers[0]), block(numbers[1])]
}

/// Whether whole blocks are encrypted to these by ECB, and decrypted back.
pub(crate) fn agrees_by_ecb<const N: usize>(
    key: &Block,
    text: &[Block; N],
    ciphertext: &[Block; N],
) -> bool {
    let schedule = expand(key);
    ecb_encrypt(&schedule, text) == *ciphertext && ecb_decrypt(&schedule, ciphertext) == *text
}

/// The same by CBC with this initial vector.
pub(crate) fn agrees_by_cbc(
    key: &Block,
    iv: u128,
    text: &[Block; 2],
    ciphertext: &[Block; 2],
) -> bool {
    let schedule = expand(key);
    let iv = block(iv);
    cbc_encrypt(&schedule, &iv, text) == *ciphertext
        && cbc_decrypt(&schedule, &iv, ciphertext) == *text
}
