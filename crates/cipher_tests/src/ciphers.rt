//! The examples of FIPS 197 and of SP 800-38A.
use crate::blocks::{agrees, agrees_by_cbc, agrees_by_ecb, block, blocks};
use crate::comparing::holds;

mod known_answers;

/// Key, text and ciphertext of FIPS 197, appendices B and C.1, and of SP 800-38A, F.1.1.
const VECTORS: &[(u128, u128, u128)] = &[
    (
        0x2b7e151628aed2a6abf7158809cf4f3c,
        0x3243f6a8885a308d313198a2e0370734,
        0x3925841d02dc09fbdc118597196a0b32,
    ),
    (
        0x000102030405060708090a0b0c0d0e0f,
        0x00112233445566778899aabbccddeeff,
        0x69c4e0d86a7b0430d8cdb78070b4c55a,
    ),
    (
        0x2b7e151628aed2a6abf7158809cf4f3c,
        0x6bc1bee22e409f96e93d7e117393172a,
        0x3ad77bb40d7a3660a89ecaf32466ef97,
    ),
];

/// The key of SP 800-38A, appendix F.
const KEY: u128 = 0x2b7e151628aed2a6abf7158809cf4f3c;

/// The first two blocks of its text.
const TEXT: [u128; 2] = [
    0x6bc1bee22e409f96e93d7e117393172a,
    0xae2d8a571e03ac9c9eb76fac45af8e51,
];

/// Those blocks encrypted by ECB (F.1.1).
const BY_ECB: [u128; 2] = [
    0x3ad77bb40d7a3660a89ecaf32466ef97,
    0xf5d3d58503b9699de785895a96fdbaaf,
];

/// The iv of F.2.1.
const IV: u128 = 0x000102030405060708090a0b0c0d0e0f;

/// Those blocks encrypted by CBC (F.2.1).
const BY_CBC: [u128; 2] = [
    0x7649abac8119b246cee98e9b12e9197d,
    0x5086cb9b507219ee95db113a917678b2,
];

#[test]
fn the_vectors_of_the_standards_are_encrypted_and_decrypted(rt: HostRuntime) {
    for row in VECTORS {
        holds(&rt, row.1, agrees(row.0, row.1, row.2));
    }
}

#[test]
fn two_blocks_are_encrypted_and_decrypted_by_each_mode(rt: HostRuntime) {
    let key = block(KEY);
    let text = blocks(TEXT);
    holds(&rt, "ECB", agrees_by_ecb(&key, &text, &blocks(BY_ECB)));
    holds(&rt, "CBC", agrees_by_cbc(&key, IV, &text, &blocks(BY_CBC)));
}

const SUM: [u8; 16] = *b"\x2b\x7f\x17\x15\x2c\xab\xd4\xa1\xa3\xfe\x1f\x83\x05\xc2\x41\x33";

#[test]
fn the_exclusive_or_of_blocks_goes_byte_by_byte(rt: HostRuntime) {
    let sum = block(KEY).xor(&block(IV));
    holds(&rt, "bytes", *sum.bytes() == SUM);
    holds(&rt, "as_slice", sum.as_slice() == SUM.as_slice());
}
