//! Derived keys and texts of the example of a key update in the SHE specification.
use crate::blocks::{agrees_by_cbc, agrees_by_ecb, block, blocks};
use crate::comparing::holds;
use she_kdf::{Constant, compress, derive};

const AUTHORISING_KEY: u128 = 0x000102030405060708090a0b0c0d0e0f;

const NEW_KEY: u128 = 0x0f0e0d0c0b0a09080706050403020100;

/// Whether this is what is derived of the authorising key, and the compression of that key and the constant.
fn derives(constant: Constant, derived: u128) -> bool {
    let key = block(AUTHORISING_KEY);
    derive(&key, constant) == block(derived) && compress(&[key, constant.block()]) == block(derived)
}

#[test]
fn keys_of_the_she_example(rt: HostRuntime) {
    let k1 = derives(Constant::Enc, 0x118a46447a770d87828a69c222e2d17e);
    holds(&rt, "K1", k1);
    let k2 = derives(Constant::Mac, 0x2ebb2a3da62dbd64b18ba6493e9fbe22);
    holds(&rt, "K2", k2);
}

// The block of zeros under the key of zeros, to which only zeros are added.
#[test]
fn zero_block_by_itself(rt: HostRuntime) {
    let compressed = compress(&[block(0)]);
    let wanted = block(0x66e94bd4ef8a2c3b884cfa59ca342b2e);
    holds(&rt, "compressed", compressed == wanted);
}

/// The counter, the flags and zeros, and the new key; and M2.
const PLAIN: [u128; 2] = [0x00000010000000000000000000000000, NEW_KEY];

const M2: [u128; 2] = [
    0x2b111e2d93f486566bcbba1d7f7a9797,
    0xc94643b050fc5d4d7de14cff682203c3,
];

const COUNTER: u128 = 0x00000018000000000000000000000000;

/// The second half of M4.
const M4_END: u128 = 0xb472e8d8727d70d57295e74849a27917;

#[test]
fn texts_of_the_she_example(rt: HostRuntime) {
    let k1 = derive(&block(AUTHORISING_KEY), Constant::Enc);
    let m2 = agrees_by_cbc(&k1, 0, &blocks(PLAIN), &blocks(M2));
    holds(&rt, "M2", m2);
    let k3 = derive(&block(NEW_KEY), Constant::Enc);
    let m4 = agrees_by_ecb(&k3, &[block(COUNTER)], &[block(M4_END)]);
    holds(&rt, "M4", m4);
}
