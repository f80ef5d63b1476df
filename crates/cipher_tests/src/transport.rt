//! Wrapped keys (RFC 3394, 4.1), and keys derived from a master key beside those of another program.
use crate::blocks::block;
use crate::comparing::holds;
use unit_keys::{SlotId, Uid, unit_key, unwrap, wrap};

// The example of 128 bits of key data under 128 bits of key (RFC 3394, 4.1).
const WRAPPING_KEY: u128 = 0x000102030405060708090a0b0c0d0e0f;

const KEY_DATA: u128 = 0x00112233445566778899aabbccddeeff;

const WRAPPED: [u8; 24] = [
    0x1f, 0xa6, 0x8b, 0x0a, 0x81, 0x12, 0xb4, 0x47, 0xae, 0xf3, 0x4b, 0xd8, 0xfb, 0x5a, 0x7b, 0x82,
    0x9d, 0x3e, 0x86, 0x23, 0x71, 0xd2, 0xcf, 0xe5,
];

#[test]
fn key_of_the_example_is_wrapped(rt: HostRuntime) {
    let wrapped = wrap(&block(WRAPPING_KEY), &block(KEY_DATA));
    holds(&rt, "wrapped", wrapped == WRAPPED);
    let plain = unwrap(&block(WRAPPING_KEY), &WRAPPED);
    holds(&rt, "unwrapped", plain == Some(block(KEY_DATA)));
}

#[test]
fn altered_text_wraps_no_key(rt: HostRuntime) {
    let mut altered = WRAPPED;
    altered[23] ^= 1;
    let plain = unwrap(&block(WRAPPING_KEY), &altered);
    holds(&rt, "altered", plain.is_none());
}

/// The key of this slot of the unit with this UID under the master key of the example.
fn derives(uid: [u8; 15], slot: u8, derived: u128) -> bool {
    let Some(id) = SlotId::new(slot) else {
        return false;
    };
    unit_key(&block(WRAPPING_KEY), &Uid::of(uid), id) == block(derived)
}

// Another program's: counter mode of SP 800-108, with CMAC, a counter and a length of 32 bits.
#[test]
fn keys_of_two_units_are_derived(rt: HostRuntime) {
    let first = [0, 0, 0, 0, 0, 0, 0, 0, 0, 0, 0, 0, 0, 0, 1];
    let second = [0, 0, 0, 0, 0, 0, 0, 0, 0, 0, 0, 0, 0, 0, 2];
    let of_first = derives(first, 4, 0x934723cd517ca152ab32eb356b329f31);
    holds(&rt, "first", of_first);
    let of_second = derives(second, 13, 0xff321a7f8b0504c8a12e1de7ac4cfe3d);
    holds(&rt, "second", of_second);
}
