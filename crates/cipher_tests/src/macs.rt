//! The examples of NIST for the CMAC over AES-128 (SP 800-38B, appendix D.1, and its example of 20 bytes), whole and in
//! pieces.
use crate::blocks::{block, schedule};
use crate::comparing::holds;
use she_cmac::{Block, Mac, cmac, cmac_of_parts};

const KEY: u128 = 0x2b7e1516_28aed2a6_abf71588_09cf4f3c;

const MESSAGE: [u8; 64] = [
    0x6b, 0xc1, 0xbe, 0xe2, 0x2e, 0x40, 0x9f, 0x96, 0xe9, 0x3d, 0x7e, 0x11, 0x73, 0x93, 0x17, 0x2a,
    0xae, 0x2d, 0x8a, 0x57, 0x1e, 0x03, 0xac, 0x9c, 0x9e, 0xb7, 0x6f, 0xac, 0x45, 0xaf, 0x8e, 0x51,
    0x30, 0xc8, 0x1c, 0x46, 0xa3, 0x5c, 0xe4, 0x11, 0xe5, 0xfb, 0xc1, 0x19, 0x1a, 0x0a, 0x52, 0xef,
    0xf6, 0x9f, 0x24, 0x45, 0xdf, 0x4f, 0x9b, 0x17, 0xad, 0x2b, 0x41, 0x7b, 0xe6, 0x6c, 0x37, 0x10,
];

const MACS: &[(usize, u128)] = &[
    (0, OF_NOTHING),
    (16, 0x070a16b4_6b4d4144_f79bdd9d_d04a287c),
    (20, 0x7d85449e_a6ea19c8_23a7bf78_837dfade),
    (40, 0xdfa66747_de9ae630_30ca3261_1497c827),
    (64, OF_ALL),
];

const OF_NOTHING: u128 = 0xbb1d6929_e9593728_7fa37d12_9b756746;

const OF_ALL: u128 = 0x51f0bebf_7e3b9d92_fc497417_79363cfe;

/// Whether this is the MAC of so many bytes of the message.
fn is_mac_of_front(length: usize, mac: u128) -> bool {
    length <= 64 && cmac(&schedule(KEY), &MESSAGE[..length]) == block(mac)
}

#[test]
fn gives_the_values_of_the_standard(rt: HostRuntime) {
    for row in MACS {
        holds(&rt, row.0, is_mac_of_front(row.0, row.1));
    }
}

/// The MAC of the message in three pieces.
fn mac_of_pieces() -> Block {
    let schedule = schedule(KEY);
    let mut mac = Mac::new(&schedule);
    mac.update(&MESSAGE[..1]);
    mac.update(&MESSAGE[1..16]);
    mac.update(&MESSAGE[16..]);
    mac.finish()
}

#[test]
fn gives_the_same_in_any_pieces(rt: HostRuntime) {
    holds(&rt, "pieces", mac_of_pieces() == block(OF_ALL));
}

/// Whether this is the MAC of these parts.
fn is_mac_of(parts: &[&[u8]], mac: u128) -> bool {
    cmac_of_parts(&schedule(KEY), parts) == block(mac)
}

/// Whether this is the MAC of the message in two parts, the first of so many bytes.
fn is_mac_of_two(at: usize, mac: u128) -> bool {
    at <= 64 && is_mac_of(&[&MESSAGE[..at], &MESSAGE[at..]], mac)
}

#[test]
fn gives_the_same_of_parts(rt: HostRuntime) {
    holds(&rt, "no parts", is_mac_of(&[], OF_NOTHING));
    for at in 0..65 {
        holds(&rt, at, is_mac_of_two(at, OF_ALL));
    }
}
