//! Links that a collection can't have, and payloads without the bytes of theirs. A script of pairs hands no such link
//! on: its words are refused before. What a part has, and how arrivals join, are rows of checks/rows/pairing.toml.
use crate::comparing::{holds, same};
use pdu_collection::Linker;
use she_aes::{Block, expand};

/// A place and a number of bytes, and whether they are a link.
const LINKS: &[(u8, u8, bool)] = &[
    (0, 1, true),
    (0, 0, false),
    (0, 5, false),
    (56, 4, true),
    (57, 4, false),
    (59, 1, true),
    (60, 1, false),
    (255, 2, false),
];

#[test]
fn links_are_1_to_4_bytes_of_the_first_60(rt: HostRuntime) {
    for (place, (at, size, is_link)) in LINKS.iter().enumerate() {
        same(&rt, place, &Linker::new(*at, *size).is_some(), is_link);
    }
}

/// Links that a payload of five bytes hasn't.
const BEHIND: &[(u8, u8)] = &[(4, 2), (5, 1)];

/// Whether such a payload has no part, and the buffer is as it was.
fn has_no_part(link: &(u8, u8)) -> bool {
    let Some(linker) = Linker::new(link.0, link.1) else {
        return false;
    };
    let schedule = expand(&Block::of([0x5a; 16]));
    let payload = [0x11, 0x22, 0x33, 0x44, 0x55];
    let mut out = [0xee; 8];
    let part = linker.part(&schedule, 0x6bc1, &payload, 7, &mut out);
    part.is_none() && out == [0xee; 8]
}

#[test]
fn a_payload_without_the_bytes_of_its_link_has_no_part(rt: HostRuntime) {
    for (place, link) in BEHIND.iter().enumerate() {
        holds(&rt, place, has_no_part(link));
    }
}
