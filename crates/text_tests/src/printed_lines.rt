//! Lines that no replay over disks in memory prints: what a cut finds on a disk that doesn't tell bytes that fit, and
//! the longest line. The other texts are rows of checks/rows/bus_replay_runs.toml.
use crate::comparing::holds;
use basics::Pdu;
use bus_machine::{Line, Refusal};
use bus_script::write_line;
use memory_update::SlotId;
use std::alloc::Global;

/// Whether the text of a line is added.
fn adds(alloc: Global, number: u32, line: &Line, out: &mut Vec<u8>) -> bool {
    write_line(alloc, number, line, out).is_ok()
}

/// Whether the refusal at event 7 is written as this text.
fn is_written(alloc: Global, refusal: Refusal, text: &[u8]) -> bool {
    let mut out = Vec::new(alloc);
    adds(alloc, 7, &Line::Refused(refusal), &mut out) && out.as_slice() == text
}

/// What is found on such a disk.
enum Found {
    NoStore,
    Damage(u16),
    WrongSlot(u8),
    WrongBound(u16),
}

const FOUND: &[(Found, &[u8])] = &[
    (Found::NoStore, b"7 refused NotFormatted\n"),
    (Found::Damage(0), b"7 refused Damaged 0\n"),
    (Found::Damage(65_535), b"7 refused Damaged 65535\n"),
    (Found::WrongSlot(0), b"7 refused BadSlot 0\n"),
    (Found::WrongBound(14), b"7 refused BadBound 14\n"),
];

fn refusal_of(found: &Found) -> Option<Refusal> {
    match *found {
        Found::NoStore => Some(Refusal::NotFormatted),
        Found::Damage(place) => Some(Refusal::Damaged(place)),
        Found::WrongSlot(number) => SlotId::new(number).map(|slot| Refusal::BadSlot(slot)),
        Found::WrongBound(place) => Some(Refusal::BadBound(place)),
    }
}

fn has_words(alloc: Global, row: &(Found, &[u8])) -> bool {
    match refusal_of(&row.0) {
        Some(refusal) => is_written(alloc, refusal, row.1),
        None => false,
    }
}

#[test]
fn what_a_cut_finds_has_its_words(rt: HostRuntime) {
    for (place, row) in FOUND.iter().enumerate() {
        holds(&rt, place, has_words(rt.alloc(), row));
    }
}

/// Of 64 bytes 5a, after two short ones.
const LONGEST: &str =
    "1 up\n2 armed\n4294967295 accepted ffff ffffffffffffffff 5a5a5a5a5a5a5a5a5a5a5a5a5a5a5a5a5a5a5a5a5a5a5a5a5a5a5a5a5a5a5a5a5a5a5a5a5a5a5a5a5a5a5a5a5a5a5a5a5a5a5a5a5a5a5a5a5a5a5a5a5a5a5a5a from 4294967295\n";

fn longest() -> Option<Line> {
    Some(Line::Accepted {
        id: 0xffff,
        freshness: u64::MAX,
        payload: Pdu::of(&[0x5a; 64])?,
        from: Some(4_294_967_295),
    })
}

/// Whether the longest line is written after two others.
fn is_written_behind(alloc: Global, longest: &Line) -> bool {
    let mut out = Vec::new(alloc);
    adds(alloc, 1, &Line::Up, &mut out)
        && adds(alloc, 2, &Line::Armed, &mut out)
        && adds(alloc, 4_294_967_295, longest, &mut out)
        && out.as_slice() == LONGEST.as_bytes()
}

fn is_written_whole(alloc: Global) -> bool {
    match longest() {
        Some(line) => is_written_behind(alloc, &line),
        None => false,
    }
}

#[test]
fn lines_stand_one_behind_the_other_and_the_longest_is_written_whole(rt: HostRuntime) {
    holds(&rt, "three lines", is_written_whole(rt.alloc()));
}
