//! Lists of bytes that are made and written.
use crate::comparing::holds;
use basics::*;
use std::alloc::Global;

/// Lengths of PDUs: none, the most of CAN, the most of CAN FD, and one more, which none has.
const LENGTHS: &[(usize, Option<usize>)] = &[
    (0, Some(0)),
    (1, Some(1)),
    (8, Some(8)),
    (64, Some(64)),
    (65, None),
];

/// Whether a PDU that is made of so many bytes, at most 65, has so many, or there is none.
fn is_made(len: usize, made: Option<usize>) -> bool {
    if len > 65 {
        return false;
    }
    match Pdu::of(&[0xa5; 65][..len]) {
        Some(pdu) => made == Some(pdu.bytes().len()),
        None => made.is_none(),
    }
}

#[test]
fn a_pdu_has_the_bytes_that_it_was_made_of(rt: HostRuntime) {
    for row in LENGTHS {
        holds(&rt, row.0, is_made(row.0, row.1));
    }
}

const WORD: &[u8; 3] = b"\x5a\xff\x01";

/// A PDU of so many bytes, into which these three are written, if they are so many.
fn filled(len: usize) -> Option<Pdu> {
    Pdu::filled_by(len, |bytes: &mut [u8]| {
        if bytes.len() != WORD.len() {
            return false;
        }
        bytes.copy_from_slice(WORD);
        true
    })
}

/// A PDU of so many bytes, into which nothing is written.
fn unfilled(len: usize) -> Option<Pdu> {
    Pdu::filled_by(len, |_bytes: &mut [u8]| true)
}

fn are_filled() -> bool {
    filled(3) == Pdu::of(WORD) && filled(4).is_none()
}

fn are_unfilled() -> bool {
    unfilled(64) == Pdu::of(&[0; 64]) && unfilled(65).is_none()
}

#[test]
fn a_pdu_has_the_bytes_that_are_written_into_it(rt: HostRuntime) {
    holds(&rt, "three bytes, and not four", are_filled());
    holds(&rt, "64 zeros, and not 65", are_unfilled());
}

/// Whether PDUs of these bytes are the same.
fn are_same(left: &[u8], right: &[u8]) -> bool {
    Pdu::of(left) == Pdu::of(right)
}

#[test]
fn pdus_are_the_same_where_their_bytes_are(rt: HostRuntime) {
    holds(&rt, "the same bytes", are_same(b"\x01\x00", b"\x01\x00"));
    holds(&rt, "another length", !are_same(b"\x01\x00", b"\x01"));
}

const WITH_ZERO: &[u8] = b"\x5a\xff\x00";

fn has_bytes(bytes: Bytes) -> bool {
    bytes.bytes() == WITH_ZERO && bytes.into_vec().as_slice() == WITH_ZERO
}

fn is_list(alloc: Global) -> bool {
    match [0x5a, 0xff, 0].to_vec(alloc) {
        Ok(bytes) => has_bytes(Bytes::of(bytes)),
        Err(_) => false,
    }
}

#[test]
fn bytes_are_those_of_the_vector(rt: HostRuntime) {
    holds(&rt, "bytes", is_list(rt.alloc()));
}

fn is_appended() -> bool {
    let mut out = [0xa5; 4];
    append(&mut out, 0, b"\x5a\xff") == 2
        && append(&mut out, 2, &[1]) == 3
        && out == *b"\x5a\xff\x01\xa5"
}

#[test]
fn bytes_are_written_one_behind_the_other(rt: HostRuntime) {
    holds(&rt, "three bytes", is_appended());
}
