//! The parts of a frame, and lengths that are none of a frame, under the key of NIST's examples for the CMAC. The input
//! is the example of 16 bytes.
use crate::blocks::{block, schedule};
use crate::comparing::holds;
use counter_answers::{CounterQuestion, answer_input, answer_with, counter_with};
use secured_pdu::{assemble, build, input_bytes, input_mac, split};
use she_cmac::{Block, cmac};

const KEY: u128 = 0x2b7e1516_28aed2a6_abf71588_09cf4f3c;

const ID: u16 = 0x6bc1;

/// The payload, and the freshness after it.
const INPUT: [u8; 14] = [
    0xbe, 0xe2, 0x2e, 0x40, 0x9f, 0x96, 0xe9, 0x3d, 0x7e, 0x11, 0x73, 0x93, 0x17, 0x2a,
];

const PDU: [u8; 10] = [0xbe, 0xe2, 0x2e, 0x40, 0x9f, 0x96, 0x2a, 0x07, 0x0a, 0x16];

/// The freshness of this PDU.
const FRESHNESS: u64 = 0xe93d7e11_7393172a;

/// Whether the input of the CMAC is the Data ID, the payload and the freshness.
fn has_input() -> bool {
    let mut input = [0; 70];
    input_bytes(ID, &INPUT[..6], FRESHNESS, &mut input) == 16
        && &input[..2] == [0x6b, 0xc1].as_slice()
        && &input[2..16] == INPUT.as_slice()
}

/// Whether the PDU is what is assembled of its payload, its freshness and the CMAC of its input.
fn is_assembled() -> bool {
    let mac = input_mac(&schedule(KEY), ID, &INPUT[..6], FRESHNESS);
    let mut out = [0; 64];
    mac == block(0x070a16b4_6b4d4144_f79bdd9d_d04a287c)
        && assemble(&INPUT[..6], FRESHNESS, &mac, &mut out) == 10
        && &out[..10] == PDU.as_slice()
}

#[test]
fn the_parts_of_a_frame_are_made_one_by_one(rt: HostRuntime) {
    holds(&rt, "the input", has_input());
    holds(&rt, "the MAC and the PDU", is_assembled());
}

/// Whether no frame is built of this payload, and nothing is written.
fn is_not_built(payload: &[u8]) -> bool {
    let mut out = [0xaa; 64];
    build(&schedule(KEY), ID, payload, 1, &mut out).is_none() && out == [0xaa; 64]
}

#[test]
fn other_lengths_are_refused(rt: HostRuntime) {
    holds(&rt, "a payload of 0", is_not_built(&[]));
    holds(&rt, "a payload of 61", is_not_built(&[0; 61]));
    holds(&rt, "a PDU of 0", split(&[]).is_none());
    holds(&rt, "a PDU of 4", split(&PDU[6..]).is_none());
    holds(&rt, "a PDU of 65", split(&[0; 65]).is_none());
}

/// A question of one unit to another.
const QUESTION: CounterQuestion = CounterQuestion {
    id: ID,
    direction: 1,
    asker: 0x0a0b_0c0d,
    answerer: 0x0102_0304,
    nonce: [0, 1, 2, 3, 4, 5, 6, 7, 8, 9, 10, 11, 12, 13, 14, 15],
};

/// The answer to it, whose CMAC OpenSSL makes of the 88 bytes of its input.
const ANSWER: [u8; 24] = [
    0xe9, 0x3d, 0x7e, 0x11, 0x73, 0x93, 0x17, 0x2a, 0xf8, 0xb6, 0xb0, 0xdf, 0x41, 0x50, 0x79, 0xd4,
    0x09, 0x6c, 0xfd, 0x44, 0xc5, 0xd4, 0x19, 0x35,
];

/// The MAC of the answer to this question.
fn answer_mac(question: &CounterQuestion) -> Block {
    cmac(&schedule(KEY), &answer_input(question, FRESHNESS))
}

/// Whether the answer is made, and tells the counter to whoever asked this alone.
fn is_answered() -> bool {
    let mut other = QUESTION;
    other.answerer = 0x0102_0305;
    answer_with(FRESHNESS, answer_mac(&QUESTION).bytes()) == ANSWER
        && counter_with(answer_mac(&QUESTION).bytes(), &ANSWER) == Some(FRESHNESS)
        && counter_with(answer_mac(&other).bytes(), &ANSWER).is_none()
}

#[test]
fn an_answer_tells_a_counter(rt: HostRuntime) {
    holds(&rt, "the answer to a question", is_answered());
}
