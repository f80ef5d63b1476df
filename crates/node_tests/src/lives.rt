//! A store that stops, and the last freshness. The tags are those of OpenSSL's CMAC.
use crate::bench::{Act, Answer, Plan, Row, Way, plays};
use cut_disk::Torn;
use freshness_manager::Direction;
use key_slots::Erc;
use secoc_node::NodeFault;
use secoc_receiver::Reception;
use std::test::Fail;

pub const ID: u16 = 0x6bc1;

pub const START: u64 = 0xe93d7e1173931729;

pub const PAYLOAD: &[u8] = &[0xbe, 0xe2, 0x2e, 0x40, 0x9f, 0x96];

/// The payload with the freshness above the start.
pub const FIRST: &[u8] = &[0xbe, 0xe2, 0x2e, 0x40, 0x9f, 0x96, 0x2a, 0x07, 0x0a, 0x16];

/// The same with the freshness that follows a power cut.
pub const AFTER_CUT: &[u8] = &[0xbe, 0xe2, 0x2e, 0x40, 0x9f, 0x96, 0x2e, 0x56, 0x7e, 0x86];

/// The same with the last freshness.
const LAST: &[u8] = &[0xbe, 0xe2, 0x2e, 0x40, 0x9f, 0x96, 0xff, 0x9a, 0x7f, 0x8d];

pub const KEY: u128 = 0x2b7e151628aed2a6abf7158809cf4f3c;

pub const MASTER: u128 = 0x000102030405060708090a0b0c0d0e0f;

/// What authorises an empty slot.
pub const EMPTY: u128 = 0xffffffffffffffffffffffffffffffff;

/// The flags: the key serves MACs.
pub const MAC: u8 = 2;

/// The key for MACs in slot 4, which was empty.
pub const FIRST_KEY: Row = Row(Act::Load(4, 4, EMPTY, 1, MAC, KEY), Answer::Done, &[]);

/// A receiver that has its key, and whose disk stops at its second call.
const OVER_A_STOP: Plan<'static> = Plan {
    number: 2,
    ways: &[Way {
        id: ID,
        direction: Direction::Receives,
        slot: 4,
        reserve: 1,
        window: 256,
        start: START,
    }],
    slot_4: [
        1, MAC, 0, 0, 0, 1, 0x2b, 0x7e, 0x15, 0x16, 0x28, 0xae, 0xd2, 0xa6, 0xab, 0xf7, 0x15, 0x88,
        0x09, 0xcf, 0x4f, 0x3c, 0, 0, 0, 0, 0, 0, 0, 0, 0, 0,
    ],
    stop: 2,
};

const RECEIVED: Act = Act::Count(ID, Direction::Receives);

const IS_DOWN: Row = Row(Act::IsDown, Answer::Down(true), &[]);

const FAULTS_ONCE: &[Row] = &[
    Row(Act::IsDown, Answer::Down(false), &[]),
    Row(
        Act::Receive(ID, FIRST),
        Answer::Refused(NodeFault::Faulted),
        &[],
    ),
    IS_DOWN,
    Row(
        Act::Receive(ID, FIRST),
        Answer::Refused(NodeFault::Down),
        &[],
    ),
    Row(Act::Send(ID, &[1]), Answer::Refused(NodeFault::Down), &[]),
    Row(
        Act::Load(4, 4, EMPTY, 1, MAC, KEY),
        Answer::Refused(NodeFault::Down),
        &[],
    ),
    IS_DOWN,
    Row(RECEIVED, Answer::Count(Some(START)), &[]),
    Row(Act::Cut(Torn::Old), Answer::Done, &[]),
    Row(Act::IsDown, Answer::Down(false), &[]),
    Row(RECEIVED, Answer::Count(Some(START)), &[]),
    Row(
        Act::Receive(ID, FIRST),
        Answer::Heard(Reception::Accepted {
            freshness: START + 1,
            len: 6,
        }),
        &[],
    ),
    Row(RECEIVED, Answer::Count(Some(START + 1)), &[]),
    Row(
        Act::Receive(ID, FIRST),
        Answer::Heard(Reception::VerificationFailure),
        &[],
    ),
    Row(RECEIVED, Answer::Count(Some(START + 1)), &[]),
    Row(Act::Count(ID, Direction::Sends), Answer::Count(None), &[]),
    Row(
        Act::Send(ID, &[1]),
        Answer::Refused(NodeFault::NoRoute),
        &[],
    ),
];

#[test]
fn a_store_that_is_about_to_stop_faults_and_then_is_down(rt: HostRuntime) -> Result<(), Fail> {
    plays(&rt, rt.alloc(), &OVER_A_STOP, FAULTS_ONCE)
}

const LAST_SENDER: Plan<'static> = Plan {
    number: 1,
    ways: &[Way {
        id: ID,
        direction: Direction::Sends,
        slot: 4,
        reserve: 4,
        window: 256,
        start: u64::MAX - 1,
    }],
    slot_4: [0; 32],
    stop: 0,
};

const SENT: Act = Act::Count(ID, Direction::Sends);

/// A payload of one byte more than is sent.
const TOO_LONG: Row = Row(
    Act::Send(ID, &[0xbe; 61]),
    Answer::Refused(NodeFault::BadLength),
    &[],
);

/// The length is looked at before the key and the counter. The key of slot 4 waits for a boot, and then it doesn't.
const ENDS: &[Row] = &[
    TOO_LONG,
    Row(
        Act::Send(ID, &[1]),
        Answer::Refused(NodeFault::Key(Erc::KeyEmpty)),
        &[],
    ),
    Row(Act::Load(1, 1, EMPTY, 1, 0, MASTER), Answer::Done, &[]),
    Row(Act::Load(4, 1, MASTER, 1, 8 + MAC, KEY), Answer::Done, &[]),
    TOO_LONG,
    Row(
        Act::Send(ID, &[1]),
        Answer::Refused(NodeFault::Key(Erc::KeyNotAvailable)),
        &[],
    ),
    Row(Act::Load(4, 1, MASTER, 2, MAC, KEY), Answer::Done, &[]),
    Row(
        Act::Send(ID, &[]),
        Answer::Refused(NodeFault::BadLength),
        &[],
    ),
    Row(Act::Send(ID, PAYLOAD), Answer::Sent(u64::MAX), LAST),
    Row(SENT, Answer::Count(Some(u64::MAX)), &[]),
    Row(
        Act::Send(ID, &[1]),
        Answer::Refused(NodeFault::Exhausted),
        &[],
    ),
    TOO_LONG,
    Row(SENT, Answer::Count(Some(u64::MAX)), &[]),
    Row(Act::Cut(Torn::Keep), Answer::Done, &[]),
    Row(SENT, Answer::Count(Some(u64::MAX)), &[]),
];

#[test]
fn the_counter_ends_at_the_last_freshness(rt: HostRuntime) -> Result<(), Fail> {
    plays(&rt, rt.alloc(), &LAST_SENDER, ENDS)
}
