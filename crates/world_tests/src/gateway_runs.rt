//! Worked runs of gateways.
use crate::gateway_bench::{Act, Answer, EMPTY, KEY, Row, SHAPES, Way, plays};
use cut_disk::Torn;
use freshness_routes::Direction;
use key_slots::Erc;
use secoc_node::NodeFault;
use std::test::Fail;

const IN: u16 = 0x6bc2;

const OUT: u16 = 0x6bc1;

const START: u64 = 0xe93d7e1173931729;

const PAIR: &[(u16, u16)] = &[(IN, OUT)];

const GATE: &[Way] = &[
    Way {
        id: IN,
        direction: Direction::Receives,
        slot: 4,
        reserve: 1,
        start: 0,
    },
    Way {
        id: OUT,
        direction: Direction::Sends,
        slot: 4,
        reserve: 4,
        start: START,
    },
];

/// The payload `bee22e409f96` with the freshness 1 and 2 under the Data ID that arrives, and 1 with another tag.
const FIRST_IN: &[u8] = &[0xbe, 0xe2, 0x2e, 0x40, 0x9f, 0x96, 0x01, 0x89, 0x8b, 0x20];

const SECOND_IN: &[u8] = &[0xbe, 0xe2, 0x2e, 0x40, 0x9f, 0x96, 0x02, 0x30, 0x72, 0x17];

const ALTERED: &[u8] = &[0xbe, 0xe2, 0x2e, 0x40, 0x9f, 0x96, 0x01, 0x89, 0x8b, 0x21];

/// The same payload under the Data ID that departs, with the freshness 1 and 2 above the start.
const FIRST_OUT: &[u8] = &[0xbe, 0xe2, 0x2e, 0x40, 0x9f, 0x96, 0x2a, 0x07, 0x0a, 0x16];

const SECOND_OUT: &[u8] = &[0xbe, 0xe2, 0x2e, 0x40, 0x9f, 0x96, 0x2b, 0x96, 0xa6, 0xc5];

/// The boot MAC of one zero byte under the key.
const BOOT_MAC: u128 = 0x9338c4e062a714ace2849c32772de6c6;

/// A key for MACs in slot 4.
const FIRST_KEY: Row = Row(Act::Load(4, 4, EMPTY, 2, KEY), Answer::Done, &[]);

const FAULTED: Answer = Answer::Refused(NodeFault::Faulted);

/// A PDU is forwarded once.
const ONCE: &[Row] = &[
    FIRST_KEY,
    Row(Act::Second(IN), Answer::Id(Some(OUT)), &[]),
    Row(Act::Second(OUT), Answer::Id(None), &[]),
    Row(
        Act::Arrive(IN, FIRST_IN),
        Answer::Forwarded(1, START + 1),
        FIRST_OUT,
    ),
    Row(Act::Arrive(IN, FIRST_IN), Answer::VerificationFailure, &[]),
    Row(Act::Arrive(IN, ALTERED), Answer::VerificationFailure, &[]),
    Row(
        Act::Count(IN, Direction::Receives),
        Answer::Count(Some(1)),
        &[],
    ),
    Row(
        Act::Count(OUT, Direction::Sends),
        Answer::Count(Some(START + 1)),
        &[],
    ),
    Row(
        Act::Count(OUT, Direction::Receives),
        Answer::Count(None),
        &[],
    ),
    Row(Act::IsDown, Answer::Is(false), &[]),
    Row(
        Act::Arrive(IN, SECOND_IN),
        Answer::Forwarded(2, START + 2),
        SECOND_OUT,
    ),
    Row(Act::Cut(Torn::Half), Answer::Done, &[]),
    Row(Act::Arrive(IN, SECOND_IN), Answer::VerificationFailure, &[]),
];

/// The other calls are those of the node.
const PASSED_ON: &[Row] = &[
    Row(
        Act::Arrive(IN, FIRST_IN),
        Answer::Refused(NodeFault::Key(Erc::KeyEmpty)),
        &[],
    ),
    Row(
        Act::Boot,
        Answer::Refused(NodeFault::Key(Erc::NoSecureBoot)),
        &[],
    ),
    FIRST_KEY,
    Row(
        Act::Arrive(IN, &[1, 2, 3, 4]),
        Answer::Refused(NodeFault::BadLength),
        &[],
    ),
    Row(Act::Receive(IN, FIRST_IN), Answer::Heard(1), &[]),
    Row(Act::Arrive(IN, FIRST_IN), Answer::VerificationFailure, &[]),
    Row(
        Act::Receive(OUT, FIRST_OUT),
        Answer::Refused(NodeFault::NoRoute),
        &[],
    ),
    Row(Act::Load(2, 2, EMPTY, 0, KEY), Answer::Done, &[]),
    Row(Act::Load(3, 2, KEY, 0, BOOT_MAC), Answer::Done, &[]),
    Row(Act::Boot, Answer::Is(true), &[]),
    Row(Act::Fail, Answer::Done, &[]),
    Row(Act::Arrive(IN, SECOND_IN), FAULTED, &[]),
    Row(Act::Cut(Torn::Keep), Answer::Done, &[]),
    Row(Act::Stop, Answer::Done, &[]),
    Row(Act::Arrive(IN, SECOND_IN), FAULTED, &[]),
    Row(Act::IsDown, Answer::Is(true), &[]),
    Row(
        Act::Arrive(IN, SECOND_IN),
        Answer::Refused(NodeFault::Down),
        &[],
    ),
    Row(Act::Fail, Answer::Done, &[]),
    Row(Act::Cut(Torn::Keep), Answer::NotRead, &[]),
    Row(Act::Cut(Torn::Keep), Answer::Done, &[]),
    Row(
        Act::Arrive(IN, SECOND_IN),
        Answer::Forwarded(2, START + 1),
        FIRST_OUT,
    ),
];

/// A gateway of no pairs.
const NO_PAIR: &[Row] = &[FIRST_KEY, Row(Act::Second(IN), Answer::Id(None), &[])];

/// A gateway whose departures have another key than its arrivals.
const OF_TWO_KEYS: &[Way] = &[
    Way {
        id: IN,
        direction: Direction::Receives,
        slot: 4,
        reserve: 1,
        start: 0,
    },
    Way {
        id: OUT,
        direction: Direction::Sends,
        slot: 5,
        reserve: 4,
        start: START,
    },
];

/// What can't depart, since that key isn't there, is dropped, and nothing is written.
const DROPS: &[Row] = &[
    FIRST_KEY,
    Row(Act::Arrive(IN, FIRST_IN), Answer::Dropped(1), &[]),
];

#[test]
fn a_pdu_is_forwarded_once(rt: HostRuntime) -> Result<(), Fail> {
    for shape in SHAPES {
        plays(&rt, rt.alloc(), shape, GATE, PAIR, ONCE)?;
    }
    plays(&rt, rt.alloc(), SHAPES[0], OF_TWO_KEYS, PAIR, DROPS)?;
    plays(&rt, rt.alloc(), SHAPES[0], GATE, &[], NO_PAIR)
}

#[test]
fn other_calls_are_those_of_the_node(rt: HostRuntime) -> Result<(), Fail> {
    for shape in SHAPES {
        plays(&rt, rt.alloc(), shape, GATE, PAIR, PASSED_ON)?;
    }
    Ok(())
}
