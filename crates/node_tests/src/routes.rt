//! Nodes of several routes, and one of the most. The bounds that they keep are rows of `checks/rows/node.toml`.
use crate::bench::{Act, Answer, Plan, Row, Way, plays};
use crate::lives::{AFTER_CUT, EMPTY, FIRST, FIRST_KEY, ID, MAC, MASTER, PAYLOAD, START};
use cut_disk::Torn;
use freshness_manager::Direction;
use secoc_receiver::Reception;
use std::alloc::Global;
use std::test::Fail;

/// The Data IDs of the second route, which receives, and of the third, which sends.
const HEARD: u16 = 0x0102;

const TOLD: u16 = 0x0304;

/// The payload under the key of the second and the third route, with the freshness 1f3 and 1f5, 100 and 101.
const HEARD_FIRST: &[u8] = &[0xbe, 0xe2, 0x2e, 0x40, 0x9f, 0x96, 0xf3, 0x54, 0x4f, 0x9b];

const HEARD_AFTER_CUT: &[u8] = &[0xbe, 0xe2, 0x2e, 0x40, 0x9f, 0x96, 0xf5, 0xd5, 0xe3, 0x2d];

const TOLD_FIRST: &[u8] = &[0xbe, 0xe2, 0x2e, 0x40, 0x9f, 0x96, 0x00, 0x73, 0x9f, 0x80];

const TOLD_AFTER_CUT: &[u8] = &[0xbe, 0xe2, 0x2e, 0x40, 0x9f, 0x96, 0x01, 0x9f, 0x6d, 0x0b];

/// A first route that sends, a second that receives, and a third that sends; the keys of the latter two are in slot 5.
pub const THREE: Plan<'static> = Plan {
    number: 1,
    ways: &[
        Way {
            id: ID,
            direction: Direction::Sends,
            slot: 4,
            reserve: 4,
            window: 256,
            start: START,
        },
        Way {
            id: HEARD,
            direction: Direction::Receives,
            slot: 5,
            reserve: 2,
            window: 256,
            start: 0x1f0,
        },
        Way {
            id: TOLD,
            direction: Direction::Sends,
            slot: 5,
            reserve: 1,
            window: 256,
            start: 0xff,
        },
    ],
    slot_4: [0; 32],
    stop: 0,
};

const SENT: Act = Act::Count(ID, Direction::Sends);

const TAKEN: Act = Act::Count(HEARD, Direction::Receives);

const TELLS: Act = Act::Count(TOLD, Direction::Sends);

/// Each route counts for itself, and goes on at its own bound after a power cut.
const COUNTS_EACH_ROUTE: &[Row] = &[
    FIRST_KEY,
    Row(Act::Load(5, 5, EMPTY, 1, MAC, MASTER), Answer::Done, &[]),
    Row(SENT, Answer::Count(Some(START)), &[]),
    Row(TAKEN, Answer::Count(Some(0x1f0)), &[]),
    Row(TELLS, Answer::Count(Some(0xff)), &[]),
    Row(
        Act::Count(TOLD, Direction::Receives),
        Answer::Count(None),
        &[],
    ),
    Row(Act::Send(ID, PAYLOAD), Answer::Sent(START + 1), FIRST),
    Row(Act::Send(TOLD, PAYLOAD), Answer::Sent(0x100), TOLD_FIRST),
    Row(
        Act::Receive(HEARD, HEARD_FIRST),
        Answer::Heard(Reception::Accepted {
            freshness: 0x1f3,
            len: 6,
        }),
        &[],
    ),
    Row(SENT, Answer::Count(Some(START + 1)), &[]),
    Row(TAKEN, Answer::Count(Some(0x1f3)), &[]),
    Row(TELLS, Answer::Count(Some(0x100)), &[]),
    Row(Act::Cut(Torn::Old), Answer::Done, &[]),
    Row(SENT, Answer::Count(Some(START + 4)), &[]),
    Row(TAKEN, Answer::Count(Some(0x1f4)), &[]),
    Row(TELLS, Answer::Count(Some(0x100)), &[]),
    Row(
        Act::Receive(HEARD, HEARD_FIRST),
        Answer::Heard(Reception::VerificationFailure),
        &[],
    ),
    Row(TAKEN, Answer::Count(Some(0x1f4)), &[]),
    Row(
        Act::Receive(HEARD, HEARD_AFTER_CUT),
        Answer::Heard(Reception::Accepted {
            freshness: 0x1f5,
            len: 6,
        }),
        &[],
    ),
    Row(
        Act::Send(TOLD, PAYLOAD),
        Answer::Sent(0x101),
        TOLD_AFTER_CUT,
    ),
    Row(Act::Send(ID, PAYLOAD), Answer::Sent(START + 5), AFTER_CUT),
    Row(SENT, Answer::Count(Some(START + 5)), &[]),
    Row(TAKEN, Answer::Count(Some(0x1f5)), &[]),
    Row(TELLS, Answer::Count(Some(0x101)), &[]),
    // a PDU of five bytes
    Row(
        Act::Send(ID, &[0xbe]),
        Answer::Sent(START + 6),
        &[0xbe, 0x2f, 0x3c, 0xd0, 0x5f],
    ),
];

#[test]
fn each_route_counts_for_itself(rt: HostRuntime) -> Result<(), Fail> {
    plays(&rt, rt.alloc(), &THREE, COUNTS_EACH_ROUTE)
}

/// The PDUs of route 0, 1, 254 and 255 of a node of 256 routes, whose freshness is one above the route's place.
const OF_ROUTE_0: &[u8] = &[0xbe, 0xe2, 0x2e, 0x40, 0x9f, 0x96, 0x01, 0xab, 0x48, 0x04];

const OF_ROUTE_1: &[u8] = &[0xbe, 0xe2, 0x2e, 0x40, 0x9f, 0x96, 0x02, 0x14, 0x06, 0x84];

const OF_ROUTE_254: &[u8] = &[0xbe, 0xe2, 0x2e, 0x40, 0x9f, 0x96, 0xff, 0xf9, 0x58, 0x47];

const OF_ROUTE_255: &[u8] = &[0xbe, 0xe2, 0x2e, 0x40, 0x9f, 0x96, 0x00, 0x97, 0xf9, 0x3e];

/// Route k of 256 has the Data ID 100 + k (hexadecimal) and starts at k; every other one receives.
fn the_most_ways(alloc: Global) -> Result<Vec<Way>, Fail> {
    let mut ways = Vec::new(alloc);
    for place in 0..256u16 {
        ways.push(Way {
            id: 0x100 + place,
            direction: if place % 2 == 0 {
                Direction::Sends
            } else {
                Direction::Receives
            },
            slot: 4,
            reserve: 1,
            window: 256,
            start: u64::from(place),
        })?;
    }
    Ok(ways)
}

/// Each route that sends does it; the bytes of the first and the last are looked at. Two that receive hear, and the
/// power is cut: each route is where it was.
const SERVES_EACH: &[Row] = &[
    FIRST_KEY,
    Row(Act::Send(0x100, PAYLOAD), Answer::Sent(1), OF_ROUTE_0),
    Row(Act::SendEach(PAYLOAD), Answer::Done, &[]),
    Row(Act::Send(0x1fe, PAYLOAD), Answer::Sent(255), OF_ROUTE_254),
    Row(
        Act::Receive(0x101, OF_ROUTE_1),
        Answer::Heard(Reception::Accepted {
            freshness: 2,
            len: 6,
        }),
        &[],
    ),
    Row(
        Act::Receive(0x1ff, OF_ROUTE_255),
        Answer::Heard(Reception::Accepted {
            freshness: 256,
            len: 6,
        }),
        &[],
    ),
    Row(Act::Cut(Torn::Half), Answer::Done, &[]),
    Row(Act::CountEach, Answer::Done, &[]),
];

#[test]
fn the_most_routes_are_served(rt: HostRuntime) -> Result<(), Fail> {
    let ways = the_most_ways(rt.alloc())?;
    let plan = Plan {
        number: 1,
        ways: &ways,
        slot_4: [0; 32],
        stop: 0,
    };
    plays(&rt, rt.alloc(), &plan, SERVES_EACH)
}
