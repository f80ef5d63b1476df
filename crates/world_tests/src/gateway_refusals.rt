//! Pairs that a gateway doesn't take.
use crate::comparing::holds;
use crate::gateway_bench::{SHAPES, Way, node};
use freshness_routes::Direction;
use secoc_gateway::Gateway;
use std::alloc::Global;
use std::test::Fail;

const WAYS: &[Way] = &[
    Way {
        id: 1,
        direction: Direction::Receives,
        slot: 4,
        reserve: 1,
        start: 0,
    },
    Way {
        id: 2,
        direction: Direction::Receives,
        slot: 4,
        reserve: 1,
        start: 0,
    },
    Way {
        id: 3,
        direction: Direction::Sends,
        slot: 4,
        reserve: 1,
        start: 0,
    },
    Way {
        id: 4,
        direction: Direction::Sends,
        slot: 4,
        reserve: 1,
        start: 0,
    },
];

/// Pairs, and the number of the one that is refused; 0 for none.
const ROWS: &[(&[(u16, u16)], u16)] = &[
    (&[], 0),
    (&[(1, 3)], 0),
    (&[(1, 3), (2, 4)], 0),
    (&[(3, 1)], 1),
    (&[(1, 2)], 1),
    (&[(5, 3)], 1),
    (&[(1, 5)], 1),
    (&[(1, 3), (1, 4)], 2),
    (&[(1, 3), (2, 3)], 2),
    (&[(2, 4), (1, 3), (2, 3), (9, 9)], 3),
];

/// The number of the refused pair, 0 for none; the node is handed back as it was.
fn refused(alloc: Global, pairs: &[(u16, u16)]) -> Result<u16, Fail> {
    let node = node(alloc, SHAPES[0], WAYS)?;
    let (node, number) = match Gateway::new(node, Vec::from_slice(alloc, pairs)?) {
        Ok(gateway) => (gateway.release(), 0),
        Err(refused) => (refused.node, refused.pair),
    };
    if node.counter(1, Direction::Receives) != Some(0) {
        return Err(Fail::from("another node"));
    }
    Ok(number)
}

#[test]
fn the_lowest_pair_that_isnt_good_is_named(rt: HostRuntime) -> Result<(), Fail> {
    for (row, (pairs, number)) in ROWS.iter().enumerate() {
        let is_refused = refused(rt.alloc(), pairs)? == *number;
        holds(&rt, row, is_refused);
    }
    Ok(())
}
