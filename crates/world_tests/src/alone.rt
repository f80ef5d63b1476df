//! A node that is in no world, and how a start that is refused is answered.
use crate::bench::{
    Act, NodeRow, RouteRow, Row, Told, are_of, bus_of, can_be_done, disks, event_of, line_is,
};
use crate::comparing::same;
use bus_config::BusConfig;
use bus_world::{Start, StartFault, close_nodes, open_nodes, own_turn, start_refusal};
use cell_store::{CutCells, Kind, Reread, Version};
use cut_disk::MemDisk;
use freshness_routes::Direction;
use key_slots::SlotId;
use secoc_node::Node;
use std::alloc::Global;
use std::process::Abort;
use std::test::Fail;

/// A bus of one node, which sends.
const ONE_NODE: &[NodeRow] = &[NodeRow(b"a", 1, &[RouteRow(0, Direction::Sends, 4, 4, 0)])];

/// It gets its key and sends; no event sent anything to it. (What it accepts is from none: a row of gateway.)
const TURNS: &[Row] = &[
    Row(0, Act::Key(1), Told::Keyed),
    Row(
        0,
        Act::Send(0, b"\x00"),
        Told::Sent(0, 1, b"\x00\x01\xbe\xe0\x08"),
    ),
    Row(0, Act::Deliver(2), Told::NoFrame),
];

/// The first of these nodes takes the turn of a row.
fn turn<C: CutCells>(
    rt: &impl Abort,
    alloc: Global,
    nodes: &mut [Node<C>],
    place: usize,
    row: &Row,
) -> Result<(), Fail> {
    let event = event_of(alloc, row)?;
    if nodes.is_empty() || !can_be_done(&event) {
        return Err(Fail::from("no event of the bus"));
    }
    line_is(rt, place, &own_turn(&mut nodes[0], &event), row)
}

/// It takes its turns.
fn turns<C: CutCells>(rt: &impl Abort, alloc: Global, nodes: &mut [Node<C>]) -> Result<(), Fail> {
    for (place, row) in TURNS.iter().enumerate() {
        turn(rt, alloc, nodes, place, row)?;
    }
    Ok(())
}

/// The first node of the bus takes its turns over one of these disks, which is back then.
fn lives_alone(
    rt: &impl Abort,
    alloc: Global,
    bus: &BusConfig,
    made: &mut Vec<MemDisk>,
) -> Result<(), Fail> {
    match open_nodes(alloc, bus, made, Start::Format) {
        Ok(mut nodes) => {
            let done = turns(rt, alloc, nodes.as_mut_slice());
            close_nodes(nodes, made);
            done
        }
        Err(fault) => Err(Fail::from(fault)),
    }
}

/// It does so over one of two disks, which are back in their order then.
fn is_alone(rt: &impl Abort, alloc: Global, bus: &BusConfig) -> Result<(), Fail> {
    let mut made = disks(alloc, &[40_000, 40_001])?;
    lives_alone(rt, alloc, bus, &mut made)?;
    are_of(rt, made.as_slice(), &[40_000, 40_001]);
    Ok(())
}

#[test]
fn a_node_takes_its_turns_alone(rt: HostRuntime) -> Result<(), Fail> {
    let bus = bus_of(rt.alloc(), Kind::Twin, Version::One, ONE_NODE)?;
    is_alone(&rt, rt.alloc(), &bus)
}

/// What a start is refused by.
#[derive(Clone, Copy)]
enum Refused {
    TooFew,
    TooSmall(u8),
    Store(u8, Reread),
    BadSlot(u8, u8),
    BadBound(u8, u16),
    Memory,
}

fn fault_of(refused: Refused) -> Result<StartFault, &'static str> {
    let fault = match refused {
        Refused::TooFew => StartFault::TooFew,
        Refused::TooSmall(number) => StartFault::TooSmall(number),
        Refused::Store(number, fault) => StartFault::Store(number, fault),
        Refused::BadSlot(number, slot) => {
            StartFault::BadSlot(number, SlotId::new(slot).ok_or("a slot")?)
        }
        Refused::BadBound(number, cell) => StartFault::BadBound(number, cell),
        Refused::Memory => StartFault::Memory,
    };
    Ok(fault)
}

/// The status and the text of each.
const REFUSALS: &[(Refused, u8, &str)] = &[
    (Refused::TooFew, 9, "disks: too few\n"),
    (Refused::TooSmall(2), 9, "disks: node 2 too small\n"),
    (
        Refused::Store(1, Reread::DiskFailed),
        10,
        "store: node 1: DiskFailed\n",
    ),
    (
        Refused::Store(8, Reread::NotFormatted),
        10,
        "store: node 8: NotFormatted\n",
    ),
    (
        Refused::Store(3, Reread::Damaged(17)),
        10,
        "store: node 3: Damaged 17\n",
    ),
    (Refused::BadSlot(1, 13), 10, "store: node 1: BadSlot 13\n"),
    (
        Refused::BadBound(2, 269),
        10,
        "store: node 2: BadBound 269\n",
    ),
    (Refused::Memory, 7, ""),
];

fn has_row(rt: &impl Abort, fault: StartFault, status: u8, text: &str) {
    let refusal = start_refusal(&fault);
    same(rt, text, &refusal.status(), &status);
    same(rt, text, &refusal.text(), &text);
}

#[test]
fn a_start_that_is_refused_has_its_row(rt: HostRuntime) -> Result<(), Fail> {
    for (refused, status, text) in REFUSALS {
        has_row(&rt, fault_of(*refused)?, *status, text);
    }
    Ok(())
}
