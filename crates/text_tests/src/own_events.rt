//! A script of nodes' own events over a bus of two nodes. The one program that reads such a script is `gateway`, whose
//! bus has one node: its scripts are rows of checks/rows/gateway.toml.
use crate::bus_shapes::{Shape, bus_of};
use crate::comparing::holds;
use bus_script::{BusConfig, Event, read_own_script};
use freshness_routes::Direction;
use std::alloc::Global;

const BUS: Shape = (
    &[(0x6bc1, Direction::Sends)],
    &[(0x6bc1, Direction::Receives)],
    false,
);

const SCRIPT: &str = "inject right 6bc1 0a\nfail left 7\nfail right 8\n";

/// Whether this is the event of a line of the script, counted from 0.
fn is_of(line: usize, event: &Event) -> bool {
    match event {
        Event::Inject { node, id, pdu } => {
            line == 0 && *node == 1 && *id == 0x6bc1 && pdu.bytes() == b"\x0a".as_slice()
        }
        Event::Fail { node: 0, calls } => line == 1 && *calls == 7,
        Event::Fail { node: 1, calls } => line == 2 && *calls == 8,
        _ => false,
    }
}

fn are_of(events: &[Event]) -> bool {
    for (line, event) in events.iter().enumerate() {
        if !is_of(line, event) {
            return false;
        }
    }
    events.len() == 3
}

fn is_read(alloc: Global, bus: &BusConfig) -> bool {
    match read_own_script(alloc, SCRIPT.as_bytes(), bus) {
        Ok(events) => are_of(events.as_slice()),
        Err(_) => false,
    }
}

fn are_read(alloc: Global) -> bool {
    match bus_of(alloc, &BUS) {
        Some(bus) => is_read(alloc, &bus),
        None => false,
    }
}

#[test]
fn own_events_of_each_node_are_read(rt: HostRuntime) {
    holds(&rt, "the events", are_read(rt.alloc()));
}
