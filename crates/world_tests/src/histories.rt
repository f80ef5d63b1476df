//! Lines that were sent are found by the number of their event, and by what they carry.
use crate::comparing::holds;
use basics::Pdu;
use bus_machine::Line;
use bus_world::History;
use std::alloc::Global;
use std::process::Abort;

/// A Data ID, a freshness and the first byte, and the event by which they are found.
const SOURCES: &[(u16, u64, u8, Option<u32>)] = &[
    (0x6bc1, 7, 1, Some(1)),
    (0x6bc2, 7, 1, Some(3)),
    (0x6bc1, 8, 1, Some(4)),
    (0x6bc1, 9, 2, Some(5)),
    (0x6bc1, 9, 1, None),
    (0x6bc1, 6, 1, None),
    (0x6bc3, 7, 1, None),
];

fn finds_source(history: &History, row: &(u16, u64, u8, Option<u32>)) -> bool {
    history.source(row.0, &[row.2, 2, 3, 4, 5, 6], row.1) == row.3
}

/// An event, and the Data ID of the line that was sent there.
const EVENTS: &[(u32, Option<u16>)] = &[(1, Some(0x6bc1)), (2, None), (3, Some(0x6bc2)), (9, None)];

fn finds_event(history: &History, row: &(u32, Option<u16>)) -> bool {
    history.frame(row.0).map(|frame| frame.id) == row.1
}

fn finds(rt: &impl Abort, history: &History) {
    for row in SOURCES {
        holds(rt, row.1, finds_source(history, row));
    }
    for row in EVENTS {
        holds(rt, row.0, finds_event(history, row));
    }
}

/// Of five events all but the second sent a line: its Data ID, freshness and first byte.
const SENT: &[(u16, u64, u8)] = &[
    (0x6bc1, 7, 1),
    (0, 0, 0),
    (0x6bc2, 7, 1),
    (0x6bc1, 8, 1),
    (0x6bc1, 9, 2),
];

/// The line of a PDU of ten bytes, whose last four aren't payload; of the Data ID 0 one that isn't sent.
fn line_of(sent: &(u16, u64, u8)) -> Option<Line> {
    if sent.0 == 0 {
        return Some(Line::Up);
    }
    Some(Line::Sent {
        id: sent.0,
        freshness: sent.1,
        pdu: Pdu::of(&[sent.2, 2, 3, 4, 5, 6, 0xaa, 0xbb, 0xcc, 0xdd])?,
    })
}

/// Notes a line, if there is room for it.
fn is_noted(history: &mut History, sent: &(u16, u64, u8)) -> bool {
    match line_of(sent) {
        Some(line) if !history.is_full() => {
            history.note(&line);
            true
        }
        _ => false,
    }
}

fn is_found(rt: &impl Abort, history: &mut History) {
    for sent in SENT {
        holds(rt, sent.1, is_noted(history, sent));
    }
    finds(rt, history);
    // this line has no greater freshness than the ones before: from here on lines are looked for one by one
    holds(rt, "the sixth", is_noted(history, &(0x6bc1, 8, 1)));
    finds(rt, history);
}

fn are_found(rt: &impl Abort, alloc: Global) {
    match History::new(alloc, 6) {
        Ok(mut history) => is_found(rt, &mut history),
        Err(_) => holds(rt, "a history", false),
    }
}

#[test]
fn a_line_is_found_by_its_event_and_by_what_it_carries(rt: HostRuntime) {
    are_found(&rt, rt.alloc());
}
