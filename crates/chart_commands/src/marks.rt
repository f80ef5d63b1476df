//! The mark in the row of an event.
ghost use Rattle.std.specs.Prelude.{◌≡◌};
ghost use Rattle.bus_machine.specs.Bus.{node_of as place_of_node};
ghost use Rattle.chart_commands.specs.Marks.{origin_of as origin_in, accepted_origin as origin_accepted, brought_origin as origin_brought, mark_kind as kind_in, row_mark as mark_in_row};

use bus_machine::{Event, Line};

/// Where an arrow begins.
#[derive(Clone, Copy, Debug, PartialEq, Eq, Drop)]
pub enum Origin {
    /// In the row of this event, on the lifeline of its node.
    EventRow {
        /// The number of the event, from 1.
        number: u32,
        /// The place of its node, from 0.
        node: u8,
    },
    /// At the left edge: no event of the bus sent it.
    Outside,
}

/// What a mark shows.
#[derive(Clone, Copy, Debug, PartialEq, Eq, Drop)]
pub enum MarkKind {
    /// A PDU was sent.
    Sent,
    /// A key update was taken, or a boot succeeded.
    Done,
    /// The power was cut.
    Cut,
    /// A failure of the disk is armed.
    Armed,
    /// There was no frame to deliver.
    Nothing,
    /// The event was refused, or a boot was wrong.
    Refused,
    /// A verdict on a PDU: an arrow.
    Arrow {
        /// Where the PDU comes from.
        from: Origin,
        /// Whether it was accepted.
        accepted: bool,
    },
}

/// The mark of an event.
#[derive(Clone, Copy, Debug, PartialEq, Eq, Drop)]
pub struct RowMark {
    /// The place of the event's node, from 0.
    pub node: u8,
    /// The number of the event, from 1.
    pub row: u32,
    /// What it shows.
    pub kind: MarkKind,
}

/// The place of the node that an event concerns, from 0.
pub fn node_of(event: &Event) -> u8
    ensures { result ≡ place_of_node event.now }
{
    match event {
        Event::Send { node, .. } => *node,
        Event::Deliver { node, .. } => *node,
        Event::Inject { node, .. } => *node,
        Event::Load { node, .. } => *node,
        Event::Key { node, .. } => *node,
        Event::Boot { node, .. } => *node,
        Event::Cut { node, .. } => *node,
        Event::Stop { node, .. } => *node,
        Event::Fail { node, .. } => *node,
    }
}

/// The mark in the row with this number, from 1, of an event and its line. `events` are all events of the script.
pub fn row_mark(events: &[Event], row: u32, event: &Event, line: &Line) -> RowMark
    ensures { result ≡ mark_in_row events.now row event.now line.now }
{
    RowMark {
        node: node_of(event),
        row,
        kind: mark_kind(events, event, line),
    }
}

// What the mark of an event and its line shows.
fn mark_kind(events: &[Event], event: &Event, line: &Line) -> MarkKind
    ensures { result ≡ kind_in events.now event.now line.now }
{
    match *line {
        Line::Sent { .. } => MarkKind::Sent,
        Line::Accepted { from, .. } => MarkKind::Arrow {
            from: accepted_origin(events, from),
            accepted: true,
        },
        Line::FreshnessFailure | Line::VerificationFailure => MarkKind::Arrow {
            from: brought_origin(events, event),
            accepted: false,
        },
        Line::Keyed { .. } | Line::Loaded { .. } | Line::Boot { good: true } => MarkKind::Done,
        Line::Boot { good: false } => MarkKind::Refused,
        Line::Up => MarkKind::Cut,
        Line::Armed => MarkKind::Armed,
        Line::NoFrame => MarkKind::Nothing,
        Line::Refused(_) => match event {
            Event::Cut { .. } => MarkKind::Cut,
            _ => MarkKind::Refused,
        },
    }
}

// Where what was accepted from this event comes from.
fn accepted_origin(events: &[Event], from: Option<u32>) -> Origin
    ensures { result ≡ origin_accepted events.now from }
{
    match from {
        Some(number) => origin_of(events, number),
        None => Origin::Outside,
    }
}

// Where what an event brings its node comes from.
fn brought_origin(events: &[Event], event: &Event) -> Origin
    ensures { result ≡ origin_brought events.now event.now }
{
    match event {
        Event::Deliver { event: number, .. } => origin_of(events, *number),
        _ => Origin::Outside,
    }
}

// The row of the event with this number, from 1, if there is one.
fn origin_of(events: &[Event], number: u32) -> Origin
    ensures { result ≡ origin_in events.now number }
{
    match events.get(number.saturating_sub(1) as usize) {
        Some(sender) => Origin::EventRow {
            number,
            node: node_of(sender),
        },
        None => Origin::Outside,
    }
}
