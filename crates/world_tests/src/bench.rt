//! A world with its disks, and what is put before it.
ghost use Rattle.std.specs.Prelude.{◌≡◌, IsTrue};
ghost use Rattle.bus_machine.specs.Bus.{node_of};
ghost use Rattle.bus_world.specs.Turns.{CanBeDone};

use crate::comparing::{holds, same};
use basics::{Block, Bytes, Pdu};
use bus_config::{BusConfig, Name, NodeLine};
use bus_machine::{Event, Line, Refusal};
use bus_world::{Start, StartFault, World};
use cell_store::{Kind, Version};
use cut_disk::{CutDisk, Disk, MemDisk, Torn};
use freshness_routes::{Direction, NodeConfig, Route};
use key_slots::{Counter28, Erc, Flags, SlotId};
use memory_update::{Uid, Update};
use std::alloc::Global;
use std::marker::Model;
use std::process::Abort;
use std::test::Fail;

/// The route of a row, with a window of 256.
fn route_of(row: &RouteRow) -> Result<Route, Fail> {
    Ok(Route {
        id: row.0,
        direction: row.1,
        slot: SlotId::new(row.2).ok_or("a slot")?,
        reserve: row.3,
        window: 256,
        start: row.4,
    })
}

pub(crate) const STORES: [(Kind, Version); 4] = [
    (Kind::Twin, Version::One),
    (Kind::Twin, Version::Two),
    (Kind::Log, Version::One),
    (Kind::Log, Version::Two),
];

/// Disks of these sizes, of at most 65,536 bytes.
pub(crate) fn disks(alloc: Global, sizes: &[usize]) -> Result<Vec<MemDisk>, Fail> {
    let mut disks = Vec::new(alloc);
    for size in sizes {
        disks.push(disk(alloc, *size)?)?;
    }
    Ok(disks)
}

pub(crate) fn disk(alloc: Global, size: usize) -> Result<MemDisk, Fail> {
    if size > 65_536 {
        return Err(Fail::from("a large disk"));
    }
    Ok(MemDisk::new(alloc, size)?)
}

/// Disks have these sizes, in this order.
pub(crate) fn are_of(rt: &impl Abort, disks: &[MemDisk], sizes: &[usize]) {
    holds(rt, "disks.len()", disks.len() == sizes.len());
    for (disk, size) in disks.iter().zip(sizes.iter()) {
        holds(rt, "disk.size()", disk.size() == (*size as u64));
    }
}

/// A route: its Data ID, its direction, its slot, its reserve, and the freshness that it starts at.
pub(crate) struct RouteRow(
    pub(crate) u16,
    pub(crate) Direction,
    pub(crate) u8,
    pub(crate) u16,
    pub(crate) u64,
);

/// A node: its name, the last byte of its UID, and its routes.
pub(crate) struct NodeRow(
    pub(crate) &'static [u8],
    pub(crate) u8,
    pub(crate) &'static [RouteRow],
);

/// The routes of these rows.
fn routes_of(alloc: Global, rows: &[RouteRow]) -> Result<Vec<Route>, Fail> {
    let mut routes = Vec::new(alloc);
    for row in rows {
        routes.push(route_of(row)?)?;
    }
    Ok(routes)
}

/// The node of a row, whose UID has its number.
fn node_line(alloc: Global, row: &NodeRow) -> Result<NodeLine, Fail> {
    let uid = Uid::of([0, 0, 0, 0, 0, 0, 0, 0, 0, 0, 0, 0, 0, 0, row.1]);
    let name = Name::of(row.0).ok_or("a name")?;
    let config = NodeConfig::new(uid, routes_of(alloc, row.2)?).ok_or("a node")?;
    Ok(NodeLine { name, config })
}

/// The nodes of these rows.
fn nodes_of(alloc: Global, rows: &[NodeRow]) -> Result<Vec<NodeLine>, Fail> {
    let mut nodes = Vec::new(alloc);
    for row in rows {
        nodes.push(node_line(alloc, row)?)?;
    }
    Ok(nodes)
}

/// The bus of these nodes.
pub(crate) fn bus_of(
    alloc: Global,
    kind: Kind,
    version: Version,
    rows: &[NodeRow],
) -> Result<BusConfig, Fail> {
    Ok(BusConfig::new(kind, version, nodes_of(alloc, rows)?).ok_or("a bus")?)
}

/// What is asked of a node.
#[derive(Clone, Copy)]
pub(crate) enum Act {
    /// Slot 4 gets the key, which an empty slot takes: the last byte of the node's UID.
    Key(u8),
    /// A Data ID and a payload.
    Send(u16, &'static [u8]),
    /// The number of the event whose line is delivered.
    Deliver(u32),
    /// The call at which the disk stops.
    Stop(u32),
    /// The call that fails.
    Fail(u32),
    Cut(Torn),
}

/// The line that tells what comes of it.
#[derive(Clone, Copy)]
pub(crate) enum Told {
    Keyed,
    /// The Data ID, the freshness and the PDU.
    Sent(u16, u64, &'static [u8]),
    NoFrame,
    Armed,
    Up,
    /// Slot 4 isn't empty.
    Filled,
    Down,
    MemoryFailure,
}

/// The number of the node, what is asked of it, and what it tells.
pub(crate) struct Row(pub(crate) u8, pub(crate) Act, pub(crate) Told);

/// The key of the CMAC examples of SP 800-38B.
const KEY: u128 = 0x2b7e151628aed2a6abf7158809cf4f3c;

/// Slot 4 of a node with this UID gets the key, by which it may sign.
fn key_event(node: u8, uid: u8) -> Result<Event, Fail> {
    let id = SlotId::new(4).ok_or("a slot")?;
    let update = Update {
        uid: Uid::of([0, 0, 0, 0, 0, 0, 0, 0, 0, 0, 0, 0, 0, 0, uid]),
        id,
        auth: id,
        counter: Counter28::new(1).ok_or("a counter")?,
        flags: Flags::of(2),
        key: Block::of(KEY.to_be_bytes()),
    };
    let authkey = Block::of([0xff; 16]);
    Ok(Event::Key {
        node,
        update,
        authkey,
    })
}

/// A node sends a payload.
fn send_event(alloc: Global, node: u8, id: u16, payload: &[u8]) -> Result<Event, Fail> {
    let payload = Bytes::of(Vec::from_slice(alloc, payload)?);
    Ok(Event::Send { node, id, payload })
}

/// The event of a row.
pub(crate) fn event_of(alloc: Global, row: &Row) -> Result<Event, Fail> {
    let Row(node, act, _) = *row;
    match act {
        Act::Key(uid) => key_event(node, uid),
        Act::Send(id, payload) => send_event(alloc, node, id, payload),
        Act::Deliver(event) => Ok(Event::Deliver { node, event }),
        Act::Stop(calls) => Ok(Event::Stop { node, calls }),
        Act::Fail(calls) => Ok(Event::Fail { node, calls }),
        Act::Cut(torn) => Ok(Event::Cut { node, torn }),
    }
}

/// The line of a row.
fn line_of(row: &Row) -> Result<Line, Fail> {
    Ok(match row.2 {
        Told::Keyed => Line::Keyed {
            slot: SlotId::new(4).ok_or("a slot")?,
        },
        Told::Sent(id, freshness, pdu) => Line::Sent {
            id,
            freshness,
            pdu: Pdu::of(pdu).ok_or("too long")?,
        },
        Told::NoFrame => Line::NoFrame,
        Told::Armed => Line::Armed,
        Told::Up => Line::Up,
        Told::Filled => Line::Refused(Refusal::Key(Erc::KeyUpdateError)),
        Told::Down => Line::Refused(Refusal::Down),
        Told::MemoryFailure => Line::Refused(Refusal::MemoryFailure),
    })
}

/// A line is that of its row, which stands at this place.
pub(crate) fn line_is(rt: &impl Abort, place: usize, line: &Line, row: &Row) -> Result<(), Fail> {
    same(rt, place, line, &line_of(row)?);
    Ok(())
}

/// The node of an event.
fn place_of(event: &Event) -> u8
    ensures { result ≡ node_of event.now }
{
    match event {
        Event::Send { node, .. } => *node,
        Event::Deliver { node, .. } => *node,
        Event::Inject { node, .. } => *node,
        Event::Load { node, .. } => *node,
        Event::Key { node, .. } => *node,
        Event::Boot { node, .. } => *node,
        Event::Cut { node, .. } => *node,
        Event::Stop { node, .. } => *node,
        Event::Fail { node, .. } => *node,
    }
}

pub(crate) fn can_be_done(event: &Event) -> bool
    ensures { IsTrue result → CanBeDone event.now }
{
    match event {
        Event::Boot { image, .. } => !image.bytes().is_empty() && image.bytes().len() <= 65_536,
        Event::Stop { calls, .. } => *calls >= 1,
        Event::Fail { calls, .. } => *calls >= 1,
        _ => true,
    }
}

/// Starts a world over these disks and ends it: the fault, if the start is refused. The disks are back.
pub(crate) fn starts<D: CutDisk>(
    alloc: Global,
    bus: &BusConfig,
    disks: &mut Vec<D>,
    start: Start,
) -> Option<StartFault> {
    match World::start(alloc, bus, disks, 0, start) {
        Ok(world) => {
            world.finish(disks);
            None
        }
        Err(fault) => Some(fault),
    }
}

/// The bytes of a disk of 40,000.
fn bytes_of(disk: &mut MemDisk) -> Result<[u8; 40_000], Fail> {
    let mut bytes = [0; 40_000];
    if disk.size() != 40_000 {
        return Err(Fail::from("a disk of another size"));
    }
    disk.read(0, &mut bytes)?;
    Ok(bytes)
}

/// The bytes of the disk of the node with this number, from 1.
pub(crate) fn bytes_at(disks: &mut [MemDisk], number: u8) -> Result<[u8; 40_000], Fail> {
    let place = usize::from(number).saturating_sub(1);
    if place >= disks.len() {
        return Err(Fail::from("no disk"));
    }
    bytes_of(&mut disks[place])
}

/// A world over its disks, and the disks that it doesn't take. Contracts see the world.
#[derive(Drop)]
struct Bench<D: CutDisk + Drop> {
    world: World<D>,
    spare: Vec<D>,
    nodes: usize,
    /// How many events may still be done.
    left: u32,
}

impl<D: CutDisk + Drop> Model for Bench<D> {
    ghost use Rattle.std.specs.Prelude.{◌≡◌, ◌+◌, ◌≤◌, length};
    ghost use Rattle.std.specs.Vec.{vec_len, vec_capacity};
    ghost use Rattle.bus_world.specs.Worlds.{BusState};

    ghost Value = { BusState };

    ghost view = { λ b. b.world };

    ghost invariant = { λ b. (length b.world.nodes ≡ b.nodes) × (b.world.events + b.left ≡ b.world.most)
        × (vec_len b.spare + b.nodes ≤ vec_capacity b.spare) };
}

impl<D: CutDisk + Drop> Bench<D> {
    /// A new world over the first of these disks, for so many events.
    fn new(
        alloc: Global,
        bus: &BusConfig,
        disks: Vec<D>,
        events: u32,
        start: Start,
    ) -> Result<Bench<D>, Fail> {
        let mut spare = disks;
        let nodes = bus.nodes().len();
        match World::start(alloc, bus, &mut spare, events, start) {
            Ok(world) => Ok(Bench {
                world,
                spare,
                nodes,
                left: events,
            }),
            Err(fault) => Err(Fail::from(fault)),
        }
    }

    /// Does an event of the bus, for which there is room.
    fn answer(&mut self, event: &Event) -> Result<Line, Fail> {
        if self.left == 0 || usize::from(place_of(event)) >= self.nodes || !can_be_done(event) {
            return Err(Fail::from("no event of the bus"));
        }
        self.left -= 1;
        Ok(self.world.step(event))
    }

    /// Does the event of a row, and compares its line.
    fn line(
        &mut self,
        rt: &impl Abort,
        alloc: Global,
        place: usize,
        row: &Row,
    ) -> Result<(), Fail> {
        let event = event_of(alloc, row)?;
        line_is(rt, place, &self.answer(&event)?, row)
    }

    /// Does the events of these rows.
    fn tells(&mut self, rt: &impl Abort, alloc: Global, rows: &[Row]) -> Result<(), Fail> {
        for (place, row) in rows.iter().enumerate() {
            self.line(rt, alloc, place, row)?;
        }
        Ok(())
    }

    /// All disks, those of the world first.
    fn end(self) -> Vec<D> {
        let Bench { world, spare, .. } = self;
        let mut disks = spare;
        world.finish(&mut disks);
        disks
    }
}

/// A life of so many events over these disks, which come back.
pub(crate) fn lives<D: CutDisk + Drop>(
    rt: &impl Abort,
    alloc: Global,
    bus: &BusConfig,
    disks: Vec<D>,
    events: u32,
    start: Start,
    rows: &[Row],
) -> Result<Vec<D>, Fail> {
    let mut bench = Bench::new(alloc, bus, disks, events, start)?;
    bench.tells(rt, alloc, rows)?;
    Ok(bench.end())
}
