//! A gateway over either store in memory, and the player of tables.
ghost use Rattle.std.specs.Prelude.{◌≡◌, ◌+◌, ◌≤◌, length};
ghost use Rattle.cell_store.specs.Store.{FewCells};

use crate::comparing::holds;
use any_cells::AnyCells;
use basics::Block;
use cell_store::{Kind, Reread, Version};
use cut_disk::{MemDisk, Torn};
use freshness_routes::{Direction, NodeConfig, Route};
use key_slots::{Counter28, Flags, SlotId};
use memory_update::{Request, Uid, Update, build};
use secoc_gateway::{Arrival, Gateway};
use secoc_node::{CutFault, Node, NodeFault, Reception, first_cells};
use std::alloc::Global;
use std::process::Abort;
use std::test::Fail;

/// What is done to a gateway.
#[derive(Clone, Copy)]
pub enum Act {
    /// A key for a slot, with counter 1: target, authorising slot and its key, flags, and the new key.
    Load(u8, u8, u128, u8, u128),
    /// A boot with an image of one zero byte.
    Boot,
    Arrive(u16, &'static [u8]),
    Receive(u16, &'static [u8]),
    Second(u16),
    Count(u16, Direction),
    IsDown,
    Cut(Torn),
    /// The disk stops, or fails once, at its next call.
    Stop,
    Fail,
}

/// What a gateway answers.
#[derive(Clone, Copy, PartialEq, Eq)]
pub enum Answer {
    Done,
    /// A boot was good, or the node is down.
    Is(bool),
    Id(Option<u16>),
    Count(Option<u64>),
    /// The freshness of the arrival, and of the departure.
    Forwarded(u64, u64),
    /// The freshness of an arrival that didn't depart.
    Dropped(u64),
    VerificationFailure,
    /// The freshness that was accepted.
    Heard(u64),
    Refused(NodeFault),
    /// The disk failed within a cut.
    NotRead,
    /// Another answer, or the table is wrong.
    Other,
}

/// What is done, what the gateway answers, and the bytes that it sends; the rest of the buffer stays as it was.
#[derive(Clone, Copy)]
pub struct Row(pub Act, pub Answer, pub &'static [u8]);

/// A route through slot 4 or another.
#[derive(Clone, Copy)]
pub struct Way {
    pub id: u16,
    pub direction: Direction,
    pub slot: u8,
    pub reserve: u16,
    pub start: u64,
}

/// The kind and version of a store.
pub type Shape = (Kind, Version);

pub const SHAPES: [Shape; 4] = [
    (Kind::Twin, Version::One),
    (Kind::Twin, Version::Two),
    (Kind::Log, Version::One),
    (Kind::Log, Version::Two),
];

pub const KEY: u128 = 0x2b7e151628aed2a6abf7158809cf4f3c;

/// What authorises an empty slot.
pub const EMPTY: u128 = 0xffffffffffffffffffffffffffffffff;

fn uid() -> Uid {
    Uid::of([0, 0, 0, 0, 0, 0, 0, 0, 0, 0, 0, 0, 0, 0, 1])
}

fn config(alloc: Global, ways: &[Way]) -> Result<NodeConfig, Fail> {
    let mut routes = Vec::new(alloc);
    for way in ways {
        routes.push(Route {
            id: way.id,
            direction: way.direction,
            slot: SlotId::new(way.slot).ok_or("a slot")?,
            reserve: way.reserve,
            window: 256,
            start: way.start,
        })?;
    }
    let config = NodeConfig::new(uid(), routes).ok_or("a configuration")?;
    Ok(config)
}

fn attached(
    alloc: Global,
    kind: Kind,
    version: Version,
    config: NodeConfig,
    disk: MemDisk,
    count: u16,
) -> Result<Node<AnyCells<MemDisk>>, Fail>
    requires count { count ≡ 14 + length config.routes }
    requires few { count ≤ 270 }
{
    match AnyCells::attach_as(alloc, disk, kind, version, count) {
        Ok(cells) => match Node::attach(alloc, config, cells) {
            Ok(node) => Ok(node),
            Err(refused) => Err(Fail::from(refused.fault)),
        },
        Err(refused) => Err(Fail::from(refused.fault)),
    }
}

/// A disk with a store of these cells.
fn formatted(alloc: Global, shape: Shape, cells: &[[u8; 32]]) -> Result<MemDisk, Fail>
    requires { FewCells (length cells.now) }
{
    let disk = MemDisk::new(alloc, 65_000)?;
    match AnyCells::format_as(disk, shape.0, shape.1, cells) {
        Ok(disk) => Ok(disk),
        Err(refused) => Err(Fail::from(refused.fault)),
    }
}

/// A new node with these routes.
pub fn node(alloc: Global, shape: Shape, ways: &[Way]) -> Result<Node<AnyCells<MemDisk>>, Fail> {
    let config = config(alloc, ways)?;
    let mut cells = [[0; 32]; 270];
    let count = first_cells(&config, &mut cells);
    let disk = formatted(alloc, shape, &cells[..count])?;
    attached(alloc, shape.0, shape.1, config, disk, count as u16)
}

fn gateway(
    alloc: Global,
    shape: Shape,
    ways: &[Way],
    pairs: &[(u16, u16)],
) -> Result<Gateway<AnyCells<MemDisk>>, Fail> {
    let pairs = Vec::from_slice(alloc, pairs)?;
    let node = node(alloc, shape, ways)?;
    match Gateway::new(node, pairs) {
        Ok(gateway) => Ok(gateway),
        Err(_) => Err(Fail::from("pairs that aren't taken")),
    }
}

fn request(target: u8, auth: u8, authkey: u128, flags: u8, key: u128) -> Option<Request> {
    let update = Update {
        uid: uid(),
        id: SlotId::new(target)?,
        auth: SlotId::new(auth)?,
        counter: Counter28::new(1)?,
        flags: Flags::of(flags % 32),
        key: Block::of(key.to_be_bytes()),
    };
    Some(build(&update, &Block::of(authkey.to_be_bytes())))
}

fn loads(gateway: &mut Gateway<AnyCells<MemDisk>>, request: Option<Request>) -> Answer {
    let Some(request) = request else {
        return Answer::Other;
    };
    match gateway.load(&request) {
        Ok(_) => Answer::Done,
        Err(fault) => Answer::Refused(fault),
    }
}

fn boots(gateway: &mut Gateway<AnyCells<MemDisk>>) -> Answer {
    match gateway.boot(&[0]) {
        Ok(good) => Answer::Is(good),
        Err(fault) => Answer::Refused(fault),
    }
}

fn arrives(
    gateway: &mut Gateway<AnyCells<MemDisk>>,
    id: u16,
    pdu: &[u8],
    out: &mut [u8; 64],
) -> Answer {
    if gateway.second(id).is_none() {
        return Answer::Other;
    }
    match gateway.arrive(id, pdu, out) {
        Ok(Arrival::Forwarded { freshness, sent }) => Answer::Forwarded(freshness, sent.freshness),
        Ok(Arrival::Dropped { freshness, .. }) => Answer::Dropped(freshness),
        Ok(Arrival::VerificationFailure) => Answer::VerificationFailure,
        Ok(Arrival::FreshnessFailure) => Answer::Other,
        Err(fault) => Answer::Refused(fault),
    }
}

fn hears(gateway: &mut Gateway<AnyCells<MemDisk>>, id: u16, pdu: &[u8]) -> Answer {
    match gateway.receive(id, pdu) {
        Ok(Reception::Accepted { freshness, len: 6 }) => Answer::Heard(freshness),
        Ok(_) => Answer::Other,
        Err(fault) => Answer::Refused(fault),
    }
}

fn cuts(gateway: &mut Gateway<AnyCells<MemDisk>>, torn: Torn) -> Answer {
    match gateway.power_cut(torn) {
        Ok(()) => Answer::Done,
        Err(CutFault::Store(Reread::DiskFailed)) => Answer::NotRead,
        Err(_) => Answer::Other,
    }
}

fn stops(gateway: &mut Gateway<AnyCells<MemDisk>>) -> Answer {
    gateway.stop_at(1);
    Answer::Done
}

fn fails(gateway: &mut Gateway<AnyCells<MemDisk>>) -> Answer {
    gateway.fail_at(1);
    Answer::Done
}

fn does(gateway: &mut Gateway<AnyCells<MemDisk>>, act: &Act, out: &mut [u8; 64]) -> Answer {
    match *act {
        Act::Load(target, auth, authkey, flags, key) => {
            loads(gateway, request(target, auth, authkey, flags, key))
        }
        Act::Boot => boots(gateway),
        Act::Arrive(id, pdu) => arrives(gateway, id, pdu, out),
        Act::Receive(id, pdu) => hears(gateway, id, pdu),
        Act::Second(id) => Answer::Id(gateway.second(id)),
        Act::Count(id, direction) => Answer::Count(gateway.counter(id, direction)),
        Act::IsDown => Answer::Is(gateway.is_down()),
        Act::Cut(torn) => cuts(gateway, torn),
        Act::Stop => stops(gateway),
        Act::Fail => fails(gateway),
    }
}

/// A buffer of sevens that begins with these bytes.
fn buffer(front: &[u8]) -> [u8; 64] {
    let mut bytes = [7; 64];
    for (place, byte) in front.iter().enumerate() {
        if let Some(at) = bytes.get_mut(place) {
            *at = *byte;
        }
    }
    bytes
}

/// Does each row, and compares what was answered and sent.
pub fn plays(
    rt: &impl Abort,
    alloc: Global,
    shape: Shape,
    ways: &[Way],
    pairs: &[(u16, u16)],
    rows: &[Row],
) -> Result<(), Fail> {
    let mut gateway = gateway(alloc, shape, ways, pairs)?;
    for (place, row) in rows.iter().enumerate() {
        let mut out = buffer(&[]);
        let answer = does(&mut gateway, &row.0, &mut out);
        holds(rt, place, answer == row.1 && out == buffer(row.2));
    }
    let node = gateway.release();
    holds(rt, "the node is up", !node.is_down());
    Ok(())
}
