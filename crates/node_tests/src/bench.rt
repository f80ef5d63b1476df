//! A node over each store in memory, and the player of tables.
ghost use Rattle.std.specs.Prelude.{◌≡◌, ◌+◌, length, false, IfOk};
ghost use Rattle.cell_store.specs.Store.{FewCells};
ghost use Rattle.any_cells.specs.Either.{any_state};

use crate::comparing::{holds, same};
use any_cells::AnyCells;
use cell_store::{Cells, CutCells, Kind, Version};
use cut_disk::{MemDisk, Torn};
use freshness_manager::{Direction, NodeConfig, Route};
use key_slots::{Block, Counter28, Flags, SlotId};
use memory_update::{Request, Uid, Update, build};
use secoc_node::{Node, NodeFault, first_cells};
use secoc_receiver::Reception;
use std::alloc::Global;
use std::process::Abort;
use std::test::Fail;

/// What is done to a node.
#[derive(Clone, Copy)]
pub enum Act {
    /// A key for a slot: target, authorising slot and its key, counter, flags, and the new key.
    Load(u8, u8, u128, u32, u8, u128),
    Send(u16, &'static [u8]),
    Receive(u16, &'static [u8]),
    Count(u16, Direction),
    Cut(Torn),
    IsDown,
    /// Of a node of 256 routes: each route that sends does it, but the first and the last; and each counter is looked
    /// at.
    SendEach(&'static [u8]),
    CountEach,
}

/// What a node answers.
#[derive(Clone, Copy, Debug, PartialEq, Eq)]
pub enum Answer {
    Done,
    /// The freshness of what was sent.
    Sent(u64),
    Heard(Reception),
    Count(Option<u64>),
    Refused(NodeFault),
    Down(bool),
    /// The table is wrong, or what is answered.
    NoAct,
}

/// What is done, what the node answers, and the bytes that it sends; the rest of the buffer stays as it was.
#[derive(Clone, Copy)]
pub struct Row(pub Act, pub Answer, pub &'static [u8]);

/// A route through slot 4 or another.
#[derive(Clone, Copy)]
pub struct Way {
    pub id: u16,
    pub direction: Direction,
    pub slot: u8,
    pub reserve: u16,
    pub window: u16,
    pub start: u64,
}

/// A node's number and its routes; what its slot 4 has from the start; and the call of its disk at which that stops, 0
/// for none.
#[derive(Clone, Copy)]
pub struct Plan<'a> {
    pub number: u8,
    pub ways: &'a [Way],
    pub slot_4: [u8; 32],
    pub stop: u64,
}

fn uid(number: u8) -> Uid {
    Uid::of([0, 0, 0, 0, 0, 0, 0, 0, 0, 0, 0, 0, 0, 0, number])
}

pub fn config(alloc: Global, plan: &Plan<'_>) -> Result<NodeConfig, Fail> {
    let mut routes = Vec::new(alloc);
    for way in plan.ways {
        routes.push(Route {
            id: way.id,
            direction: way.direction,
            slot: SlotId::new(way.slot).ok_or("a slot")?,
            reserve: way.reserve,
            window: way.window,
            start: way.start,
        })?;
    }
    let config = NodeConfig::new(uid(plan.number), routes).ok_or("a configuration")?;
    Ok(config)
}

/// A store of this kind and version with these cells, on a disk in memory.
pub fn store_of(
    alloc: Global,
    store: (Kind, Version),
    cells: &[[u8; 32]],
) -> Result<AnyCells<MemDisk>, Fail>
    requires { FewCells (length cells.now) }
    ensures count { IfOk result (λ store. length (any_state store).cells ≡ length cells.now) }
    ensures whole { IfOk result (λ store. (any_state store).broken ≡ false) }
{
    let (kind, version) = store;
    let disk = MemDisk::new(alloc, 56_000)?;
    let disk = match AnyCells::format_as(disk, kind, version, cells) {
        Ok(disk) => disk,
        Err(refused) => return Err(Fail::from(refused.fault)),
    };
    match AnyCells::attach_as(alloc, disk, kind, version, cells.len() as u16) {
        Ok(store) => Ok(store),
        Err(refused) => Err(Fail::from(refused.fault)),
    }
}

fn attached<C: Cells + Drop>(alloc: Global, config: NodeConfig, store: C) -> Result<Node<C>, Fail>
    requires count { length (C.state store).cells ≡ 14 + length config.routes }
    requires whole { (C.state store).broken ≡ false }
{
    match Node::attach(alloc, config, store) {
        Ok(node) => Ok(node),
        Err(refused) => Err(Fail::from(refused.fault)),
    }
}

fn arm<C: CutCells>(store: &mut C, stop: u64)
    ensures cells { (C.state store.new).cells ≡ (C.state store.old).cells }
    ensures broken { (C.state store.new).broken ≡ (C.state store.old).broken }
{
    if stop > 0 {
        store.stop_at(stop);
    }
}

fn node_of(
    alloc: Global,
    store: (Kind, Version),
    plan: &Plan<'_>,
) -> Result<Node<AnyCells<MemDisk>>, Fail> {
    let config = config(alloc, plan)?;
    let mut cells = [[0; 32]; 270];
    let count = first_cells(&config, &mut cells);
    cells[4] = plan.slot_4;
    let mut store = store_of(alloc, store, &cells[..count])?;
    arm(&mut store, plan.stop);
    attached(alloc, config, store)
}

/// What an update is built of: target, authorising slot and its key, counter, flags, and the new key.
#[derive(Clone, Copy)]
struct Key(u8, u8, u128, u32, u8, u128);

fn request(number: u8, key: &Key) -> Option<Request> {
    let Key(target, auth, authkey, counter, flags, key) = *key;
    let update = Update {
        uid: uid(number),
        id: SlotId::new(target)?,
        auth: SlotId::new(auth)?,
        counter: Counter28::new(counter)?,
        flags: Flags::of(flags % 32),
        key: Block::of(key.to_be_bytes()),
    };
    Some(build(&update, &Block::of(authkey.to_be_bytes())))
}

fn loads<C: CutCells>(node: &mut Node<C>, number: u8, key: &Key) -> Answer {
    let Some(request) = request(number, key) else {
        return Answer::NoAct;
    };
    match node.load(&request) {
        Ok(_) => Answer::Done,
        Err(fault) => Answer::Refused(fault),
    }
}

fn sends<C: CutCells>(node: &mut Node<C>, id: u16, payload: &[u8], out: &mut [u8; 64]) -> Answer {
    match node.send(id, payload, out) {
        Ok(sent) if usize::from(sent.len) == payload.len() + 4 => Answer::Sent(sent.freshness),
        Ok(_) => Answer::NoAct,
        Err(fault) => Answer::Refused(fault),
    }
}

fn receives<C: CutCells>(node: &mut Node<C>, id: u16, pdu: &[u8]) -> Answer {
    match node.receive(id, pdu) {
        Ok(said) => Answer::Heard(said),
        Err(fault) => Answer::Refused(fault),
    }
}

fn is_cut<C: CutCells>(node: &mut Node<C>, torn: Torn) -> Answer {
    match node.power_cut(torn) {
        Ok(()) => Answer::Done,
        Err(_) => Answer::NoAct,
    }
}

fn counts<C: CutCells>(node: &Node<C>, id: u16, direction: Direction) -> Answer {
    Answer::Count(node.counter(id, direction))
}

/// Each of the 256 routes that sends, but the first and the last, sends once, with the freshness above its place.
fn sends_each<C: CutCells>(rt: &impl Abort, node: &mut Node<C>, payload: &[u8]) -> Answer {
    for place in 1..127u16 {
        let sent = sends(node, 0x100 + 2 * place, payload, &mut [0; 64]);
        same(rt, place, &sent, &Answer::Sent(u64::from(2 * place + 1)));
    }
    Answer::Done
}

/// The direction of one of the 256 routes, and whether a PDU passed it.
fn use_of(place: u16) -> (Direction, bool) {
    if place % 2 == 0 {
        (Direction::Sends, true)
    } else {
        (Direction::Receives, place == 1 || place == 255)
    }
}

/// The counter of each of the 256 routes is its place, or one above it if a PDU passed.
fn counts_each<C: CutCells>(rt: &impl Abort, node: &Node<C>) -> Answer {
    for place in 0..256u16 {
        let (direction, is_used) = use_of(place);
        let counter = u64::from(place) + u64::from(is_used);
        let counted = node.counter(0x100 + place, direction);
        same(rt, place, &counted, &Some(counter));
    }
    Answer::Done
}

/// Does this to the node of this number, and gives its answer.
fn does<C: CutCells>(
    rt: &impl Abort,
    node: &mut Node<C>,
    number: u8,
    act: &Act,
    out: &mut [u8; 64],
) -> Answer {
    match act {
        Act::Load(target, auth, authkey, counter, flags, key) => {
            let key = Key(*target, *auth, *authkey, *counter, *flags, *key);
            loads(node, number, &key)
        }
        Act::Send(id, payload) => sends(node, *id, payload, out),
        Act::Receive(id, pdu) => receives(node, *id, pdu),
        Act::Count(id, direction) => counts(node, *id, *direction),
        Act::Cut(torn) => is_cut(node, *torn),
        Act::IsDown => Answer::Down(node.is_down()),
        Act::SendEach(payload) => sends_each(rt, node, payload),
        Act::CountEach => counts_each(rt, node),
    }
}

/// The buffer of a send with these bytes at its beginning.
fn buffer(pdu: &[u8]) -> [u8; 64] {
    let mut out = [7; 64];
    for (to, from) in out.iter_mut().zip(pdu) {
        *to = *from;
    }
    out
}

/// Plays these rows, and compares each answer.
fn play<C: CutCells>(rt: &impl Abort, node: &mut Node<C>, number: u8, rows: &[Row]) {
    for (place, row) in rows.iter().enumerate() {
        let mut out = buffer(&[]);
        let answer = does(rt, node, number, &row.0, &mut out);
        same(rt, place, &answer, &row.1);
        holds(rt, place, out == buffer(row.2));
    }
}

pub const STORES: [(Kind, Version); 4] = [
    (Kind::Twin, Version::One),
    (Kind::Twin, Version::Two),
    (Kind::Log, Version::One),
    (Kind::Log, Version::Two),
];

/// Plays these rows to a new node of this plan over a store of this kind and version.
fn plays_over(
    rt: &impl Abort,
    alloc: Global,
    store: (Kind, Version),
    plan: &Plan<'_>,
    rows: &[Row],
) -> Result<(), Fail> {
    let mut node = node_of(alloc, store, plan)?;
    play(rt, &mut node, plan.number, rows);
    node.release();
    Ok(())
}

/// Plays these rows to a new node of this plan over each store in both versions.
pub fn plays(rt: &impl Abort, alloc: Global, plan: &Plan<'_>, rows: &[Row]) -> Result<(), Fail> {
    for store in STORES {
        plays_over(rt, alloc, store, plan, rows)?;
    }
    Ok(())
}
