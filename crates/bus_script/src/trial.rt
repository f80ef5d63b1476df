//! The events of a trial: load that a seed gives, the same each time.

ghost use Rattle.std.specs.Prelude.{◌≡◌, ℕ, ◌+◌, ◌*◌, ◌<◌, ◌≤◌, ◌++◌, length, All, IfOk, OnOk};
ghost use Rattle.text_lines.specs.Readings.{most_lines};
ghost use Rattle.bus_config.specs.Buses.{ids_sent_by};
ghost use Rattle.bus_script.specs.ScriptEvents.{IsScriptEvent};
ghost use Rattle.bus_script.specs.Trials.{senders_at, senders as senders_of, ids_at, route_ids as ids_of, key_for, keys_of_node, keys_of_bus, trial_events};

use crate::drawn_events::draw_event;
use crate::draws::Draws;
use basics::Block;
use bus_config::BusConfig;
use bus_machine::Event;
use freshness_routes::{Direction, Route};
use key_slots::{Counter28, Flags, SlotId};
use memory_update::Update;
use std::alloc::{AllocError, Global};

/// A route that sends.
#[derive(Clone, Copy)]
pub struct Sender {
    /// The place of its node.
    pub node: u8,
    /// Its Data ID.
    pub id: u16,
}

/// What an event is about.
#[derive(Clone, Copy)]
pub enum Theme {
    /// A node sends.
    Send,
    /// A node receives what was sent.
    Deliver,
    /// A node receives any bytes.
    Inject,
    /// A slot gets its key again.
    Key,
    /// A power cut, or a failure of a disk.
    Disk,
}

/// A bus, and the routes that its events are drawn from.
#[derive(Drop)]
pub struct Trial<'a> {
    pub bus: &'a BusConfig,
    /// The routes that send.
    pub senders: Vec<Sender>,
    /// The Data IDs of all routes.
    pub ids: Vec<u16>,
}

/// The events of a trial over a bus: for each node and each of the slots 4 to 13 a `key` event, and then `count`
/// events, 1 to 60,000, that the seed gives. Each is one that a script can have, and they are at most 60,080.
pub fn make_trial(
    alloc: Global,
    bus: &BusConfig,
    count: u32,
    seed: u64,
) -> Result<Vec<Event>, AllocError>
    requires { (1 ≤ count) × (count ≤ 60000) }
    ensures exact { IfOk result (λ events. events.items ≡ trial_events bus.now.nodes count seed) }
    ensures are_events { IfOk result (λ events. All (IsScriptEvent bus.now.nodes) events.items) }
    ensures number { IfOk result (λ events. length events.items ≡ 10 * length bus.now.nodes + count) }
    ensures few { IfOk result (λ events. length events.items ≤ most_lines) }
{
    let _nodes = bus.nodes();
    events_in(alloc, bus, count, seed)
}

/// The events of a trial, one after the other.
fn events_in(
    alloc: Global,
    bus: &BusConfig,
    count: u32,
    seed: u64,
) -> Result<Vec<Event>, AllocError>
    requires { count ≤ 60000 }
    ensures { IfOk result (λ events. events.items ≡ trial_events bus.now.nodes count seed) }
{
    let first = bus.nodes().len() * 10;
    let mut events = Vec::with_capacity(alloc, first + count as usize)?;
    push_keys(&mut events, bus)?;
    let trial = Trial {
        bus,
        senders: senders(alloc, bus)?,
        ids: route_ids(alloc, bus)?,
    };
    let mut draws = Draws::of(seed);
    for done in 0..count {
        let number = first as u32 + 1 + done;
        events.push(draw_event(alloc, &trial, number, &mut draws)?)?;
    }
    Ok(events)
}

// ---- the routes of a bus

/// The routes that send.
fn senders(alloc: Global, bus: &BusConfig) -> Result<Vec<Sender>, AllocError>
    ensures { IfOk result (λ senders. senders.items ≡ senders_of 0 bus.now.nodes) }
{
    let nodes = bus.nodes();
    let mut senders = Vec::new(alloc);
    for (place, node) in nodes.iter().enumerate() {
        push_senders(&mut senders, place as u8, node.config.routes.as_slice())?;
    }
    Ok(senders)
}

/// Adds the routes of a node that send.
fn push_senders(senders: &mut Vec<Sender>, node: u8, routes: &[Route]) -> Result<(), AllocError>
    ensures { OnOk result (senders.new.items ≡ senders.old.items ++ senders_at node (ids_sent_by routes.now)) }
{
    for route in routes {
        if route.direction == Direction::Sends {
            senders.push(Sender { node, id: route.id })?;
        }
    }
    Ok(())
}

/// The Data IDs of all routes.
fn route_ids(alloc: Global, bus: &BusConfig) -> Result<Vec<u16>, AllocError>
    ensures { IfOk result (λ ids. ids.items ≡ ids_of bus.now.nodes) }
{
    let nodes = bus.nodes();
    let mut ids = Vec::new(alloc);
    for node in nodes {
        push_route_ids(&mut ids, node.config.routes.as_slice())?;
    }
    Ok(ids)
}

/// Adds the Data IDs of the routes of a node.
fn push_route_ids(ids: &mut Vec<u16>, routes: &[Route]) -> Result<(), AllocError>
    ensures { OnOk result (ids.new.items ≡ ids.old.items ++ ids_at routes.now) }
{
    for route in routes {
        ids.push(route.id)?;
    }
    Ok(())
}

// ---- the keys

/// Adds the events that give each slot from 4 on of each node its key.
fn push_keys(events: &mut Vec<Event>, bus: &BusConfig) -> Result<(), AllocError>
    ensures { OnOk result (events.new.items ≡ events.old.items ++ keys_of_bus bus.now.nodes) }
{
    let count = bus.nodes().len();
    for place in 0..count {
        push_node_keys(events, bus, place as u8)?;
    }
    Ok(())
}

/// Adds those of a node.
fn push_node_keys(events: &mut Vec<Event>, bus: &BusConfig, node: u8) -> Result<(), AllocError>
    requires { node < length bus.now.nodes }
    ensures { OnOk result (events.new.items ≡ events.old.items ++ keys_of_node bus.now.nodes node) }
{
    for slot in 4..14 {
        events.push(key_for_slot(bus, node, slot, 1, Block::of([0xff; 16])))?;
    }
    Ok(())
}

/// The event that gives a slot of a node its key, for MACs and with this counter, authorised by itself.
pub fn key_for_slot(bus: &BusConfig, node: u8, slot: u8, counter: u32, authkey: Block) -> Event
    requires place { node < length bus.now.nodes }
    requires slot { slot < 14 }
    requires counter { counter ≤ 1000 }
    ensures { result ≡ key_for bus.now.nodes node slot counter authkey }
{
    let line = &bus.nodes()[node as usize];
    let config = &line.config;
    let id = SlotId::new(slot).unwrap();
    Event::Key {
        node,
        update: Update {
            uid: config.uid,
            id,
            auth: id,
            counter: Counter28::new(counter).unwrap(),
            flags: Flags {
                write: false,
                boot: false,
                debugger: false,
                usage: true,
                wildcard: false,
            },
            key: Block::of([slot; 16]),
        },
        authkey,
    }
}
