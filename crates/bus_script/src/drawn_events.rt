//! An event of a trial by its draws.

ghost use Rattle.std.specs.Prelude.{◌≡◌, ◌+◌, ◌<◌, ◌≤◌, ◌^◌, length, IfOk};
ghost use Rattle.bus_script.specs.Trials.{theme_of, torn_of, disk_event as event_of_disk, first_delivered, send_drawn, deliver_drawn, inject_drawn, key_drawn, disk_drawn, drawn_event};
ghost use Rattle.bus_script.specs.TrialSteps.{IsDrawn, IsTrial};

use crate::draws::{Draws, draw_bytes};
use crate::trial::{Sender, Theme, Trial, key_for_slot};
use basics::{Block, Bytes};
use bus_config::BusConfig;
use bus_machine::Event;
use cut_disk::Torn;
use std::alloc::{AllocError, Global};

/// The event of this number, by the next draws.
#[tactic(auto, unfolding(crate::specs::Trials::drawn_event))]
pub fn draw_event(
    alloc: Global,
    trial: &Trial<'_>,
    number: u32,
    draws: &mut Draws,
) -> Result<Event, AllocError>
    requires drawn_from { IsTrial trial.now.bus.now.nodes trial.now.senders.items trial.now.ids.items }
    requires far { 9 ≤ number }
    ensures { IfOk result (λ event. IsDrawn (drawn_event trial.now.bus.now.nodes number draws.old) event draws.new) }
{
    let bus = trial.bus;
    let nodes = bus.nodes().len();
    match theme(draws.below(16)) {
        Theme::Send => draw_send(alloc, trial.senders.as_slice(), draws),
        Theme::Deliver => Ok(draw_deliver(nodes, number, draws)),
        Theme::Inject => draw_inject(alloc, nodes, trial.ids.as_slice(), draws),
        Theme::Key => Ok(draw_key(bus, draws)),
        Theme::Disk => Ok(draw_disk(nodes, draws)),
    }
}

/// What the first draw of an event, modulo 16, tells.
fn theme(value: usize) -> Theme
    ensures { result ≡ theme_of value }
{
    match value {
        0..=6 => Theme::Send,
        7..=12 => Theme::Deliver,
        13 => Theme::Inject,
        14 => Theme::Key,
        _ => Theme::Disk,
    }
}

/// Instead of what a bus has no route for: the first event, to the first node.
fn first_again() -> Event
    ensures { result ≡ first_delivered }
{
    Event::Deliver { node: 0, event: 1 }
}

/// A node sends under one of the routes that send.
#[tactic(auto, using(crate::proofs::TrialLists::no_sender))]
fn draw_send(alloc: Global, senders: &[Sender], draws: &mut Draws) -> Result<Event, AllocError>
    ensures { IfOk result (λ event. IsDrawn (send_drawn senders.now draws.old) event draws.new) }
{
    if senders.is_empty() {
        return Ok(first_again());
    }
    let Sender { node, id } = senders[draws.below(senders.len())];
    let size = 1 + draws.below(8);
    let payload = Bytes::of(draw_bytes(alloc, draws, size)?);
    Ok(Event::Send { node, id, payload })
}

/// One of so many nodes receives what an event sent, one to eight before this one, whose number is `number`.
fn draw_deliver(nodes: usize, number: u32, draws: &mut Draws) -> Event
    requires some { (0 < nodes) × (nodes ≤ 8) }
    requires far { 9 ≤ number }
    ensures { IsDrawn (deliver_drawn nodes number draws.old) result draws.new }
{
    let node = draws.below(nodes) as u8;
    Event::Deliver {
        node,
        event: number - 1 - draws.below(8) as u32,
    }
}

/// One of so many nodes receives any bytes under the Data ID of one of the routes.
#[tactic(auto, using(crate::proofs::TrialLists::no_id))]
fn draw_inject(
    alloc: Global,
    nodes: usize,
    ids: &[u16],
    draws: &mut Draws,
) -> Result<Event, AllocError>
    requires { (0 < nodes) × (nodes ≤ 8) }
    ensures { IfOk result (λ event. IsDrawn (inject_drawn nodes ids.now draws.old) event draws.new) }
{
    if ids.is_empty() {
        return Ok(first_again());
    }
    let node = draws.below(nodes) as u8;
    let id = ids[draws.below(ids.len())];
    let size = 5 + draws.below(8);
    let pdu = Bytes::of(draw_bytes(alloc, draws, size)?);
    Ok(Event::Inject { node, id, pdu })
}

/// A slot of a node gets its key, authorised by itself.
fn draw_key(bus: &BusConfig, draws: &mut Draws) -> Event
    ensures { IsDrawn (key_drawn bus.now.nodes draws.old) result draws.new }
{
    let node = draws.below(bus.nodes().len()) as u8;
    let slot = 4 + draws.below(10) as u8;
    let counter = 1 + draws.below(1000) as u32;
    key_for_slot(bus, node, slot, counter, Block::of([slot; 16]))
}

/// The power of one of so many nodes is cut, or calls of its disk are to fail.
fn draw_disk(nodes: usize, draws: &mut Draws) -> Event
    requires { (0 < nodes) × (nodes ≤ 8) }
    ensures { IsDrawn (disk_drawn nodes draws.old) result draws.new }
{
    let value = draws.below(4);
    let node = draws.below(nodes) as u8;
    disk_event(value, node, draws.draw())
}

/// What happens to the disk of a node, and how.
fn disk_event(value: usize, node: u8, last: u32) -> Event
    ensures { result ≡ event_of_disk value node last }
{
    match value {
        0 | 1 => Event::Cut {
            node,
            torn: torn(last % 4),
        },
        2 => Event::Stop {
            node,
            calls: 1 + last % 8,
        },
        _ => Event::Fail {
            node,
            calls: 1 + last % 8,
        },
    }
}

/// What a power cut leaves.
fn torn(value: u32) -> Torn
    ensures { result ≡ torn_of value }
{
    match value {
        0 => Torn::Keep,
        1 => Torn::Old,
        2 => Torn::Half,
        _ => Torn::Fill(0xa7),
    }
}
