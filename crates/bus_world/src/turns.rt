//! What an event is for its node: a call, and the line that tells its answer.
ghost use Rattle.std.specs.Prelude.{◌≡◌, ◌≤◌, ◌<◌, ◌^◌, ◌==◌, None, Some, [], length, take, find, option_map};
ghost use Rattle.std.specs.Option.{option_map_or};
ghost use Rattle.freshness_routes.specs.declared.routes.Direction.TheVariants.{Receives};
ghost use Rattle.bus_machine.specs.Node.{place_of};
ghost use Rattle.bus_machine.specs.Bus.{World, SentLine, node_of as place_of_node, hearing, NamesSource, silent_world};
ghost use Rattle.bus_machine.specs.Honest.{IsInTime, IsHeard};
ghost use Rattle.cut_disk.specs.State.{Cut, Stop, Fail};
ghost use Rattle.secure_boot.specs.Booting.{IsImage};
ghost use Rattle.bus_machine.specs.Steps.{sends, receives, loads, keys, boots, cuts, arms};
ghost use Rattle.secoc_node.specs.Lines.{refusal_of_fault, refusal_of_cut};
ghost use Rattle.bus_world.specs.History.{has_values, frame_in};
ghost use Rattle.bus_world.specs.Turns.{NodeTurn, duty, duty_of, CanBeDone, NamesSourceIn, HearsPdu};
ghost use Rattle.bus_world.specs.Turns.{HearsBrought};

use crate::history::{Frame, History};
use basics::{Block, Pdu};
use bus_machine::{Event, Line, Refusal};
use cell_store::{Cells, CutCells, Reread};
use cut_disk::Torn;
use memory_update::{Request, Update, build};
use secoc_node::{CutFault, Node, NodeFault, Reception};

/// The place of the event's node in the bus.
pub(crate) fn node_of(event: &Event) -> u8
    ensures { result ≡ place_of_node event.now }
{
    match event {
        Event::Send { node, .. } => *node,
        Event::Deliver { node, .. } => *node,
        Event::Inject { node, .. } => *node,
        Event::Load { node, .. } => *node,
        Event::Key { node, .. } => *node,
        Event::Boot { node, .. } => *node,
        Event::Cut { node, .. } => *node,
        Event::Stop { node, .. } => *node,
        Event::Fail { node, .. } => *node,
    }
}

/// What an event is for a node alone, on a bus on which nothing was sent: the node does what the event tells it, and an
/// accepted line is from none. It takes no memory.
pub fn own_turn<C: CutCells>(node: &mut Node<C>, event: &Event) -> Line
    requires { CanBeDone event.now }
    ensures turn { NodeTurn node.old (duty_of silent_world event.now) result node.new }
    ensures source { NamesSource silent_world result }
    ensures honest { HearsBrought silent_world event.now node.old.node result }
{
    take_turn(node, event, None)
}

/// The node of an event does what the event tells it, after what was sent so far on its bus, if it is on one.
pub(crate) fn take_turn<C: CutCells>(
    node: &mut Node<C>,
    event: &Event,
    history: Option<&History>,
) -> Line
    requires { CanBeDone event.now }
    ensures turn { (world : World) → world.sent ≡ option_map_or (λ h. h.now.lines) history.entry []
        → NodeTurn node.old (duty_of world event.now) result node.new }
    ensures source { (world : World) → world.sent ≡ option_map_or (λ h. h.now.lines) history.entry []
        → NamesSource world result }
    ensures honest { (world : World) → world.sent ≡ option_map_or (λ h. h.now.lines) history.entry []
        → HearsBrought world event.now node.old.node result }
{
    match event {
        Event::Send { id, payload, .. } => send_turn(node, *id, payload.bytes()),
        Event::Deliver { event, .. } => deliver(node, *event, history),
        Event::Inject { id, pdu, .. } => receive(node, *id, pdu.bytes(), history),
        Event::Load { request, .. } => load_turn(node, request),
        Event::Key {
            update,
            authkey,
            ..
        } => key(node, update, authkey),
        Event::Boot { image, .. } => boot_turn(node, image.bytes()),
        Event::Cut { torn, .. } => cut(node, *torn),
        Event::Stop { calls, .. } => stop(node, *calls),
        Event::Fail { calls, .. } => fail(node, *calls),
    }
}

/// The node sends a payload. It takes no memory.
pub fn send_turn<C: Cells>(node: &mut Node<C>, id: u16, payload: &[u8]) -> Line
    ensures { NodeTurn node.old (duty (sends id payload.now) None) result node.new }
{
    let mut out = [0; 64];
    match node.send(id, payload, &mut out) {
        Ok(sent) => Line::Sent {
            id,
            freshness: sent.freshness,
            pdu: front(&out, sent.len),
        },
        Err(fault) => Line::Refused(refusal_of(fault)),
    }
}

/// The node receives a PDU. An accepted line is from none. It takes no memory.
pub fn receive_turn<C: Cells>(node: &mut Node<C>, id: u16, pdu: &[u8]) -> Line
    ensures turn { NodeTurn node.old (duty (receives id pdu.now) None) result node.new }
    ensures source { NamesSource silent_world result }
    ensures honest { HearsPdu node.old.node id pdu.now result }
{
    receive(node, id, pdu, None)
}

/// The node receives the PDU that the event of this number sent, if it did.
fn deliver<C: Cells>(node: &mut Node<C>, event: u32, history: Option<&History>) -> Line
    ensures turn { let lines = option_map_or (λ h. h.now.lines) history.entry [] in
        NodeTurn node.old (duty (hearing (find (λ s. s.number == event) lines)) None) result node.new }
    ensures source { NamesSourceIn (option_map_or (λ h. h.now.lines) history.entry []) result }
    ensures honest { (s : SentLine)
        → find (λ s. s.number == event) (option_map_or (λ h. h.now.lines) history.entry []) ≡ Some s
        → IsInTime node.old.node s (place_of node.old.node s.id Receives) → IsHeard s result }
{
    match frame_of(history, event) {
        Some(frame) => receive(node, frame.id, frame.pdu.bytes(), history),
        None => Line::NoFrame,
    }
}

/// What the event of this number sent, if it did.
fn frame_of(history: Option<&History>, event: u32) -> Option<Frame>
    ensures value { result ≡ frame_in event (option_map_or (λ h. h.now.lines) history.entry []) }
    ensures bounded { (s : SentLine)
        → find (λ s. s.number == event) (option_map_or (λ h. h.now.lines) history.entry []) ≡ Some s
        → s.freshness < 2 ^ 64 }
{
    match history {
        Some(history) => history.frame(event),
        None => None,
    }
}

/// The number of the earliest event that sent this payload with this freshness under this Data ID.
fn source_of(history: Option<&History>, id: u16, payload: &[u8], freshness: u64) -> Option<u32>
    ensures { result ≡ option_map (λ s. s.number)
        (find (has_values id payload.now freshness) (option_map_or (λ h. h.now.lines) history.entry [])) }
{
    match history {
        Some(history) => history.source(id, payload, freshness),
        None => None,
    }
}

/// The node receives a PDU. An accepted line names the earliest event that sent what is accepted.
fn receive<C: Cells>(node: &mut Node<C>, id: u16, pdu: &[u8], history: Option<&History>) -> Line
    ensures turn { NodeTurn node.old (duty (receives id pdu.now) None) result node.new }
    ensures source { NamesSourceIn (option_map_or (λ h. h.now.lines) history.entry []) result }
    ensures honest { HearsPdu node.old.node id pdu.now result }
{
    match node.receive(id, pdu) {
        Ok(Reception::Accepted { freshness, len }) => {
            let payload = front(pdu, len);
            Line::Accepted {
                id,
                freshness,
                payload,
                from: source_of(history, id, payload.bytes(), freshness),
            }
        }
        Ok(Reception::FreshnessFailure) => Line::FreshnessFailure,
        Ok(Reception::VerificationFailure) => Line::VerificationFailure,
        Err(fault) => Line::Refused(refusal_of(fault)),
    }
}

/// The first bytes, so many of them, as a PDU.
fn front(bytes: &[u8], len: u8) -> Pdu
    requires { length (take len bytes.now) ≤ 64 }
    ensures { result ≡ take len bytes.now }
{
    let len = usize::from(len).min(bytes.len());
    Pdu::of(&bytes[..len]).unwrap()
}

/// The node's engine gets a request. It takes no memory.
pub fn load_turn<C: Cells>(node: &mut Node<C>, request: &Request) -> Line
    ensures { NodeTurn node.old (duty (loads request.now) None) result node.new }
{
    match node.load(request) {
        Ok(reply) => Line::Loaded { reply },
        Err(fault) => Line::Refused(refusal_of(fault)),
    }
}

/// The node's engine gets the request that carries an update.
fn key<C: Cells>(node: &mut Node<C>, update: &Update, authkey: &Block) -> Line
    ensures { NodeTurn node.old (duty (keys update.now authkey.now) None) result node.new }
{
    match node.load(&build(update, authkey)) {
        Ok(_) => Line::Keyed { slot: update.id },
        Err(fault) => Line::Refused(refusal_of(fault)),
    }
}

/// The node makes a secure boot with an image of 1 to 65,536 bytes. It takes no memory.
pub fn boot_turn<C: Cells>(node: &mut Node<C>, image: &[u8]) -> Line
    requires { IsImage image.now }
    ensures { NodeTurn node.old (duty (boots image.now) None) result node.new }
{
    match node.boot(image) {
        Ok(good) => Line::Boot { good },
        Err(fault) => Line::Refused(refusal_of(fault)),
    }
}

/// The node's power is cut and comes back.
fn cut<C: CutCells>(node: &mut Node<C>, torn: Torn) -> Line
    ensures { NodeTurn node.old (duty cuts (Some (Cut torn))) result node.new }
{
    match node.power_cut(torn) {
        Ok(()) => Line::Up,
        Err(fault) => Line::Refused(cut_refusal(&fault)),
    }
}

/// From a call on each call of the node's disk fails, until its power is cut.
fn stop<C: CutCells>(node: &mut Node<C>, calls: u32) -> Line
    requires { 1 ≤ calls }
    ensures { NodeTurn node.old (duty arms (Some (Stop calls))) result node.new }
{
    node.stop_at(u64::from(calls));
    Line::Armed
}

/// A call of the node's disk fails.
fn fail<C: CutCells>(node: &mut Node<C>, calls: u32) -> Line
    requires { 1 ≤ calls }
    ensures { NodeTurn node.old (duty arms (Some (Fail calls))) result node.new }
{
    node.fail_at(u64::from(calls));
    Line::Armed
}

/// The refusal that a line tells of this fault of a node.
pub fn refusal_of(fault: NodeFault) -> Refusal
    ensures { result ≡ refusal_of_fault fault }
{
    match fault {
        NodeFault::Down => Refusal::Down,
        NodeFault::NoRoute => Refusal::NoRoute,
        NodeFault::BadLength => Refusal::BadLength,
        NodeFault::Key(erc) => Refusal::Key(erc),
        NodeFault::Exhausted => Refusal::Exhausted,
        NodeFault::Faulted => Refusal::MemoryFailure,
    }
}

/// Why a node didn't come up.
fn cut_refusal(fault: &CutFault) -> Refusal
    ensures { result ≡ refusal_of_cut fault.now }
{
    match fault {
        CutFault::Store(reread) => reread_refusal(reread),
        CutFault::BadSlot(slot) => Refusal::BadSlot(*slot),
        CutFault::BadBound(cell) => Refusal::BadBound(*cell),
    }
}

/// Why a store wasn't read anew.
fn reread_refusal(reread: &Reread) -> Refusal
    ensures { result ≡ refusal_of_cut (CutFault.Store reread.now) }
{
    match reread {
        Reread::DiskFailed => Refusal::MemoryFailure,
        Reread::NotFormatted => Refusal::NotFormatted,
        Reread::Damaged(place) => Refusal::Damaged(*place),
    }
}
