//! Writing events in canonical form.

ghost use Rattle.std.specs.Prelude.{◌≡◌, ◌<◌, [], ◌∷◌, ◌++◌, length, IfOk, OnOk, OnErr};
ghost use Rattle.basics.specs.Numbers.{bytes_of};
ghost use Rattle.hex.specs.Hex.{encode_lower};
ghost use Rattle.bus_machine.specs.Bus.{node_of};
ghost use Rattle.secoc_words.specs.Written.{load_words};
ghost use Rattle.text_lines.specs.Written.{bytes_word};
ghost use Rattle.bus_script.specs.Canon.{canon, event_kind, torn_word, update_words, field_words};
ghost use Rattle.bus_script.specs.WordsAdded.{AddsWord, AddsWords};

use crate::kinds::EventKind;
use crate::pushing::{push_bytes, push_hex, push_number, push_word};
use basics::Block;
use bus_config::BusConfig;
use bus_machine::Event;
use cut_disk::Torn;
use memory_update::{Request, Update};
use secoc_words::texts::flags_text;
use std::alloc::{AllocError, Global};
use text_lines::Memory;
use text_lines::pushing::push_digits;

/// Adds the canonical line of an event to `out`, with its line feed: single spaces, lower-case digits, the identifier
/// of a `key` written out, and `-` for no bytes. The event's node is in the bus. Without memory `out` is as before.
pub fn write_event(
    alloc: Global,
    event: &Event,
    bus: &BusConfig,
    out: &mut Vec<u8>,
) -> Result<(), Memory>
    requires { node_of event.now < length bus.now.nodes }
    ensures written { OnOk result (out.new.items ≡ out.old.items ++ canon bus.now.nodes event.now) }
    ensures as_before { OnErr result (out.new.items ≡ out.old.items) }
{
    let line = match line_of(alloc, event, bus) {
        Ok(line) => line,
        Err(AllocError) => return Err(Memory),
    };
    match out.extend_from_slice(line.as_slice()) {
        Ok(()) => Ok(()),
        Err(AllocError) => Err(Memory),
    }
}

/// The canonical line of an event.
#[tactic(auto, unfolding(crate::specs::Canon::canon))]
fn line_of(alloc: Global, event: &Event, bus: &BusConfig) -> Result<Vec<u8>, AllocError>
    requires { node_of event.now < length bus.now.nodes }
    ensures { IfOk result (λ line. line.items ≡ canon bus.now.nodes event.now) }
{
    let mut line = Vec::new(alloc);
    line.extend_from_slice(kind(event).name())?;
    let node = &bus.nodes()[place(event) as usize];
    push_word(&mut line, node.name.bytes())?;
    push_fields(alloc, &mut line, event)?;
    line.push(b'\n')?;
    Ok(line)
}

/// The kind of an event.
fn kind(event: &Event) -> EventKind
    ensures { result ≡ event_kind event.now }
{
    match event {
        Event::Send { .. } => EventKind::Send,
        Event::Deliver { .. } => EventKind::Deliver,
        Event::Inject { .. } => EventKind::Inject,
        Event::Load { .. } => EventKind::Load,
        Event::Key { .. } => EventKind::Key,
        Event::Boot { .. } => EventKind::Boot,
        Event::Cut { .. } => EventKind::Cut,
        Event::Stop { .. } => EventKind::Stop,
        Event::Fail { .. } => EventKind::Fail,
    }
}

/// The place of an event's node.
fn place(event: &Event) -> u8
    ensures { result ≡ node_of event.now }
{
    match event {
        Event::Send { node, .. }
        | Event::Deliver { node, .. }
        | Event::Inject { node, .. }
        | Event::Load { node, .. }
        | Event::Key { node, .. }
        | Event::Boot { node, .. }
        | Event::Cut { node, .. }
        | Event::Stop { node, .. }
        | Event::Fail { node, .. } => *node,
    }
}

/// Adds the words of an event after its node.
fn push_fields(alloc: Global, line: &mut Vec<u8>, event: &Event) -> Result<(), AllocError>
    ensures { OnOk result (AddsWords line.old.items line.new.items (field_words event.now)) }
{
    match event {
        Event::Send { id, payload, .. } => push_pdu(line, *id, payload.bytes()),
        Event::Inject { id, pdu, .. } => push_pdu(line, *id, pdu.bytes()),
        Event::Load { request, .. } => push_request(line, request),
        Event::Key {
            update,
            authkey,
            ..
        } => push_update(alloc, line, update, authkey),
        Event::Boot { image, .. } => push_bytes(line, image.bytes()),
        Event::Cut { torn, .. } => push_torn(line, *torn),
        Event::Deliver { event: number, .. }
        | Event::Stop { calls: number, .. }
        | Event::Fail { calls: number, .. } => push_number(line, u64::from(*number)),
    }
}

/// Adds a Data ID and bytes.
#[tactic(auto, using(crate::proofs::BigEndian::two_bytes))]
fn push_pdu(line: &mut Vec<u8>, id: u16, bytes: &[u8]) -> Result<(), AllocError>
    ensures { OnOk result
        (AddsWords line.old.items line.new.items (encode_lower (bytes_of 2 id) ∷ bytes_word bytes.now ∷ [])) }
{
    push_hex(line, &id.to_be_bytes())?;
    push_bytes(line, bytes)
}

/// Adds M1, M2 and M3.
fn push_request(line: &mut Vec<u8>, request: &Request) -> Result<(), AllocError>
    ensures { OnOk result (AddsWords line.old.items line.new.items (load_words request.now)) }
{
    let [first, second] = &request.m2;
    push_hex(line, request.m1.as_slice())?;
    push_hex(line, first.as_slice())?;
    push_digits(line, second.as_slice())?;
    push_hex(line, request.m3.as_slice())
}

/// Adds an update and its authorising key.
fn push_update(
    alloc: Global,
    line: &mut Vec<u8>,
    update: &Update,
    authkey: &Block,
) -> Result<(), AllocError>
    ensures { OnOk result (AddsWords line.old.items line.new.items (update_words update.now authkey.now)) }
{
    push_hex(line, update.uid.as_slice())?;
    push_number(line, update.id.number() as u64)?;
    push_number(line, update.auth.number() as u64)?;
    push_hex(line, authkey.as_slice())?;
    push_number(line, u64::from(update.counter.number()))?;
    push_word(line, flags_text(alloc, update.flags)?.as_bytes())?;
    push_hex(line, update.key.as_slice())
}

/// Adds what a power cut leaves.
fn push_torn(line: &mut Vec<u8>, torn: Torn) -> Result<(), AllocError>
    ensures { OnOk result (AddsWord line.old.items line.new.items (torn_word torn)) }
{
    match torn {
        Torn::Keep => push_word(line, b"keep"),
        Torn::Old => push_word(line, b"old"),
        Torn::Half => push_word(line, b"half"),
        Torn::Fill(byte) => push_hex(line, &[byte]),
    }
}
