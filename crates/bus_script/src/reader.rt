//! Reading a script line by line.

ghost use Rattle.std.specs.Prelude.{◌≡◌, ◌<◌, ◌≤◌, ◌^◌, length, All, IfOk};
ghost use Rattle.text_lines.specs.Readings.{Gives, GivesLine, most_lines};
ghost use Rattle.bus_script.specs.EventKinds.{kind_words};
ghost use Rattle.bus_script.specs.EventForms.{events_among, events_of, own_events_of, fields_of};
ghost use Rattle.bus_script.specs.ScriptEvents.{IsOwn, IsScriptEvent};

use crate::kinds::{EventKind, KINDS, OWN_KINDS};
use crate::lines::{
    read_boot, read_cut, read_deliver, read_fail, read_inject, read_key, read_load, read_send,
    read_stop,
};
use bus_config::BusConfig;
use bus_machine::Event;
use std::alloc::Global;
use text_lines::reader::{LineReader, MOST_LINES, expect_count, read_lines};
use text_lines::words::Words;
use text_lines::{Cause, LineFault, ScriptFault};

/// Reads a line of a script of these kinds of events over a bus.
#[derive(Clone, Copy)]
pub struct EventReader<'a> {
    pub bus: &'a BusConfig,
    pub kinds: &'a [EventKind],
}

impl<'a> LineReader for EventReader<'a> {
    ghost use Rattle.bus_script.specs.EventForms.{event_among};

    type Item = Event;

    ghost means = { λ reader _ words. event_among reader.kinds.now reader.bus.now.nodes words };

    #[tactic(auto, unfolding(crate::specs::EventForms::event_among))]
    fn read(
        &self,
        alloc: Global,
        words: &Words<'_>,
        _before: &[Event],
    ) -> Result<Event, LineFault> {
        if words.is_empty() {
            return Err(LineFault::Refused(Cause::Event));
        }
        let Some(kind) = EventKind::among(self.kinds, words.word(1)) else {
            return Err(LineFault::Refused(Cause::Event));
        };
        expect_count(words, kind.word_count())?;
        read_fields(alloc, self.bus, kind, words)
    }
}

/// Reads the words of a line of this kind.
fn read_fields(
    alloc: Global,
    bus: &BusConfig,
    kind: EventKind,
    words: &Words<'_>,
) -> Result<Event, LineFault>
    requires { length words.now ≡ kind_words kind }
    ensures { GivesLine (fields_of kind bus.now.nodes words.now) result }
{
    match kind {
        EventKind::Send => read_send(alloc, bus, words),
        EventKind::Deliver => read_deliver(bus, words),
        EventKind::Inject => read_inject(alloc, bus, words),
        EventKind::Load => read_load(bus, words),
        EventKind::Key => read_key(bus, words),
        EventKind::Boot => read_boot(alloc, bus, words),
        EventKind::Cut => read_cut(bus, words),
        EventKind::Stop => read_stop(bus, words),
        EventKind::Fail => read_fail(bus, words),
    }
}

/// The events of a script over a bus: at most 65,536 lines that aren't skipped, each an event of one of the bus's
/// nodes; or the first fault, by the line it stands in. A line's cause is the first of: too many events, no event's
/// name, a wrong number of words, and the lowest word that isn't of its form.
pub fn read_script(alloc: Global, text: &[u8], bus: &BusConfig) -> Result<Vec<Event>, ScriptFault>
    requires { length text.now < 2 ^ 32 }
    ensures exact { Gives (events_of bus.now.nodes text.now) result }
    ensures are_events { IfOk result (λ events. All (IsScriptEvent bus.now.nodes) events.items) }
    ensures few { IfOk result (λ events. length events.items ≤ most_lines) }
{
    read_kinds(alloc, text, bus, &KINDS)
}

/// The events of a script in which each is a node's own, as [`read_script`] reads them: here `send` and `deliver` are
/// no event's name.
pub fn read_own_script(
    alloc: Global,
    text: &[u8],
    bus: &BusConfig,
) -> Result<Vec<Event>, ScriptFault>
    requires { length text.now < 2 ^ 32 }
    ensures exact { Gives (own_events_of bus.now.nodes text.now) result }
    ensures are_events { IfOk result (λ events. All (IsScriptEvent bus.now.nodes) events.items) }
    ensures own { IfOk result (λ events. All IsOwn events.items) }
    ensures few { IfOk result (λ events. length events.items ≤ most_lines) }
{
    let _nodes = bus.nodes();
    read_kinds(alloc, text, bus, &OWN_KINDS)
}

/// The events of a script of these kinds of events.
#[tactic(auto, unfolding(crate::specs::EventForms::events_among))]
fn read_kinds(
    alloc: Global,
    text: &[u8],
    bus: &BusConfig,
    kinds: &[EventKind],
) -> Result<Vec<Event>, ScriptFault>
    requires { length text.now < 2 ^ 32 }
    ensures exact { Gives (events_among kinds.now bus.now.nodes text.now) result }
    ensures are_events { IfOk result (λ events. All (IsScriptEvent bus.now.nodes) events.items) }
    ensures few { IfOk result (λ events. length events.items ≤ most_lines) }
{
    let _nodes = bus.nodes();
    read_lines(alloc, text, MOST_LINES, &EventReader { bus, kinds })
}
