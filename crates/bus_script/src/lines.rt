//! The lines of the single kinds of events.

ghost use Rattle.std.specs.Prelude.{◌≡◌, length};
ghost use Rattle.text_lines.specs.Readings.{GivesLine};
ghost use Rattle.bus_script.specs.EventForms.{send_of, deliver_of, inject_of, load_event_of, key_event_of, boot_of, cut_of, stop_of, fail_of};

use crate::fields::{event_uid, from_one};
use bus_config::BusConfig;
use bus_machine::Event;
use memory_update::{Request, Update};
use std::alloc::Global;
use text_lines::reader::value_at;
use text_lines::words::Words;
use text_lines::{LineFault, forms};

/// The most events that a script has.
const MOST_EVENTS: u32 = 65_536;

/// The most bytes of an image.
const MOST_OF_IMAGE: usize = 65_536;

/// Reads the words of a `send`.
#[tactic(auto, unfolding(crate::specs::EventForms::send_of))]
pub fn read_send(alloc: Global, bus: &BusConfig, words: &Words<'_>) -> Result<Event, LineFault>
    requires { length words.now ≡ 4 }
    ensures { GivesLine (send_of bus.now.nodes words.now) result }
{
    let node = value_at(2, bus.find(words.word(2)))?;
    let id = value_at(3, secoc_words::data_id(words.word(3)))?;
    let payload = value_at(4, forms::bytes(alloc, words.word(4))?)?;
    Ok(Event::Send { node, id, payload })
}

/// Reads the words of a `deliver`.
#[tactic(auto, unfolding(crate::specs::EventForms::deliver_of))]
pub fn read_deliver(bus: &BusConfig, words: &Words<'_>) -> Result<Event, LineFault>
    requires { length words.now ≡ 3 }
    ensures { GivesLine (deliver_of bus.now.nodes words.now) result }
{
    let node = value_at(2, bus.find(words.word(2)))?;
    let event = value_at(3, from_one(words.word(3), MOST_EVENTS))?;
    Ok(Event::Deliver { node, event })
}

/// Reads the words of an `inject`.
#[tactic(auto, unfolding(crate::specs::EventForms::inject_of))]
pub fn read_inject(alloc: Global, bus: &BusConfig, words: &Words<'_>) -> Result<Event, LineFault>
    requires { length words.now ≡ 4 }
    ensures { GivesLine (inject_of bus.now.nodes words.now) result }
{
    let node = value_at(2, bus.find(words.word(2)))?;
    let id = value_at(3, secoc_words::data_id(words.word(3)))?;
    let pdu = value_at(4, forms::bytes(alloc, words.word(4))?)?;
    Ok(Event::Inject { node, id, pdu })
}

/// Reads the words of a `load`.
#[tactic(auto, unfolding(crate::specs::EventForms::load_event_of))]
pub fn read_load(bus: &BusConfig, words: &Words<'_>) -> Result<Event, LineFault>
    requires { length words.now ≡ 5 }
    ensures { GivesLine (load_event_of bus.now.nodes words.now) result }
{
    let node = value_at(2, bus.find(words.word(2)))?;
    let m1 = value_at(3, secoc_words::key(words.word(3)))?;
    let m2 = value_at(4, secoc_words::two(words.word(4)))?;
    let m3 = value_at(5, secoc_words::key(words.word(5)))?;
    let request = Request { m1, m2, m3 };
    Ok(Event::Load { node, request })
}

/// Reads the words of a `key`.
#[tactic(auto, unfolding(crate::specs::EventForms::key_event_of))]
pub fn read_key(bus: &BusConfig, words: &Words<'_>) -> Result<Event, LineFault>
    requires { length words.now ≡ 9 }
    ensures { GivesLine (key_event_of bus.now.nodes words.now) result }
{
    let node = value_at(2, bus.find(words.word(2)))?;
    let uid = value_at(3, event_uid(bus, node, words.word(3)))?;
    let id = value_at(4, secoc_words::slot(words.word(4)))?;
    let auth = value_at(5, secoc_words::slot(words.word(5)))?;
    let authkey = value_at(6, secoc_words::key(words.word(6)))?;
    let counter = value_at(7, secoc_words::counter(words.word(7)))?;
    let flags = value_at(8, secoc_words::flags(words.word(8)))?;
    let key = value_at(9, secoc_words::key(words.word(9)))?;
    let update = Update {
        uid,
        id,
        auth,
        counter,
        flags,
        key,
    };
    Ok(Event::Key {
        node,
        update,
        authkey,
    })
}

/// Reads the words of a `boot`.
#[tactic(auto, unfolding(crate::specs::EventForms::boot_of))]
pub fn read_boot(alloc: Global, bus: &BusConfig, words: &Words<'_>) -> Result<Event, LineFault>
    requires { length words.now ≡ 3 }
    ensures { GivesLine (boot_of bus.now.nodes words.now) result }
{
    let node = value_at(2, bus.find(words.word(2)))?;
    let image = value_at(3, forms::hex_bytes(alloc, words.word(3), 1, MOST_OF_IMAGE)?)?;
    Ok(Event::Boot { node, image })
}

/// Reads the words of a `cut`.
#[tactic(auto, unfolding(crate::specs::EventForms::cut_of))]
pub fn read_cut(bus: &BusConfig, words: &Words<'_>) -> Result<Event, LineFault>
    requires { length words.now ≡ 3 }
    ensures { GivesLine (cut_of bus.now.nodes words.now) result }
{
    let node = value_at(2, bus.find(words.word(2)))?;
    let torn = value_at(3, secoc_words::torn(words.word(3)))?;
    Ok(Event::Cut { node, torn })
}

/// Reads the words of a `stop`.
#[tactic(auto, unfolding(crate::specs::EventForms::stop_of))]
pub fn read_stop(bus: &BusConfig, words: &Words<'_>) -> Result<Event, LineFault>
    requires { length words.now ≡ 3 }
    ensures { GivesLine (stop_of bus.now.nodes words.now) result }
{
    let node = value_at(2, bus.find(words.word(2)))?;
    let calls = value_at(3, secoc_words::calls(words.word(3)))?;
    Ok(Event::Stop { node, calls })
}

/// Reads the words of a `fail`.
#[tactic(auto, unfolding(crate::specs::EventForms::fail_of))]
pub fn read_fail(bus: &BusConfig, words: &Words<'_>) -> Result<Event, LineFault>
    requires { length words.now ≡ 3 }
    ensures { GivesLine (fail_of bus.now.nodes words.now) result }
{
    let node = value_at(2, bus.find(words.word(2)))?;
    let calls = value_at(3, secoc_words::calls(words.word(3)))?;
    Ok(Event::Fail { node, calls })
}
