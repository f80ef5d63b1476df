//! Scripts as an input of a program.
ghost use Rattle.std.specs.Prelude.{◌<◌, ◌^◌, length, IfOk, List, ℕ, Result};
ghost use Rattle.bus_machine.specs.declared.events.Event.{Event};
ghost use Rattle.bus_config.specs.declared.node_lines.NodeLine.{NodeLine};
ghost use Rattle.text_lines.specs.Readings.{Fault, Gives};
ghost use Rattle.bus_programs.specs.Scripts.{AreEvents, HasScript, FindsScript};

use bus_config::BusConfig;
use bus_port::Source;
use bus_script::{Event, read_own_script, read_script};
use program_edge::{Refusal, read_input};
use std::alloc::Global;
use text_lines::{ScriptFault, line_refusal};

/// A kind of script.
pub trait Script {
    /// The events that a text has over these nodes, or its first fault.
    ghost meaning: { List NodeLine → List ℕ → Result (List Event) Fault };

    /// Reads the events of a text.
    fn read(alloc: Global, text: &[u8], bus: &BusConfig) -> Result<Vec<Event>, ScriptFault>
        requires { length text.now < 2 ^ 32 }
        ensures exact { Gives (meaning bus.now.nodes text.now) result }
        ensures are_events { IfOk result (λ events. AreEvents bus.now events.items) };
}

/// A script of a bus: each event is one of a node.
pub struct BusScript;

impl Script for BusScript {
    ghost use Rattle.bus_script.specs.EventForms.{events_of};

    ghost meaning = { events_of };

    fn read(alloc: Global, text: &[u8], bus: &BusConfig) -> Result<Vec<Event>, ScriptFault> {
        read_script(alloc, text, bus)
    }
}

/// A script of a gateway: each event is its node's own, so that none is a `send` or a `deliver`.
pub struct OwnScript;

impl Script for OwnScript {
    ghost use Rattle.bus_script.specs.EventForms.{own_events_of};

    ghost meaning = { own_events_of };

    fn read(alloc: Global, text: &[u8], bus: &BusConfig) -> Result<Vec<Event>, ScriptFault> {
        read_own_script(alloc, text, bus)
    }
}

/// The events of the script that a source gives, over this bus, or the refusal of the source or of a line.
pub fn script_from<C: Script, S: Source>(
    alloc: Global,
    bus: &BusConfig,
    script: &mut S,
) -> Result<Vec<Event>, Refusal>
    ensures { FindsScript C.meaning bus.now
        (record { before = S.state script.old; after = S.state script.new }) result }
{
    let input = read_input(alloc, script)?;
    events_in::<C>(alloc, bus, input.as_slice())
}

/// The events of a text, or the refusal of a line.
fn events_in<C: Script>(alloc: Global, bus: &BusConfig, text: &[u8]) -> Result<Vec<Event>, Refusal>
    requires { length text.now < 2 ^ 32 }
    ensures { HasScript C.meaning bus.now text.now result }
{
    match C::read(alloc, text, bus) {
        Ok(events) => Ok(events),
        Err(fault) => Err(line_refusal(alloc, fault)),
    }
}
