//! The events of a script in canonical form.
ghost use Rattle.std.specs.Prelude.{◌≡◌, All, IfOk};
ghost use Rattle.std.specs.List.{flat_map};
ghost use Rattle.bus_script.specs.Canon.{canon};
ghost use Rattle.bus_script.specs.ScriptEvents.{IsScriptEvent};

use bus_config::BusConfig;
use bus_script::{Event, Memory, write_event};
use std::alloc::{AllocError, Global};

/// The canonical lines of events of a bus, one after the other.
pub fn canonical(alloc: Global, bus: &BusConfig, events: &[Event]) -> Result<Vec<u8>, AllocError>
    requires { All (IsScriptEvent bus.now.nodes) events.now }
    ensures { IfOk result (λ text. text.items ≡ flat_map (canon bus.now.nodes) events.now) }
{
    let mut text = Vec::new(alloc);
    for event in events {
        match write_event(alloc, event, bus, &mut text) {
            Ok(()) => {}
            Err(Memory) => return Err(AllocError),
        }
    }
    Ok(text)
}
