//! What holds of every script.

ghost use Rattle.std.specs.Prelude.{◌≡◌, ◌≤◌, ℕ, List, [], ◌∷◌, length, All, Ok};
ghost use Rattle.std.specs.List.{flat_map};
ghost use Rattle.text_lines.specs.Readings.{most_lines};
ghost use Rattle.bus_config.specs.Buses.{NamedBus, IsNamedBus};
ghost use Rattle.bus_machine.specs.declared.events.Event.{Event};
ghost use Rattle.bus_script.specs.EventForms.{events_of};
ghost use Rattle.bus_script.specs.Canon.{canon};
ghost use Rattle.bus_script.specs.ScriptEvents.{IsScriptEvent};

/// Law: each event that a script gives is one of its bus within its bounds, and they are at most 65,536.
pub fn events_are_within_their_bounds()
    ensures { (bus : NamedBus) (text : List ℕ) (events : List Event) → IsNamedBus bus
        → events_of bus.nodes text ≡ Ok events
        → All (IsScriptEvent bus.nodes) events × (length events ≤ most_lines) }
{}

/// Law: such an event is read again from its canonical line, whatever the bus.
pub fn a_written_event_is_read()
    ensures { (bus : NamedBus) (event : Event) → IsNamedBus bus → IsScriptEvent bus.nodes event
        → events_of bus.nodes (canon bus.nodes event) ≡ Ok (event ∷ []) }
{}

/// Law: the events that a script gives are read again from their canonical lines, whatever the bus.
pub fn a_written_script_is_read()
    ensures { (bus : NamedBus) (text : List ℕ) (events : List Event) → IsNamedBus bus
        → events_of bus.nodes text ≡ Ok events
        → events_of bus.nodes (flat_map (canon bus.nodes) events) ≡ Ok events }
{}
