//! The replay of a script over disks.
ghost use Rattle.std.specs.Prelude.{◌≡◌, map};
ghost use Rattle.bus_config.specs.Buses.{IsNamedBus};
ghost use Rattle.bus_programs.specs.Scripts.{AreEvents};
ghost use Rattle.bus_commands.specs.Steps.{AnswersReplay};

use crate::laws::replays_are_runs;
use bus_config::BusConfig;
use bus_machine::{Event, Line};
use bus_port::{Memory, Sink};
use bus_script::push_line;
use bus_world::{Start, World, start_refusal, starts_are_set_up, turns_leave_disks};
use cut_disk::CutDisk;
use program_edge::tell_refusal;
use run_driver::{LineText, print_run, status_of_run};
use std::alloc::{AllocError, Global};

/// How the lines of a replay are written.
struct Texts;

impl LineText<Line> for Texts {
    ghost use Rattle.bus_script.specs.LineTexts.{line_text};

    ghost text = { line_text };

    fn append(_alloc: Global, number: u32, line: &Line, out: &mut Vec<u8>) -> Result<(), Memory> {
        match push_line(out, number, line) {
            Ok(()) => Ok(()),
            Err(AllocError) => Err(Memory),
        }
    }
}

/// Starts the bus over its disks, steps through the events and writes the line of each, and hands the disks
/// back. After a text that isn't written no further event is done.
pub fn replay<K: Sink, D: CutDisk>(
    alloc: Global,
    bus: &BusConfig,
    events: &[Event],
    start: Start,
    sink: &mut K,
    disks: &mut Vec<D>,
) -> u8
    requires is_bus { IsNamedBus bus.now }
    requires are_events { AreEvents bus.now events.now }
    ensures { AnswersReplay (disks.new ≡ disks.old) start bus.now events.now
        (record { before = map D.state disks.old.items; after = map D.state disks.new.items })
        (record { before = K.state sink.old; after = K.state sink.new; status = result }) }
{
    replays_are_runs();
    starts_are_set_up();
    turns_leave_disks();
    let started = World::start(alloc, bus, disks, events.len() as u32, start);
    let mut world = match started {
        Ok(world) => world,
        Err(fault) => return tell_refusal(sink, &start_refusal(&fault)),
    };
    let printed = print_run::<World<D>, Texts, K>(alloc, &mut world, events, sink);
    world.finish(disks);
    status_of_run(printed)
}
