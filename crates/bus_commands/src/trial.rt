//! A trial: a run of the events that a seed gives, and its summary.
ghost use Rattle.std.specs.Prelude.{◌≡◌, map};
ghost use Rattle.program_edge.specs.Endings.{EndsInRow};
ghost use Rattle.bus_config.specs.Buses.{IsNamedBus};
ghost use Rattle.bus_programs.specs.Scripts.{AreEvents};
ghost use Rattle.bus_commands.specs.Steps.{AnswersTrial, TellsSummary};

use crate::laws::trials_are_runs;
use crate::summary::Summary;
use bus_config::BusConfig;
use bus_machine::Event;
use bus_port::Sink;
use bus_world::{Start, World, start_refusal, starts_are_set_up, turns_leave_disks};
use cut_disk::CutDisk;
use program_edge::{DONE, Refusal, tell, tell_refusal};
use run_driver::count_run;
use std::alloc::{AllocError, Global};

/// Starts the bus over formatted disks, steps through all events, hands the disks back, and tells the summary of the
/// lines.
pub fn trial<K: Sink, D: CutDisk>(
    alloc: Global,
    bus: &BusConfig,
    events: &[Event],
    sink: &mut K,
    disks: &mut Vec<D>,
) -> u8
    requires is_bus { IsNamedBus bus.now }
    requires are_events { AreEvents bus.now events.now }
    ensures { EndsInRow (AnswersTrial (disks.new ≡ disks.old) bus.now events.now
        (record { before = map D.state disks.old.items; after = map D.state disks.new.items }))
        (record { before = K.state sink.old; after = K.state sink.new; status = result }) }
{
    trials_are_runs();
    starts_are_set_up();
    turns_leave_disks();
    let started = World::start(alloc, bus, disks, events.len() as u32, Start::Format);
    let mut world = match started {
        Ok(world) => world,
        Err(fault) => return tell_refusal(sink, &start_refusal(&fault)),
    };
    let mut summary = Summary::none();
    count_run::<World<D>, Summary>(&mut world, events, &mut summary);
    world.finish(disks);
    tell_summary(alloc, summary, sink)
}

/// Tells a summary.
fn tell_summary<K: Sink>(alloc: Global, summary: Summary, sink: &mut K) -> u8
    ensures { EndsInRow (TellsSummary summary)
        (record { before = K.state sink.old; after = K.state sink.new; status = result }) }
{
    match summary.text(alloc) {
        Ok(text) => tell(sink, text.as_slice(), DONE),
        Err(AllocError) => tell_refusal(sink, &Refusal::no_memory()),
    }
}
