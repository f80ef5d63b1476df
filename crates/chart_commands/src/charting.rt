//! A run over disks, and its chart.
ghost use Rattle.std.specs.Prelude.{◌≡◌, map};
ghost use Rattle.program_edge.specs.Endings.{EndsInRow};
ghost use Rattle.bus_config.specs.Buses.{IsNamedBus};
ghost use Rattle.bus_programs.specs.Scripts.{AreEvents};
ghost use Rattle.chart_commands.specs.Steps.{AnswersChart, ToldOfLines, AreOfEvents, kept_lines};

use crate::charts::chart_of;
use crate::keeping::lines_of_run;
use crate::laws::charts_are_runs;
use bus_config::BusConfig;
use bus_machine::{Event, Line};
use bus_port::Sink;
use bus_world::{Start, World, start_refusal, starts_are_set_up, turns_leave_disks};
use cut_disk::CutDisk;
use program_edge::{DONE, Refusal, tell, tell_refusal};
use std::alloc::{AllocError, Global};

/// Starts the bus over formatted disks, steps through all events, hands the disks back, and tells the chart of the
/// lines.
pub fn chart<K: Sink, D: CutDisk>(
    alloc: Global,
    bus: &BusConfig,
    events: &[Event],
    sink: &mut K,
    disks: &mut Vec<D>,
) -> u8
    requires is_bus { IsNamedBus bus.now }
    requires are_events { AreEvents bus.now events.now }
    ensures { EndsInRow (AnswersChart (disks.new ≡ disks.old) bus.now events.now
        (record { before = map D.state disks.old.items; after = map D.state disks.new.items }))
        (record { before = K.state sink.old; after = K.state sink.new; status = result }) }
{
    charts_are_runs();
    starts_are_set_up();
    turns_leave_disks();
    let started = World::start(alloc, bus, disks, events.len() as u32, Start::Format);
    let mut world = match started {
        Ok(world) => world,
        Err(fault) => return tell_refusal(sink, &start_refusal(&fault)),
    };
    let kept = lines_of_run(alloc, &mut world, events);
    world.finish(disks);
    tell_chart(alloc, bus, events, kept, sink)
}

// Tells the chart of the lines that were kept.
fn tell_chart<K: Sink>(
    alloc: Global,
    bus: &BusConfig,
    events: &[Event],
    kept: Result<Vec<Line>, AllocError>,
    sink: &mut K,
) -> u8
    requires are_events { AreEvents bus.now events.now }
    requires as_many { AreOfEvents events.now (kept_lines kept) }
    ensures { EndsInRow (ToldOfLines bus.now events.now (kept_lines kept))
        (record { before = K.state sink.old; after = K.state sink.new; status = result }) }
{
    let Ok(lines) = kept else {
        return tell_refusal(sink, &Refusal::no_memory());
    };
    match chart_of(alloc, bus, events, lines.as_slice()) {
        Ok(text) => tell(sink, text.as_slice(), DONE),
        Err(AllocError) => tell_refusal(sink, &Refusal::no_memory()),
    }
}
