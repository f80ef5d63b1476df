//! The lines of a run, kept until all events are done.
ghost use Rattle.std.specs.Prelude.{◌<◌, ◌^◌, length};
ghost use Rattle.bus_world.specs.Worlds.{IsReady};
ghost use Rattle.chart_commands.specs.Runs.{KeptTurns};
ghost use Rattle.chart_commands.specs.Steps.{kept_lines};

use bus_machine::{Event, Line};
use bus_world::World;
use cut_disk::CutDisk;
use run_driver::{Consumer, drive};
use std::alloc::{AllocError, Global};

/// Lines in their order.
#[derive(Drop)]
struct LineKeeper<L: Drop> {
    lines: Vec<L>,
}

impl<L: Drop> Consumer<L> for LineKeeper<L> {
    ghost use Rattle.std.specs.Prelude.{Vec};
    ghost use Rattle.std.specs.declared.alloc.Global.{Global};
    ghost use Rattle.chart_commands.specs.Steps.{KeepsLine};

    type Refusal = AllocError;

    ghost State = { Vec L Global };

    ghost state = { λ keeper. keeper.lines };

    ghost takes = { KeepsLine };

    fn take(&mut self, _number: u32, line: L) -> Result<(), AllocError> {
        self.lines.push(line)?;
        Ok(())
    }
}

/// Does the events in their order, and gives their lines. Room for all lines is asked for before the first event;
/// without memory for it no event is done.
pub fn lines_of_run<D: CutDisk>(
    alloc: Global,
    world: &mut World<D>,
    events: &[Event],
) -> Result<Vec<Line>, AllocError>
    requires few { length events.now < 2 ^ 32 }
    requires ready { IsReady world.old events.now }
    ensures { KeptTurns world.old world.new events.now (kept_lines result) }
{
    let mut keeper = LineKeeper {
        lines: Vec::with_capacity(alloc, events.len())?,
    };
    match drive(world, events, &mut keeper) {
        Ok(()) => Ok(keeper.lines),
        Err(AllocError) => Err(AllocError),
    }
}
