//! What holds of the run of every chart over disks that tell their bytes.
ghost use Rattle.chart_commands.specs.Runs.{ChartsAreRuns};

use bus_world::{starts_are_set_up, starts_begin_at_the_first_world, turns_are_world_runs};

/// What was done of a chart over disks that tell their bytes is one run of the machine, with all that holds of a
/// replay's run. It begins at the first world of the bus. The lines drawn are those of this run.
pub fn charts_are_runs()
    ensures { ChartsAreRuns }
{
    starts_are_set_up();
    starts_begin_at_the_first_world();
    turns_are_world_runs();
}
