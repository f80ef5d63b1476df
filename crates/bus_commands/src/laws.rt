//! What holds of every replay and of every trial over disks that tell their bytes.
ghost use Rattle.bus_commands.specs.SharedRuns.{HeadlineIsWorldRun};
ghost use Rattle.bus_commands.specs.Headline.{ReplaysAreRuns};
ghost use Rattle.bus_commands.specs.TrialRuns.{TrialsAreRuns};

use bus_world::{
    starts_are_set_up, starts_begin_at_the_first_world, starts_go_on_at_a_first_world,
    turns_are_world_runs,
};

/// What was done of a replay over disks that tell their bytes is one run of the machine with all of `Replayed`. It
/// begins at the first world of the bus. If its disks were attached and none of their bytes was loose, it begins at a
/// world in which the bus goes on where they stand.
pub fn replays_are_runs()
    ensures { ReplaysAreRuns }
{
    starts_are_set_up();
    starts_begin_at_the_first_world();
    starts_go_on_at_a_first_world();
    turns_are_world_runs();
}

/// What was done of a trial over disks that tell their bytes is one run of the machine, with all of `Tried`. It begins
/// at the first world of the bus.
pub fn trials_are_runs()
    ensures { TrialsAreRuns }
{
    starts_are_set_up();
    starts_begin_at_the_first_world();
    turns_are_world_runs();
}

/// The record of the headline and that of a run of a bus, which `chart` and the lives of a bus share, give each other.
pub fn the_headline_is_a_run_of_the_bus()
    ensures { HeadlineIsWorldRun }
{}
