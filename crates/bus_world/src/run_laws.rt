//! What holds of every run of a bus over disks, put together from the laws of the crates below.
ghost use Rattle.bus_world.specs.WorldTurns.{TurnsLeaveDisks, TurnsAreWorldRuns, StartsSetUp, StartsBeginAtFirst, StartsGoOnFirst};

use crate::turns_are_runs;
use bus_config::named_buses_are_buses;
use bus_laws::{
    accepted_freshness_rises, all_freshness_is_covered, buses_begin_first, cuts_skip_little,
    events_determine_lines, honest_pdus_are_accepted, keys_are_kept, no_freshness_is_sent_twice,
    runs_are_authentic,
};

/// Turns over disks of any kind leave each disk in a later state. It still tells what it told of its past, and its
/// count of faults tells of the failed lines. A quiet disk stays quiet if no event arms it.
pub fn turns_leave_disks()
    ensures { TurnsLeaveDisks }
{}

/// Turns from a first world, over disks that tell their bytes and fit their nodes, are a run of the machine with all of
/// `WorldRun`.
pub fn turns_are_world_runs()
    ensures { TurnsAreWorldRuns }
{
    turns_are_runs();
    all_freshness_is_covered();
    accepted_freshness_rises();
    runs_are_authentic();
    no_freshness_is_sent_twice();
    keys_are_kept();
    cuts_skip_little();
    honest_pdus_are_accepted();
    events_determine_lines();
}

/// A bus that was started is set up, whether its disks were formatted or attached.
pub fn starts_are_set_up()
    ensures { StartsSetUp }
{}

/// Over formatted disks that tell their bytes it begins at the first world of the bus, and they fit its nodes.
pub fn starts_begin_at_the_first_world()
    ensures { StartsBeginAtFirst }
{
    named_buses_are_buses();
    buses_begin_first();
}

/// A bus that goes on where its disks stand begins at a first world, if they tell their bytes and none of these is
/// loose. Each node keeps what its disk stood for, and the disks fit the nodes.
pub fn starts_go_on_at_a_first_world()
    ensures { StartsGoOnFirst }
{
    named_buses_are_buses();
}
