//! The laws of runs of programs over one store.
ghost use Rattle.program_lives.specs.ProgramRuns.{AllProgramRunsGoOn, EachRunIsALife};
ghost use Rattle.program_lives.specs.RefusedRuns.{RefusedLoadsLeaveAll, RefusedStartsAreUnfinished};

use bus_commands::laws::the_headline_is_a_run_of_the_bus;
use bus_lives::{lives_go_on, world_runs_are_lives};

/// A run of `node`, of `endpoint` or of `keytool load` is a life: a run of the machine from a world in which the bus
/// goes on where its disks stand, over disks that tell their bytes.
pub fn each_run_is_a_life()
    ensures { EachRunIsALife }
{
    the_headline_is_a_run_of_the_bus();
    world_runs_are_lives();
}

/// Over all runs of the three programs, in any order, over one store: freshness that is accepted or sent rises
/// strictly, no slot goes back, and no acknowledged update is lost, one that `keytool load` printed as loaded among
/// them. Between two runs the power may be cut, and starts may be refused or killed.
pub fn program_runs_go_on()
    ensures { AllProgramRunsGoOn }
{
    the_headline_is_a_run_of_the_bus();
    world_runs_are_lives();
    lives_go_on();
}

/// A run of `node` or `endpoint` that came to no event, whatever row its start printed, is an unfinished start, as they
/// may lie between two runs. No byte of the disks may be loose.
pub fn refused_starts_are_unfinished()
    ensures { RefusedStartsAreUnfinished }
{}

/// A `keytool load` that loaded no request, whatever row it printed, leaves the disks as the next run may find them.
pub fn refused_loads_leave_all()
    ensures { RefusedLoadsLeaveAll }
{}
