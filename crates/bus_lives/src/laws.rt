//! The laws of the lives of a bus.
ghost use Rattle.bus_lives.specs.Lives.{AllLivesGoOn, EachLife, LeavesNodes, StartsLeaveNodes};
ghost use Rattle.bus_lives.specs.Lives.{NextBlamesNoBytes, OutlastsRefusals, AttachedRunsFollow, WorldRunsAreLives};

use bus_world::{starts_are_set_up, starts_go_on_at_a_first_world, turns_are_world_runs};

/// Over all lives of a bus, over disks that tell their bytes: freshness that is accepted or sent rises strictly, no
/// slot goes back, and no acknowledged update is lost. Each node begins a life as after a power cut in the one before.
/// Starts between two lives may have been refused, or killed in the move of a store to version 2.
pub fn lives_go_on()
    ensures { AllLivesGoOn }
{}

/// Whatever a power cut leaves of the disks of a life, the next start isn't refused for their bytes. After a life in
/// version 1 this asks that no header of version 2 stands there.
pub fn lives_can_go_on()
    ensures { EachLife LeavesNodes }
{}

/// The same holds after any number of starts that were refused or killed within a disk call, and whatever power cuts
/// left of that. In version 1 this asks that no header of version 2 stands there.
pub fn unfinished_starts_leave_nodes()
    ensures { EachLife StartsLeaveNodes }
{}

/// So if such a next start isn't finished, a disk failed, is missing or is too small, or memory was out. The cause is
/// never what the disks hold.
pub fn next_starts_blame_no_bytes()
    ensures { EachLife NextBlamesNoBytes }
{}

/// A refused start of the bus of a life, in the same version, over what the life or a power cut left, leaves the bytes
/// as it found them. This holds for every cause, also a header of version 2 that stands beside a store of version 1.
pub fn refused_starts_leave_lives()
    ensures { EachLife OutlastsRefusals }
{}

/// All that holds of a run of a bus makes it a life: of `node`, and of each other program over a bus.
pub fn world_runs_are_lives()
    ensures { WorldRunsAreLives }
{}

/// A run over attached disks is a next life if no byte of them is loose. It follows the life that left these disks,
/// whatever unfinished starts and power cuts made of them.
pub fn attached_runs_are_next_lives()
    ensures { AttachedRunsFollow }
{
    starts_are_set_up();
    starts_go_on_at_a_first_world();
    turns_are_world_runs();
}
