//! What holds of the turns of worlds: each function has an empty body, and its contract is the law.
ghost use Rattle.bus_world.specs.Worlds.{TurnsAreSteps, TurnsAreRuns, TurnsKeepSound};

/// A turn is the machine's step: always if the event is no cut, and if it is one, over a disk that tells its bytes and
/// fits its node.
pub fn turns_are_steps()
    ensures { TurnsAreSteps }
{}

/// Turns over disks that tell their bytes and fit their nodes are a run of the machine, and leave the disks so.
pub fn turns_are_runs()
    ensures { TurnsAreRuns }
{}

/// Turns keep the nodes of a world sound, whatever their disks tell.
pub fn turns_keep_sound()
    ensures { TurnsKeepSound }
{}
