//! What holds of every trial.

ghost use Rattle.bus_script.specs.Draws.{WorkedDraws};
ghost use Rattle.bus_script.specs.TrialLaws.{WorkedEvent, TrialsAreScripts};

/// Worked draws and a worked event: what the seed 0 gives first.
#[tactic(auto, unfolding(crate::specs::Draws::next_state))]
pub fn worked_draws()
    ensures draws { WorkedDraws }
    ensures event { WorkedEvent }
{}

/// Law: the events of a trial are a script: each is one that a script can have, they are at most 65,536, and they are
/// read again from their canonical lines.
pub fn trials_are_scripts()
    ensures { TrialsAreScripts }
{}
