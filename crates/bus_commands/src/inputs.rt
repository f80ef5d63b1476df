//! What the sources of a command have, or why they have it not.
ghost use Rattle.std.specs.Prelude.{◌≤◌};
ghost use Rattle.bus_commands.specs.Steps.{FindsLines, DrawsEvents};

use crate::questions::{Question, questions};
use crate::trial_words::TrialWords;
use bus_config::BusConfig;
use bus_port::Source;
use bus_script::{Event, make_trial};
use program_edge::{Refusal, read_input};
use std::alloc::{AllocError, Global};

/// The questions of the lines that a source gives, or the refusal of the source or of a line.
pub fn questions_from<Q: Question, S: Source>(
    alloc: Global,
    script: &mut S,
) -> Result<Vec<Q>, Refusal>
    ensures { FindsLines Q.questions_of Q.is_whole
        (record { before = S.state script.old; after = S.state script.new }) result }
{
    let input = read_input(alloc, script)?;
    questions(alloc, input.as_slice())
}

/// The events that the seed of a trial gives, or out of memory.
pub fn drawn_events(
    alloc: Global,
    bus: &BusConfig,
    trial: TrialWords,
) -> Result<Vec<Event>, Refusal>
    requires { (1 ≤ trial.count) × (trial.count ≤ 60000) }
    ensures { DrawsEvents bus.now trial result }
{
    match make_trial(alloc, bus, trial.count, trial.seed) {
        Ok(events) => Ok(events),
        Err(AllocError) => Err(Refusal::no_memory()),
    }
}
