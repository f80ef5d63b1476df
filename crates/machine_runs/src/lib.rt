//! Runs of machines: what a run is, and what holds of every run of every machine.
//!
//! A machine does commands, answers each with one line, and has a state. Its [`Steps`] are a relation between states. A
//! run is one list of moments: a command, its line, and the state after it. The empty list, a run and a further moment,
//! and a prefix of a run are runs. What holds at first, and each step keeps, holds at the end. If each step says so: a
//! run is one of the machine that it is seen as or made of, and of each member; failures are at most one per fault; a
//! quiet state gives none before something is armed; the past is traced. The laws are contracts of functions with empty
//! bodies.
#![tactic(auto)]

mod laws;
mod steps;

pub use laws::{
    failures_are_within_the_rise_of_the_count, front_of_a_run_is_a_run, no_moment_is_a_run,
    past_of_a_run_is_traced, run_and_a_further_moment_is_a_run, run_is_a_run_of_each_member,
    run_is_a_run_of_the_machine_that_it_is_seen_as, run_is_quiet_until_something_is_armed,
    run_of_made_steps_is_a_run_of_their_parts, what_each_step_keeps_holds_at_the_end,
};
pub use steps::{Claim, Composite, Faults, Members, Past, Steps, View};
