//! The command of a re-authenticating gateway: a script over the one node of a bus (AUTOSAR SecOC, profile
//! 1).
//!
//! [`run_gateway`] is all of it: the record `RunsGateway` says what each status means and what is printed.
//! What was done over a disk that tells its bytes is one run of the gateway's machine, with all of
//! `OneGatewayRun` (law `gateways_are_runs`). [`gateway_words`] opens the sources that the arguments name,
//! and runs the example if there are none, over a blank disk of 65,536 bytes in memory. So 9 and 10 don't come of it.
//! The script of the example is a key update and one arrival twice (law `example_replays`).
#![tactic(auto)]

mod example;
mod inputs;
mod job;
mod laws;
mod run;
mod running;
mod start;
mod texts;
mod words;

pub use laws::{example_replays, gateways_are_runs};
pub use run::run_gateway;
pub use start::gateway_words;
