//! The run of `watch`: whether a bus is authentic and live, by its log while it runs and a map of CAN identifiers
//! (AUTOSAR SecOC, profile 1).
//!
//! [`run_watch`] answers each complete line of a log of any length before it reads on, and tells faults on a sink of
//! their own, with the record `Watches`; [`watch_words`] does so over the sources that the arguments name. [`Watch`] is
//! the state between two lines of a log, which the driver of `line_stream` hands over. Its `take` is never out of
//! memory, and `end` gives the numbers and the status. At most one list of findings is found of a log ([`laws`]).
//! Accepted freshness rises per line of the map (law `accepted_freshness_rises_per_watched_line`).
#![tactic(auto)]

mod answers;
mod counts;
pub mod laws;
mod limits;
mod options;
mod over;
mod port;
mod run;
mod stamps;
mod start;
mod state;
mod task;
mod times;

pub use limits::Limits;
pub use options::{WatchOptions, inputs_of, kept_file};
pub use run::{prepare, run_watch};
pub use start::watch_words;
pub use state::Watch;
pub use task::WatchTask;
