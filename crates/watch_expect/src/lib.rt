//! The run of `watch --expect FILE`: whether what `watch` prints is exactly what FILE has.
//!
//! [`start_watch`] is the program: it watches what the arguments name, or with `--expect` compares it.
//! [`run_expected`] compares each piece of the output with the kept text before it reads on, in the same memory for any
//! log, and ends at the first difference. Its record `Expects` says when it ends with 0, and what is told of the first
//! difference.
#![tactic(auto)]

mod port;
mod run;
mod start;
mod texts;

pub use run::run_expected;
pub use start::start_watch;
