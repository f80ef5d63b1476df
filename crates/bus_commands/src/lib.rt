//! The commands of `bus_replay`: Secured I-PDUs and verdicts (AUTOSAR SecOC, profile 1), scripts and trials
//! of a bus.
//!
//! [`run::run`] is all of it. The record `RunsCommand` says what each status means and what is printed. `RunsMachine`
//! is the headline: what a replay, `node` or a trial did is one run of the machine, with all of `HeadlineRun`. It
//! speaks of disks that tell their bytes, for `node` without a loose one. [`start::bus_words`] judges the arguments
//! once, by [`words::command_line`]. It opens the sources that they name, and then the disk, or makes disks in memory,
//! and promises both records. Inputs that are refused open no disk. [`keeping::replay_words`] is the program: it looks
//! at the whole disk of `node --keep` before the start, which has a table of its own (specs/Keeping.antt).
#![tactic(auto)]

mod events;
mod inputs;
mod job;
pub mod keeping;
pub mod laws;
mod lines;
mod questions;
mod replay;
pub mod run;
pub mod start;
mod summary;
mod trial;
mod trial_words;
pub mod words;

pub use summary::Summary;
pub use trial_words::TrialWords;
