//! The run of `explain --locate`: a freshness that nobody knows is found from frames of a log, by a map of CAN
//! identifiers (AUTOSAR SecOC, profile 1).
//!
//! [`start_explain`] is the program: it explains the log that the arguments name, or with `--locate` finds a freshness.
//! [`run_locate`] prints a map in which each FRESH that was `?` is filled in, with the record `Locates`;
//! [`locate_words`] does so over the sources that the arguments name. [`located`] looks for one freshness: the least of
//! a range with which the first of sixteen frames verifies, and after which two others are accepted. With one less as
//! FRESH a receiver accepts these three ([`laws`]).
#![tactic(auto)]

mod filling;
mod frames;
pub mod laws;
mod options;
mod run;
mod searching;
mod start;

pub use frames::FirstFrames;
pub use options::Candidates;
pub use run::run_locate;
pub use searching::located;
pub use start::{locate_words, start_explain};
