//! Which frames of a bus verify (AUTOSAR SecOC, profile 1), by a log of `candump` and a map of CAN
//! identifiers.
//!
//! [`run_audit`] audits the sources of a map and of a recorded log, with the record `Audits`; [`audit_words`] those
//! that the arguments name, or without arguments an example. At most one list of findings is found of a log, and each
//! map has the windows that it asks for ([`laws`]). Accepted freshness rises per line of the map (law
//! `accepted_freshness_rises_per_map_line`).
#![tactic(auto)]

mod auditing;
pub mod laws;
mod map_source;
mod run;
mod start;

pub use auditing::audit_text;
pub use map_source::{lines_by, read_map, read_map_by};
pub use run::run_audit;
pub use start::audit_words;
