//! The machine of a bus of AUTOSAR SecOC nodes (profile 1) over SHE key memory: definitions, in `specs/`.
//!
//! They say what a node keeps and knows, and have the events of a bus and the lines that answer them. They say which
//! line and world an event may lead to. They know no store, no disk and no cipher's rounds. Here stand the types of
//! events and lines, which scripts are read into and replays print. bus_laws has the theorems, and bus_rows tries the
//! definitions.
#![tactic(auto)]

mod events;
mod line_values;
mod lines;

pub use events::Event;
pub use line_values::every_line_is_one;
pub use lines::{Line, Refusal};
