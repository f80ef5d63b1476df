//! The texts of a bus: scripts of its events, read and written, printed lines, and the events of a trial.
//!
//! [`read_script`] gives the events of a text over a [`BusConfig`], all nine kinds, or its first fault with
//! line and cause, exactly. Each names a node of the bus and is within its bounds. [`read_own_script`] does
//! so for a node's own events: `send` and `deliver` are none. [`write_event`] writes an event's canonical
//! line: single spaces, lower-case digits, every identifier in full. What was read, and every event within
//! the bounds, is read again from its canonical lines ([`laws`]). [`write_line`] appends exactly the printed
//! text of a line, or leaves the text as it was if memory is out. Texts tell lists of lines apart
//! ([`line_laws`]). [`make_trial`] gives exactly the list of its definition: keys for every node, and then N
//! events that a seed gives. For every bus and seed this is a script ([`trial_laws`]).
#![tactic(auto)]

mod drawn_events;
mod draws;
mod fields;
mod kinds;
pub mod laws;
pub mod line_laws;
mod line_writing;
mod lines;
pub mod pushing;
mod reader;
mod trial;
pub mod trial_laws;
pub mod words;
mod writing;

pub use crate::reader::{read_own_script, read_script};
pub use crate::writing::write_event;
pub use bus_config::BusConfig;
pub use bus_machine::{Event, every_line_is_one};
pub use line_writing::{push_line, push_told, write_line};
pub use text_lines::{Cause, Memory, ScriptFault};
pub use trial::make_trial;
