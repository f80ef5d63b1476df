//! The configuration of a bus: its nodes with their names, routes and stores, and the TOML file that tells them.
//!
//! `Name::of` gives a name exactly if the bytes are one. `BusConfig::new` gives a bus exactly if it is one: 1 to 8
//! nodes with names that differ, at most 64 routes a node (256 in version 2), and no Data ID sent by two routes. A node
//! is found by its name, and the first Data ID that is sent again is exact. Every named bus is a bus of the machine.
//! [`read_config`] gives the bus that a file tells, or the first fault, exactly as the definition says over what `toml`
//! reads: the document, the root, each node and its routes, and at last Data IDs that two routes send. The text of
//! each fault is exact; out of memory, which alone isn't determined, has none. This is the one crate that knows TOML.
#![tactic(auto)]

mod buses;
mod fault;
mod heads;
mod laws;
mod names;
mod node_lines;
mod nodes;
mod reader;
mod routes;
mod tables;
mod texts;
mod values;

pub use buses::{BusConfig, most_routes};
pub use fault::ConfigFault;
pub use laws::{named_buses_are_buses, names_tell_nodes};
pub use names::Name;
pub use node_lines::{NodeLine, place_named, sent_again};
pub use reader::read_config;
pub use texts::config_fault_text;
