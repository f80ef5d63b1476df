//! What the programs that run over a bus share: their bus file, their script and their disks.
//!
//! [`bus_from`] gives the bus of a source that was read whole, and [`script_from`] the events of a script over it.
//! Or they give the row of why there is none: that of the input, or 3 or 4 with the text of the first fault. Both are
//! exact, except out of memory. [`check_bus`] and [`node_routes`] are for a bus of one node. [`blank_disks`] and
//! [`disks_if`] give so many blank disks in memory, and [`example_inputs`] those of a worked example. Over no
//! fewer such disks than nodes every bus that a bus file can have finds room, and no disk fails as the stores are made
//! (proofs/CallerLemmas.antt). [`unopened`] gives sources of which nothing was opened.
#![tactic(auto)]

mod bus_files;
mod disks;
mod examples;
mod one_node;
mod scripts;
mod sources;

pub use bus_files::bus_from;
pub use disks::{blank_disks, disks_if};
pub use examples::example_inputs;
pub use one_node::{check_bus, node_routes};
pub use scripts::{BusScript, OwnScript, Script, script_from};
pub use sources::unopened;
