//! A node of AUTOSAR SecOC (profile 1) over SHE key memory, in all its lives. Cells 0 to 13 of its store are
//! its slots, and cell `14 + k` is the bound of route `k`. Each call is a step of the machine of a bus: what
//! it answers stands for one line. A cut is one over a disk that tells fitting bytes, and then only the disk
//! can fail. A PDU is sent or accepted only with a bound in the cells that covers it. An honest one in time
//! is accepted, or the disk failed. A failed call leaves the node down, with one change pending, until a
//! power-up: the change is there whole or not at all. `attach` gives the up node of its cells, or names the
//! lowest bad cell; it alone takes memory. Every call but `release` keeps a fitting disk fitting, and each
//! keeps the node sound. [`laws`]: cells tell what is kept.
#![tactic(auto)]

mod cells;
mod counters;
mod faults;
mod known;
mod laws;
mod node;
mod routes;

pub use cells::first_cells;
pub use faults::{AttachFault, CutFault, NodeFault, NodeRefused};
pub use laws::{a_settled_disk_fits_its_node, cells_tell_what_is_kept};
pub use node::Node;
pub use routes::place_of;

// what the calls of a node answer
pub use secoc_receiver::Reception;
pub use secoc_sender::Sent;
