//! Bounds of freshness (AUTOSAR SecOC) in the cells of a store.
//!
//! A bound's cell has 32 bytes: the byte 2, the direction (1 sends, 2 receives), the Data ID (2 bytes, big-endian), the
//! bound (8 bytes, big-endian), and twenty zeros. Every other content is no bound. A cell is at most one bound, and
//! never a slot's too. `read_bound` gives the bound of a Data ID and a direction, or names the cell exactly if it holds
//! none. `put_bound` is the put of its cell: on a settled store whole or absent in every image, with at most six
//! entries in the past and no mark. No call takes memory.
#![tactic(auto)]

mod bounds;
mod cell;
mod laws;

pub use bounds::{BadBound, put_bound, read_bound};
pub use cell::{bound_bytes, bound_in};
pub use freshness_routes::Direction;
pub use laws::{a_bound_has_a_cell_of_32_bytes, a_cell_is_one_bound, no_slot_is_a_bound};
