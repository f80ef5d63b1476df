//! The fourteen key slots (SHE specification, key memory) in the cells of a store: cell `i` holds slot `i`.
//!
//! A cell has 32 bytes, all zero for an empty slot. A filled slot's are the byte 1, the flags as a number below 32, the
//! counter (4 bytes, big-endian, below 2^28), the key (16 bytes), and ten zeros. Every other content is no slot, and a
//! cell is at most one. `read_slots` gives the slots of the first fourteen cells, or names the lowest cell that is
//! none, exactly. `put_slot` puts the slot's cell: on a settled store whole or absent in every image, with at most six
//! entries in the past, without a mark. No call takes memory.
#![tactic(auto)]

mod cell;
mod laws;
mod slots;

pub use cell::{slot_bytes, slot_in};
pub use laws::{a_cell_is_one_slot, a_slot_has_a_cell_of_32_bytes};
pub use slots::{BadSlot, put_slot, read_slots};
