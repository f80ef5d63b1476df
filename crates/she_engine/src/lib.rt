//! A SHE engine over a store of cells: loads, MACs, ciphers and secure boot (SHE specification).
//!
//! Cells 0 to 13 keep the fourteen slots. `attach` gives their engine, or names the lowest cell that is no
//! slot's. `load_key` answers by the first of five refusals, with no disk call. Or it puts the update and
//! confirms it. Or the disk failed and its count rose: the slots are as before, one is pending, and on a
//! settled store each image has the old cell or the new. MACs and ciphers answer by the refusals of use in
//! their order, else by the definitions, under the key that the slot holds now. A boot is decided once in a
//! life. [`MacKey`] makes and judges PDUs under a slot's key. No call hands out a key, no type prints one, and
//! no call takes memory.
#![tactic(auto)]

mod ciphers;
mod engine;
mod loading;
mod mac_key;
mod memory;

pub use engine::{Engine, LoadFault};
pub use loading::{allowed, slot_of};
pub use mac_key::MacKey;
