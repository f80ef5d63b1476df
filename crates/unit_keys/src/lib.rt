//! Keys of units: from a master key (NIST SP 800-108, counter mode with CMAC), and wrapped under another key (AES key
//! wrap, RFC 3394, 2.2).
//!
//! [`unit_key`] equals its definition, whose inputs are those of one unit and one slot. [`wrap`] equals its
//! definition. [`unwrap`] gives the one key that a wrapped text is of, and none exactly if it is of none ([`laws`]).
//! No call takes memory.
#![tactic(auto)]

mod derivation;
pub mod laws;
mod wrapping;

pub use derivation::unit_key;
pub use wrapping::{unwrap, wrap};
// what their calls take and answer
pub use basics::Block;
pub use key_slots::SlotId;
pub use memory_update::Uid;
