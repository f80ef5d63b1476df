//! What all crates share: lists of bytes, and counts of faults.
//!
//! Bytes that cross a contract are a list of numbers. A number and its bytes give one another, and joined
//! lists are joined numbers ([`laws`]). [`append`] writes bytes after others and leaves what follows.
//! [`Bytes`] holds a list of any length, and [`Block`] one of 16 bytes, of which debugging shows none.
//! [`Pdu`] holds at most 64 bytes: `of` gives none exactly if there are more, and `filled_by` only then or if
//! its writer says no.
//! A count of faults has 64 bits. It rises by one when a call fails, never falls, and stands still at its
//! last value. So a caller that hands an object on sees afterwards whether a fault came.
#![tactic(auto)]

mod appending;
mod block;
mod bytes;
mod faults;
pub mod laws;
mod pdu;

pub use appending::append;
pub use block::Block;
pub use bytes::Bytes;
pub use faults::{a_rise_is_seen, a_rise_stays, count_fault, the_same_count_did_not_rise};
pub use pdu::Pdu;
