//! The lines of a log on NOR flash, as bytes.
//!
//! A line is 35 bytes of body, the CRC-64 of the body, zero bytes, and a last byte that is never that of an erased
//! place. [`UnitSize::line_length`] gives its length: as many of the part's units as a line needs. [`line_bytes`] and
//! [`read_line`] are inverse, and all other bytes are no line. A head also tells the sizes of its part and store, or
//! none ([`told_sizes`]). [`laws`] says which torn lines are none for sure. No call takes memory or fails.
#![tactic(auto)]

mod crc;
pub mod laws;
mod lines;
mod sizes;
mod units;

pub use crc::crc64;
pub use lines::{line_bytes, read_line, told_sizes};
pub use sizes::FlashSizes;
pub use units::UnitSize;
