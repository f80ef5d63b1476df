//! The Secured I-PDU of AUTOSAR SecOC profile 1 (24Bit-CMAC-8Bit-FV), and a receiver's verdict on one.
//!
//! [`build`] gives the one frame that is `Secured`, and nothing exactly if the payload hasn't 1 to 60 bytes.
//! [`split`] refuses exactly by length, 5 to 64. [`ahead_with_bits`] gives the one freshness with these low
//! bits, 1 to 64 of them, that is 1 to the window above the counter, if there is one; [`candidate_of`] is it for the
//! low byte of profile 1. [`judge`] is the verdict. The authenticated input is one-to-one, and one verdict holds of
//! each frame. A Secured PDU whose freshness is ahead, by the window at most, is accepted with it. What a window
//! accepts each larger one does, with the same freshness ([`laws`]). Nothing takes memory.
#![tactic(auto)]

mod candidate;
mod frame;
pub mod laws;
mod verdict;

pub use candidate::{ahead_with_bits, candidate_of, takes_bits};
pub use frame::{Parts, WIDEST_WINDOW, assemble, build, input_bytes, input_mac, split};
pub use verdict::{Judgement, judge};
