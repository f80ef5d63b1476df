//! CMAC over AES-128 (NIST SP 800-38B, 6.1 and 6.2).
//!
//! `cmac`, `cmac_of_parts`, and `Mac` over any pieces equal the CMAC of the whole message, which is a block. What a
//! `Mac` keeps beside its key can be taken out and put back.
//! Nothing here takes memory or fails.
#![tactic(auto)]

pub mod laws;
mod pieces;
mod subkeys;

pub use pieces::{Mac, MacParts, cmac, cmac_of_parts};
// what its calls take and answer
pub use she_aes::{Block, Schedule};
