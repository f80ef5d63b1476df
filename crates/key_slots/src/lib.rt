//! The key memory of the Secure Hardware Extensions (SHE specification, key memory, key usage, memory
//! update).
//!
//! There are fourteen slots. What is set is what is got, and the other slots stay. A slot is empty, or has a
//! key of 16 bytes and a counter of 28 bits. Exactly 25 pairs of slots authorise an update: those of their
//! rule. `usable` gives the first refusal of a use that applies, and slots 0 to 3 serve no MAC and no cipher
//! ([`laws`]). Refusals have names of their own. No slot shows its key for debugging.
#![tactic(auto)]

mod authority;
pub mod laws;
mod memory;
mod numbers;
mod refusals;
mod usage;

pub use authority::may_authorise;
pub use memory::{Flags, Slot, Slots};
pub use numbers::{Counter28, SlotId};
pub use refusals::Erc;
pub use usage::{Purpose, usable};
// a key
pub use basics::Block;
