//! A look at a whole disk, before a start that wants a store there.
//!
//! [`look_whole`] says whether the disk is unused, the store that is wanted stands there, the same store stands in an
//! older version, another store does, or neither a store nor an unused disk. It only reads. A start that keeps what
//! stands formats an unused disk alone: one whose bytes are all zeros. If the headers were damaged to zeros, a cell that
//! isn't zero still tells that a store is there. [`standing_refusal`] is the row that names another store.
#![tactic(auto)]

mod laws;
mod looks;
mod texts;

pub use laws::bytes_are_seen_as_one_thing;
pub use looks::{LookFault, Seen, is_zeroed, look_whole};
pub use texts::{standing_refusal, standing_text};
