//! Key updates of the Secure Hardware Extensions (SHE specification, memory update protocol): M1 to M5.
//!
//! [`build`] gives the request that carries the update, with zero padding. [`unseal`] gives the one update
//! that a request carries, whatever its padding; `BadId` exactly if ID or AuthID is over 13, then `BadMac`
//! exactly if M3 differs. Replies are made and checked exactly. Bit fields of 1 to 127 bits are taken and
//! placed exactly. One answer to a load holds: the first of five refusals, or the update, whose counter is
//! greater than the target's. A request that was built for an engine is taken by it under the conditions of
//! its law ([`laws`]). No call takes memory.
#![tactic(auto)]

mod blocks;
mod confirmation;
pub mod laws;
mod messages;
mod requests;
mod words;

pub use confirmation::{confirm_for, is_confirmed};
pub use messages::{Head, Reply, Request, Uid, Unseal, Update};
pub use requests::{build, head, unseal};
pub use words::{place, take};
// the slots that an update names
pub use key_slots::SlotId;
