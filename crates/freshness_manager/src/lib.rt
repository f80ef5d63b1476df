//! The freshness of a node's routes (AUTOSAR SecOC): a counter for each, and a bound ahead that a store
//! keeps.
//!
//! [`Tx`] gives the freshness above its counter. If its bound doesn't cover that, it first puts one a reserve (1 to
//! 128) ahead. `Exhausted` comes exactly at 2^64 - 1, `PutFailed` only if the disk's count rose; counter and bound are
//! then as before. [`Rx`] gives the one candidate of a low byte, if there is one; if it isn't covered, `commit` first
//! puts a bound a reserve less one above it; `advance` does so for a counter that the sender told. Bounds end at 2^64 -
//! 1. The store's cells always have the bound, which is at least the counter. On a settled store each image keeps the
//! old or the new one. That no freshness is used twice is a law of the machine; a node's calls are its steps. No call
//! takes memory.
#![tactic(auto)]

mod changing;
mod laws;
mod receiver;
mod sender;

pub use changing::PutFailed;
pub use freshness_routes::{Direction, NodeConfig, Route, Routes};
pub use laws::a_failed_change_keeps_either_bound;
pub use receiver::Rx;
pub use sender::{Tx, TxFault};
