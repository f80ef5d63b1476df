//! One send of a node: the freshness above its counter, and the Secured I-PDU of AUTOSAR SecOC, profile 1,
//! with it.
//!
//! `BadLength`, `Key` and `Exhausted` come exactly if each is the first refusal that applies, and no disk call is made.
//! Else the first bytes of `out` are the Secured I-PDU under the key that the slot holds now, and the bound in the cell
//! covers its freshness. Or the disk failed as the bound was put: `Faulted`, only if its count rose, names that bound.
//! On a settled store each image keeps the old cell or the new. After a refusal `out` and counter are as before. The
//! answer is a step for each node of the machine that is up with this route and agrees in counter, bound, slots and
//! boot. At most six entries of a past, no mark. No call takes memory.
#![tactic(auto)]

mod sender;

pub use sender::{SendFault, Sent, send};
