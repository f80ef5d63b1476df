//! One verdict of a node on a Secured I-PDU of AUTOSAR SecOC, profile 1: accepted, or one of two failures.
//!
//! `BadLength` and `Key` come exactly if each is the first refusal that applies: the key is asked before the
//! freshness. Else it is the verdict within the route's window. A failure changes nothing and makes no disk
//! call. A PDU is accepted only with a bound in the cell that covers its freshness; or `Faulted`, only if the
//! disk's count rose, names that bound. A PDU that is secured under the usable key, 1 to the window ahead, is
//! accepted, or the disk failed. The answer is a step of the machine, as in secoc_sender. The payload is a
//! part of the PDU: no call takes memory.
#![tactic(auto)]

mod receiver;

pub use receiver::{ReceiveFault, Reception, receive};
