//! What came of an arrival, and which pair a gateway doesn't take.
use cell_store::Cells;
use secoc_node::{Node, NodeFault};
use secoc_sender::Sent;

/// What came of a PDU of 5 to 64 bytes that arrived under the first Data ID of a pair.
#[derive(Clone, Copy, Debug, PartialEq, Eq)]
pub enum Arrival {
    /// It was accepted, and its payload was sent under the second Data ID.
    Forwarded {
        /// The freshness with which it was accepted, all 64 bits.
        freshness: u64,
        /// The freshness with which its payload was sent, and the length of the PDU that was sent.
        sent: Sent,
    },
    /// It was accepted, and its payload wasn't sent. It is as spent as one that was forwarded.
    Dropped {
        /// The freshness with which it was accepted, all 64 bits.
        freshness: u64,
        /// Why the node didn't send: `Key`, `Exhausted` or `Faulted`.
        fault: NodeFault,
    },
    /// No freshness within the window has the low byte of the PDU.
    FreshnessFailure,
    /// The authenticator is another one.
    VerificationFailure,
}

/// A node that is handed back, and which pair its gateway doesn't take.
#[derive(Drop)]
pub struct PairRefused<C: Cells> {
    /// The node, as it was.
    pub node: Node<C>,
    /// The number of the lowest bad pair, counted from 1. Its first Data ID has no receiving route, its second has no
    /// sending route, or one of them stands at the same place of an earlier pair.
    pub pair: u16,
}
