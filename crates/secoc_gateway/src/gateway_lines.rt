//! The line that answers an event of a gateway.

use basics::Pdu;
use bus_machine::{Line, Refusal};

/// The line that tells what came of an event of a gateway.
#[derive(Clone, Copy, Debug, PartialEq, Eq)]
pub enum GatewayLine {
    /// A PDU arrived under the first Data ID of a pair and was accepted, and its payload was sent under the second.
    Forwarded {
        /// The Data ID under which it arrived.
        id: u16,
        /// The freshness with which it was accepted, all 64 bits.
        freshness: u64,
        /// The Data ID under which its payload was sent.
        sent_id: u16,
        /// The freshness with which its payload was sent, all 64 bits.
        sent_freshness: u64,
        /// The Secured I-PDU that was sent, 5 to 64 bytes.
        pdu: Pdu,
    },
    /// A PDU arrived under the first Data ID of a pair and was accepted, and its payload wasn't sent.
    Dropped {
        /// The Data ID under which it arrived.
        id: u16,
        /// The freshness with which it was accepted, all 64 bits.
        freshness: u64,
        /// Why its payload wasn't sent.
        refusal: Refusal,
    },
    /// What the node tells: of an arrival under the first Data ID of a pair that wasn't accepted, or of any other
    /// event.
    OfNode(Line),
}
