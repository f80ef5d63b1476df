//! The line that answers an event.

use basics::Pdu;
use key_slots::{Erc, SlotId};
use memory_update::Reply;

/// The line that tells what came of an event.
#[derive(Clone, Copy, Debug, PartialEq, Eq)]
pub enum Line {
    /// A PDU was sent.
    Sent {
        /// The Data ID.
        id: u16,
        /// The freshness, all 64 bits.
        freshness: u64,
        /// The Secured I-PDU, 5 to 64 bytes.
        pdu: Pdu,
    },
    /// A PDU was received, fresh and verified.
    Accepted {
        /// The Data ID.
        id: u16,
        /// The freshness, all 64 bits.
        freshness: u64,
        /// The payload, 1 to 60 bytes.
        payload: Pdu,
        /// The number of the earliest event that sent this payload with this freshness under this Data ID.
        from: Option<u32>,
    },
    /// No freshness with the PDU's low byte is ahead of the counter.
    FreshnessFailure,
    /// The PDU's authenticator is another one.
    VerificationFailure,
    /// A key update was made and taken.
    Keyed {
        /// The slot that was updated.
        slot: SlotId,
    },
    /// The request of a key update was taken.
    Loaded {
        /// M4 and M5.
        reply: Reply,
    },
    /// A secure boot was decided.
    Boot {
        /// Whether it succeeded.
        good: bool,
    },
    /// The node is up again after a power cut.
    Up,
    /// A failure of the disk is armed.
    Armed,
    /// The event to be delivered isn't an earlier one that sent.
    NoFrame,
    /// Nothing was done; or the disk failed, and the node is down.
    Refused(Refusal),
}

/// Why an event is refused.
#[derive(Clone, Copy, Debug, PartialEq, Eq)]
pub enum Refusal {
    /// The node is down: a call of its disk failed since the last power-up, or a power-up was refused.
    Down,
    /// The node has no route of this Data ID and direction.
    NoRoute,
    /// The payload or the PDU is too short or too long.
    BadLength,
    /// The engine refuses.
    Key(Erc),
    /// The counter stands at the greatest freshness.
    Exhausted,
    /// The disk failed.
    MemoryFailure,
    /// After a cut, on a disk that doesn't tell bytes that fit the node: there is no store of the node's kind.
    NotFormatted,
    /// After a cut, on such a disk: this place of the store is damaged.
    Damaged(u16),
    /// After a cut, on such a disk: this slot's cell is no slot.
    BadSlot(SlotId),
    /// After a cut, on such a disk: this cell doesn't hold a bound of its route.
    BadBound(u16),
}
