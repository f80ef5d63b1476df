//! What happens on a bus.

use basics::Bytes;
use cut_disk::Torn;
use key_slots::Block;
use memory_update::{Request, Update};

/// An event of a bus. It concerns one node, which it names by its place in the bus, counted from 0.
#[derive(Drop)]
pub enum Event {
    /// The node sends a payload under a Data ID.
    Send {
        /// The place of the node.
        node: u8,
        /// The Data ID.
        id: u16,
        /// The payload; one that isn't 1 to 60 bytes is refused.
        payload: Bytes,
    },
    /// The node receives the PDU that an earlier event sent, under its Data ID.
    Deliver {
        /// The place of the node.
        node: u8,
        /// The number of the event that sent, counted from 1.
        event: u32,
    },
    /// The node receives these bytes under a Data ID.
    Inject {
        /// The place of the node.
        node: u8,
        /// The Data ID.
        id: u16,
        /// The bytes; a PDU that isn't 5 to 64 bytes is refused.
        pdu: Bytes,
    },
    /// The node's engine gets the request of a key update.
    Load {
        /// The place of the node.
        node: u8,
        /// M1, M2 and M3.
        request: Request,
    },
    /// The node's engine gets the request that carries this update under an authorising key.
    Key {
        /// The place of the node.
        node: u8,
        /// The update.
        update: Update,
        /// The authorising key.
        authkey: Block,
    },
    /// The node makes a secure boot with an image.
    Boot {
        /// The place of the node.
        node: u8,
        /// The image, 1 to 65,536 bytes.
        image: Bytes,
    },
    /// The node's power is cut and comes back.
    Cut {
        /// The place of the node.
        node: u8,
        /// What the cut leaves of each byte that was written and not synced.
        torn: Torn,
    },
    /// From the call of this number on each call of the node's disk fails, until its power is cut.
    Stop {
        /// The place of the node.
        node: u8,
        /// The number of the call, counted from 1.
        calls: u32,
    },
    /// The call of this number of the node's disk fails.
    Fail {
        /// The place of the node.
        node: u8,
        /// The number of the call, counted from 1.
        calls: u32,
    },
}
