//! Why a node refuses.
use cell_store::Reread;
use key_slots::{Erc, SlotId};

/// Why a node refuses a call. The first cause that applies is answered, in this order.
#[derive(Clone, Copy, Debug, PartialEq, Eq, Drop)]
pub enum NodeFault {
    /// A call of the disk failed, or a power cut was refused, since the last power-up that succeeded.
    Down,
    /// The configuration has no route of this Data ID in this direction.
    NoRoute,
    /// A payload has not 1 to 60 bytes, or a PDU not 5 to 64.
    BadLength,
    /// The engine refuses, as the SHE specification says.
    Key(Erc),
    /// The counter of a route that sends stands at 2^64 - 1, the greatest freshness.
    Exhausted,
    /// A call of the disk failed in this call. The node is down; what was to be put is there whole or not at all after
    /// the next power-up.
    Faulted,
}

/// Why cells are no node's, in the order in which they are asked.
#[derive(Clone, Copy, Debug, PartialEq, Eq, Drop)]
pub enum AttachFault {
    /// This slot's cell, the lowest, is no slot's.
    BadSlot(SlotId),
    /// The cell at this place, the lowest from 14 on, doesn't hold the bound of its route.
    BadBound(u16),
    /// There was no memory for the counters.
    Memory,
}

/// Cells that are handed back, and why.
#[derive(Debug, Drop)]
pub struct NodeRefused<C> {
    /// The cells, as they were.
    pub cells: C,
    /// Why they are no node's.
    pub fault: AttachFault,
}

/// Why a node isn't up after a power cut.
#[derive(Clone, Copy, Debug, PartialEq, Eq, Drop)]
pub enum CutFault {
    /// The store couldn't be read anew.
    Store(Reread),
    /// This slot's cell, the lowest, was read anew and is no slot's.
    BadSlot(SlotId),
    /// The cell at this place, the lowest from 14 on, was read anew and doesn't hold the bound of its route.
    BadBound(u16),
}
