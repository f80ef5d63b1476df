//! The commands of a ledger.

use basics::Block;
use cut_disk::Torn;
use key_slots::{Flags, SlotId};
use memory_update::{Reply, Uid};

/// A request is asked for, that puts a new key into a slot of a unit.
#[derive(Clone, Copy)]
pub struct Issue {
    /// The unit's identifier, not zero.
    pub uid: Uid,
    /// The slot that is to be updated.
    pub id: SlotId,
    /// The slot whose key authorises the update.
    pub auth: SlotId,
    /// The new flags.
    pub flags: Flags,
    /// The new key.
    pub key: Block,
    /// The authorising key.
    pub authkey: Block,
}

/// A reply came from a unit, for the update that was issued last for its slot.
#[derive(Clone, Copy)]
pub struct Confirm {
    /// The unit's identifier, not zero.
    pub uid: Uid,
    /// The slot that was to be updated.
    pub id: SlotId,
    /// The slot whose key authorised the update.
    pub auth: SlotId,
    /// The new key.
    pub key: Block,
    /// M4 and M5.
    pub reply: Reply,
}

/// A command of a campaign.
#[derive(Clone, Copy)]
pub enum LedgerCommand {
    /// Issues a request.
    Issue(Issue),
    /// Records a confirmation.
    Confirm(Confirm),
    /// Shows an entry.
    Show {
        /// The unit's identifier, not zero.
        uid: Uid,
        /// The slot.
        id: SlotId,
    },
    /// Cuts the power, which comes back.
    Cut(Torn),
    /// From the call of this number on, 1 for the next, each call of the disk fails until the power is cut.
    Stop(u64),
    /// The call of this number of the disk fails.
    Fail(u64),
}
