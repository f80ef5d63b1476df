//! Why a store isn't grown.
use crate::headers::StoreHeader;

/// Why a store isn't grown to its end. Nothing was written, unless it is `DiskFailed`.
#[derive(Clone, Copy, Debug, PartialEq, Eq, Drop)]
pub enum GrowFault {
    /// A call of the disk failed. The store has its old cells, or some of the new ones too; the same call goes on.
    DiskFailed,
    /// The disk has no room for the cells and one more that is erased, all 00 or all ff: a store of more cells, too.
    TooSmall,
    /// The header of this store stands there. It is no twin store of version 1, or the bus wants another.
    OtherStore(StoreHeader),
    /// No header of a store stands there.
    NotFormatted,
    /// No copy of this cell counts. It is one of the fourteen key slots.
    Damaged(u16),
    /// This cell, one of the fourteen, holds no key slot.
    BadSlot(u16),
    /// This cell isn't the bound of the bus's route there, and can't be written: it is counted, or not erased.
    BadBound(u16),
    /// There was no memory.
    Memory,
}
