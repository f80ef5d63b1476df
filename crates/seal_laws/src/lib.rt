//! All lives of a store of cells on a part whose reads need not settle, and what holds of them. It has definitions and
//! laws; the code of such a store on a part of blanks is `seal_store`.
//!
//! A bank holds a **copy** of the cells, and then **deeds**: each names the deed that it follows. A deed puts a cell,
//! opens the bank, or moves the store to another bank. A start reads each unit once. After a clean end it writes
//! nothing; after a cut it programs the latest deed again, in the next place. So a start never relies on a line that it
//! saw. It relies on one that it programmed and that was done, or after which it sees a confirm. A put programs one
//! deed. If the bank is full, it makes a copy in the next bank; then the move to it is a deed of the old one.
#![tactic(auto)]

pub mod laws;

use seal_logs::LogSizes;

/// The sizes of a log, and how many places at the end of a bank are kept for moves and starts.
#[derive(Clone, Copy, Debug, PartialEq, Eq, Drop)]
pub struct SealSizes {
    pub log: LogSizes,
    pub reserve: u32,
}

/// Where a store stands that is ready.
#[derive(Clone, Copy, Debug, PartialEq, Eq, Drop)]
pub struct SealPoint {
    pub bank: u8,
    pub generation: u64,
    /// The place of the next deed.
    pub next: u32,
    /// The place of the last deed; none: it's the copy.
    pub last: Option<u32>,
    /// How many deeds the bank lacks of the two that it has before the next one is erased.
    pub lacking: u32,
}
