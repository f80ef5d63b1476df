//! The log of a store on a part of `seal_parts`: what a start makes of what it read.
//!
//! A bank holds a copy of the cells, and then **deeds**: each has a guard, a line and a confirm, and names the deed
//! that it follows. A start reads each unit once, into a list of [`PlaceRead`], and decides on that alone.
#![tactic(auto)]

ghost use Rattle.std.specs.Prelude.{◌≡◌, ◌*◌, length};

mod finding;
mod following;
pub mod laws;
mod starting;

pub use finding::{FoundDeed, Latest, find_latest, lacks_line, next_free};
pub use following::{follow, make_cells, read_copy};
use seal_parts::SealLine;
pub use starting::{FoundStore, StartEnd, find_start, is_move};

/// How many banks a log goes round, how many places a bank has, and how many cells the store has.
#[derive(Clone, Copy, Debug, PartialEq, Eq, Drop)]
pub struct LogSizes {
    pub banks: u8,
    pub places: u32,
    pub cells: u16,
}

/// What a start has read of a place.
#[derive(Clone, Copy, Debug, PartialEq, Eq, Drop)]
pub struct PlaceRead {
    pub line: Option<SealLine>,
    /// A guard is read; or, on a part of blanks, the line isn't told blank.
    pub is_begun: bool,
    /// A confirm is read.
    pub is_confirmed: bool,
    /// The last confirm is read.
    pub is_closed: bool,
}
