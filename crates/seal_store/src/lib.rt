//! A store of cells of 32 bytes on a part whose reads need not settle, of the class `Blanks`.
//!
//! [`start`] reads each place once, and decides on that. After a clean end it does no operation; after a cut it programs
//! the latest deed again, in the next place. [`SealStore::put`] programs one deed, or, if the bank is full, makes a copy
//! in the next bank, and programs the move to it as a deed of the old one. [`SealStore::make_anew`] replaces all cells by
//! such a move. [`begin_store`] makes the first store.
//!
//! Each call is an event of `seal_laws`: what it writes if it is done, and what it leaves if it fails. So the laws there
//! over all lives hold of this code. They also say that each unit is blank that a call programs, which each call asks.
//!
//! A start hands out no cells if no place is left for what it has to program, and a put changes nothing (`Exhausted`).
//! `seal_laws` says how many cuts that takes at least, and how many puts there are to an erase.
#![tactic(auto)]

ghost use Rattle.std.specs.Prelude.{◌<◌, ◌≤◌};

mod reading;
mod starting;
mod store;
mod writing;

pub use reading::read_all;
use seal_laws::{SealPoint, SealSizes};
pub use starting::{SealStartFault, begin_store, start};
pub use store::SealPutFault;
pub use writing::{write_copy, write_deed};

/// A store that was started. Its cells are the caller's, and are passed to each call with the part.
#[derive(Clone, Copy, Debug, PartialEq, Eq, Drop)]
pub struct SealStore {
    sizes: SealSizes,
    point: SealPoint,
    is_ready: bool,
    ghost inside: { point.bank < sizes.log.banks },
    ghost room: { sizes.log.cells ≤ sizes.log.places },
}
