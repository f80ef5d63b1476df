//! A store of cells of 32 bytes on a NOR flash: a [`FlashLog`], and its cells, which are a slice of the caller's.
//!
//! [`format`] makes a store. [`attach`] finds at power-up the log that counts, and copies it to the next bank. It goes
//! on in it and erases nothing if all behind it was read as `Blank` and the next bank's head is older.
//! [`FlashLog::put`] programs one line, after a copy to the next bank if its bank is full. Each Ok and each Err is a
//! run of the machine of `flash_laws` (`Goes`): an operation that fails counts as one that was cut. So its laws hold
//! ([`laws`]): a put is there whole or not at all, and a start of a formatted flash never answers
//! [`AttachFault::NoStore`]. A call answers `Failed` only if the count of faults of its flash rose. At Ok that count
//! is as it was. No call takes memory.
#![tactic(auto)]

mod copying;
pub mod laws;
mod reading;
mod scanning;
mod store;

pub use copying::{format, next_bank};
pub use reading::{LogEnd, generation_of, latest_of, make_line};
pub use scanning::{Best, FoundLog, is_past, judge, note};
pub use store::{AttachFault, FlashLog, PutFault, attach, may_go_on};
