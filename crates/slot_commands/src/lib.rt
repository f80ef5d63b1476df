//! What the store of a unit holds, for a key loading station (SHE specification, key memory, memory update protocol).
//!
//! [`run_slots`] answers `list`, `check` and `reply` over the bytes of a file, which is only read: the record
//! `ReadsUnitStore` says what each status means and what is printed. A list has a line a cell and no key. A check ends
//! with 0 exactly if no cell is damaged or another's. A reply is the line by which `keytool load` confirmed what the
//! slot holds.
#![tactic(auto)]

mod cells;
mod checking;
pub mod laws;
mod listing;
mod over_routes;
mod reading;
mod refusals;
mod replying;
mod run;
mod start;
mod tasks;

pub use cells::{Meaning, meaning_of};
pub use checking::check_bytes;
pub use listing::{list_bytes, push_store_line};
pub use refusals::store_refusal;
pub use replying::reply_from;
pub use run::run_slots;
pub use start::slots_words;
pub use tasks::{ReplyAsked, SlotTask};
