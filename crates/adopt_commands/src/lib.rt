//! Entries that the ledger of a key loading station takes over (updates after the SHE specification): `ledger adopt`,
//! `import` and `merge`.
//!
//! [`adopts_words`] does what the arguments ask. The record `RunsAdoption` has a member for each promise. A backup or
//! another ledger is read whole first. Then the ledger on the disk takes over one entry after another, and the line of
//! each is written before the next is done. Each entry is put whole or not at all, whatever a power cut leaves; no
//! entry goes, and no counter falls. What was taken over is there (the law [`entries_taken_over_are_there`]). The same
//! arguments again finish what a kill left. A ledger is made, and its file, only with `--new`.
#![tactic(auto)]

mod adopting;
mod entries;
mod keeper;
mod laws;
mod lines;
mod refusals;
mod standing;
mod start;
mod tasks;

pub use adopting::adopt_over;
pub use entries::entries_of;
pub use laws::entries_taken_over_are_there;
pub use lines::{AdoptLine, AdoptText};
pub use start::adopts_words;
pub use tasks::{AdoptTask, EntryFile, may_make, task_in};
