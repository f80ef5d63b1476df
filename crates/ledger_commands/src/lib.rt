//! The ledgers of a key loading station (updates after the SHE specification): what they hold.
//!
//! [`ledgers_words`] does what the arguments after `ledger` ask: `list`, `open`, `show` and `export`. It only reads the
//! bytes of files, one after another, each opened once, and all before anything is printed. The record
//! `ReadsLedgerFiles` has a member for each promise: a file that isn't one ledger is named with its first cause, and
//! what is printed is exactly what the ledgers hold. [`read_ledger`] gives the ledger that bytes stand for; they stand
//! for at most one.
#![tactic(auto)]

mod laws;
mod reading;
mod refusals;
mod run;
mod start;
mod tasks;
mod texts;

pub use laws::{bytes_are_a_ledger_or_none, bytes_stand_for_one_ledger};
pub use reading::read_ledger;
pub use refusals::{bad_entry_refusal, store_refusal};
pub use start::ledgers_words;
pub use tasks::{ReadTask, task_in, word_at};
pub use texts::push_entry_rest;
