//! A station's ledger in a file of SQLite: what each verb does to its rows, over crashes too.
//!
//! [`new_ledger`] makes the table in a file that has nothing, and [`is_ledger`] sees that a file has it and nothing
//! else. [`issue`], [`confirm`] and [`remark`] add a row, or name why they don't, and [`show`] and [`list`] look. What they say of rows
//! holds as long as the disk has returned what was written and nothing else wrote the file (`HasCleanDisk`). Once a
//! counter is answered, each outcome of a crash has its row (`kept`). A crash in a call leaves the rows of before, or also the new
//! one (`crash`). So calls that answer, or that a crash cuts, are steps of [`ledger_rows::laws`]. A row of the command's
//! unit and slot that isn't a ledger's is refused as damage.
//!
//! An error has its cause (`failed`): no memory, a fault that the file counted, a connection that is shut, damage, or a
//! row that SQLite refuses. After it the connection is shut, or sees what it saw (`undone`).
#![tactic(auto)]

mod adding;
mod opening;
mod reading;
mod schemas;
mod verbs;

pub use opening::{is_ledger, new_ledger};
pub use verbs::{confirm, issue, list, remark, show};
