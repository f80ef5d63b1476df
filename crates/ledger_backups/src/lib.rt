//! The backup of a ledger (updates after the SHE specification) as an input: what `ledger export` prints, `ledger
//! import` reads.
//!
//! [`read_backup`] gives the entries of a text whose last line is `end` with their number. A text that was cut off, or
//! has another line, is refused whole. By the law [`a_backup_is_read_again`] the entries of a ledger are those that are
//! read from its backup.
#![tactic(auto)]

mod backup;
mod forms;
mod laws;
mod reader;

pub use backup::read_backup;
pub use forms::{entry_counter, entry_slot};
pub use laws::{a_backup_has_one_meaning, a_backup_is_read_again};
pub use reader::BackupLine;
