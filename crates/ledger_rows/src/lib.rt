//! The rows of a station's ledger, and what an issue, a confirmation or a remark adds to them. A row is only added.
//!
//! A row has a unit, a slot, a counter, what was done, the check value of the key, the authorising slot, and the
//! station, the operator and the time that the caller names. `IssuesRow`, `ConfirmsRow` and `RemarksRow` say which row
//! a command adds, `RefusesRow`, `RefusesAnswer` and `RefusesRemark` when there is none. [`laws`] says what holds of all
//! runs of a file, whatever a crash left between two calls: the counters that are issued or raised for a unit and slot
//! strictly rise, no row goes, and each confirmed row has its reply. [`next_counter`], [`answered_row`], [`remarked`],
//! [`shown`] and [`listed_rows`] decide over the rows of one unit and slot.
#![tactic(auto)]

mod check;
mod decisions;
mod kinds;
pub mod laws;
mod lists;
mod remarks;

pub use check::check_value;
pub use decisions::{answered_row, next_counter, shown};
pub use kinds::{RowKind, SlotRow};
pub use lists::{ListKind, listed_rows};
pub use remarks::{Remark, RemarkKind, RemarkRefusal, remarked};
