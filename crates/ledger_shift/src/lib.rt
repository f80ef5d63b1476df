//! The run of `ledger`: the lines of a script, served over a ledger in a file as they come, at a key loading station.
//!
//! [`ledger_words`] is the program, with `RunsLedger`: which file is opened, by any [`LedgerOpener`], that it is closed,
//! and which status and text tell each cause. A ledger is made by `--new` alone. [`run_shift`] reads the script piece by
//! piece and answers each line before it asks for more. `by STATION OPERATOR TIME` names who enters the rows from there
//! on, and no row is entered before it. `issue`, `confirm` and `show` are those of `campaign`, and so are their answers.
//! `raise` and `fail` record what an operator says of a counter.
//! `RunsShift` says it whole: each line is served in its order, a row is committed before its line is written, and the
//! status names the end. The shift ends at the first line that is refused, and if the file or the sink fails.
//! [`laws`] says that the counters which a shift issues or raises for a unit and slot strictly rise, and that whatever a
//! crash leaves has the row of each.
#![tactic(auto)]

mod file_run;
pub mod laws;
mod line;
mod opening;
mod origin;
mod port;
mod run;
mod serving;
mod start;
mod told;

pub use line::ShiftLine;
pub use opening::{FileFault, LedgerOpener};
pub use origin::Origin;
pub use port::{Noted, ShiftEnd};
pub use run::run_shift;
pub use start::ledger_words;
pub use told::ShiftTold;
