//! One driver for numbered runs.
//!
//! [`drive`] gives a [`Machine`] its commands one by one. It hands each line, numbered from 1, to a
//! [`Consumer`] before the next command is done, and ends at the first line that is refused. Whatever the
//! sink or the memory does, what was done is a run of the machine over the first commands, one line a
//! command. [`print_run`] writes the texts to a sink: all of them, or of the last a prefix if the sink's
//! count rose, or nothing if memory was out. [`print_run_until_last`] also ends at a line that is the last by
//! itself. [`count_run`] refuses none, and counts all. [`status_of_run`] gives 0 if all was written, 6 if the
//! sink failed, 7 if memory was out.
#![tactic(auto)]

mod counting;
mod last_line;
mod machine;
mod printing;
mod statuses;

pub use counting::{Tally, count_run};
pub use last_line::{EndingText, Stop, print_run_until_last};
pub use machine::{Consumer, Machine, drive};
pub use printing::{LineText, Unwritten, print_run};
pub use statuses::status_of_run;
