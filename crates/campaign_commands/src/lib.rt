//! The campaigns of a loading station (SHE specification, memory update): key updates issued, replies
//! recorded.
//!
//! [`run_campaign`] is all of it: the record `RunsCampaign` says what each status means and what is printed. What was
//! done over a disk that tells its bytes, none of them loose, is one run of the ledger's machine with all of
//! `Campaigned` (`EndsCampaign`, law `campaigns_are_runs`). Over any disk each command is a `LedgerTurn`. `open_ledger`
//! gives the ledger that stands on a disk, a new one if its first 32 bytes are zero, or why there is none.
//! `read_campaign` gives the commands that a script means, or its first fault with line and cause, exactly
//! (docs/formats.md). Each is one that a ledger may be given. `push_ledger_line` adds the text of a ledger's line.
//! [`campaign_words`] has all this over what the arguments name, and without any over an example and 65,536 zero bytes.
#![tactic(auto)]

mod campaign;
mod example;
mod inputs;
mod kinds;
mod laws;
mod lines;
mod opening;
mod reader;
mod refusals;
mod run;
mod start;
mod station;
mod writing;

pub use kinds::CommandKind;
pub use laws::campaigns_are_runs;
pub use opening::{NoLedger, NoLedgerCause, open_ledger};
pub use reader::{CommandReader, read_campaign};
pub use run::run_campaign;
pub use start::campaign_words;
pub use station::Station;
pub use writing::push_ledger_line;
