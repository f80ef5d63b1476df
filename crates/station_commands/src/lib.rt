//! The run of `station` (SHE specification, memory update protocol): the first arguments name what the others are for.
//!
//! [`station_words`] hands the arguments after `slots`, `ledger` and `key` to
//! [`slots_words`](slot_commands::slots_words), [`bus_check_words`](bus_store_commands::bus_check_words),
//! [`make_words`](bus_store_commands::make_words), [`grow_words`](bus_store_commands::grow_words),
//! [`ledgers_words`](ledger_commands::ledgers_words), [`adopts_words`](adopt_commands::adopts_words),
//! [`keyfile_words`](keyfile_commands::keyfile_words) and [`derive_words`](derive_commands::derive_words), with all that
//! each promises. For other arguments it prints the usage line, and opens and reads nothing.
#![tactic(auto)]

mod run;

pub use run::{StationFiles, StationPart, station_words};
