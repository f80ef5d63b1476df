//! The ledger of a key campaign (updates after the SHE specification): its machine, and its entries over a store.
//!
//! A ledger keeps 256 places, each empty or the entry of one key slot of one unit: the counter issued last, and whether
//! the unit confirmed it. In every run from a sound ledger with nothing pending counters rise, few are skipped, and no
//! entry goes away. Requests build their updates and are taken, and confirmations have a reply. A store is attached
//! exactly if each cell is empty or an entry and no two are of one unit and slot; else the lowest wrong cell is named.
//! Each call is a step of the machine (a cut's if the disk tells fitting bytes). Refusals come exactly by their cause
//! and leave all as before, except `Faulted`: it comes only if the count rose, and Ok only if it didn't. After
//! `Faulted` the ledger is down until a power-up. Its one pending change is then there whole or not at all. `adopt`
//! takes over an entry that is known from elsewhere, and says more: no counter falls by it, and no entry goes. No call
//! takes memory.
#![tactic(auto)]

mod adoption;
mod adoption_laws;
mod cell;
mod commands;
mod entries;
mod faults;
mod laws;
mod ledger;
mod lines;
mod machine_laws;
mod places;

pub use adoption::Adoption;
pub use adoption_laws::{
    adoptions_keep_entries, adoptions_keep_ledgers_sound, adoptions_reach_their_counter,
    adoptions_touch_no_other_entry,
};
pub use commands::{Confirm, Issue, LedgerCommand};
pub use entries::{LedgerEntry, PendingEntry};
pub use faults::{BadEntry, LedgerCut, LedgerFault};
pub use laws::{
    a_place_has_a_cell_of_32_bytes, a_settled_disk_fits_its_ledger,
    cells_of_no_entries_are_a_ledger, cells_tell_entries, held_cells_have_no_bad_entry,
};
pub use ledger::Ledger;
pub use lines::{LedgerLine, LedgerRefusal};
pub use machine_laws::{
    entries_are_confirmed_by_a_reply, few_counters_are_skipped, issued_counters_rise,
    issued_requests_are_allowed, issued_requests_build_their_updates, ledgers_of_runs_are_sound,
    no_entry_goes_away, steps_keep_ledgers_sound,
};
