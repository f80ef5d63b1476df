//! Runs over a store: what a store is to keep through power cuts, when a disk fits it, and what a run does to
//! it.
//!
//! Whoever keeps a list of cells in a store is its owner: a node, a gateway, a ledger. What it keeps is a `Keeping`. A
//! disk that `Fits` what is to be kept fits it still after a put, done or failed, of an owner that is up with nothing
//! pending. So it does after a cut that was read anew or refused. What is read anew is the kept list, or the one with
//! the pending change. Of a machine whose steps are turns of one disk (`DiskTurn`): failed lines are at most one per
//! fault, and a quiet disk gives none, and stays quiet, unless something arms it. What was added to a told past is
//! traced, if the bytes fit. Here are definitions and laws alone.
#![tactic(auto)]

mod keeping;
mod turns;

pub use keeping::{
    cut_finds_what_may_be_kept, failed_put_leaves_its_change_pending, put_leaves_what_is_kept,
    refused_cut_leaves_what_is_kept, settled_store_fits_what_it_holds,
    store_that_fits_is_settled_while_its_owner_is_up, store_that_was_read_anew_fits_what_it_holds,
};
pub use turns::{OverDisk, failures_of_a_run_are_counted, past_of_a_disk_is_traced};
