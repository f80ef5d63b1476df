//! The machine of a bus, tried: worked runs, line by line, and written-out breaches that its theorems refuse.
//!
//! Frames, MACs and messages come from OpenSSL and from the SHE specification's example. Each row is the
//! contract of a function without parameters. Nothing stands on this crate: it is evidence that the
//! definitions say what is meant.
#![tactic(auto)]

mod breaches;
mod rows;

pub use breaches::{
    a_pdu_with_another_cmac_is_no_authentic_run, a_replayed_pdu_is_no_rising_run,
    a_restarted_sender_is_no_single_run, an_undone_update_is_no_run_that_keeps_keys,
    an_update_that_returns_is_no_settled_run,
};
pub use rows::{
    a_boot_is_decided_once, a_counter_ends, a_failed_call_leaves_the_new_bound,
    a_failed_call_leaves_the_old_bound, a_failed_send_leaves_the_new_bound,
    a_failed_send_leaves_the_old_bound, a_failed_update_leaves_the_new_slot,
    a_failed_update_leaves_the_old_slot, a_foreign_pdu_is_accepted, a_receiver_starts_at_its_bound,
    a_refused_cut_is_made_again, a_sender_starts_at_its_bound, a_shorter_window_does_not,
    a_window_ends_what_is_accepted, a_window_reaches_a_restarted_sender,
    a_wrong_boot_opens_nothing, an_ordinary_run, frames_routes_and_lengths_come_first,
    the_example_is_loaded_once, the_four_hold_of_a_mixed_run, the_last_freshness_has_none_ahead,
    updates_are_refused_in_their_order,
};
