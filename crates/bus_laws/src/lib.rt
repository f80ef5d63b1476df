//! What holds of all runs of the machine of a bus (AUTOSAR SecOC, SHE): each law is a contract with an empty
//! body.
//!
//! The freshness that a node accepts under a Data ID rises; so does what is sent under one, if it has one sender.
//! Accepted PDUs are authentic. Acknowledged updates stay, and a failed one that a power-up dropped is gone for
//! good. All freshness is covered by the kept bound and the counter. Cuts skip little. Honest PDUs are accepted, and
//! the sender's key makes one honest. Nodes stay sound. The first world of a bus is a first world, with its
//! nodes in their order, empty slots, bounds at the starts, and no boot. No run is stuck: each list of events
//! has a run without a failure. Lines determine worlds, and without cuts and failures the events do.
#![tactic(auto)]

mod laws;

pub use laws::{
    accepted_freshness_rises, all_freshness_is_covered, buses_begin_first,
    buses_begin_with_their_nodes, cuts_skip_little, dropped_updates_are_gone,
    events_determine_lines, events_have_runs, honest_pdus_are_accepted, keys_are_kept,
    lines_determine_worlds, no_freshness_is_sent_twice, runs_are_authentic, runs_are_sound,
    runs_go_on, same_key_is_honest, steps_keep_nodes_sound,
};
