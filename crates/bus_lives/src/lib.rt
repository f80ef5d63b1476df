//! What holds over all lives of a bus: runs of it, one after another over the same disks, which tell their
//! bytes.
//!
//! Freshness rises over all lives, no slot goes back, no acknowledged update is lost, and each node powers up
//! from the life before (`lives_go_on`). No next start is refused for bytes that a life, or starts that
//! weren't finished, left (`lives_can_go_on`, `unfinished_starts_leave_nodes`, `next_starts_blame_no_bytes`),
//! with the premises of their definitions. A refused start leaves the bytes (`refused_starts_leave_lives`).
//! Runs over attached disks are next lives. That a killed process is such a run is how the definition is
//! read. Here are definitions and laws alone.
#![tactic(auto)]

mod laws;

pub use laws::{
    attached_runs_are_next_lives, lives_can_go_on, lives_go_on, next_starts_blame_no_bytes,
    refused_starts_leave_lives, unfinished_starts_leave_nodes, world_runs_are_lives,
};
