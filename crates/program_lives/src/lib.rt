//! Runs of `node`, `endpoint` and `keytool load` over one store, one after another, as lives of a bus.
//!
//! Each run is a life, in the terms of what the top call of its program promises (`each_run_is_a_life`). So whatever
//! holds of all lives of a bus holds from the first run of any of the three to the last (`program_runs_go_on`):
//! freshness rises, no slot goes back, and no acknowledged update is lost. A load of keys is a run of the machine's
//! `load` events of the node whose store it is, with no boot made. Runs that came to no event may lie between
//! (`refused_starts_are_unfinished`, `refused_loads_leave_all`). Here are definitions and laws alone.
#![tactic(auto)]

mod laws;

pub use laws::{
    each_run_is_a_life, program_runs_go_on, refused_loads_leave_all, refused_starts_are_unfinished,
};
