//! The world of a bus (AUTOSAR SecOC, SHE): its nodes over their disks, what was sent so far, and its runs.
//!
//! [`World::step`] is a turn of the event's node over its disk (`NodeTurn`): a step of the machine (a cut's, if the
//! disk tells fitting bytes), with its mark and few calls in a told past. Other nodes and disks stay, and a fitting
//! disk stays so. A line names the earliest event that sent what it accepts. An honest PDU is accepted, or the disk
//! failed. [`World::start`] and [`open_nodes`] format each disk, or go on where it stands (`KeptOn`). A refused start
//! names the first cause and leaves what specs/TakingUp.antt says; [`start_refusal`] is its row. Turns over disks that
//! tell fitting bytes, from a first world in which each Data ID has one sender, are a run of the machine with all of
//! `WorldRun` ([`turns_are_world_runs`]). A started bus is set up. If its disks tell their bytes it begins at its own
//! first world over formatted ones, and at what attached ones stood for, if none of their bytes is loose.
#![tactic(auto)]

mod history;
mod laws;
mod opening;
mod records;
mod refusing;
mod run_laws;
mod start;
mod turns;
mod world;

pub use history::{Frame, History};
pub use laws::{turns_are_runs, turns_are_steps, turns_keep_sound};
pub use opening::close_nodes;
pub use refusing::start_refusal;
pub use run_laws::{
    starts_are_set_up, starts_begin_at_the_first_world, starts_go_on_at_a_first_world,
    turns_are_world_runs, turns_leave_disks,
};
pub use start::{Start, StartFault, open_nodes};
pub use turns::{boot_turn, load_turn, own_turn, receive_turn, refusal_of, send_turn};
pub use world::World;
