//! The routes that a node sends and receives by (AUTOSAR SecOC), and how far a route's bound moves.
//!
//! `NodeConfig::new` gives a configuration exactly if it is one: at most 256 routes, no two with one Data ID, numbers
//! in bounds, an identifier that isn't zero. `copy` gives an equal one. How far a bound moves ahead is exact
//! (`bound_ahead`), for a node and for the library for C. A node's bound moves if it doesn't cover the freshness that is
//! sent or accepted (`bound_due`). It rises, covers that freshness, and is less than a reserve ahead of it
//! (`bounds_move_forward`). A bound outlasts a power cut, so a counter that begins again at its bound never falls back.
#![tactic(auto)]

mod changes;
mod config;
mod laws;
mod routes;

pub use changes::{bound_ahead, bound_due};
pub use config::{MOST_RESERVE, MOST_ROUTES, Memory, NodeConfig};
pub use laws::{bounds_move_forward, worked_changes, worked_limits};
pub use routes::{Direction, Route, Routes};
