//! A put of a twin store of version 1, planned without a disk, for a caller that keeps the store's bytes: the image.
//!
//! [`plan_put`] plans at most three writes, exactly if the image has the cell with a copy that counts. The caller does
//! them, each durable before the next, and [`done`] makes of the image the finished put. [`perform`] is that loop over
//! any disk, with the contract of a store's put; Ok over bytes of which none is loose says that the writes are made. A
//! plan is determined byte for byte. If power goes within it the bytes stand for the old list or the new, every other
//! cell as it was (`CutWithin`: a write that is cut changes its own bytes alone). [`make`] gives a fresh store's
//! image. [`check`] is exact. [`plan_growth`] plans a cell more at the end of a store; [`cells_told`] says how many it
//! has, also after a cut. No call takes memory.
#![tactic(auto)]

mod growing;
mod images;
pub mod laws;
mod performing;
mod planning;

pub use growing::{TellFault, cells_told, count_in, may_grow, plan_count, plan_growth};
pub use images::{ImageFault, check, count_of, has_head, make, make_cell};
pub use performing::perform;
pub use planning::{
    Plan, PlanFault, Write, cell_held, cell_in, done, is_empty, is_within, plan_put,
};
