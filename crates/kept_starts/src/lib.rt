//! Starts that keep what stands on a disk, under whatever bus file.
//!
//! Before the one node of a bus is started over its disk, [`look_first`] looks at the whole disk. The start goes on only
//! if the disk is unused or the node's store stands there; of a store in version 1 for a bus of version 2 too, which is
//! moved. Its cells are read first: if one isn't the node's, the start is refused before anything is moved. Another store
//! is refused by its name, and anything else too. So a start never formats a disk on which a store stands, each store
//! keeps all its cells, and a start that is refused changes no byte ([`starts_keep_stores`]). [`keep_refusal`] is the row
//! of a refusal.
#![tactic(auto)]

mod first;
mod laws;
mod refusals;
mod unfinished;

pub use first::{KeepFault, look_first};
pub use laws::{a_first_start_that_is_cut_short_is_finished_next, starts_keep_stores};
pub use refusals::keep_refusal;
