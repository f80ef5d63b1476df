//! Cells at the end of a store for the routes that a bus has more.
//!
//! A unit gets a bus file with more routes than its store has cells. [`grow_store`] adds a cell for each of them to a
//! twin store of version 1, at its end, with the route's first bound. The routes that have cells have to be the first
//! of the bus. It looks at all bytes that it needs before it writes, and refuses the store whole, or writes all cells
//! and then their number in the header. The bus has to want such a store, and its fourteen slots have to be whole. A
//! cell that the header counts is never written: a number that a cut left may be any, so no number says that such a
//! cell is nobody's. Each new cell is whole or absent whenever the power goes, every cell holds what it held, and the
//! same call goes on after a cut, to the same bytes ([`laws`]). [`header_on`] says which store's header stands there.
#![tactic(auto)]

mod faults;
mod growing;
mod headers;
pub mod laws;
mod looking;

pub use faults::GrowFault;
pub use growing::grow_store;
pub use headers::{StoreHeader, header_on};
