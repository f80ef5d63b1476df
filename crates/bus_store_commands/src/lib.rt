//! What `station slots` does with a unit's store and the bus file of its node (SHE specification, key memory; AUTOSAR
//! SecOC, freshness).
//!
//! [`run_bus_check`] answers `check FILE BUS` over the bytes of two files, which are only read: the record
//! `ChecksOverBus` says what each status means and what is printed. It names what `check FILE` names, each cell that
//! isn't the bound of its route, each cell that no route has, and each route that has no cell.
//!
//! [`make_words`] answers `make FILE BUS`, with `MakesUnitStore`: on a disk of zeros the store that the node's first
//! start would make. What stands there is only read. [`grow_words`] answers `grow FILE BUS`, with `GrowsOverBus`: a
//! cell more for each route that has none.
#![tactic(auto)]

mod checking;
mod grow_start;
mod growing;
mod laws;
mod make;
mod making;
mod node_buses;
mod refusals;
mod start;
mod words;

pub use checking::run_bus_check;
pub use grow_start::grow_words;
pub use growing::grow_over;
pub use laws::{a_cut_make_leaves_a_new_node_or_none, zeros_are_blank_and_hold_no_cells};
pub use make::{MakeJob, make_words};
pub use making::{MakeFault, Unmade, make_store};
pub use node_buses::node_bus_from;
pub use start::bus_check_words;
pub use words::{asks_over_bus, file_over_bus};
