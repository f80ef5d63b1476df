//! The image of a store of bytes (`store_plan`), beside the cells of a store on flash.
//!
//! Routes and slots work on the image, and the put that they plan goes to the flash. [`planned`] says which cell a plan
//! puts, and what. [`image_of`] makes the image that holds these cells; [`read_cells`] reads the cells of an image. A
//! power cut leaves of such an image what `LeavesPut` asks ([`laws`]). No call takes memory.
#![tactic(auto)]

mod images;
pub mod laws;
mod puts;

pub use images::{image_of, read_cells};
pub use puts::planned;
