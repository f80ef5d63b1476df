//! The store on flash as C keeps it: a plan as a struct of numbers, and its operations with the bytes of their lines.
//!
//! [`FlashNumbers`] holds a plan of `flash_plan` (`plan_in`). Numbers that are no plan of so many cells are refused,
//! exactly (`IsCallOf`). [`begin`] makes a plan at power-up, [`take`] one that makes a store. [`next`] says which
//! operation comes next and on which bytes, [`did`] takes what came of it, and [`put`] takes a put. A driver owes of
//! bytes what the plan asks of a flash (`PerformsBytes`: a read gives the line of its place or none). So each call
//! leads the plan on as `flash_plan` says, and its laws hold of a caller ([`laws`]). Each refusal leaves all as it was.
//! No call takes memory.
#![tactic(auto)]

mod calls;
pub mod laws;
mod numbers;
mod operations;

pub use calls::{FlashRefusal, begin, did, is_call, is_idle, next, put, take};
pub use numbers::{BestNumbers, FlashNumbers, PutNumbers, StepNumbers, numbers_of, plan_of};
pub use operations::FlashOperation;
