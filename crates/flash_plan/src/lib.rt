//! A store on a NOR flash as a machine that touches no flash: it hands out one operation after another.
//!
//! A [`FlashPlan`] is made at power-up, or by [`FlashPlan::format`]. [`FlashPlan::next`] says which operation comes
//! next; the caller performs it and hands its outcome to [`FlashPlan::did`]. If none comes next, the plan is idle or
//! has ended. An idle plan takes a put by [`FlashPlan::put`]: it is done once the plan is idle again. A failed
//! operation ends the plan, and only a new one goes on. Each plan comes to rest: `operations_left` falls with each
//! operation. The cells are slices of the caller's; no call takes memory. `StandsAt` says at which point of the machine
//! of `flash_laws` a plan stands. Each operation that is performed and reported leads to a point that the machine
//! reaches, so its laws hold of a caller ([`laws`]). [`run_plan`] is such a caller over any flash.
#![tactic(auto)]

pub mod laws;
mod operations;
mod plans;
mod reading;
mod running;
mod writing;

pub use operations::{FlashOutcome, Operation, perform};
pub use plans::{FlashPlan, PlanEnd, PlanPutFault, PlanStep, WaitingPut};
pub use running::run_plan;
