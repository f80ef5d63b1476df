//! The run of `explain`: why frames of a log fail, by a map of CAN identifiers (AUTOSAR SecOC, profile 1).
//!
//! [`run_explain`] prints, for each frame of a log that fails, the first reason that holds and how many authenticators
//! were computed to find it, with the record `Explains`; [`explain_words`] does so over the sources that the arguments
//! name. [`explain`] gives the reason for one frame. [`Recent`] keeps the frames that were accepted last, 65,536 at
//! most. The driver of `line_stream` hands over the lines of the log. All memory is taken before the log.
#![tactic(auto)]

mod answers;
mod kinds;
pub mod laws;
mod port;
mod reasons;
mod recent;
mod run;
mod start;
mod state;
mod texts;
mod trials;

pub use answers::{LineAnswer, answer_words};
pub use kinds::{Case, Explained, Reason, ReasonKind, receiver_of};
pub use reasons::explain;
pub use recent::{Accepted, KEPT, Recent};
pub use run::run_explain;
pub use start::explain_words;
pub use texts::push_explained;
pub use trials::{Comparison, KnownReceiver, Making, accepted_freshness, tag_trial_by};
