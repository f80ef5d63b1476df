//! The command of a live endpoint: a node between the channels of a running bus (AUTOSAR SecOC, profile 1; SHE).
//!
//! [`endpoint_words`] is the program, over the files and the disk that its arguments name. [`run_endpoint`] goes on
//! with a node over a disk, between the channels of a log of any length. Its table of answers is `RunsEndpoint`. Each
//! complete line is answered before the log is read again. Over a disk that tells its bytes all that was done is one
//! run of the machine of the bus ([`endpoints_are_runs`]). [`read_rules`] gives the rules of a map over a node's
//! routes, or its first fault, exactly. [`Endpoint`] is the state between two lines of a log, which the driver of
//! `line_stream` hands over; its `answer` takes no memory.
#![tactic(auto)]

mod adding;
mod answering;
mod asking;
mod boot;
mod counting;
mod endpoint;
mod inputs;
mod laws;
mod port;
mod rules;
mod run;
mod start;
mod turns;
mod words_answered;

pub use asking::{Asked, asked_of_words};
pub use counting::{EndpointCounts, LineKind};
pub use endpoint::{Endpoint, Room};
pub use laws::endpoints_are_runs;
pub use port::DISK_FAULT;
pub use rules::{FrameRule, MOST_RULES, place_of_rule, read_rules};
pub use run::{EndpointForm, EndpointJob, form_of, run_endpoint};
pub use start::{EndpointSources, endpoint_words};
