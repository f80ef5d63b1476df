//! A re-authenticating gateway over a node (AUTOSAR SecOC, profile 1): its machine, and its turns over the node.
//!
//! A PDU that arrives under the first Data ID of a pair is verified, and its payload departs anew under the second,
//! with that route's key and freshness. In every run over a sound node the forwarded payload is this event's, and
//! arrivals and departures of one Data ID rise. A [`Gateway`] is made exactly if its pairs are good; else the lowest
//! bad pair is named. [`Gateway::arrive`] is a step of the machine: received, and if accepted sent on, or dropped for
//! `Key`, `Exhausted` or `Faulted` alone. Over a quiet disk, with usable keys and freshness left, an accepted payload
//! is forwarded. The bounds in the cells cover the freshness of what was accepted, forwarded or not, and of what
//! departed. If nothing was accepted and no disk call failed, all is as before. `Down` comes exactly while the node is
//! down, `NoRoute` never, a fault exactly if the count rose. No call takes memory.
#![tactic(auto)]

mod arrival;
mod gateway;
mod gateway_lines;
mod laws;
mod lines;
mod machine_laws;
mod pairs;
mod passing;

pub use arrival::{Arrival, PairRefused};
pub use gateway::Gateway;
pub use gateway_lines::GatewayLine;
pub use laws::{gateway_turns_are_of_the_node, gateway_turns_keep};
pub use machine_laws::{
    arrivals_rise, departures_rise, forwards_what_arrived, runs_are_of_the_node, stays_sound,
};
pub use pairs::lowest_bad;
