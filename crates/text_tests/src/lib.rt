//! Tests of lines of text, of named buses, of trials, and of the lines that are printed. There is nothing else here:
//! a crate of tests over several libraries has none of them proved a second time. Bus files and scripts are rows of
//! checks/rows/bus_replay_inputs.toml and checks/rows/gateway.toml, except the one fault that has no text, and a second
//! node's own events.
#![tactic(auto)]

#[cfg(test)]
mod bus_faults;
#[cfg(test)]
mod bus_shapes;
#[cfg(test)]
mod buses;
#[cfg(test)]
mod comparing;
#[cfg(test)]
mod lines;
#[cfg(test)]
mod own_events;
#[cfg(test)]
mod printed_lines;
#[cfg(test)]
mod trials;
