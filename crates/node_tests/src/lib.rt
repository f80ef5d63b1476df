//! Tests of slots in cells, of counters, of the engine, of one send and one verdict (over `engine_bench`),
//! and of nodes: each a table of what is done to a node and what it answers, played over each store (over
//! `bench`). There is nothing else here: a crate of tests over several libraries has none of them proved a
//! second time.
#![tactic(auto)]

#[cfg(test)]
mod attaching;
#[cfg(test)]
mod bench;
#[cfg(test)]
mod comparing;
#[cfg(test)]
mod counters;
#[cfg(test)]
mod engine_bench;
#[cfg(test)]
mod engine_lives;
#[cfg(test)]
mod engines;
#[cfg(test)]
mod lives;
#[cfg(test)]
mod receptions;
#[cfg(test)]
mod routes;
#[cfg(test)]
mod sends;
#[cfg(test)]
mod slots;
