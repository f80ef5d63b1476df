//! Tests of ciphers, key slots, key updates, Secured I-PDUs and routes. There is nothing else here: a crate
//! of tests over several libraries has none of them proved a second time.
#![tactic(auto)]

#[cfg(test)]
mod blocks;
#[cfg(test)]
mod ciphers;
#[cfg(test)]
mod comparing;
#[cfg(test)]
mod derivation;
#[cfg(test)]
mod frames;
#[cfg(test)]
mod macs;
#[cfg(test)]
mod routes;
#[cfg(test)]
mod slots;
#[cfg(test)]
mod transport;
#[cfg(test)]
mod updates;
