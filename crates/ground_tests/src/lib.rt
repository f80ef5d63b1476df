//! Tests of the ground: counts of faults, lists of bytes, ports, edges, disks in memory and over files, and
//! the driver. There is nothing else here: a crate of tests over several libraries has none of them proved a
//! second time.
#![tactic(auto)]

#[cfg(test)]
mod acts;
#[cfg(test)]
mod comparing;
#[cfg(test)]
mod counts;
#[cfg(test)]
mod disk_files;
#[cfg(test)]
mod disks;
#[cfg(test)]
mod edges;
#[cfg(test)]
mod lists;
#[cfg(test)]
mod ports;
#[cfg(test)]
mod runs;
#[cfg(test)]
mod streams;
