//! Tests of the stores of cells, of plans of their puts, and of a file that tells its bytes, with the disk
//! over it. There is nothing else here: a crate of tests over several libraries has none of them proved a
//! second time.
#![tactic(auto)]

#[cfg(test)]
mod comparing;
#[cfg(test)]
mod cutting;
#[cfg(test)]
mod either_stores;
#[cfg(test)]
mod growing_stores;
#[cfg(test)]
mod least_stores;
#[cfg(test)]
mod log_stores;
#[cfg(test)]
mod plans;
#[cfg(test)]
mod told_files;
#[cfg(test)]
mod twin_stores;
