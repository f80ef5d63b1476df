//! Tests of worlds over disks in memory and over disks that tell their past, with both stores in both versions, of
//! the lines that they look for, and of gateways: their calls, and pairs that aren't taken. There is nothing else
//! here: a crate of tests over several libraries has none of them proved a second time. Further runs of gateways, and
//! stops at any disk call within an arrival, are rows of checks/. The tags are those of OpenSSL's CMAC.
#![tactic(auto)]

#[cfg(test)]
mod alone;
#[cfg(test)]
mod attached;
#[cfg(test)]
mod bench;
#[cfg(test)]
mod comparing;
#[cfg(test)]
mod gateway_bench;
#[cfg(test)]
mod gateway_refusals;
#[cfg(test)]
mod gateway_runs;
#[cfg(test)]
mod histories;
#[cfg(test)]
mod lives;
#[cfg(test)]
mod refused;
#[cfg(test)]
mod starts;
#[cfg(test)]
mod stopped;
