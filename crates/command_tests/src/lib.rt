//! Tests of the programs' top calls over ports and disks in memory: the commands of a bus, key campaigns, key commands,
//! loading, collecting, and runs over ports that give and take pieces. There is nothing else here: a crate of tests
//! over several libraries has none of them proved a second time. What a row of checks/ shows of a built program isn't
//! shown again.
#![tactic(auto)]

#[cfg(test)]
mod begun;
#[cfg(test)]
mod campaigns;
#[cfg(test)]
mod comparing;
#[cfg(test)]
mod counting;
#[cfg(test)]
mod key_runs;
#[cfg(test)]
mod ledger_down;
#[cfg(test)]
mod links;
#[cfg(test)]
mod loading;
#[cfg(test)]
mod no_word;
#[cfg(test)]
mod nodes;
#[cfg(test)]
mod pieces;
#[cfg(test)]
mod playing;
#[cfg(test)]
mod replays;
