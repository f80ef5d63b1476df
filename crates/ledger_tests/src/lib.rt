//! Tests of a station's ledger in a database. What a row of checks/ shows isn't shown again.
#![tactic(auto)]

#[cfg(test)]
mod checks;
