//! The run of `station key derive`: a unit's key from a master key (NIST SP 800-108, counter mode with CMAC).
//!
//! [`derive_words`] reads the master key from the file that the arguments name, and prints the key of a slot of a unit.
//! `ComesOfDerivation` is its table of answers: each row with its cause.
#![tactic(auto)]

mod run;

pub use run::derive_words;
