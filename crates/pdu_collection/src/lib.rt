//! Secured PDU collections (AUTOSAR SecOC, profile 1): authentic and cryptographic PDUs that arrive apart.
//!
//! [`Joiner`] joins arrivals by their rule, in one way (law `arrivals_join_in_one_way`), and a pair is judged exactly
//! as one Secured I-PDU is. [`Linker`] makes the cryptographic PDU of a payload. If the two PDUs of a payload arrive
//! one after the other, and the first waits, they are judged as that one PDU (law `made_pdus_are_judged_as_one`).
//! Neither takes memory, and any crate may use them. [`run_pairs`] answers the script of a source, with the record
//! `RunsPairs`; [`pair_words`] that of the source that the argument names, or without one an example.
#![tactic(auto)]

mod answering;
mod joiner;
pub mod laws;
mod linker;
mod pair_lines;
mod run;
mod start;

pub use answering::answers;
pub use joiner::{BadLength, Joiner};
pub use linker::{Linker, join};
pub use pair_lines::{Entry, Head, PairLine, read_pairs};
pub use run::run_pairs;
pub use start::pair_words;
