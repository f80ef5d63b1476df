//! `campaign --keep F DISK`: a campaign that makes no ledger over a disk in use.
//!
//! [`keep_campaign_words`] is the program `campaign`. With `--keep` it looks at the whole disk first. It goes on over an
//! unused disk, whose bytes are all zeros, and over a ledger's store; another store is refused by its name, and anything
//! else too. What it does then is a campaign over the disk as it was read. Each other command line is run as
//! `campaign_words` does.
#![tactic(auto)]

mod keeping;
mod looking;

pub use keeping::keep_campaign_words;
