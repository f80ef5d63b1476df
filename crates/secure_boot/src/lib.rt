//! The secure boot of the Secure Hardware Extensions (SHE specification, secure booting).
//!
//! `boot_mac` is the CMAC of 12 zero bytes, the image's length in bits, and the image. `decide` says whether slot 3
//! holds the image's boot MAC under slot 2's key, and `NoSecureBoot` exactly if one of the two is empty. A `BootState`
//! that `decided` makes is decided, and good exactly as its argument says. An undecided one is neither. No call takes
//! memory.
#![tactic(auto)]

mod boot;
mod state;

pub use boot::{boot_mac, decide};
pub use state::BootState;
