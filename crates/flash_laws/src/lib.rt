//! Laws of a store on flash over all its lives, whenever the power goes.
//!
//! For every formatted flash and every list of deeds ([`laws`], `FlashDeed`: what a store does, and where the power
//! goes, in recovery and in recovery of recovery, too) a put is there whole or not at all, and stays so. Each power-up
//! finds the log that counts, whatever the places that aren't firm are read as. A place that is to be programmed is
//! blank for sure. Each bank is erased as often as every other, except for one, and except for one more each time that
//! the power goes. What a store does stands in [`laws`]. The crate has no code but these laws, so no edit of code can
//! be tried on it. `flash_log` is the store that does these deeds.
#![tactic(auto)]

pub mod laws;
