//! What no store on NOR flash can do.
//!
//! The machine of this crate asks less of a part than `flash_laws` does. Reads never settle: a place whose program or
//! erase was cut may be read as its line or as nothing, anew at each start. No check for blank places is believed. A
//! place is programmed once between two erases. Then the first write of each life is an erase
//! ([`laws::the_first_write_of_a_life_is_an_erase`]), and two banks hold no store ([`laws::two_banks_have_no_store`]).
//! So a driver has to promise more: that what was read stays, that blank places are told exactly, or that some unit may
//! be programmed again.
//!
//! A life is a function of what it reads and of the put that it is asked: it has no other memory, and draws no lots.
//! The crate has no code but these laws, so no edit of code can be tried on it.
#![tactic(auto)]

pub mod laws;
