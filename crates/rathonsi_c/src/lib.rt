//! The library for C: AES-128, its CMAC, the Secured I-PDU (AUTOSAR SecOC, profile 1), key updates (SHE), and
//! counters and slots of a store over the caller's own device. Each export is a thin call of a proved
//! library. It answers a status: [`OK`], or why it did nothing, and then nothing was written. A slice is a
//! pointer and a length in bytes, and an array of a fixed size a pointer alone. `include/rathonsi.h`,
//! `include/rathonsi_store.h`, `include/rathonsi_freshness.h` and `include/rathonsi_flash.h` declare them, with what a
//! caller owes. Nothing here takes memory, keeps a state or calls back. docs/guarantees.md has the promises: each status
//! by its cause, and [`laws`] of all lives of a caller.
#![tactic(auto)]

mod aes;
mod boot;
mod faults;
mod flash;
mod freshness;
pub mod freshness_laws;
mod growing;
pub mod growth_laws;
mod images;
mod keys;
pub mod laws;
mod looking;
mod macs;
mod nonces;
mod opened;
mod opening;
mod refusals;
mod rejoin;
pub mod rejoin_laws;
mod reserving;
mod route;
mod secoc;
mod she;
mod slot_macs;
mod slots;
mod stale;
pub mod stale_laws;
mod states;
pub mod step_laws;
mod steps;
mod store;
mod sync;
pub mod sync_laws;
pub mod together_laws;

pub use aes::{
    rathonsi_aes128_cbc_decrypt, rathonsi_aes128_cbc_encrypt, rathonsi_aes128_decrypt,
    rathonsi_aes128_encrypt, rathonsi_cmac,
};
pub use boot::{
    RathonsiBoot, rathonsi_boot, rathonsi_boot_begin, rathonsi_boot_finish, rathonsi_boot_update,
};
pub use faults::rathonsi_route_fault;
pub use flash::{
    rathonsi_flash_begin, rathonsi_flash_did, rathonsi_flash_image, rathonsi_flash_next,
    rathonsi_flash_put, rathonsi_flash_take,
};
pub use freshness::{
    rathonsi_freshness_accept, rathonsi_freshness_candidate, rathonsi_freshness_next,
};
pub use growing::{rathonsi_store_grow, rathonsi_store_mend, rathonsi_store_size};
pub use looking::rathonsi_store_look;
pub use macs::{RathonsiMac, rathonsi_mac_begin, rathonsi_mac_finish, rathonsi_mac_update};
pub use nonces::rathonsi_sync_nonce;
pub use opening::rathonsi_routes_open;
pub use rejoin::{rathonsi_sync_rejoin, rathonsi_sync_rejoin_mac};
pub use reserving::{
    rathonsi_route_reserve_ahead, rathonsi_route_reserve_for, rathonsi_route_reserve_next,
};
pub use route::{
    RathonsiRoute, rathonsi_route_advance, rathonsi_route_open, rathonsi_route_receive,
    rathonsi_route_reserve, rathonsi_route_send,
};
pub use secoc::{
    RathonsiVerdict, rathonsi_secoc_protect, rathonsi_secoc_protect_in_place, rathonsi_secoc_verify,
};
pub use she::{
    RathonsiReply, RathonsiRequest, RathonsiUpdate, rathonsi_she_confirm, rathonsi_she_derive,
    rathonsi_she_make_update, rathonsi_she_read_update,
};
pub use slot_macs::rathonsi_slot_mac;
pub use slots::{rathonsi_slot_confirm, rathonsi_slot_load};
pub use states::{
    RathonsiRouteState, RathonsiSlotState, VERSION, rathonsi_route_state, rathonsi_slot_state,
    rathonsi_version,
};
pub use steps::{
    RathonsiInput, rathonsi_receive_input, rathonsi_receive_mac, rathonsi_send_input,
    rathonsi_send_mac,
};
pub use store::{
    rathonsi_route_make, rathonsi_store_check, rathonsi_store_done, rathonsi_store_make,
};
pub use sync::{
    RathonsiAnswerInput, RathonsiQuestion, rathonsi_sync_answer, rathonsi_sync_answer_input,
    rathonsi_sync_answer_mac, rathonsi_sync_take, rathonsi_sync_take_input, rathonsi_sync_take_mac,
};

/// The call did what it says.
pub const OK: i32 = 0;

/// A key, a text, a payload, a PDU or a buffer has a length that the call doesn't take.
pub const BAD_LENGTH: i32 = 1;

/// A number is outside its range: a window, a constant of SHE, a slot, a counter or flags.
pub const BAD_VALUE: i32 = 2;

/// No freshness within the window has the low byte of the PDU.
pub const FRESHNESS_FAILURE: i32 = 3;

/// The authenticator of the PDU is another.
pub const VERIFICATION_FAILURE: i32 = 4;

/// ID or AuthID of M1 isn't the number of a slot.
pub const BAD_ID: i32 = 5;

/// M3 is not the MAC of M1 and M2 under the authorising key.
pub const BAD_MAC: i32 = 6;

/// The image doesn't begin with the header of a store of this size.
pub const NO_STORE: i32 = 7;

/// A cell has no copy that counts, or the cell of a slot holds no slot.
pub const DAMAGED: i32 = 8;

/// The plan isn't empty: it is to be done first.
pub const BUSY: i32 = 9;

/// The bound in the image doesn't cover this freshness yet.
pub const RESERVE: i32 = 10;

/// The counter is 2^64 - 1.
pub const EXHAUSTED: i32 = 11;

/// The slot holds no key.
pub const KEY_EMPTY: i32 = 12;

/// The key doesn't serve MACs.
pub const KEY_INVALID: i32 = 13;

/// The key is protected by the secure boot, and there was none.
pub const KEY_NOT_AVAILABLE: i32 = 14;

/// The slot takes no update.
pub const KEY_WRITE_PROTECTED: i32 = 15;

/// The request's MAC, identifier or counter is refused.
pub const KEY_UPDATE_ERROR: i32 = 16;

/// The image ends before the cell, or the cell is another's: it holds something else than is asked of it.
pub const WRONG_CELL: i32 = 17;

/// An operation on the flash failed.
pub const FAILED: i32 = 18;

/// Another cell has this Data ID and direction already.
pub const DUPLICATE_ID: i32 = 19;

/// The plan would take back what the store has counted: it is an old copy.
pub const STALE_PLAN: i32 = 20;

/// Nothing is to be reserved: the bound in the image is as high already.
pub const COVERED: i32 = 21;
