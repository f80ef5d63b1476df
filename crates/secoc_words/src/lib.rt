//! The words of SecOC and SHE in lines of text, and receivers of such lines (AUTOSAR SecOC, verification).
//!
//! Each form takes one word, and answers none exactly if it isn't of the form. Keys, Data IDs, freshness, PDUs, slots,
//! counters, flags, torn kinds and disk calls have one. Hexadecimal digits are of either case. `read_frames`,
//! `read_judges` and `read_loads` give the lines of a text, or its first fault with line and cause, exactly. At most
//! 65,536 lines of one kind, in lower-case digits with single spaces, are read as they were written ([`laws`]).
//! [`push_verdict`] judges a Secured I-PDU by its receiver's counter and window, and adds the text of the verdict, as
//! it does with room for 158 bytes. The counter is then the freshness of an accepted PDU, and as before for any other.
//! So the freshness that a receiver accepts rises ([`counting_laws::accepted_freshness_rises`]).
#![tactic(auto)]

mod counting;
pub mod counting_laws;
mod disk_forms;
mod forms;
pub mod frames;
pub mod judges;
mod key_forms;
pub mod laws;
pub mod loads;
mod received_bytes;
pub mod texts;
pub mod verdicts;

pub use crate::disk_forms::{calls, torn};
pub use crate::forms::{data_id, fresh, key, pdu, received, two};
pub use crate::frames::{FrameLine, read_frames};
pub use crate::judges::{JudgeLine, read_judges};
pub use crate::key_forms::{counter, engine_uid, flags, slot, uid};
pub use crate::loads::read_loads;
pub use crate::received_bytes::ReceivedBytes;
pub use counting::push_verdict;
pub use secured_pdu::WIDEST_WINDOW;
