//! Logs that come in pieces, and the driver of programs that answer their lines while they come.
//!
//! [`stream_lines`] reads a log piece by piece. It hands each line, numbered from 1, to a [`LineTaker`] before it reads
//! the log again. Whatever pieces come, the lines are those of all their bytes. The taker may end the log at a line or
//! at a pause. The driver takes no memory, and its clause `streamed` says what became of the log in each of its ends.
#![tactic(auto)]

mod driver;
mod pieces;
mod taker;
mod unended;

pub use driver::{StreamFault, stream_lines};
pub use pieces::{PIECE, add_bytes, until_feed};
pub use taker::LineTaker;
