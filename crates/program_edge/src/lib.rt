//! The edge of a command: what every program does between its arguments and its status.
//!
//! [`read_input`] gives all bytes of a source, at most 1,048,576, or the cause why there are none.
//! [`open_word`], [`open_one`], [`open_two`] and [`open_both`] open the sources that arguments name, by any
//! [`Opener`]. The contract names the argument that each was opened by, and all that were opened. `-` is the
//! input as it was handed in, and a second dash a missing source, of which each read fails. [`tell`] prints
//! an ending whole, with its status, or a strict prefix with 6. [`Refusal`] is a row of answers instead of
//! what the program was asked to do, and [`tell_refusal`] prints it. A row whose text has one number or two is made
//! without memory, so that no such row is lost to 7. Rows 5, 8 and 7, of an input that isn't
//! there, are those of every program that reads. [`arguments`] hands what the system gives to a function whose clauses
//! say that it drops the program's name and nothing else. What the system gives, and which file [`Paths`] opens, are
//! tested: no clause says it.
#![tactic(auto)]

mod input;
mod missing;
mod opened;
mod opener;
mod refusal;
mod telling;
mod word_sources;
mod words;

pub use bus_port::{StdSink, StdSource};
pub use input::{InputFault, read_input};
pub use missing::MissingSource;
pub use opened::OpenedWords;
pub use opener::{Opener, Paths};
pub use refusal::{Refusal, tell_refusal};
pub use telling::{DONE, NO_MEMORY, WRITE_FAULT, tell};
pub use word_sources::{WordSource, open_both, open_one, open_two, open_word, two_words};
pub use words::arguments;
