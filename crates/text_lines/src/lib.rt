//! The lines of text that a program reads: cut into words, read by their forms, refused with number and
//! cause.
//!
//! [`reader`] gives what the lines of a text give, for every kind of line, or the first fault, exactly.
//! Values come exactly if each line gives its own and they are few enough. Lines of plain words that are
//! written with single spaces are read again as they were ([`laws`]). `cut` gives the lines with the places
//! of their words. Digits, words and lines are added to a text exactly ([`pushing`]); digits take no memory
//! if there is room. Here are the forms of words that any program has, the printed texts of faults, and the
//! row of a line that is refused: 4, with the text of its fault.
#![tactic(auto)]

mod cutting;
pub mod fault;
pub mod forms;
pub mod laws;
mod lines;
pub mod pushing;
pub mod reader;
mod refusals;
pub mod span;
pub mod texts;
pub mod words;

pub use crate::fault::{Cause, LineFault, Memory, ScriptFault};
pub use refusals::line_refusal;
