//! Ports: where bytes come from and where they go.
//!
//! A [`Source`] hands out bytes and a [`Sink`] takes them up. A port may tell its bytes: those over memory do, exactly,
//! and one over the outside doesn't. A port answers [`PortFailed`] only if its count of faults rose in the call, or is
//! full. It gives any other answer only if the count stayed. [`read_all`] takes all bytes up to its limit, and tells
//! one byte more. [`write_all`] appends all, or a strict prefix. Nothing is appended where nothing is done, and what is
//! appended adds up ([`laws`]).
//!
//! [`StdSource`] and [`StdSink`] meet the traits and count their own faults. That they invent none and hide
//! none is tested.
#![tactic(auto)]

pub mod laws;
mod memory_ports;
mod port;
mod standard_ports;
mod whole_streams;

pub use memory_ports::{CleanSource, MemSink, MemSource, TextSource};
pub use port::{Memory, PortFailed, Sink, Source};
pub use standard_ports::{StdSink, StdSource};
pub use whole_streams::{ReadAll, read_all, write_all};
