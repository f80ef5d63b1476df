//! Logs of a CAN bus, and maps that say which frames of a bus are Secured I-PDUs, under which key and from which
//! freshness on (AUTOSAR SecOC, profile 1).
//!
//! [`log_frame`] gives the data frame of a line of a log, as `candump` of can-utils writes it. [`read_watch_map`] reads
//! a map with the numbers of its lines; a map that isn't taken has the row of its first fault. Each map has the windows
//! that it asks for ([`laws`]). [`push_finding`] adds what is found of one line of a log by the lines of a map.
#![tactic(auto)]

mod arguments;
mod durations;
mod faults;
mod findings;
mod frames;
pub mod laws;
mod map_lines;
mod map_tables;
mod maps;

pub use arguments::{is_only, names_inputs};
pub use durations::{period, seconds};
pub use faults::map_input_refusal;
pub use findings::{FrameTally, counters_of, push_finding, push_front};
pub use frames::{FrameBytes, LogFrame, OtherLine, has_data_can, log_frame, place_of_hash};
pub use map_lines::{
    CanId, LineName, MOST_MAP_LINES, MapLine, PayloadSize, Period, Window, can_id, line_of_words,
    place_of,
};
pub use map_tables::MapTable;
pub use maps::{WatchMap, map_of_text, read_watch_map};
