//! The command of the program `chart`: the chart of a replay as SVG (Scalable Vector Graphics 1.1), one lifeline a node
//! and one row an event.
//!
//! [`run_chart`] is all of it: the record `RunsChart` says what each status means and what is printed. What was done
//! over disks that tell their bytes is one run of the machine, with all of `WorldRun`, and the lines drawn are its
//! lines (law `charts_are_runs`). [`chart_words`] opens the sources that the arguments name, and draws the example if
//! there are none, over eight blank disks of 65,536 bytes in memory. So 9 and 10 don't come of it.
//!
//! `charts::chart_of` gives exactly `chart_text bus events lines`, or is out of memory. Every chart is a document of a
//! small grammar: elements close by their names, attributes of a tag differ, and texts have no `<`, `>`, `&` or quote
//! ([`text_laws::charts_are_well_formed`]). In each run from a first world an acceptance that names an event has
//! exactly one mark in its row: an arrow from that earlier event, which sent it. One that names none has one from the
//! left edge. No other mark is an arrow to an acceptance. After each row a lifeline is drawn down exactly while its
//! node is down. It is drawn up only while the node is up, and is so then, except at most 14 pixels beside the axis of
//! a row in which it is `up` again ([`mark_laws`]). That a browser shows it well is not proved.
#![tactic(auto)]

mod charting;
mod charts;
mod constants;
mod counting;
mod example;
mod headers;
mod inputs;
mod job;
mod keeping;
mod labels;
mod laws;
mod lifeline_paths;
mod lifelines;
pub mod mark_laws;
mod marks;
mod places;
mod rows;
mod run;
mod shown;
mod start;
pub mod text_laws;

pub use laws::charts_are_runs;
pub use run::run_chart;
pub use start::chart_words;
