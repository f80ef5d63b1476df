//! Stores of cells of 32 bytes on a disk that may lose power within a write: twin or log, version 1 or 2.
//!
//! On a settled store a put is whole or absent in every image that a power cut may leave. So it is at each exit, also
//! after a failed disk call. It makes at most six disk calls. If no byte was loose, a put and a format leave the bytes
//! before and after the store as they were. A failed put breaks the store until a power cut answers Ok: that reads the
//! list for which the bytes stand. If every image stood for a list of as many cells, only a failing disk refuses it.
//! `format` and `attach` are refused exactly by size and told bytes, else only by a disk whose count rose, or out of
//! memory. `probe` answers exactly by size and told bytes, or the disk failed. Bytes stand for at most one list in a
//! kind and version. After a cut nothing is written (`stays`). No Ok hides a fault. `move_up` is the move of `migrate`
//! of `any_cells`. Layouts: docs/formats.md.
#![tactic(auto)]

mod appending;
mod banks;
mod cells;
mod copies;
mod faults;
mod formatting;
mod kinds;
pub mod laws;
mod layout;
mod log_formatting;
mod log_reading;
mod logs;
mod moving;
mod probing;
mod reading;
mod refilling;
mod twin;
mod writing;

pub use cells::{Cells, CutCells};
pub use copies::{Held, LIVE, Side, fresh_cell, held_in, marked, next};
pub use faults::{PutFailed, Refused, Reread, StoreFault};
pub use kinds::{Kind, Layout, Probe, Version};
pub use layout::{copy_place, header, is_header, pair_place, twin_size};
pub use logs::{LogCells, log_size};
pub use moving::move_up;
pub use probing::{probe, probe_as};
pub use twin::TwinCells;
