//! The key commands (SHE specification, memory update protocol, secure booting): make, read, confirm, load,
//! bootmac.
//!
//! [`run_key`] runs what the arguments ask for: the record `Keys` says what each status means and what is printed.
//! `clap` reads the arguments. [`key_words`] does so over the disk that the argument after `load` names, and without
//! arguments over the example of the SHE specification. [`open_loader`] attaches the store that counts on a disk, and
//! its engine, or gives the first cause why there is none. [`load_requests`] loads requests one after another, and
//! prints what comes of each. If no byte was loose, every image has the bytes before and after the store as they were.
//! [`load_over`] does all this with the requests of a source and the first of some disks: `RunsLoad` of
//! specs/Promises.antt says what each status means.
#![tactic(auto)]

mod example;
mod image;
mod lines;
mod loader;
mod loading;
mod loads;
mod opening;
mod parsing;
mod refusals;
mod run;
mod start;
mod subcommands;
mod tasks;
mod texts;
mod work;

pub use lines::{LoadLine, LoadText};
pub use loader::{Loader, NotHeld};
pub use loading::load_requests;
pub use loads::load_over;
pub use opening::{Unopened, open_loader};
pub use run::run_key;
pub use start::key_words;
