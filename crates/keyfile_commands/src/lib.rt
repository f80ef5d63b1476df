//! The key commands with keys from files instead of arguments (SHE specification, memory update protocol, secure
//! booting): make, read, confirm, bootmac.
//!
//! [`run_keyfiles`] runs what the arguments ask for: the record `KeyFilesRuns` says what each status means and what is
//! printed. It prints what `keytool` prints of the same values with each file's key in its place. [`key_in`] says what
//! a key file means. The image of a boot MAC has 1 to 16,777,216 bytes. [`keyfile_words`] does so over the files that
//! the arguments name.
#![tactic(auto)]

mod calls;
mod files;
mod image;
mod run;
mod start;
mod words;

pub use calls::{KeyCall, call_of};
pub use files::{key_from, key_in};
pub use image::{boot_image_from, image_mac};
pub use run::run_keyfiles;
pub use start::keyfile_words;
