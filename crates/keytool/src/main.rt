//! `keytool`: makes, reads, checks and loads key updates, and makes boot MACs (SHE specification, memory
//! update protocol, secure booting).
//!
//! [`key_commands::key_words`] is the program, with the record `Keys`. Here it is handed the arguments, the
//! files, standard input and standard output.
#![tactic(auto)]

use file_disk::DiskPaths;
use key_commands::key_words;
use program_edge::{NO_MEMORY, StdSink, StdSource, arguments};
use std::alloc::AllocError;
use std::process::ExitCode;

fn main(rt: HostRuntime) -> ExitCode {
    let mut sink = StdSink::new(rt.stdout());
    let mut request = StdSource::new(rt.stdin());
    let mut disk_opener = DiskPaths::of(&rt);
    let status = match arguments(&rt) {
        Ok(words) => {
            let (status, _disks) = key_words(
                rt.alloc(),
                &mut disk_opener,
                words.as_slice(),
                &mut request,
                &mut sink,
            );
            status
        }
        Err(AllocError) => NO_MEMORY,
    };
    ExitCode::from(status)
}
