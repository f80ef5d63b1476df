//! `endpoint`: a node between the channels of a running bus, whose counters and keys survive a power cut (AUTOSAR
//! SecOC, profile 1; SHE).
//!
//! [`endpoint_commands::endpoint_words`] is the program, with all that is promised of it. Here it gets the arguments,
//! the files and the disk that they name, standard input, standard output and standard error.
#![tactic(auto)]

use endpoint_commands::endpoint_words;
use file_disk::DiskPaths;
use program_edge::{NO_MEMORY, Paths, StdSink, StdSource, arguments};
use std::process::ExitCode;

fn main(rt: HostRuntime) -> ExitCode {
    let mut sink = StdSink::new(rt.stdout());
    let mut errors = StdSink::new(rt.stderr());
    let mut opener = Paths::of(&rt);
    let mut disk_opener = DiskPaths::of(&rt);
    let mut input = Some(StdSource::new(rt.stdin()));
    let Ok(words) = arguments(&rt) else {
        return ExitCode::from(NO_MEMORY);
    };
    let (status, _sources, _disks) = endpoint_words(
        rt.alloc(),
        &mut opener,
        &mut disk_opener,
        &mut input,
        words.as_slice(),
        &mut sink,
        &mut errors,
    );
    ExitCode::from(status)
}
