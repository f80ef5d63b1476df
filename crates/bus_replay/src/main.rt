//! `bus_replay`: Secured I-PDUs and verdicts (AUTOSAR SecOC, profile 1) from lines of text, and scripts of a
//! bus.
//!
//! [`bus_commands::keeping::replay_words`] is the program, with all that is promised of it. Here it gets the arguments, the
//! files and the disk that they name, standard input and standard output.
#![tactic(auto)]

use bus_commands::keeping::replay_words;
use file_disk::DiskPaths;
use program_edge::{NO_MEMORY, Paths, StdSink, StdSource, arguments};
use std::process::ExitCode;

fn main(rt: HostRuntime) -> ExitCode {
    let mut sink = StdSink::new(rt.stdout());
    let mut opener = Paths::of(&rt);
    let mut disk_opener = DiskPaths::of(&rt);
    let mut input = Some(StdSource::new(rt.stdin()));
    let Ok(words) = arguments(&rt) else {
        return ExitCode::from(NO_MEMORY);
    };
    let (status, _config, _script, _disks) = replay_words(
        rt.alloc(),
        &mut opener,
        &mut disk_opener,
        &mut input,
        words.as_slice(),
        &mut sink,
    );
    ExitCode::from(status)
}
