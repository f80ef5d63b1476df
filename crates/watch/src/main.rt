//! `watch`: whether a bus is authentic and live, from its log, while it runs (AUTOSAR SecOC, profile 1).
//!
//! [`watch_expect::start_watch`] is the program, with the records `Watches` and `Expects`. Here it is handed the
//! arguments, the files, standard input, standard output and standard error.
#![tactic(auto)]

use program_edge::{NO_MEMORY, Paths, StdSink, StdSource, arguments};
use std::alloc::AllocError;
use std::process::ExitCode;
use watch_expect::start_watch;

fn main(rt: HostRuntime) -> ExitCode {
    let mut sink = StdSink::new(rt.stdout());
    let mut errors = StdSink::new(rt.stderr());
    let mut opener = Paths::of(&rt);
    let mut input = Some(StdSource::new(rt.stdin()));
    let status = match arguments(&rt) {
        Ok(words) => {
            let (status, _kept, _map, _log) = start_watch(
                rt.alloc(),
                &mut opener,
                &mut input,
                words.as_slice(),
                &mut sink,
                &mut errors,
            );
            status
        }
        Err(AllocError) => NO_MEMORY,
    };
    ExitCode::from(status)
}
