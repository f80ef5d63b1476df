//! `explain`: why frames of a log fail, by a map of CAN identifiers (AUTOSAR SecOC, profile 1).
//!
//! [`locate_commands::start_explain`] is the program, with the records `Explains` and `Locates`. Here it is handed the
//! arguments, the files, standard input, standard output and standard error.
#![tactic(auto)]

use locate_commands::start_explain;
use program_edge::{NO_MEMORY, Paths, StdSink, StdSource, arguments};
use std::alloc::AllocError;
use std::process::ExitCode;

fn main(rt: HostRuntime) -> ExitCode {
    let mut sink = StdSink::new(rt.stdout());
    let mut errors = StdSink::new(rt.stderr());
    let mut opener = Paths::of(&rt);
    let mut input = Some(StdSource::new(rt.stdin()));
    let status = match arguments(&rt) {
        Ok(words) => {
            let (status, _map, _log) = start_explain(
                rt.alloc(),
                &mut opener,
                &mut input,
                words.as_slice(),
                &mut sink,
                &mut errors,
            );
            status
        }
        Err(AllocError) => NO_MEMORY,
    };
    ExitCode::from(status)
}
