//! `audit`: which frames of a recorded bus verify (AUTOSAR SecOC, profile 1).
//!
//! [`trace_audit::audit_words`] is the program, with the record `Audits`. Here it is handed the arguments,
//! the files, standard input and standard output.
#![tactic(auto)]

use program_edge::{NO_MEMORY, Paths, StdSink, StdSource, arguments};
use std::alloc::AllocError;
use std::process::ExitCode;
use trace_audit::audit_words;

fn main(rt: HostRuntime) -> ExitCode {
    let mut sink = StdSink::new(rt.stdout());
    let mut opener = Paths::of(&rt);
    let mut input = Some(StdSource::new(rt.stdin()));
    let status = match arguments(&rt) {
        Ok(words) => {
            let (status, _map, _log) = audit_words(
                rt.alloc(),
                &mut opener,
                &mut input,
                words.as_slice(),
                &mut sink,
            );
            status
        }
        Err(AllocError) => NO_MEMORY,
    };
    ExitCode::from(status)
}
