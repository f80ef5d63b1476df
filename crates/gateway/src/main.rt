//! `gateway`: PDUs that arrive under one Data ID are verified and depart anew under another (AUTOSAR SecOC,
//! profile 1).
//!
//! [`gateway_commands::gateway_words`] is the program, with all that is promised of it. Here it gets the arguments, the
//! files that they name, standard input and standard output.
#![tactic(auto)]

use gateway_commands::gateway_words;
use program_edge::{NO_MEMORY, Paths, StdSink, StdSource, arguments};
use std::process::ExitCode;

fn main(rt: HostRuntime) -> ExitCode {
    let mut sink = StdSink::new(rt.stdout());
    let mut opener = Paths::of(&rt);
    let mut input = Some(StdSource::new(rt.stdin()));
    let Ok(words) = arguments(&rt) else {
        return ExitCode::from(NO_MEMORY);
    };
    let (status, _config, _script) = gateway_words(
        rt.alloc(),
        &mut opener,
        &mut input,
        words.as_slice(),
        &mut sink,
    );
    ExitCode::from(status)
}
