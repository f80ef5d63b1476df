//! `pairing`: Secured PDU collections (AUTOSAR SecOC, profile 1), joined, judged, and made from payloads.
//!
//! [`pdu_collection::pair_words`] is the program, with the record `RunsPairs`. Here it is handed the arguments, the
//! files, standard input and standard output.
#![tactic(auto)]

use pdu_collection::pair_words;
use program_edge::{NO_MEMORY, Paths, StdSink, StdSource, arguments};
use std::alloc::AllocError;
use std::process::ExitCode;

fn main(rt: HostRuntime) -> ExitCode {
    let mut sink = StdSink::new(rt.stdout());
    let mut opener = Paths::of(&rt);
    let mut input = Some(StdSource::new(rt.stdin()));
    let status = match arguments(&rt) {
        Ok(words) => {
            let (status, _script) = pair_words(
                rt.alloc(),
                &mut opener,
                &mut input,
                words.as_slice(),
                &mut sink,
            );
            status
        }
        Err(AllocError) => NO_MEMORY,
    };
    ExitCode::from(status)
}
