//! `ledger`: key updates for many units, with a ledger in a file of SQLite (SHE specification, memory update).
//!
//! [`ledger_shift::ledger_words`] is the program, with the record `RunsLedger`. Here it is handed the arguments, the
//! files, standard input, standard output and standard error.
#![tactic(auto)]

mod paths;

use ledger_shift::ledger_words;
use paths::LedgerPaths;
use program_edge::{NO_MEMORY, Paths, StdSink, StdSource, arguments};
use std::alloc::AllocError;
use std::process::ExitCode;

fn main(rt: HostRuntime) -> ExitCode {
    let mut sink = StdSink::new(rt.stdout());
    let mut errors = StdSink::new(rt.stderr());
    let mut ledgers = LedgerPaths::of(&rt);
    let mut opener = Paths::of(&rt);
    let mut input = Some(StdSource::new(rt.stdin()));
    let status = match arguments(&rt) {
        Ok(words) => {
            let (status, _script) = ledger_words(
                rt.alloc(),
                &mut ledgers,
                &mut opener,
                &mut input,
                words.as_slice(),
                &mut sink,
                &mut errors,
            );
            status
        }
        Err(AllocError) => NO_MEMORY,
    };
    ExitCode::from(status)
}
