//! `station`: a key loading station (SHE specification, memory update protocol, secure booting): what stores and ledgers
//! hold, lost replies, entries that a ledger takes over, and keys from files.
//!
//! [`station_commands::station_words`] is the program, with `RunsStation`. Here it is handed the arguments, the files,
//! standard input and standard output. That others may read a store's file is said here, on standard error (`TellsMode`);
//! no status depends on it.
#![tactic(auto)]

mod modes;

use file_disk::DiskPaths;
use modes::tell_open_mode;
use program_edge::{NO_MEMORY, Paths, StdSink, StdSource, WordSource, arguments};
use station_commands::{StationFiles, station_words};
use std::alloc::AllocError;
use std::process::ExitCode;

fn main(rt: HostRuntime) -> ExitCode {
    let mut sink = StdSink::new(rt.stdout());
    let mut errors = StdSink::new(rt.stderr());
    let mut opener = Paths::of(&rt);
    let mut disk_opener = DiskPaths::of(&rt);
    let mut input = Some(StdSource::new(rt.stdin()));
    let status = match arguments(&rt) {
        Ok(words) => {
            let (status, files) = station_words(
                rt.alloc(),
                &mut opener,
                &mut disk_opener,
                &mut input,
                words.as_slice(),
                &mut sink,
            );
            let is_opened = matches!(
                files,
                StationFiles::Store(WordSource::Opened(_))
                    | StationFiles::StoreAndBus(WordSource::Opened(_), _)
                    | StationFiles::Made(_, Some(_))
                    | StationFiles::Grown(_, Some(_))
            );
            if is_opened {
                tell_open_mode(rt.alloc(), &rt, words.as_slice(), &mut errors);
            }
            status
        }
        Err(AllocError) => NO_MEMORY,
    };
    ExitCode::from(status)
}
