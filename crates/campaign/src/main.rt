//! `campaign`: issues key updates (SHE specification, memory update) for many units, with a ledger that
//! survives cuts.
//!
//! [`kept_campaigns::keep_campaign_words`] is the program, with the record `RunsCampaign`. Here it is handed the
//! arguments, the files, standard input and standard output.
#![tactic(auto)]

use file_disk::DiskPaths;
use kept_campaigns::keep_campaign_words;
use program_edge::{NO_MEMORY, Paths, StdSink, StdSource, arguments};
use std::alloc::AllocError;
use std::process::ExitCode;

fn main(rt: HostRuntime) -> ExitCode {
    let mut sink = StdSink::new(rt.stdout());
    let mut opener = Paths::of(&rt);
    let mut disk_opener = DiskPaths::of(&rt);
    let mut input = Some(StdSource::new(rt.stdin()));
    let status = match arguments(&rt) {
        Ok(words) => {
            let (status, _script, _disks) = keep_campaign_words(
                rt.alloc(),
                &mut opener,
                &mut disk_opener,
                &mut input,
                words.as_slice(),
                &mut sink,
            );
            status
        }
        Err(AllocError) => NO_MEMORY,
    };
    ExitCode::from(status)
}
