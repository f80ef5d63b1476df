//! Whole campaigns over disks in memory: a script, the status and what is printed.
use crate::comparing::same;
use bus_port::{CleanSource, MemSink};
use campaign_commands::run_campaign;
use cut_disk::{CutDisk, MemDisk};
use std::alloc::{AllocError, Global};
use std::process::Abort;
use std::test::Fail;

/// What stands before the number of the call that a disk stops at, and between this number and what a cut leaves: the
/// commands are those of the example of a memory update in the SHE specification.
const STOP: &str = "stop ";

const ISSUE_AND_STOP: &str =
    "issue 000000000000000000000000000001 4 1 00000 0f0e0d0c0b0a09080706050403020100 000102030405060708090a0b0c0d0e0f\nstop ";

const ISSUE_AND_CUT: &str =
    "\nissue 000000000000000000000000000001 4 1 00000 0f0e0d0c0b0a09080706050403020100 000102030405060708090a0b0c0d0e0f\ncut ";

const CONFIRM_AND_CUT: &str =
    "\nconfirm 000000000000000000000000000001 4 1 0f0e0d0c0b0a09080706050403020100 00000000000000000000000000000141b472e8d8727d70d57295e74849a27917 820d8d95dc11b4668878160cb2a4e23e\ncut ";

const SHOW: &str = "\nshow 000000000000000000000000000001 4\n";

const SHOW_AND_ISSUE: &str =
    "\nshow 000000000000000000000000000001 4\nissue 000000000000000000000000000001 4 1 00000 0f0e0d0c0b0a09080706050403020100 000102030405060708090a0b0c0d0e0f\n";

/// The script before a stop, the calls that the disk stops at, the command that has them, the cuts after it, the next
/// script, and what is printed.
struct Stop(
    &'static str,
    &'static [&'static str],
    &'static str,
    &'static [&'static str],
    &'static str,
    &'static str,
);

/// The put of a command has six calls. The fifth writes the gate that makes the new cell count, at an even address: it
/// was 00 at the last sync.
const BEFORE_THE_GATE: &[&str] = &["1", "2", "3", "4"];

const AT_THE_GATE: &[&str] = &["5", "6"];

const BEHIND: &[&str] = &["7"];

const ALL: &[&str] = &["keep", "old", "half", "a7", "00"];

const OPENING: &[&str] = &["keep", "half", "a7"];

const CLOSING: &[&str] = &["old", "00"];

const ISSUE_LOST: &str =
    "1 armed\n2 refused MEMORY_FAILURE\n3 up\n4 none\n5 issued 1 00000000000000000000000000000141 2b111e2d93f486566bcbba1d7f7a9797c94643b050fc5d4d7de14cff682203c3 b9d745e5ace7d41860bc63c2b9f5bb46\n";

const ISSUE_FOUND: &str = "1 armed\n2 refused MEMORY_FAILURE\n3 up\n4 issued 1\n";

const ISSUE_MADE: &str =
    "1 armed\n2 issued 1 00000000000000000000000000000141 2b111e2d93f486566bcbba1d7f7a9797c94643b050fc5d4d7de14cff682203c3 b9d745e5ace7d41860bc63c2b9f5bb46\n3 up\n4 issued 1\n";

const CONFIRMATION_LOST: &str =
    "1 issued 1 00000000000000000000000000000141 2b111e2d93f486566bcbba1d7f7a9797c94643b050fc5d4d7de14cff682203c3 b9d745e5ace7d41860bc63c2b9f5bb46\n2 armed\n3 refused MEMORY_FAILURE\n4 up\n5 issued 1\n";

const CONFIRMATION_FOUND: &str =
    "1 issued 1 00000000000000000000000000000141 2b111e2d93f486566bcbba1d7f7a9797c94643b050fc5d4d7de14cff682203c3 b9d745e5ace7d41860bc63c2b9f5bb46\n2 armed\n3 refused MEMORY_FAILURE\n4 up\n5 confirmed 1\n";

const CONFIRMATION_MADE: &str =
    "1 issued 1 00000000000000000000000000000141 2b111e2d93f486566bcbba1d7f7a9797c94643b050fc5d4d7de14cff682203c3 b9d745e5ace7d41860bc63c2b9f5bb46\n2 armed\n3 confirmed 1\n4 up\n5 confirmed 1\n";

const STOPS: &[Stop] = &[
    Stop(
        STOP,
        BEFORE_THE_GATE,
        ISSUE_AND_CUT,
        ALL,
        SHOW_AND_ISSUE,
        ISSUE_LOST,
    ),
    Stop(
        STOP,
        AT_THE_GATE,
        ISSUE_AND_CUT,
        CLOSING,
        SHOW_AND_ISSUE,
        ISSUE_LOST,
    ),
    Stop(STOP, AT_THE_GATE, ISSUE_AND_CUT, OPENING, SHOW, ISSUE_FOUND),
    Stop(STOP, BEHIND, ISSUE_AND_CUT, ALL, SHOW, ISSUE_MADE),
    Stop(
        ISSUE_AND_STOP,
        BEFORE_THE_GATE,
        CONFIRM_AND_CUT,
        ALL,
        SHOW,
        CONFIRMATION_LOST,
    ),
    Stop(
        ISSUE_AND_STOP,
        AT_THE_GATE,
        CONFIRM_AND_CUT,
        CLOSING,
        SHOW,
        CONFIRMATION_LOST,
    ),
    Stop(
        ISSUE_AND_STOP,
        AT_THE_GATE,
        CONFIRM_AND_CUT,
        OPENING,
        SHOW,
        CONFIRMATION_FOUND,
    ),
    Stop(
        ISSUE_AND_STOP,
        BEHIND,
        CONFIRM_AND_CUT,
        ALL,
        SHOW,
        CONFIRMATION_MADE,
    ),
];

/// A disk of zero bytes; or one whose first call fails, or none.
#[derive(Clone, Copy)]
enum Medium {
    Blank,
    Failing,
    Missing,
}

fn disk_of(alloc: Global, medium: Medium) -> Result<MemDisk, Fail> {
    let mut disk = MemDisk::new(alloc, 65_536)?;
    if let Medium::Failing = medium {
        disk.fail_at(1);
    }
    Ok(disk)
}

fn disks_of(alloc: Global, medium: Medium) -> Result<Vec<MemDisk>, Fail> {
    let mut disks = Vec::new(alloc);
    match medium {
        Medium::Missing => {}
        _ => disks.push(disk_of(alloc, medium)?)?,
    }
    Ok(disks)
}

/// The words of a script and a disk; no source and no disk is opened by them here.
fn words(alloc: Global) -> Result<Vec<String>, AllocError> {
    let mut words = Vec::new(alloc);
    for word in ["F", "DISK"] {
        words.push(String::from_str(alloc, word)?)?;
    }
    Ok(words)
}

/// The script of a row with a stop at this call and this cut.
fn script_of(alloc: Global, row: &Stop, call: &str, torn: &str) -> Result<Vec<u8>, AllocError> {
    let mut script = Vec::new(alloc);
    script.extend_from_slice(row.0.as_bytes())?;
    script.extend_from_slice(call.as_bytes())?;
    script.extend_from_slice(row.2.as_bytes())?;
    script.extend_from_slice(torn.as_bytes())?;
    script.extend_from_slice(row.4.as_bytes())?;
    Ok(script)
}

/// The status of a script over a disk.
fn status_of(
    alloc: Global,
    medium: Medium,
    script: &mut CleanSource,
    sink: &mut MemSink,
) -> Result<u8, Fail> {
    let words = words(alloc)?;
    let mut disks = disks_of(alloc, medium)?;
    Ok(run_campaign(alloc, words.as_slice(), script, sink, &mut disks))
}

/// Plays a script over a disk, and compares the status and what is printed.
fn prints(
    rt: &impl Abort,
    alloc: Global,
    medium: Medium,
    script: Vec<u8>,
    status: u8,
    printed: &str,
) -> Result<(), Fail> {
    let mut script = CleanSource::new(script);
    let mut sink = MemSink::new(alloc, 1024, Vec::new(alloc), 1024)?;
    let found = status_of(alloc, medium, &mut script, &mut sink)?;
    let told = (found, sink.bytes());
    same(rt, printed, &told, &(status, printed.as_bytes()));
    Ok(())
}

/// Plays a row with a stop at this call.
fn stops_at(rt: &impl Abort, alloc: Global, row: &Stop, call: &str) -> Result<(), Fail> {
    for torn in row.3 {
        let script = script_of(alloc, row, call, torn)?;
        prints(rt, alloc, Medium::Blank, script, 0, row.5)?;
    }
    Ok(())
}

#[test]
fn a_command_is_whole_or_absent_behind_a_cut(rt: HostRuntime) -> Result<(), Fail> {
    for row in STOPS {
        for call in row.1 {
            stops_at(&rt, rt.alloc(), row, call)?;
        }
    }
    Ok(())
}

#[test]
fn no_disk_and_one_that_fails_have_no_ledger(rt: HostRuntime) -> Result<(), Fail> {
    let alloc = rt.alloc();
    let missing = "disks: too few\n";
    prints(&rt, alloc, Medium::Missing, Vec::new(alloc), 9, missing)?;
    let failing = "store: DiskFailed\n";
    prints(&rt, alloc, Medium::Failing, Vec::new(alloc), 10, failing)
}
