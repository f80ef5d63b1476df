//! Disks over real files, each test in a folder of its own.
use crate::acts::{Act, Other, Then, What, answers_so, does};
use crate::comparing::holds;
use cut_disk::{CutDisk, Disk, Mark, Torn};
use file_disk::{FileDisk, SystemFile};
use std::fs::OpenOptions;
use std::process::Abort;
use std::{env, fs, process};

/// How a file is opened.
#[derive(Clone, Copy)]
enum Opening {
    /// It isn't.
    Not,
    /// A disk over it.
    Disk,
    /// A disk over it of 65,536 zero bytes, which are read in one call.
    Zeros,
    /// Two disks one after the other, the first of them closed: each call of the second fails.
    Second,
    /// A disk of no bytes over the file itself, with nothing of it in memory: its sync is Ok.
    NothingHeld,
}

/// How it is opened, and what is done then, to the disk and by another.
struct Step(Opening, &'static [Act]);

fn resizes(rt: &HostRuntime, path: &str, size: u64) -> bool {
    match OpenOptions::new().write(true).open(rt, path) {
        Ok(file) => file.set_len(size).is_ok(),
        Err(_) => false,
    }
}

fn protects(rt: &HostRuntime, path: &str) -> bool {
    match fs::metadata(rt, path) {
        Ok(metadata) => {
            let mut permissions = metadata.permissions();
            permissions.set_readonly(true);
            fs::set_permissions(rt, path, permissions).is_ok()
        }
        Err(_) => false,
    }
}

fn finds_bytes(rt: &HostRuntime, path: &str, bytes: &[u8]) -> bool {
    match fs::read(rt, path) {
        Ok(all) => all.as_slice() == bytes,
        Err(_) => false,
    }
}

fn finds_size(rt: &HostRuntime, path: &str, size: u64) -> bool {
    match fs::metadata(rt, path) {
        Ok(metadata) => metadata.len() == size,
        Err(_) => false,
    }
}

fn is_locked_out(rt: &HostRuntime, path: &str) -> bool {
    match FileDisk::on(rt.alloc(), rt, path) {
        Ok(mut other) => other.size() == 65536 && answers_so(&mut other, b"xxx"),
        Err(_) => false,
    }
}

/// Whether this comes of what another does.
fn does_beside(rt: &HostRuntime, path: &str, other: Other, size: u64, bytes: &[u8]) -> bool {
    match other {
        Other::Resizes => resizes(rt, path, size),
        Other::Writes => fs::write(rt, path, bytes).is_ok(),
        Other::Protects => protects(rt, path),
        Other::FindsSize => finds_size(rt, path, size),
        Other::FindsBytes => finds_bytes(rt, path, bytes),
        Other::IsLockedOut => is_locked_out(rt, path),
    }
}

/// Whether this comes of what is done to the disk, or by another.
fn is_done<D: CutDisk>(rt: &HostRuntime, path: &str, disk: &mut D, act: &Act) -> bool {
    match act.0 {
        What::Other(other) => does_beside(rt, path, other, act.1, act.2),
        _ => does(disk, act),
    }
}

fn are_done<D: CutDisk>(rt: &HostRuntime, path: &str, disk: &mut D, acts: &[Act]) -> bool {
    for act in acts {
        if !is_done(rt, path, disk, act) {
            return false;
        }
    }
    true
}

fn is_opened(rt: &HostRuntime, path: &str, acts: &[Act]) -> bool {
    match FileDisk::on(rt.alloc(), rt, path) {
        Ok(mut disk) => are_done(rt, path, &mut disk, acts),
        Err(_) => false,
    }
}

/// Whether this comes of what is done by another.
fn is_left_so(rt: &HostRuntime, path: &str, act: &Act) -> bool {
    match act.0 {
        What::Other(other) => does_beside(rt, path, other, act.1, act.2),
        _ => false,
    }
}

fn is_left(rt: &HostRuntime, path: &str, acts: &[Act]) -> bool {
    for act in acts {
        if !is_left_so(rt, path, act) {
            return false;
        }
    }
    true
}

/// Whether a second disk fails after a first one, which is closed.
fn is_second<D: CutDisk + Drop>(rt: &HostRuntime, path: &str, first: D) -> bool {
    match FileDisk::on(rt.alloc(), rt, path) {
        Ok(mut other) => {
            drop(first);
            answers_so(&mut other, b"xxx")
        }
        Err(_) => false,
    }
}

fn stays_out(rt: &HostRuntime, path: &str) -> bool {
    match FileDisk::on(rt.alloc(), rt, path) {
        Ok(first) => is_second(rt, path, first),
        Err(_) => false,
    }
}

fn is_synced(rt: &HostRuntime, path: &str) -> bool {
    let mut disk = FileDisk::over(SystemFile::on(rt, path), 0);
    disk.size() == 0 && disk.sync().is_ok()
}

fn reads_zeros<D: Disk>(rt: &HostRuntime, disk: &mut D) -> bool {
    match vec![in rt.alloc(); 9; 65536] {
        Ok(mut all) => {
            disk.size() == 65536
                && disk.read(0, &mut all).is_ok()
                && all.iter().all(|byte| *byte == 0)
        }
        Err(_) => false,
    }
}

fn is_zeros(rt: &HostRuntime, path: &str) -> bool {
    match FileDisk::on(rt.alloc(), rt, path) {
        Ok(mut disk) => reads_zeros(rt, &mut disk),
        Err(_) => false,
    }
}

/// Whether this comes of the step.
fn comes(rt: &HostRuntime, path: &str, step: &Step) -> bool {
    match step.0 {
        Opening::Not => is_left(rt, path, step.1),
        Opening::Disk => is_opened(rt, path, step.1),
        Opening::Zeros => is_zeros(rt, path),
        Opening::Second => stays_out(rt, path),
        Opening::NothingHeld => is_synced(rt, path),
    }
}

/// Does these steps in turn to the file at this path.
fn goes(rt: &impl Abort, system: &HostRuntime, path: &str, steps: &[Step]) {
    for (place, step) in steps.iter().enumerate() {
        holds(rt, place, comes(system, path, step));
    }
}

/// The same to the file of this name in the folder.
fn plays_at(rt: &impl Abort, system: &HostRuntime, folder: &str, name: &str, steps: &[Step]) {
    match format!(in system.alloc(); "{folder}{name}") {
        Ok(path) => goes(rt, system, path.as_str(), steps),
        Err(_) => holds(rt, name, false),
    }
}

/// The same to each of these files, in a new folder, which is taken away again.
fn plays_in(rt: &impl Abort, system: &HostRuntime, folder: &str, names: &[&str], steps: &[Step]) {
    holds(rt, folder, fs::create_dir(system, folder).is_ok());
    for name in names {
        plays_at(rt, system, folder, name, steps);
    }
    holds(rt, folder, fs::remove_dir_all(system, folder).is_ok());
}

/// The folder of the test of this name.
fn folder_of(rt: &HostRuntime, name: &str) -> Option<String> {
    let id = process::id(rt.process());
    let above = env::temp_dir(rt).ok()?.into_string();
    format!(in rt.alloc(); "{above}/file_disk_{id}_{name}").ok()
}

/// The same in the folder of the test of this name.
fn plays(rt: &impl Abort, system: &HostRuntime, test: &str, names: &[&str], steps: &[Step]) {
    match folder_of(system, test) {
        Some(folder) => plays_in(rt, system, folder.as_str(), names, steps),
        None => holds(rt, test, false),
    }
}

const DISK: &[&str] = &["/disk"];

const MADE: &[Step] = &[
    Step(Opening::Zeros, &[]),
    Step(
        Opening::Not,
        &[Act(What::Other(Other::FindsSize), 65536, b"")],
    ),
    Step(
        Opening::Disk,
        &[
            Act(What::Writes(Then::Nothing, true), 65534, &[7, 8]),
            Act(What::Syncs, 0, b"."),
            Act(What::Calls(Mark::Cut(Torn::Old)), 0, b""),
        ],
    ),
    Step(
        Opening::Disk,
        &[
            Act(What::Size, 65536, b""),
            Act(What::Reads, 65533, &[0, 7, 8]),
        ],
    ),
];

#[test]
fn a_file_is_made_and_keeps_what_was_synced(rt: HostRuntime) {
    plays(&rt, &rt, "made", DISK, MADE);
}

const NO_FILE: &[Step] = &[
    Step(Opening::Disk, &[Act(What::Size, 65536, b"")]),
    Step(Opening::Disk, &[Act(What::Answers, 0, b"xxx")]),
];

/// A file in no folder, and a folder.
const NO_FILES: &[&str] = &["/not/there", "", "/"];

#[test]
fn a_disk_over_no_file_has_65536_bytes_and_each_call_fails(rt: HostRuntime) {
    plays(&rt, &rt, "none", NO_FILES, NO_FILE);
}

const PROTECTED: &[Step] = &[
    Step(
        Opening::Not,
        &[Act(What::Other(Other::Writes), 0, &[1, 2, 3])],
    ),
    Step(Opening::Not, &[Act(What::Other(Other::Protects), 0, b"")]),
    Step(
        Opening::Disk,
        &[
            Act(What::Size, 3, b""),
            Act(What::Reads, 0, &[1, 2, 3]),
            Act(What::Syncs, 0, b"."),
            Act(What::Answers, 0, b".xx"),
            Act(What::Answers, 0, b"xxx"),
        ],
    ),
];

#[test]
fn a_write_protected_file_is_read_until_a_write_fails(rt: HostRuntime) {
    plays(&rt, &rt, "protected", DISK, PROTECTED);
}

/// The file of four bytes becomes shorter by one, and then as long as it was.
const SHORTER: &[Step] = &[
    Step(
        Opening::Not,
        &[Act(What::Other(Other::Writes), 0, &[1, 2, 3, 4])],
    ),
    Step(
        Opening::Disk,
        &[
            Act(What::Answers, 0, b"..."),
            Act(What::Other(Other::Resizes), 3, b""),
            Act(What::Size, 4, b""),
            Act(What::ReadFails, 2, &[0, 0]),
            Act(What::Answers, 0, b".xx"),
            Act(What::Other(Other::FindsBytes), 0, &[5, 6, 3]),
            Act(What::Other(Other::Resizes), 4, b""),
            Act(What::Calls(Mark::Cut(Torn::Keep)), 0, b""),
            Act(What::Answers, 0, b"xxx"),
        ],
    ),
    Step(Opening::Disk, &[Act(What::Answers, 0, b"...")]),
];

#[test]
fn a_file_that_became_shorter_is_not_asked_again(rt: HostRuntime) {
    plays(&rt, &rt, "shorter", DISK, SHORTER);
}

const ARMS: &[Step] = &[
    Step(Opening::Not, &[Act(What::Other(Other::Writes), 0, &[1, 2])]),
    Step(
        Opening::Disk,
        &[
            Act(What::Calls(Mark::Stop(2)), 0, b""),
            Act(What::Calls(Mark::Fail(9)), 0, b""),
            Act(What::Syncs, 0, b".xxx"),
            Act(What::Calls(Mark::Cut(Torn::Fill(0xa7))), 0, b""),
            Act(What::Syncs, 0, b"...."),
        ],
    ),
    Step(
        Opening::Disk,
        &[
            Act(What::Calls(Mark::Stop(9)), 0, b""),
            Act(What::Calls(Mark::Fail(2)), 0, b""),
            Act(What::Syncs, 0, b".x.."),
            Act(What::Calls(Mark::Cut(Torn::Fill(0xa7))), 0, b""),
            Act(What::Syncs, 0, b"...."),
        ],
    ),
    Step(
        Opening::Disk,
        &[
            Act(What::Calls(Mark::Stop(2)), 0, b""),
            Act(What::Calls(Mark::Fail(6)), 0, b""),
            Act(What::Syncs, 0, b".xxx"),
            Act(What::Calls(Mark::Cut(Torn::Fill(0xa7))), 0, b""),
            Act(What::Syncs, 0, b".x.."),
        ],
    ),
    Step(
        Opening::Disk,
        &[
            Act(What::Calls(Mark::Stop(1)), 0, b""),
            Act(What::Calls(Mark::Fail(1)), 0, b""),
            Act(What::Syncs, 0, b"xxxx"),
            Act(What::Calls(Mark::Cut(Torn::Fill(0xa7))), 0, b""),
            Act(What::Syncs, 0, b"...."),
        ],
    ),
    Step(
        Opening::Disk,
        &[
            Act(What::Calls(Mark::Stop(4)), 0, b""),
            Act(What::Calls(Mark::Fail(3)), 0, b""),
            Act(What::Syncs, 0, b"..xx"),
            Act(What::Calls(Mark::Cut(Torn::Fill(0xa7))), 0, b""),
            Act(What::Syncs, 0, b"...."),
        ],
    ),
    Step(
        Opening::Disk,
        &[
            Act(What::Calls(Mark::Fail(2)), 0, b""),
            Act(What::Answers, 0, b".x."),
            Act(What::Other(Other::FindsBytes), 0, &[1, 2]),
            Act(What::Answers, 0, b"..."),
        ],
    ),
    Step(
        Opening::Not,
        &[Act(What::Other(Other::FindsBytes), 0, &[5, 6])],
    ),
];

#[test]
fn arms_and_stops_are_those_of_the_disk_in_memory(rt: HostRuntime) {
    plays(&rt, &rt, "arms", DISK, ARMS);
}

const EMPTY: &[Step] = &[
    Step(Opening::Not, &[Act(What::Other(Other::Writes), 0, &[])]),
    Step(Opening::NothingHeld, &[]),
    Step(Opening::Disk, &[Act(What::Size, 0, b"")]),
];

#[test]
fn an_empty_file_stays_one(rt: HostRuntime) {
    plays(&rt, &rt, "empty", DISK, EMPTY);
}

const LOCKED: &[Step] = &[
    Step(Opening::Not, &[Act(What::Other(Other::Writes), 0, &[1, 2])]),
    Step(
        Opening::Disk,
        &[
            Act(What::Other(Other::IsLockedOut), 0, b""),
            Act(What::Answers, 0, b"..."),
        ],
    ),
    Step(Opening::Second, &[]),
    Step(Opening::Disk, &[Act(What::Size, 2, b"")]),
];

#[test]
fn a_file_is_open_in_one_place_at_a_time(rt: HostRuntime) {
    plays(&rt, &rt, "locked", DISK, LOCKED);
}

/// Of the file of four bytes another program writes the second.
const OTHERWISE: &[Step] = &[
    Step(
        Opening::Not,
        &[Act(What::Other(Other::Writes), 0, &[1, 2, 3, 4])],
    ),
    Step(
        Opening::Disk,
        &[
            Act(What::Answers, 0, b"..."),
            Act(What::Other(Other::Writes), 0, &[5, 9, 3, 4]),
            Act(What::Reads, 2, &[3, 4]),
            Act(What::ReadFails, 0, &[0, 0]),
            Act(What::Answers, 0, b"xxx"),
            Act(What::Other(Other::FindsBytes), 0, &[5, 9, 3, 4]),
        ],
    ),
    Step(Opening::Disk, &[Act(What::Answers, 0, b"...")]),
];

#[test]
fn a_file_that_reads_otherwise_than_it_was_written_is_not_asked_again(rt: HostRuntime) {
    plays(&rt, &rt, "otherwise", DISK, OTHERWISE);
}

/// Of a longer file the first 131,072 bytes are the disk.
const LONG: &[Step] = &[
    Step(Opening::Not, &[Act(What::Other(Other::Writes), 0, &[])]),
    Step(
        Opening::Not,
        &[Act(What::Other(Other::Resizes), 131_073, b"")],
    ),
    Step(Opening::Disk, &[Act(What::Size, 131_072, b"")]),
    Step(Opening::Disk, &[Act(What::Answers, 0, b"...")]),
];

#[test]
fn a_long_file_is_held_in_part(rt: HostRuntime) {
    plays(&rt, &rt, "long", DISK, LONG);
}
