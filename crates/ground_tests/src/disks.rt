//! Each life is played over a disk in memory and over one that tells its past.
use crate::acts::{Act, Then, What, done, syncs};
use crate::comparing::holds;
use cut_disk::{Mark, MemDisk, PastEntry, TapeDisk, Torn};
use std::alloc::Global;
use std::process::Abort;

/// How many acts come out as they are to over a new disk in memory of so many zeros.
fn done_in_memory(alloc: Global, size: usize, acts: &[Act]) -> usize {
    if size > 100 {
        return 0;
    }
    match MemDisk::new(alloc, size) {
        Ok(mut disk) => done(&mut disk, acts),
        Err(_) => 0,
    }
}

/// The same over one that tells its past. It has room for one entry, the least, if the disk has one byte. It has room
/// for nine, which no life has, if it has four.
fn done_on_tape(alloc: Global, size: usize, acts: &[Act]) -> usize {
    if size == 0 || size > 100 {
        return 0;
    }
    let made = match size {
        1 => TapeDisk::new(alloc, size, 1),
        4 => TapeDisk::new(alloc, size, 9),
        _ => TapeDisk::new(alloc, size, 4),
    };
    match made {
        Ok(mut disk) => done(&mut disk, acts),
        Err(_) => 0,
    }
}

/// Plays each of these lives over new disks of so many zeros. A failure names the act at which one differs.
fn plays(rt: &impl Abort, alloc: Global, size: usize, lives: &[&[Act]]) {
    for acts in lives {
        let memory = done_in_memory(alloc, size, acts);
        holds(rt, memory, memory == acts.len());
        let tape = done_on_tape(alloc, size, acts);
        holds(rt, tape, tape == acts.len());
    }
}

const CUTS: &[&[Act]] = &[
    &[
        Act(What::Writes(Then::Nothing, true), 0, &[1, 2, 3, 4]),
        Act(What::Calls(Mark::Cut(Torn::Keep)), 0, b""),
        Act(What::Reads, 0, &[1, 2, 3, 4, 0, 0]),
    ],
    &[
        Act(What::Writes(Then::Nothing, true), 0, &[1, 2, 3, 4]),
        Act(What::Calls(Mark::Cut(Torn::Old)), 0, b""),
        Act(What::Reads, 0, &[0, 0, 0, 0, 0, 0]),
    ],
    &[
        Act(What::Writes(Then::Nothing, true), 0, &[1, 2, 3, 4]),
        Act(What::Calls(Mark::Cut(Torn::Half)), 0, b""),
        Act(What::Reads, 0, &[1, 0, 3, 0, 0, 0]),
    ],
    &[
        Act(What::Writes(Then::Nothing, true), 1, &[1, 2, 3, 4]),
        Act(What::Calls(Mark::Cut(Torn::Half)), 0, b""),
        Act(What::Reads, 0, &[0, 0, 2, 0, 4, 0]),
    ],
    &[
        Act(What::Writes(Then::Nothing, true), 0, &[1, 2, 3, 4]),
        Act(What::Calls(Mark::Cut(Torn::Fill(0xa7))), 0, b""),
        Act(What::Reads, 0, &[0xa7, 0xa7, 0xa7, 0xa7, 0, 0]),
    ],
    &[
        Act(What::Writes(Then::Nothing, true), 2, &[1, 2, 3, 4]),
        Act(What::Calls(Mark::Cut(Torn::Fill(0xa7))), 0, b""),
        Act(What::Reads, 0, &[0, 0, 0xa7, 0xa7, 0xa7, 0xa7]),
    ],
];

#[test]
fn a_cut_leaves_loose_bytes_as_its_kind_says(rt: HostRuntime) {
    plays(&rt, rt.alloc(), 6, CUTS);
}

/// An arm for call 9 doesn't show in the eight calls of a life.
const ARMS: &[&[Act]] = &[
    &[
        Act(What::Calls(Mark::Stop(2)), 0, b""),
        Act(What::Calls(Mark::Fail(9)), 0, b""),
        Act(What::Syncs, 0, b".xxx"),
        Act(What::Calls(Mark::Cut(Torn::Keep)), 0, b""),
        Act(What::Syncs, 0, b"...."),
    ],
    &[
        Act(What::Calls(Mark::Stop(9)), 0, b""),
        Act(What::Calls(Mark::Fail(2)), 0, b""),
        Act(What::Syncs, 0, b".x.."),
        Act(What::Calls(Mark::Cut(Torn::Keep)), 0, b""),
        Act(What::Syncs, 0, b"...."),
    ],
    &[
        Act(What::Calls(Mark::Stop(2)), 0, b""),
        Act(What::Calls(Mark::Fail(6)), 0, b""),
        Act(What::Syncs, 0, b".xxx"),
        Act(What::Calls(Mark::Cut(Torn::Keep)), 0, b""),
        Act(What::Syncs, 0, b".x.."),
    ],
    &[
        Act(What::Calls(Mark::Stop(1)), 0, b""),
        Act(What::Calls(Mark::Fail(1)), 0, b""),
        Act(What::Syncs, 0, b"xxxx"),
        Act(What::Calls(Mark::Cut(Torn::Keep)), 0, b""),
        Act(What::Syncs, 0, b"...."),
    ],
    &[
        Act(What::Calls(Mark::Stop(4)), 0, b""),
        Act(What::Calls(Mark::Fail(3)), 0, b""),
        Act(What::Syncs, 0, b"..xx"),
        Act(What::Calls(Mark::Cut(Torn::Keep)), 0, b""),
        Act(What::Syncs, 0, b"...."),
    ],
    // a new arm replaces the older, but a stop goes on
    &[
        Act(What::Calls(Mark::Fail(1)), 0, b""),
        Act(What::Calls(Mark::Fail(3)), 0, b""),
        Act(What::Syncs, 0, b"..x."),
        Act(What::Calls(Mark::Stop(1)), 0, b""),
        Act(What::Calls(Mark::Stop(3)), 0, b""),
        Act(What::Syncs, 0, b"..xx"),
        Act(What::Calls(Mark::Stop(3)), 0, b""),
        Act(What::Syncs, 0, b"xxxx"),
    ],
    // a read of no byte is a call, too
    &[
        Act(What::Calls(Mark::Fail(1)), 0, b""),
        Act(What::ReadFails, 0, b""),
        Act(What::Reads, 0, b""),
    ],
];

#[test]
fn a_stop_lasts_until_a_cut_and_one_failure_comes_once(rt: HostRuntime) {
    plays(&rt, rt.alloc(), 1, ARMS);
}

/// Of four zeros two are written: whether that call is the last that comes through, and what is read then.
const LASTING: &[&[Act]] = &[
    &[
        Act(What::Size, 4, b""),
        Act(What::Calls(Mark::Stop(9)), 0, b""),
        Act(What::Writes(Then::Cut, true), 1, &[1, 2]),
        Act(What::Reads, 0, &[0, 1, 2, 0]),
    ],
    &[
        Act(What::Size, 4, b""),
        Act(What::Calls(Mark::Stop(2)), 0, b""),
        Act(What::Writes(Then::Cut, false), 1, &[1, 2]),
        Act(What::Reads, 0, &[0, 0xa7, 0xa7, 0]),
    ],
    &[
        Act(What::Size, 4, b""),
        Act(What::Calls(Mark::Stop(1)), 0, b""),
        Act(What::Writes(Then::Cut, false), 1, &[1, 2]),
        Act(What::Reads, 0, &[0, 0xa7, 0xa7, 0]),
    ],
];

#[test]
fn a_write_and_a_sync_outlast_a_cut(rt: HostRuntime) {
    plays(&rt, rt.alloc(), 4, LASTING);
}

const NEW: &[&[Act]] = &[&[
    Act(What::Size, 100, b""),
    Act(What::Reads, 0, &[0; 100]),
    Act(What::Writes(Then::Sync, true), 98, &[1, 2]),
    Act(What::Reads, 97, &[0, 1, 2]),
]];

#[test]
fn a_new_disk_reads_zeros(rt: HostRuntime) {
    plays(&rt, rt.alloc(), 100, NEW);
}

const TWICE_CUT: &[Act] = &[
    Act(What::Size, 3, b""),
    Act(What::Writes(Then::Nothing, true), 1, &[9]),
    Act(What::Calls(Mark::Cut(Torn::Fill(8))), 0, b""),
    Act(What::Writes(Then::Nothing, true), 0, &[1, 1]),
    Act(What::Calls(Mark::Cut(Torn::Old)), 0, b""),
    Act(What::Reads, 0, &[5, 8, 7]),
];

/// How many acts come out so over a disk in memory of these bytes.
fn done_over(alloc: Global, bytes: &[u8; 3], acts: &[Act]) -> usize {
    match MemDisk::of(alloc, bytes) {
        Ok(mut disk) => done(&mut disk, acts),
        Err(_) => 0,
    }
}

#[test]
fn a_cut_is_the_last_sync_of_what_it_left(rt: HostRuntime) {
    let done = done_over(rt.alloc(), &[5, 6, 7], TWICE_CUT);
    holds(&rt, done, done == 6);
}

/// One call of each kind; the second write fails.
const ONE_OF_EACH: &[Act] = &[
    Act(What::Size, 2, b""),
    Act(What::Writes(Then::Nothing, true), 0, &[7]),
    Act(What::Reads, 1, &[0]),
    Act(What::Calls(Mark::Fail(2)), 0, b""),
    Act(What::Syncs, 0, b"."),
    Act(What::Writes(Then::Nothing, false), 1, &[8]),
    Act(What::Calls(Mark::Stop(9)), 0, b""),
    Act(What::Calls(Mark::Cut(Torn::Old)), 0, b""),
];

/// The bytes, which of them are loose, and the mark.
const TOLD: &[([u8; 2], [bool; 2], Option<Mark>)] = &[
    ([0, 0], [false, false], None),
    ([7, 0], [true, false], None),
    ([7, 0], [true, false], None),
    ([7, 0], [true, false], Some(Mark::Fail(2))),
    ([7, 0], [false, false], None),
    ([7, 8], [false, true], None),
    ([7, 8], [false, true], Some(Mark::Stop(9))),
    ([7, 0], [false, false], Some(Mark::Cut(Torn::Old))),
];

/// Whether the entry has these bytes, marks of what is loose, and mark.
fn is_told(entry: &PastEntry, wanted: &([u8; 2], [bool; 2], Option<Mark>)) -> bool {
    entry.bytes.as_slice() == wanted.0.as_slice()
        && entry.loose.as_slice() == wanted.1.as_slice()
        && entry.mark == wanted.2
}

/// Whether each entry is as it is to be.
fn are_told(past: &[PastEntry]) -> bool {
    past.iter()
        .zip(TOLD)
        .all(|(entry, wanted)| is_told(entry, wanted))
}

/// Whether the disk tells eight entries, and none any more after the next call.
fn tells(disk: &mut TapeDisk) -> bool {
    let tells_eight = match disk.past() {
        Some(past) => past.len() == 8 && are_told(past),
        None => false,
    };
    tells_eight && syncs(disk, b".") && disk.past().is_none()
}

/// Whether it does so after one call of each kind.
fn tells_each(alloc: Global) -> bool {
    match TapeDisk::new(alloc, 2, 8) {
        Ok(mut disk) => done(&mut disk, ONE_OF_EACH) == 8 && tells(&mut disk),
        Err(_) => false,
    }
}

#[test]
fn a_tape_tells_the_state_and_the_mark_of_each_call(rt: HostRuntime) {
    holds(&rt, "eight entries", tells_each(rt.alloc()));
}
