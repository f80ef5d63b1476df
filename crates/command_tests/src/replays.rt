//! Whole replays over disks and ports in memory: what a program over disks of its own can't show. What it can is a row
//! of checks/.
use crate::comparing::holds;
use crate::playing::{Run, Text, plays, plays_once};
use cut_disk::{CutDisk, MemDisk, TapeDisk};
use file_disk::{ByteFile, FileDisk, FileFailed, HeldFile, room_to_hold};
use std::alloc::{AllocError, Global};
use std::process::Abort;
use std::test::Fail;

/// Keys for both nodes, under a master key that each gets first, and a PDU that is sent, delivered twice, and altered.
/// The key and the MAC are of the second CMAC example of SP 800-38B.
pub(crate) const ORDINARY: &str =
    "key left - 1 1 ffffffffffffffffffffffffffffffff 1 00000 000102030405060708090a0b0c0d0e0f\nkey right - 1 1 ffffffffffffffffffffffffffffffff 1 00000 000102030405060708090a0b0c0d0e0f\nkey left - 4 1 000102030405060708090a0b0c0d0e0f 1 00010 2b7e151628aed2a6abf7158809cf4f3c\nkey right - 4 1 000102030405060708090a0b0c0d0e0f 1 00010 2b7e151628aed2a6abf7158809cf4f3c\nsend left 6bc1 bee22e409f96\ndeliver right 5\ndeliver right 5\ninject right 6bc1 bee22e409f972a070a16\n";

const ORDINARY_LINES: &str =
    "1 keyed 1\n2 keyed 1\n3 keyed 4\n4 keyed 4\n5 sent 6bc1 e93d7e117393172a bee22e409f962a070a16\n6 accepted 6bc1 e93d7e117393172a bee22e409f96 from 5\n7 VERIFICATIONFAILURE\n8 VERIFICATIONFAILURE\n";

/// The key for both nodes, and a PDU that is sent.
const SENT: &str =
    "key left - 4 4 ffffffffffffffffffffffffffffffff 1 00010 2b7e151628aed2a6abf7158809cf4f3c\nkey right - 4 4 ffffffffffffffffffffffffffffffff 1 00010 2b7e151628aed2a6abf7158809cf4f3c\nsend left 6bc1 bee22e409f96\n";

const SENT_LINES: &str =
    "1 keyed 4\n2 keyed 4\n3 sent 6bc1 e93d7e117393172a bee22e409f962a070a16\n";

const REPLAY: &str = "replay B F";

/// The ordinary run; a stop within the write of the receiver's bound, a cut, and the delivery again; and a cut that
/// fails.
const PAST: &[Run] = &[
    Run(REPLAY, [ORDINARY, ""], 0, [ORDINARY_LINES, ""]),
    Run(
        REPLAY,
        [
            SENT,
            "stop right 2\ndeliver right 3\ndeliver right 3\ncut right old\ndeliver right 3\n",
        ],
        0,
        [
            SENT_LINES,
            "4 armed\n5 refused MEMORY_FAILURE\n6 refused Down\n7 up\n8 accepted 6bc1 e93d7e117393172a bee22e409f96 from 3\n",
        ],
    ),
    Run(
        REPLAY,
        [
            SENT,
            "stop right 6\ndeliver right 3\ndeliver right 3\ncut right keep\ndeliver right 3\n",
        ],
        0,
        [
            SENT_LINES,
            "4 armed\n5 refused MEMORY_FAILURE\n6 refused Down\n7 up\n8 VERIFICATIONFAILURE\n",
        ],
    ),
    Run(
        REPLAY,
        [
            SENT,
            "stop right 6\ndeliver right 3\ndeliver right 3\ncut right old\ndeliver right 3\n",
        ],
        0,
        [
            SENT_LINES,
            "4 armed\n5 refused MEMORY_FAILURE\n6 refused Down\n7 up\n8 accepted 6bc1 e93d7e117393172a bee22e409f96 from 3\n",
        ],
    ),
    Run(
        REPLAY,
        [SENT, "fail right 1\ncut right keep\ncut right keep\n"],
        0,
        [SENT_LINES, "4 armed\n5 refused MEMORY_FAILURE\n6 up\n"],
    ),
];

/// The bytes of a disk: as many as the store takes, one fewer, or a number.
#[derive(Clone, Copy)]
pub(crate) enum Size {
    Least,
    OneLess,
    Of(usize),
}

impl Size {
    /// As many, if the store takes so many.
    fn bytes(self, least: usize) -> usize {
        match self {
            Size::Least => least,
            Size::OneLess => least.saturating_sub(1),
            Size::Of(number) => number,
        }
    }
}

/// Two disks of as many bytes.
pub(crate) const TWO_DISKS: &[Size] = &[Size::Least, Size::Least];

/// A disk in memory of so many bytes.
fn disk_of(alloc: Global, bytes: usize) -> Result<MemDisk, AllocError> {
    if bytes > 65_536 {
        return Err(AllocError);
    }
    match MemDisk::new(alloc, bytes) {
        Ok(disk) => Ok(disk),
        Err(_) => Err(AllocError),
    }
}

/// Disks in memory of these sizes.
pub(crate) fn disks_of(
    alloc: Global,
    least: usize,
    sizes: &[Size],
) -> Result<Vec<MemDisk>, AllocError> {
    let mut disks = Vec::new(alloc);
    for size in sizes {
        disks.push(disk_of(alloc, size.bytes(least))?)?;
    }
    Ok(disks)
}

/// Two disks that tell their past.
pub(crate) fn tapes_of(alloc: Global) -> Result<Vec<TapeDisk>, Fail> {
    let mut tapes = Vec::new(alloc);
    for _ in 0..2 {
        tapes.push(TapeDisk::new(alloc, 2_048, 400)?)?;
    }
    Ok(tapes)
}

/// A run over two disks that tell their past.
fn over_tapes(rt: &impl Abort, alloc: Global, given: &Run) -> Result<(), Fail> {
    let mut tapes = tapes_of(alloc)?;
    plays(rt, alloc, "", given, &mut tapes)?;
    for tape in tapes.as_slice() {
        holds(rt, "the past is told", tape.past().is_some());
    }
    Ok(())
}

/// The same lines that a row of checks/ has of disks that don't tell it.
#[test]
fn disks_that_tell_their_past_print_the_same(rt: HostRuntime) -> Result<(), Fail> {
    for row in PAST {
        over_tapes(&rt, rt.alloc(), row)?;
    }
    Ok(())
}

/// The bytes that the store of a node with one route takes, in each layout.
const LAYOUTS: &[(&str, usize)] = &[
    ("", 1_052),
    ("store = \"log\"\n", 5_476),
    ("version = 2\n", 33_820),
    ("store = \"log\"\nversion = 2\n", 38_244),
];

/// The summary of a trial of one event of the seed 0, a power cut, after the keys of two nodes: the same each time.
const TRIED: &str = "events 21\nsent 0\naccepted 0\nfailures 0\nkeyed 20\ncuts 1\nrefused 0\n";

/// Disks, and the run over them.
struct Start(&'static [Size], Run);

const TWICE_100: &[Size] = &[Size::Of(100), Size::Of(100)];

const STARTS: &[Start] = &[
    Start(&[], Run(REPLAY, [SENT, ""], 9, ["disks: too few\n", ""])),
    Start(
        &[Size::Least],
        Run(REPLAY, [SENT, ""], 9, ["disks: too few\n", ""]),
    ),
    Start(
        TWICE_100,
        Run(REPLAY, [SENT, ""], 9, ["disks: node 1 too small\n", ""]),
    ),
    Start(
        &[Size::Least, Size::OneLess],
        Run(REPLAY, [SENT, ""], 9, ["disks: node 2 too small\n", ""]),
    ),
    Start(TWO_DISKS, Run(REPLAY, [SENT, ""], 0, [SENT_LINES, ""])),
    Start(
        &[Size::Of(65_536), Size::Of(65_536), Size::Of(0)],
        Run(REPLAY, [SENT, ""], 0, [SENT_LINES, ""]),
    ),
    Start(TWO_DISKS, Run("trial B 1 0", [SENT, ""], 0, [TRIED, ""])),
    Start(TWO_DISKS, Run("trial B 1 0", [SENT, ""], 0, [TRIED, ""])),
    Start(
        TWICE_100,
        Run(
            "trial B 1 0",
            [SENT, ""],
            9,
            ["disks: node 1 too small\n", ""],
        ),
    ),
];

/// Each start in one of the layouts.
fn starts_or_not(
    rt: &impl Abort,
    alloc: Global,
    layout: &'static str,
    least: usize,
) -> Result<(), Fail> {
    for row in STARTS {
        plays_once(rt, alloc, layout, &row.1, disks_of(alloc, least, row.0)?)?;
    }
    Ok(())
}

#[test]
fn disks_that_are_too_few_or_too_small_are_told(rt: HostRuntime) -> Result<(), Fail> {
    for (layout, least) in LAYOUTS {
        starts_or_not(&rt, rt.alloc(), *layout, *least)?;
    }
    Ok(())
}

const STARTED: &Run = &Run(REPLAY, ["", ""], 0, ["", ""]);

const FIRST_FAILED: &Run = &Run(REPLAY, ["", ""], 10, ["store: node 1: DiskFailed\n", ""]);

const SECOND_FAILED: &Run = &Run(REPLAY, ["", ""], 10, ["store: node 2: DiskFailed\n", ""]);

/// A node whose disk fails, the call at which it does, and a replay of nothing. A start over a twin store of fifteen
/// cells makes twenty calls to format it and sixteen to read it.
const FAILURES: &[(usize, u64, &Run)] = &[
    (0, 1, FIRST_FAILED),
    (0, 20, FIRST_FAILED),
    (0, 36, FIRST_FAILED),
    (0, 37, STARTED),
    (1, 1, SECOND_FAILED),
    (1, 20, SECOND_FAILED),
    (1, 36, SECOND_FAILED),
    (1, 37, STARTED),
];

/// Two disks; that of this node fails at this call.
fn failing_disks(alloc: Global, node: usize, call: u64) -> Result<Vec<MemDisk>, Fail> {
    let mut disks = disks_of(alloc, 2_048, TWO_DISKS)?;
    match disks.as_mut_slice().get_mut(node) {
        Some(disk) if call >= 1 => disk.fail_at(call),
        _ => return Err(Fail::from("no disk")),
    }
    Ok(disks)
}

#[test]
fn a_disk_that_fails_at_the_start_is_named(rt: HostRuntime) -> Result<(), Fail> {
    for (node, call, given) in FAILURES {
        let disks = failing_disks(rt.alloc(), *node, *call)?;
        plays_once(&rt, rt.alloc(), "", given, disks)?;
    }
    Ok(())
}

/// A file in memory that has lost one byte: at this address it reads as `byte`.
#[derive(Drop)]
pub(crate) struct WornFile {
    bytes: Vec<u8>,
    at: usize,
    byte: u8,
}

impl ByteFile for WornFile {
    ghost use Rattle.std.specs.Prelude.{true, None, vec_len};

    ghost is_open = { λ _. true };

    ghost calls = { λ _. None };

    ghost told = { λ _. None };

    ghost length_at_first = { λ file. vec_len file.bytes };

    fn size(&self) -> u64 {
        self.bytes.len() as u64
    }

    fn read_at(&mut self, at: u64, out: &mut [u8]) -> Result<(), FileFailed> {
        for (place, byte) in out.iter_mut().enumerate() {
            let address = (at as usize).saturating_add(place);
            *byte = match self.bytes.get(address) {
                Some(_) if address == self.at => self.byte,
                Some(kept) => *kept,
                None => return Err(FileFailed),
            };
        }
        Ok(())
    }

    fn write_at(&mut self, at: u64, bytes: &[u8]) -> Result<(), FileFailed> {
        for (place, byte) in bytes.iter().enumerate() {
            match self.bytes.get_mut((at as usize).saturating_add(place)) {
                Some(kept) => *kept = *byte,
                None => return Err(FileFailed),
            }
        }
        Ok(())
    }

    fn sync_all(&mut self) -> Result<(), FileFailed> {
        Ok(())
    }
}

const LOG: &str = "store = \"log\"\n";

/// A layout, the address and the byte that the second disk reads there, and the run: the first byte of the header, the
/// mark of a copy that counts, the first byte of a slot's cell and of a bound's; and a byte that no cell has.
struct Otherwise(&'static str, usize, u8, Run);

const READ_OTHERWISE: &[Otherwise] = &[
    Otherwise(
        "",
        0,
        0,
        Run(
            REPLAY,
            [SENT, ""],
            10,
            ["store: node 2: NotFormatted\n", ""],
        ),
    ),
    Otherwise(
        "",
        985,
        3,
        Run(REPLAY, [SENT, ""], 10, ["store: node 2: Damaged 14\n", ""]),
    ),
    Otherwise(
        "",
        918,
        7,
        Run(REPLAY, [SENT, ""], 10, ["store: node 2: BadSlot 13\n", ""]),
    ),
    Otherwise(
        "",
        986,
        1,
        Run(REPLAY, [SENT, ""], 10, ["store: node 2: BadBound 14\n", ""]),
    ),
    Otherwise("", 1_052, 1, Run(REPLAY, [SENT, ""], 0, [SENT_LINES, ""])),
    Otherwise(
        LOG,
        31,
        1,
        Run(
            REPLAY,
            [SENT, ""],
            10,
            ["store: node 2: NotFormatted\n", ""],
        ),
    ),
    Otherwise(
        LOG,
        32,
        0,
        Run(REPLAY, [SENT, ""], 10, ["store: node 2: Damaged 0\n", ""]),
    ),
    Otherwise(
        LOG,
        549,
        0xa7,
        Run(REPLAY, [SENT, ""], 10, ["store: node 2: Damaged 2\n", ""]),
    ),
];

fn worn(alloc: Global, at: usize, byte: u8) -> Result<FileDisk<WornFile>, AllocError> {
    let bytes = vec![in alloc; 0; 65_536]?;
    Ok(FileDisk::over(WornFile { bytes, at, byte }, 65_536))
}

fn worn_disks(alloc: Global, at: usize, byte: u8) -> Result<Vec<FileDisk<WornFile>>, AllocError> {
    let mut disks = Vec::new(alloc);
    for (at, byte) in [(65_536, 0), (at, byte)] {
        disks.push(worn(alloc, at, byte)?)?;
    }
    Ok(disks)
}

/// Over disks that tell no bytes, and read otherwise than they were written.
#[test]
fn what_is_read_again_otherwise_is_told(rt: HostRuntime) -> Result<(), Fail> {
    for row in READ_OTHERWISE {
        let disks = worn_disks(rt.alloc(), row.1, row.2)?;
        plays_once(&rt, rt.alloc(), row.0, &row.3, disks)?;
    }
    Ok(())
}

/// A disk over such a file with its bytes in memory.
fn held(alloc: Global, at: usize, byte: u8) -> Result<FileDisk<HeldFile<WornFile>>, AllocError> {
    let room = room_to_hold(alloc)?;
    let bytes = vec![in alloc; 0; 65_536]?;
    Ok(FileDisk::held(WornFile { bytes, at, byte }, room))
}

pub(crate) fn held_disks(
    alloc: Global,
    at: usize,
    byte: u8,
) -> Result<Vec<FileDisk<HeldFile<WornFile>>>, AllocError> {
    let mut disks = Vec::new(alloc);
    for (at, byte) in [(65_536, 0), (at, byte)] {
        disks.push(held(alloc, at, byte)?)?;
    }
    Ok(disks)
}

const HELD_FAILED: &Run = &Run(REPLAY, [SENT, ""], 10, ["store: node 2: DiskFailed\n", ""]);

/// What comes of a run over a disk that reads otherwise, which counts as one that failed.
fn failed(given: &'static Run) -> &'static Run {
    if given.2 == 0 { given } else { HELD_FAILED }
}

/// Over disks that tell their bytes: what reads otherwise than it was written is a disk that failed.
#[test]
fn what_a_held_file_reads_otherwise_is_a_failed_disk(rt: HostRuntime) -> Result<(), Fail> {
    for row in READ_OTHERWISE {
        let disks = held_disks(rt.alloc(), row.1, row.2)?;
        plays_once(&rt, rt.alloc(), row.0, failed(&row.3), disks)?;
    }
    Ok(())
}
