//! What is done to a disk, and what comes of it: rows that one player does, over any disk.
ghost use Rattle.std.specs.Prelude.{◌+◌, ◌≤◌, IsTrue};

use cut_disk::{CutDisk, Disk, Mark, Torn, write_and_cut, write_and_sync};

/// What is done after a write.
#[derive(Clone, Copy)]
pub(crate) enum Then {
    Nothing,
    Sync,
    /// A sync, and a power cut that leaves a7 of each loose byte.
    Cut,
}

/// What another than the disk over a file does to the file, or finds, with a size or bytes.
#[derive(Clone, Copy)]
pub(crate) enum Other {
    /// The file has this size from now on.
    Resizes,
    /// It has these bytes from now on.
    Writes,
    /// Nobody may write it from now on.
    Protects,
    FindsSize,
    FindsBytes,
    /// Another disk over the file is one of 65,536 bytes, each of whose calls fails.
    IsLockedOut,
}

/// What is done to a disk.
#[derive(Clone, Copy)]
pub(crate) enum What {
    /// The disk has so many bytes.
    Size,
    /// A read from an address on gives these bytes, at most 100.
    Reads,
    /// A read of so many bytes fails.
    ReadFails,
    /// A write of these bytes from an address on, and what is done after it: whether all that is Ok.
    Writes(Then, bool),
    /// Syncs: a dot if one is Ok, an x if it fails.
    Syncs,
    /// In the same way a read of a byte, a write of 5 and 6, and a sync, from the address 0 on.
    Answers,
    Calls(Mark),
    /// Done by another, to the file that the disk is over; to any other disk nothing can be done so.
    Other(Other),
}

/// What is done, a size or an address, and bytes or answers.
pub(crate) struct Act(pub What, pub u64, pub &'static [u8]);

/// Whether the disk has so many bytes from this address on.
fn has<D: Disk>(disk: &D, at: u64, count: usize) -> bool
    ensures { IsTrue result → at + count ≤ (D.state disk.now).size }
{
    at <= disk.size() && disk.size() - at >= count as u64
}

/// Whether so many bytes are read.
fn is_read<D: Disk>(disk: &mut D, at: u64, out: &mut [u8]) -> bool {
    has(disk, at, out.len()) && disk.read(at, out).is_ok()
}

/// Whether bytes are read, and are these.
fn reads<D: Disk>(disk: &mut D, at: u64, bytes: &[u8]) -> bool {
    let mut out = [9; 100];
    let count = bytes.len();
    count <= 100 && is_read(disk, at, &mut out[..count]) && &out[..count] == bytes
}

/// Whether a read of so many bytes fails.
fn read_fails<D: Disk>(disk: &mut D, at: u64, count: usize) -> bool {
    count <= 100 && has(disk, at, count) && !is_read(disk, at, &mut [9; 100][..count])
}

fn writes<D: CutDisk>(disk: &mut D, at: u64, bytes: &[u8], then: Then) -> bool {
    if !has(disk, at, bytes.len()) {
        return false;
    }
    let answer = match then {
        Then::Nothing => disk.write(at, bytes),
        Then::Sync => write_and_sync(disk, at, bytes),
        Then::Cut => write_and_cut(disk, at, bytes, Torn::Fill(0xa7)),
    };
    answer.is_ok()
}

/// Whether syncs answer so.
pub(crate) fn syncs<D: Disk>(disk: &mut D, answers: &[u8]) -> bool {
    for answer in answers {
        if disk.sync().is_ok() != (*answer == b'.') {
            return false;
        }
    }
    true
}

/// The answers of a read, a write and a sync.
fn answers<D: CutDisk>(disk: &mut D) -> [bool; 3] {
    let is_read = is_read(disk, 0, &mut [0]);
    let is_written = writes(disk, 0, &[5, 6], Then::Nothing);
    [is_read, is_written, disk.sync().is_ok()]
}

/// Whether these are the answers.
pub(crate) fn answers_so<D: CutDisk>(disk: &mut D, wanted: &[u8]) -> bool {
    let answers = answers(disk);
    let dot = b'.';
    match wanted {
        [read, write, sync] => answers == [*read == dot, *write == dot, *sync == dot],
        _ => false,
    }
}

fn calls<D: CutDisk>(disk: &mut D, call: Mark) -> bool {
    match call {
        Mark::Cut(torn) => disk.power_cut(torn),
        Mark::Stop(calls) if calls > 0 => disk.stop_at(calls),
        Mark::Fail(calls) if calls > 0 => disk.fail_at(calls),
        _ => return false,
    }
    true
}

/// Whether this comes of it.
pub(crate) fn does<D: CutDisk>(disk: &mut D, act: &Act) -> bool {
    let (at, bytes) = (act.1, act.2);
    match act.0 {
        What::Size => disk.size() == at,
        What::Reads => reads(disk, at, bytes),
        What::ReadFails => read_fails(disk, at, bytes.len()),
        What::Writes(then, is_ok) => writes(disk, at, bytes, then) == is_ok,
        What::Syncs => syncs(disk, bytes),
        What::Answers => answers_so(disk, bytes),
        What::Calls(call) => calls(disk, call),
        What::Other(_) => false,
    }
}

/// How many acts come out as they are to, up to the first that doesn't.
pub(crate) fn done<D: CutDisk>(disk: &mut D, acts: &[Act]) -> usize {
    for (place, act) in acts.iter().enumerate() {
        if !does(disk, act) {
            return place;
        }
    }
    acts.len()
}
