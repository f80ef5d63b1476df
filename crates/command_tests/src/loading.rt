//! Requests that are loaded over a disk in memory that stops in a put, and what each kind of cut leaves of that put: a
//! file is left as it is. Which store counts, what is loaded into it, and sinks and files that fail are rows of
//! checks/.
use crate::comparing::same;
use any_cells::AnyCells;
use bus_port::MemSink;
use cell_store::{Kind, Version};
use cut_disk::{CutDisk, MemDisk, Torn};
use key_commands::{load_requests, open_loader};
use memory_update::Uid;
use secoc_words::read_loads;
use std::alloc::Global;
use std::process::Abort;
use std::test::Fail;

/// The request that puts the master key into slot 1 of an engine without keys, and that of the example of the SHE
/// specification.
const REQUESTS: &str =
    "00000000000000000000000000000111 889b716428bf0fd99aba27fc1fb1de0d6888b96edd73290b207883b92ebc9d5c 9a191bbc249466735e8699d751d99b1f\n00000000000000000000000000000141 2b111e2d93f486566bcbba1d7f7a9797c94643b050fc5d4d7de14cff682203c3 b9d745e5ace7d41860bc63c2b9f5bb46\n";

/// The answers if the disk stops in the put of the second. Then those of the next load: if both keys are there, and if
/// only the first is. The answer to the first was made by OpenSSL.
const STOPPED: &str =
    "loaded 000000000000000000000000000001117353dd885b971e09686842f169041ac8 b24b1a4961531a52743efca92549066f\nrefused MEMORY_FAILURE\n";

const AGAIN: &str = "refused KEY_UPDATE_ERROR\nrefused KEY_UPDATE_ERROR\n";

const FIRST_AGAIN: &str =
    "refused KEY_UPDATE_ERROR\nloaded 00000000000000000000000000000141b472e8d8727d70d57295e74849a27917 820d8d95dc11b4668878160cb2a4e23e\n";

/// Loads the requests into the engine whose identifier is 1: the disk then, and the status.
fn play(alloc: Global, disk: MemDisk, sink: &mut MemSink) -> Result<(MemDisk, u8), Fail> {
    let requests = read_loads(alloc, REQUESTS.as_bytes());
    let requests = requests.ok().ok_or("no requests")?;
    if requests.len() != 2 {
        return Err(Fail::from("not two requests"));
    }
    let mut uid = [0; 15];
    uid[14] = 1;
    match open_loader(alloc, Uid::of(uid), disk) {
        Ok(loader) => {
            let mut loader = loader;
            let status = load_requests(alloc, &mut loader, requests.as_slice(), sink);
            Ok((loader.release(), status))
        }
        Err(_) => Err(Fail::from("no engine")),
    }
}

/// The same, and compares the status and what is written.
fn answers(
    rt: &impl Abort,
    alloc: Global,
    disk: MemDisk,
    status: u8,
    output: &str,
) -> Result<MemDisk, Fail> {
    let mut sink = MemSink::new(alloc, 1024, Vec::new(alloc), 1024)?;
    let (disk, found) = play(alloc, disk, &mut sink)?;
    let told = (found, sink.bytes());
    same(rt, output, &told, &(status, output.as_bytes()));
    Ok(disk)
}

/// A disk with a fresh twin store of 14 empty slots.
fn fresh(alloc: Global) -> Result<MemDisk, Fail> {
    let disk = MemDisk::new(alloc, 40_000)?;
    match AnyCells::format_as(disk, Kind::Twin, Version::One, &[[0; 32]; 14]) {
        Ok(disk) => Ok(disk),
        Err(refused) => Err(Fail::from(refused.fault)),
    }
}

/// The calls of a disk at which it stops within the second's put, a kind of cut, and the answers to the requests when
/// they are loaded again. The first is in the store, and the second is there whole or not at all. Two calls look for
/// the store, 15 attach it, and each put has 6. The fifth of these writes the gate that makes the new cell count, at an
/// even address: it was 00 at the last sync.
struct Stop(&'static [u64], Torn, &'static str);

const PUT: &[u64] = &[24, 25, 26, 27, 28, 29];

const BEFORE_THE_GATE: &[u64] = &[24, 25, 26, 27];

const AT_THE_GATE: &[u64] = &[28, 29];

const STOPS: &[Stop] = &[
    Stop(BEFORE_THE_GATE, Torn::Keep, FIRST_AGAIN),
    Stop(BEFORE_THE_GATE, Torn::Half, FIRST_AGAIN),
    Stop(BEFORE_THE_GATE, Torn::Fill(0xa7), FIRST_AGAIN),
    Stop(PUT, Torn::Old, FIRST_AGAIN),
    Stop(PUT, Torn::Fill(0), FIRST_AGAIN),
    Stop(AT_THE_GATE, Torn::Keep, AGAIN),
    Stop(AT_THE_GATE, Torn::Half, AGAIN),
    Stop(AT_THE_GATE, Torn::Fill(0xa7), AGAIN),
];

/// Loads the requests over a disk that stops at this call: the disk then, after a cut.
fn cut_within(rt: &impl Abort, alloc: Global, call: u64, torn: Torn) -> Result<MemDisk, Fail> {
    let mut disk = fresh(alloc)?;
    if call == 0 {
        return Err(Fail::from("no call"));
    }
    disk.stop_at(call);
    let mut disk = answers(rt, alloc, disk, 10, STOPPED)?;
    disk.power_cut(torn);
    Ok(disk)
}

/// Loads the requests again after each stop of a row.
fn check_stops(rt: &impl Abort, alloc: Global, row: &Stop) -> Result<(), Fail> {
    for call in row.0 {
        let disk = cut_within(rt, alloc, *call, row.1)?;
        answers(rt, alloc, disk, 0, row.2)?;
    }
    Ok(())
}

#[test]
fn a_cut_leaves_the_slot_of_a_load_whole_or_as_it_was(rt: HostRuntime) -> Result<(), Fail> {
    for row in STOPS {
        check_stops(&rt, rt.alloc(), row)?;
    }
    Ok(())
}
