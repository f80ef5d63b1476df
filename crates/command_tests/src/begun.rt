//! What is done over the disks of a replay whose sink fails: the events whose lines were begun, and no others. What is
//! written then is rows of checks/rows/bus_replay_runs.toml.
use crate::comparing::{holds, same};
use crate::playing::{Run, status_behind};
use crate::replays::{ORDINARY, TWO_DISKS, disks_of};
use cut_disk::{Disk, MemDisk};
use std::alloc::Global;
use std::process::Abort;
use std::test::Fail;

const GIVEN: &Run = &Run("replay B F", [ORDINARY, ""], 6, ["", ""]);

/// After how many lines the byte at an address of a node's disk is 1. The first four events put the cell of slot 1 and
/// then that of slot 4, of the first node and then of the second. Each has a line of ten bytes. The mark of the second
/// copy of a cell is 2 in a new twin store, and 1 after the first put.
const PUTS: &[(u64, usize, u64)] = &[(0, 0, 135), (1, 1, 135), (2, 0, 339), (3, 1, 339)];

fn is_one(disk: &mut MemDisk, at: u64) -> bool {
    let mut out = [0];
    at < disk.size() && disk.read(at, &mut out).is_ok() && out[0] == 1
}

fn is_put(disks: &mut [MemDisk], put: &(u64, usize, u64)) -> bool {
    match disks.get_mut(put.1) {
        Some(disk) => is_one(disk, put.2),
        None => false,
    }
}

fn are_begun(rt: &impl Abort, disks: &mut [MemDisk], written: u64) {
    for put in PUTS {
        holds(rt, written, is_put(disks, put) == (written / 10 >= put.0));
    }
}

/// A run whose sink fails once after so many bytes.
fn stops_behind(rt: &impl Abort, alloc: Global, written: u64) -> Result<(), Fail> {
    let mut disks = disks_of(alloc, 2_048, TWO_DISKS)?;
    let status = status_behind(alloc, GIVEN, written, &mut disks)?;
    same(rt, written, &status, &6);
    are_begun(rt, disks.as_mut_slice(), written);
    Ok(())
}

#[test]
fn nothing_more_is_done_behind_a_line_that_isnt_written(rt: HostRuntime) -> Result<(), Fail> {
    for written in 0..40u64 {
        stops_behind(&rt, rt.alloc(), written)?;
    }
    Ok(())
}
