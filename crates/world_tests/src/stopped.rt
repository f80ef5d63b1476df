//! A start that moves two nodes to version 2, and stops at any call of the second disk: started again, it makes the
//! same store.
ghost use Rattle.std.specs.Prelude.{◌≤◌};

use crate::attached::{SIZE, pair};
use crate::bench::{bytes_at, disks, starts};
use crate::comparing::{holds, same};
use bus_config::BusConfig;
use bus_world::{Start, StartFault};
use cell_store::{Kind, Reread, Version};
use cut_disk::{CutDisk, Disk, MemDisk, Torn};
use std::alloc::Global;
use std::process::Abort;
use std::test::Fail;

/// A start that formats these disks as stores of version 1.
fn formats(alloc: Global, kind: Kind, made: &mut Vec<MemDisk>) -> Result<Option<StartFault>, Fail> {
    let bus = pair(alloc, kind, Version::One)?;
    Ok(starts(alloc, &bus, made, Start::Format))
}

/// The disks of the bus, formatted so.
fn standing(alloc: Global, kind: Kind) -> Result<Vec<MemDisk>, Fail> {
    let mut made = disks(alloc, &[SIZE, SIZE])?;
    match formats(alloc, kind, &mut made)? {
        None => Ok(made),
        Some(fault) => Err(Fail::from(fault)),
    }
}

/// The bytes of the disks of a bus with stores of version 1, and the second's store after its move to version 2.
#[derive(Drop)]
struct Laid {
    first: [u8; SIZE],
    second: [u8; SIZE],
    moved: [u8; STORE_SIZE],
}

/// The bytes of a disk of 40,000 from 32,768 on, where a store of version 2 stands.
const STORE_SIZE: usize = 7_232;

fn store_of(disk: &mut MemDisk) -> Result<[u8; STORE_SIZE], Fail> {
    let mut bytes = [0; STORE_SIZE];
    if disk.size() != 40_000 {
        return Err(Fail::from("a disk of another size"));
    }
    disk.read(32_768, &mut bytes)?;
    Ok(bytes)
}

/// A start that isn't refused, and the store of the second disk then.
fn moved_store(
    alloc: Global,
    bus: &BusConfig,
    made: &mut Vec<MemDisk>,
) -> Result<[u8; STORE_SIZE], Fail> {
    if starts(alloc, bus, made, Start::Attach).is_some() || made.len() != 2 {
        return Err(Fail::from("not started"));
    }
    store_of(&mut made[1])
}

fn lay(alloc: Global, bus: &BusConfig) -> Result<Laid, Fail> {
    let mut made = standing(alloc, bus.kind())?;
    let first = bytes_at(made.as_mut_slice(), 1)?;
    let second = bytes_at(made.as_mut_slice(), 2)?;
    let moved = moved_store(alloc, bus, &mut made)?;
    Ok(Laid {
        first,
        second,
        moved,
    })
}

/// The disks with the stores of version 1; the second stops at this call.
fn stopping(alloc: Global, laid: &Laid, call: u64) -> Result<Vec<MemDisk>, Fail>
    requires { 1 ≤ call }
{
    let mut made = Vec::new(alloc);
    made.push(MemDisk::of(alloc, &laid.first)?)?;
    let mut second = MemDisk::of(alloc, &laid.second)?;
    second.stop_at(call);
    made.push(second)?;
    Ok(made)
}

/// Starts over them, cuts the power of the second and starts again: how the first start was refused, and the store of
/// the second.
fn stop_and_start(
    alloc: Global,
    bus: &BusConfig,
    made: &mut Vec<MemDisk>,
    torn: Torn,
) -> Result<(Option<StartFault>, [u8; STORE_SIZE]), Fail> {
    let fault = starts(alloc, bus, made, Start::Attach);
    if made.len() != 2 {
        return Err(Fail::from("two disks"));
    }
    made[1].power_cut(torn);
    Ok((fault, moved_store(alloc, bus, made)?))
}

/// A start that stops at this call.
fn is_moved(
    rt: &impl Abort,
    alloc: Global,
    bus: &BusConfig,
    laid: &Laid,
    stop: (u64, Torn),
    is_done: bool,
) -> Result<(), Fail>
    requires { 1 ≤ stop.0 }
{
    let mut made = stopping(alloc, laid, stop.0)?;
    let (fault, after) = stop_and_start(alloc, bus, &mut made, stop.1)?;
    let refused = StartFault::Store(2, Reread::DiskFailed);
    let wanted = if is_done { None } else { Some(refused) };
    same(rt, "fault", &fault, &wanted);
    holds(rt, "after", after == laid.moved);
    Ok(())
}

/// Starts over stores of this kind. The second disk has so many calls: a look of two calls, a move, and all reads. They
/// stop at each call, and the power is cut in each of these ways.
fn stops(rt: &impl Abort, alloc: Global, kind: Kind, calls: u16, cuts: &[Torn]) -> Result<(), Fail>
    requires { calls ≤ 1000 }
{
    let bus = pair(alloc, kind, Version::Two)?;
    let laid = lay(alloc, &bus)?;
    for torn in cuts {
        for call in 0..calls + 1 {
            let stop = (u64::from(call) + 1, *torn);
            is_moved(rt, alloc, &bus, &laid, stop, call >= calls)?;
        }
    }
    Ok(())
}

#[test]
fn a_start_over_twin_stores_that_is_stopped_moves_the_same_cells(
    rt: HostRuntime,
) -> Result<(), Fail> {
    let cuts = [
        Torn::Keep,
        Torn::Old,
        Torn::Half,
        Torn::Fill(0xa7),
        Torn::Fill(0),
    ];
    stops(&rt, rt.alloc(), Kind::Twin, 53, &cuts)
}

#[test]
fn a_start_over_log_stores_that_is_stopped_moves_the_same_cells(
    rt: HostRuntime,
) -> Result<(), Fail> {
    stops(&rt, rt.alloc(), Kind::Log, 342, &[Torn::Keep, Torn::Old])
}

#[test]
fn a_start_over_log_stores_that_are_torn_moves_the_same_cells(rt: HostRuntime) -> Result<(), Fail> {
    let cuts = [Torn::Half, Torn::Fill(0xa7), Torn::Fill(0)];
    stops(&rt, rt.alloc(), Kind::Log, 342, &cuts)
}
