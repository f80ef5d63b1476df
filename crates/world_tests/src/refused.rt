//! What a start doesn't go on over at its second node, which is named, with the disk as it was. A program that starts
//! over disks that stand has one node: its stores and files are rows of checks/rows/node.toml.
use crate::attached::{SIZE, pair};
use crate::bench::{STORES, bytes_at, disks, starts};
use crate::comparing::same;
use bus_world::{Start, StartFault};
use cell_store::{Kind, Reread, Version};
use cut_disk::{CutDisk, Disk, MemDisk};
use key_slots::SlotId;
use std::alloc::Global;
use std::process::Abort;
use std::test::Fail;

/// A kind of store and its version.
type Layout = (Kind, Version);

const TWIN_ONE: Layout = (Kind::Twin, Version::One);

const TWIN_TWO: Layout = (Kind::Twin, Version::Two);

const LOG_ONE: Layout = (Kind::Log, Version::One);

const LOG_TWO: Layout = (Kind::Log, Version::Two);

/// The fault of the node.
#[derive(Clone, Copy)]
enum Refused {
    Store(Reread),
    Slot(u8),
    Bound(u16),
}

/// The store that stood, the one that is looked for, the places of the second node's disk that get these bytes, and the
/// fault.
struct Row(Layout, Layout, &'static [u64], &'static [u8], Refused);

/// No slot and no bound.
const NO_CELL: &[u8] = &[0xff; 32];

/// Bytes of the header; the gates of both copies of the second cell of a twin store, and of the first bank of a log
/// store; slot 13 of a log store, with the bound after it, of which the slot is named; and the bound, in both copies of
/// a twin store.
const ROWS: &[Row] = &[
    Row(
        LOG_ONE,
        LOG_ONE,
        &[31],
        &[1],
        Refused::Store(Reread::NotFormatted),
    ),
    Row(
        LOG_TWO,
        LOG_TWO,
        &[32_779],
        &[14],
        Refused::Store(Reread::NotFormatted),
    ),
    Row(
        TWIN_ONE,
        TWIN_ONE,
        &[100, 134],
        &[0],
        Refused::Store(Reread::Damaged(1)),
    ),
    Row(
        TWIN_ONE,
        TWIN_TWO,
        &[100, 134],
        &[0],
        Refused::Store(Reread::Damaged(1)),
    ),
    Row(
        LOG_TWO,
        LOG_TWO,
        &[32_800],
        &[0],
        Refused::Store(Reread::Damaged(0)),
    ),
    Row(
        LOG_TWO,
        LOG_TWO,
        &[33_218, 33_250],
        NO_CELL,
        Refused::Slot(13),
    ),
    Row(
        TWIN_TWO,
        TWIN_TWO,
        &[33_754, 33_788],
        NO_CELL,
        Refused::Bound(14),
    ),
];

/// A start over these disks as such stores.
fn starts_as(
    alloc: Global,
    store: Layout,
    made: &mut Vec<MemDisk>,
    start: Start,
) -> Result<Option<StartFault>, Fail> {
    let bus = pair(alloc, store.0, store.1)?;
    Ok(starts(alloc, &bus, made, start))
}

/// The disks of the bus, formatted as these stores.
fn standing(alloc: Global, store: Layout) -> Result<Vec<MemDisk>, Fail> {
    let mut made = disks(alloc, &[SIZE, SIZE])?;
    match starts_as(alloc, store, &mut made, Start::Format)? {
        None => Ok(made),
        Some(fault) => Err(Fail::from(fault)),
    }
}

/// From each of these places on a disk has these bytes.
fn writes(disk: &mut MemDisk, places: &[u64], bytes: &[u8]) -> Result<(), Fail> {
    for place in places {
        if bytes.len() > 32 || *place > 39_968 || disk.size() != 40_000 {
            return Err(Fail::from("no such place"));
        }
        disk.write(*place, bytes)?;
    }
    disk.sync()?;
    Ok(())
}

/// Does the harm of a row to the second disk.
fn harms(disks: &mut [MemDisk], row: &Row) -> Result<(), Fail> {
    if disks.len() != 2 {
        return Err(Fail::from("not two disks"));
    }
    writes(&mut disks[1], row.2, row.3)
}

/// The fault of the second node.
fn fault_of(refused: Refused) -> Result<StartFault, Fail> {
    Ok(match refused {
        Refused::Store(reread) => StartFault::Store(2, reread),
        Refused::Slot(slot) => StartFault::BadSlot(2, SlotId::new(slot).ok_or("a slot")?),
        Refused::Bound(cell) => StartFault::BadBound(2, cell),
    })
}

/// The start over these disks is refused, and the second is as it was.
fn is_refused(
    rt: &impl Abort,
    alloc: Global,
    row: &Row,
    made: &mut Vec<MemDisk>,
) -> Result<(), Fail> {
    let before = bytes_at(made.as_mut_slice(), 2)?;
    let fault = starts_as(alloc, row.1, made, Start::Attach)?;
    same(rt, "fault", &fault, &Some(fault_of(row.4)?));
    let after = bytes_at(made.as_mut_slice(), 2)?;
    same(rt, "as it was", &(after == before), &true);
    Ok(())
}

fn refuses(rt: &impl Abort, alloc: Global, row: &Row) -> Result<(), Fail> {
    let mut made = standing(alloc, row.0)?;
    harms(made.as_mut_slice(), row)?;
    is_refused(rt, alloc, row, &mut made)
}

#[test]
fn what_is_no_store_of_the_second_node_is_refused_under_its_number(
    rt: HostRuntime,
) -> Result<(), Fail> {
    for row in ROWS {
        refuses(&rt, rt.alloc(), row)?;
    }
    Ok(())
}

/// The second of these disks fails at this call.
fn arms(made: &mut [MemDisk], call: u64) -> Result<(), Fail> {
    if made.len() != 2 || call == 0 {
        return Err(Fail::from("not two disks, or no call"));
    }
    made[1].fail_at(call);
    Ok(())
}

fn fails_at(rt: &impl Abort, alloc: Global, store: Layout, call: u64) -> Result<(), Fail> {
    let mut made = standing(alloc, store)?;
    let before = bytes_at(made.as_mut_slice(), 2)?;
    arms(made.as_mut_slice(), call)?;
    let fault = starts_as(alloc, store, &mut made, Start::Attach)?;
    let wanted = StartFault::Store(2, Reread::DiskFailed);
    same(rt, call, &fault, &Some(wanted));
    let after = bytes_at(made.as_mut_slice(), 2)?;
    same(rt, "as it was", &(after == before), &true);
    Ok(())
}

/// The look at a store that stands, and what is read after it.
#[test]
fn a_second_disk_that_fails_as_it_is_looked_at_is_named(rt: HostRuntime) -> Result<(), Fail> {
    for store in STORES {
        for call in 1..5u64 {
            fails_at(&rt, rt.alloc(), store, call)?;
        }
    }
    Ok(())
}
