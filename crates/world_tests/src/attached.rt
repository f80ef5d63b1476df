//! Worlds that go on where their disks stand: further lives, and stores that are moved to version 2.
use crate::bench::{
    Act, NodeRow, RouteRow, Row, STORES, Told, are_of, bus_of, disks, lives, starts,
};
use crate::comparing::same;
use crate::lives::{have_marks, tapes};
use bus_config::BusConfig;
use bus_world::{Start, StartFault};
use cell_store::{Kind, Reread, Version};
use cut_disk::{CutDisk, Disk, MemDisk};
use freshness_routes::Direction;
use std::alloc::Global;
use std::process::Abort;
use std::test::Fail;

/// `left` sends this Data ID and `right` receives it, both with the key of their slot 4.
pub(crate) const ID: u16 = 0x6bc1;

pub(crate) const START: u64 = 0xe93d_7e11_7393_1729;

pub(crate) const PAYLOAD: &[u8] = b"\xbe\xe2\x2e\x40\x9f\x96";

/// `left` gets its key, which an empty slot takes, and sends.
const FIRST_LIFE: &[Row] = &[
    Row(0, Act::Key(2), Told::Keyed),
    Row(
        0,
        Act::Send(ID, PAYLOAD),
        Told::Sent(ID, START + 1, b"\xbe\xe2\x2e\x40\x9f\x96\x2a\x07\x0a\x16"),
    ),
];

/// A filled slot refuses it; the reserve is 4.
const SECOND_LIFE: &[Row] = &[
    Row(0, Act::Key(2), Told::Filled),
    Row(
        0,
        Act::Send(ID, PAYLOAD),
        Told::Sent(ID, START + 5, b"\xbe\xe2\x2e\x40\x9f\x96\x2e\x56\x7e\x86"),
    ),
];

const PAIR: &[NodeRow] = &[
    NodeRow(b"left", 2, &[RouteRow(ID, Direction::Sends, 4, 4, START)]),
    NodeRow(
        b"right",
        3,
        &[RouteRow(ID, Direction::Receives, 4, 1, START)],
    ),
];

/// A bus of two nodes.
pub(crate) fn pair(alloc: Global, kind: Kind, version: Version) -> Result<BusConfig, Fail> {
    bus_of(alloc, kind, version, PAIR)
}

/// A life over these disks, which come back.
fn lives_in<D: CutDisk + Drop>(
    rt: &impl Abort,
    alloc: Global,
    store: (Kind, Version),
    disks: Vec<D>,
    rows: &[Row],
) -> Result<Vec<D>, Fail> {
    let bus = pair(alloc, store.0, store.1)?;
    lives(rt, alloc, &bus, disks, 2, Start::Attach, rows)
}

/// The first life of the bus over stores of the first version, and its second over those of the other.
fn two_lives<D: CutDisk + Drop>(
    rt: &impl Abort,
    alloc: Global,
    kind: Kind,
    versions: (Version, Version),
    disks: Vec<D>,
) -> Result<Vec<D>, Fail> {
    let disks = lives_in(rt, alloc, (kind, versions.0), disks, FIRST_LIFE)?;
    lives_in(rt, alloc, (kind, versions.1), disks, SECOND_LIFE)
}

/// The size of each disk.
pub(crate) const SIZE: usize = 40_000;

/// Both lives over disks in memory, which come back in their order.
fn goes_on(rt: &impl Abort, alloc: Global, kind: Kind, version: Version) -> Result<(), Fail> {
    let made = disks(alloc, &[SIZE, SIZE])?;
    let made = two_lives(rt, alloc, kind, (version, version), made)?;
    are_of(rt, made.as_slice(), &[SIZE, SIZE]);
    Ok(())
}

#[test]
fn a_bus_goes_on_where_its_disks_stand(rt: HostRuntime) -> Result<(), Fail> {
    for (kind, version) in STORES {
        goes_on(&rt, rt.alloc(), kind, version)?;
    }
    Ok(())
}

/// Both lives over disks that tell their past, which has no mark.
fn adds_no_mark(rt: &impl Abort, alloc: Global, kind: Kind) -> Result<(), Fail> {
    let made = tapes(alloc, &[6_001, 6_002])?;
    let made = two_lives(rt, alloc, kind, (Version::One, Version::One), made)?;
    have_marks(rt, made.as_slice(), &[&[], &[]])
}

#[test]
fn a_second_life_adds_to_the_past_of_its_disks(rt: HostRuntime) -> Result<(), Fail> {
    adds_no_mark(&rt, rt.alloc(), Kind::Twin)?;
    adds_no_mark(&rt, rt.alloc(), Kind::Log)
}

/// The header of fifteen cells in version 2.
const HEADERS: [(Kind, &[u8; 32]); 2] = [
    (
        Kind::Twin,
        b"SECOCST1\x01\x02\0\x0f\0\0\0\0\0\0\0\0\0\0\0\0\0\0\0\0\0\0\0\0",
    ),
    (
        Kind::Log,
        b"SECOCST1\x02\x02\0\x0f\0\0\0\0\0\0\0\0\0\0\0\0\0\0\0\0\0\0\0\0",
    ),
];

/// The bytes of a disk at the place where a store of version 2 begins.
fn head_of(disk: &mut MemDisk) -> Result<[u8; 32], Fail> {
    let mut head = [0xff; 32];
    if disk.size() != 65_536 {
        return Err(Fail::from("a disk of another size"));
    }
    disk.read(32_768, &mut head)?;
    Ok(head)
}

/// These disks have this header.
fn are_headed(rt: &impl Abort, disks: &mut [MemDisk], header: &[u8; 32]) -> Result<(), Fail> {
    for disk in disks.iter_mut() {
        same(rt, "the header", &head_of(disk)?, header);
    }
    Ok(())
}

/// Version 1 refuses disks that were moved.
fn are_refused(
    rt: &impl Abort,
    alloc: Global,
    kind: Kind,
    disks: &mut Vec<MemDisk>,
) -> Result<(), Fail> {
    let one = pair(alloc, kind, Version::One)?;
    let fault = starts(alloc, &one, disks, Start::Attach);
    let wanted = StartFault::Store(1, Reread::NotFormatted);
    same(rt, "starts", &fault, &Some(wanted));
    Ok(())
}

/// Both disks have this header, version 1 refuses them, and they are back.
fn are_moved(
    rt: &impl Abort,
    alloc: Global,
    kind: Kind,
    header: &[u8; 32],
    made: &mut Vec<MemDisk>,
) -> Result<(), Fail> {
    are_headed(rt, made.as_mut_slice(), header)?;
    are_refused(rt, alloc, kind, made)?;
    are_of(rt, made.as_slice(), &[65_536, 65_536]);
    Ok(())
}

/// A bus lives over stores of version 1, and then over those of version 2.
fn is_moved(rt: &impl Abort, alloc: Global, kind: Kind, header: &[u8; 32]) -> Result<(), Fail> {
    let made = disks(alloc, &[65_536, 65_536])?;
    let mut made = two_lives(rt, alloc, kind, (Version::One, Version::Two), made)?;
    are_moved(rt, alloc, kind, header, &mut made)
}

#[test]
fn a_store_is_moved_and_counts_from_then_on(rt: HostRuntime) -> Result<(), Fail> {
    for (kind, header) in HEADERS {
        is_moved(&rt, rt.alloc(), kind, header)?;
    }
    Ok(())
}
