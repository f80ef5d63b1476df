//! Starts over disks that are too few, too small or fail.
use crate::bench::{NodeRow, RouteRow, STORES, are_of, bus_of, disks, starts};
use crate::comparing::same;
use bus_config::BusConfig;
use bus_world::{Start, StartFault};
use cell_store::{Kind, Reread, Version};
use cut_disk::{CutDisk, MemDisk};
use freshness_routes::Direction;
use std::alloc::Global;
use std::process::Abort;
use std::test::Fail;

const HEARD: RouteRow = RouteRow(0, Direction::Receives, 4, 1, 0);

const HEARD_TOO: RouteRow = RouteRow(1, Direction::Receives, 4, 1, 0);

/// Three nodes; the second has a route more.
const UNEQUAL: &[NodeRow] = &[
    NodeRow(b"a", 1, &[HEARD, HEARD_TOO]),
    NodeRow(
        b"b",
        1,
        &[HEARD, HEARD_TOO, RouteRow(2, Direction::Receives, 4, 1, 0)],
    ),
    NodeRow(b"c", 1, &[HEARD, HEARD_TOO]),
];

/// A start that formats these disks answers this fault, or none, and all disks are back in their order.
fn answers(
    rt: &impl Abort,
    alloc: Global,
    bus: &BusConfig,
    disks: &mut Vec<MemDisk>,
    sizes: &[usize],
    fault: Option<StartFault>,
) {
    let answer = starts(alloc, bus, disks, Start::Format);
    same(rt, "starts", &answer, &fault);
    are_of(rt, disks.as_slice(), sizes);
}

/// What a start over disks of some sizes answers.
#[derive(Clone, Copy)]
enum Wanted {
    Starts,
    TooFew,
    TooSmall(u8),
}

/// The layout of the stores, the sizes of the disks, and the answer.
struct Sized(Kind, Version, &'static [usize], Wanted);

/// In each layout a disk or two are a byte too small, the largest disk isn't that of the second node, a disk is
/// missing; and all are as the stores need them.
const SIZED: &[Sized] = &[
    Sized(
        Kind::Twin,
        Version::One,
        &[1_119, 1_188, 1_120],
        Wanted::TooSmall(1),
    ),
    Sized(
        Kind::Twin,
        Version::One,
        &[1_120, 1_187, 1_120],
        Wanted::TooSmall(2),
    ),
    Sized(
        Kind::Twin,
        Version::One,
        &[1_120, 1_188, 1_119],
        Wanted::TooSmall(3),
    ),
    Sized(
        Kind::Twin,
        Version::One,
        &[1_120, 1_187, 1_119],
        Wanted::TooSmall(2),
    ),
    Sized(
        Kind::Twin,
        Version::One,
        &[1_120, 1_120, 1_188],
        Wanted::TooSmall(2),
    ),
    Sized(Kind::Twin, Version::One, &[1_120, 1_188], Wanted::TooFew),
    Sized(
        Kind::Twin,
        Version::One,
        &[1_120, 1_188, 1_120],
        Wanted::Starts,
    ),
    Sized(
        Kind::Twin,
        Version::Two,
        &[33_887, 33_956, 33_888],
        Wanted::TooSmall(1),
    ),
    Sized(
        Kind::Twin,
        Version::Two,
        &[33_888, 33_955, 33_888],
        Wanted::TooSmall(2),
    ),
    Sized(
        Kind::Twin,
        Version::Two,
        &[33_888, 33_956, 33_887],
        Wanted::TooSmall(3),
    ),
    Sized(
        Kind::Twin,
        Version::Two,
        &[33_888, 33_955, 33_887],
        Wanted::TooSmall(2),
    ),
    Sized(
        Kind::Twin,
        Version::Two,
        &[33_888, 33_888, 33_956],
        Wanted::TooSmall(2),
    ),
    Sized(Kind::Twin, Version::Two, &[33_888, 33_956], Wanted::TooFew),
    Sized(
        Kind::Twin,
        Version::Two,
        &[33_888, 33_956, 33_888],
        Wanted::Starts,
    ),
    Sized(
        Kind::Log,
        Version::One,
        &[5_539, 5_604, 5_540],
        Wanted::TooSmall(1),
    ),
    Sized(
        Kind::Log,
        Version::One,
        &[5_540, 5_603, 5_540],
        Wanted::TooSmall(2),
    ),
    Sized(
        Kind::Log,
        Version::One,
        &[5_540, 5_604, 5_539],
        Wanted::TooSmall(3),
    ),
    Sized(
        Kind::Log,
        Version::One,
        &[5_540, 5_603, 5_539],
        Wanted::TooSmall(2),
    ),
    Sized(
        Kind::Log,
        Version::One,
        &[5_540, 5_540, 5_604],
        Wanted::TooSmall(2),
    ),
    Sized(Kind::Log, Version::One, &[5_540, 5_604], Wanted::TooFew),
    Sized(
        Kind::Log,
        Version::One,
        &[5_540, 5_604, 5_540],
        Wanted::Starts,
    ),
    Sized(
        Kind::Log,
        Version::Two,
        &[38_307, 38_372, 38_308],
        Wanted::TooSmall(1),
    ),
    Sized(
        Kind::Log,
        Version::Two,
        &[38_308, 38_371, 38_308],
        Wanted::TooSmall(2),
    ),
    Sized(
        Kind::Log,
        Version::Two,
        &[38_308, 38_372, 38_307],
        Wanted::TooSmall(3),
    ),
    Sized(
        Kind::Log,
        Version::Two,
        &[38_308, 38_371, 38_307],
        Wanted::TooSmall(2),
    ),
    Sized(
        Kind::Log,
        Version::Two,
        &[38_308, 38_308, 38_372],
        Wanted::TooSmall(2),
    ),
    Sized(Kind::Log, Version::Two, &[38_308, 38_372], Wanted::TooFew),
    Sized(
        Kind::Log,
        Version::Two,
        &[38_308, 38_372, 38_308],
        Wanted::Starts,
    ),
];

fn fault_of(wanted: Wanted) -> Option<StartFault> {
    match wanted {
        Wanted::Starts => None,
        Wanted::TooFew => Some(StartFault::TooFew),
        Wanted::TooSmall(number) => Some(StartFault::TooSmall(number)),
    }
}

/// A start over new disks of the sizes of a row.
fn answers_sizes(rt: &impl Abort, alloc: Global, bus: &BusConfig, row: &Sized) -> Result<(), Fail> {
    let mut made = disks(alloc, row.2)?;
    answers(rt, alloc, bus, &mut made, row.2, fault_of(row.3));
    Ok(())
}

#[test]
fn too_few_and_too_small_disks_are_named(rt: HostRuntime) -> Result<(), Fail> {
    for row in SIZED {
        let bus = bus_of(rt.alloc(), row.0, row.1, UNEQUAL)?;
        answers_sizes(&rt, rt.alloc(), &bus, row)?;
    }
    Ok(())
}

/// Eight nodes; the second has a route more.
const EIGHT: &[NodeRow] = &[
    NodeRow(b"a", 1, &[HEARD, HEARD_TOO]),
    NodeRow(
        b"b",
        1,
        &[HEARD, HEARD_TOO, RouteRow(2, Direction::Receives, 4, 1, 0)],
    ),
    NodeRow(b"c", 1, &[HEARD, HEARD_TOO]),
    NodeRow(b"d", 1, &[HEARD, HEARD_TOO]),
    NodeRow(b"e", 1, &[HEARD, HEARD_TOO]),
    NodeRow(b"f", 1, &[HEARD, HEARD_TOO]),
    NodeRow(b"g", 1, &[HEARD, HEARD_TOO]),
    NodeRow(b"h", 1, &[HEARD, HEARD_TOO]),
];

/// Disks of different sizes, one more than there are nodes.
const SIZES: [usize; 9] = [
    39_000, 39_001, 39_002, 39_003, 39_004, 39_005, 39_006, 39_007, 39_008,
];

/// These disks; that of the node with this number fails at this call.
fn failing(alloc: Global, number: u8, call: u64) -> Result<Vec<MemDisk>, Fail> {
    let mut made = disks(alloc, &SIZES)?;
    let place = usize::from(number).saturating_sub(1);
    if place >= made.len() || call == 0 {
        return Err(Fail::from("no disk or no call"));
    }
    made[place].fail_at(call);
    Ok(made)
}

/// A start over them, and one over the same disks after it.
fn fails_and_starts(
    rt: &impl Abort,
    alloc: Global,
    bus: &BusConfig,
    number: u8,
    call: u64,
) -> Result<(), Fail> {
    let mut made = failing(alloc, number, call)?;
    let fault = StartFault::Store(number, Reread::DiskFailed);
    answers(rt, alloc, bus, &mut made, &SIZES, Some(fault));
    answers(rt, alloc, bus, &mut made, &SIZES, None);
    Ok(())
}

/// The first node, that with the most routes and the last fail at their first call, and at their twentieth.
fn each_is_named(rt: &impl Abort, alloc: Global, bus: &BusConfig) -> Result<(), Fail> {
    for number in [1, 2, 8] {
        fails_and_starts(rt, alloc, bus, number, 1)?;
        fails_and_starts(rt, alloc, bus, number, 20)?;
    }
    Ok(())
}

#[test]
fn the_node_whose_disk_fails_is_named(rt: HostRuntime) -> Result<(), Fail> {
    for (kind, version) in STORES {
        let bus = bus_of(rt.alloc(), kind, version, EIGHT)?;
        each_is_named(&rt, rt.alloc(), &bus)?;
    }
    Ok(())
}
