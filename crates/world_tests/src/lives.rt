//! Three nodes over disks that tell their past, which stop, fail and lose power. Longer lives are rows of replay.
use crate::attached::{ID, PAYLOAD, START};
use crate::bench::{Act, NodeRow, RouteRow, Row, Told, bus_of, lives};
use crate::comparing::{holds, same};
use bus_config::BusConfig;
use bus_world::Start;
use cell_store::{Kind, Version};
use cut_disk::{CutDisk, Mark, TapeDisk, Torn};
use freshness_routes::Direction;
use std::alloc::Global;
use std::process::Abort;
use std::test::Fail;

/// `left` sends, and the others receive it.
const THREE: &[NodeRow] = &[
    NodeRow(b"left", 2, &[RouteRow(ID, Direction::Sends, 4, 4, START)]),
    NodeRow(
        b"right",
        3,
        &[RouteRow(ID, Direction::Receives, 4, 1, START)],
    ),
    NodeRow(
        b"third",
        1,
        &[RouteRow(ID, Direction::Receives, 4, 1, START)],
    ),
];

/// The PDU of `left` with the payload and the fourth freshness after its start.
const FOURTH: &[u8] = b"\xbe\xe2\x2e\x40\x9f\x96\x2d\x0b\xa6\xdc";

const LIFE: &[Row] = &[
    // events 1 to 6: that of a key sent nothing; `left` sends three times; no event has the number 0
    Row(0, Act::Key(2), Told::Keyed),
    Row(1, Act::Deliver(1), Told::NoFrame),
    Row(
        0,
        Act::Send(ID, PAYLOAD),
        Told::Sent(ID, START + 1, b"\xbe\xe2\x2e\x40\x9f\x96\x2a\x07\x0a\x16"),
    ),
    Row(
        0,
        Act::Send(ID, b"\x01"),
        Told::Sent(ID, START + 2, b"\x01\x2b\x72\x2b\x04"),
    ),
    Row(
        0,
        Act::Send(ID, PAYLOAD),
        Told::Sent(ID, START + 3, b"\xbe\xe2\x2e\x40\x9f\x96\x2c\xfb\xeb\x6a"),
    ),
    Row(1, Act::Deliver(0), Told::NoFrame),
    // events 7 to 12: its disk stops, which the second send finds, that puts a bound; its power is cut
    Row(0, Act::Stop(1), Told::Armed),
    Row(0, Act::Send(ID, PAYLOAD), Told::Sent(ID, START + 4, FOURTH)),
    Row(0, Act::Send(ID, PAYLOAD), Told::MemoryFailure),
    Row(0, Act::Send(ID, PAYLOAD), Told::Down),
    Row(0, Act::Cut(Torn::Keep), Told::Up),
    Row(
        0,
        Act::Send(ID, PAYLOAD),
        Told::Sent(ID, START + 5, b"\xbe\xe2\x2e\x40\x9f\x96\x2e\x56\x7e\x86"),
    ),
    // events 13 to 20: the others lose power, the third while its disk fails; each gets its key then
    Row(1, Act::Cut(Torn::Keep), Told::Up),
    Row(2, Act::Fail(1), Told::Armed),
    Row(1, Act::Key(3), Told::Keyed),
    Row(2, Act::Key(1), Told::MemoryFailure),
    Row(2, Act::Key(1), Told::Down),
    Row(2, Act::Cut(Torn::Old), Told::Up),
    Row(2, Act::Key(1), Told::Keyed),
    Row(2, Act::Key(1), Told::Filled),
];

/// A disk that tells its past, of at most 8,192 bytes.
fn tape(alloc: Global, size: usize) -> Result<TapeDisk, Fail> {
    if size == 0 || size > 8_192 {
        return Err(Fail::from("a size"));
    }
    Ok(TapeDisk::new(alloc, size, 400)?)
}

/// Disks of these sizes that tell their past.
pub(crate) fn tapes(alloc: Global, sizes: &[usize]) -> Result<Vec<TapeDisk>, Fail> {
    let mut tapes = Vec::new(alloc);
    for size in sizes {
        tapes.push(tape(alloc, *size)?)?;
    }
    Ok(tapes)
}

const TAPES: [usize; 4] = [6_001, 6_002, 6_003, 6_004];

/// What each of them tells.
const MARKS: &[&[Mark]] = &[
    &[Mark::Stop(1), Mark::Cut(Torn::Keep)],
    &[Mark::Cut(Torn::Keep)],
    &[Mark::Fail(1), Mark::Cut(Torn::Old)],
    &[],
];

/// The marks in the past of a disk are these.
fn has_marks(rt: &impl Abort, disk: &TapeDisk, told: &[Mark]) -> Result<(), Fail> {
    let mut count = 0usize;
    for entry in disk.past().ok_or("no past")? {
        if let Some(mark) = entry.mark {
            same(rt, count, &told.get(count), &Some(&mark));
            count = count.saturating_add(1);
        }
    }
    same(rt, "marks", &count, &told.len());
    Ok(())
}

/// These disks have these marks, in their order.
pub(crate) fn have_marks(
    rt: &impl Abort,
    tapes: &[TapeDisk],
    told: &[&[Mark]],
) -> Result<(), Fail> {
    holds(rt, "tapes.len()", tapes.len() == told.len());
    for (place, tape) in tapes.iter().enumerate() {
        has_marks(rt, tape, told[place])?;
    }
    Ok(())
}

/// A life over disks that tell their past, one more than there are nodes.
fn tells_marks(rt: &impl Abort, alloc: Global, bus: &BusConfig) -> Result<(), Fail> {
    let tapes = lives(
        rt,
        alloc,
        bus,
        tapes(alloc, &TAPES)?,
        20,
        Start::Format,
        LIFE,
    )?;
    have_marks(rt, tapes.as_slice(), MARKS)
}

#[test]
fn each_disk_tells_the_stops_and_cuts_of_its_own_node(rt: HostRuntime) -> Result<(), Fail> {
    for kind in [Kind::Twin, Kind::Log] {
        let bus = bus_of(rt.alloc(), kind, Version::One, THREE)?;
        tells_marks(&rt, rt.alloc(), &bus)?;
    }
    Ok(())
}
