//! A store that gets cells for two routes more, with the power cut at each call of the disk; and what is refused.
ghost use Rattle.std.specs.Prelude.{◌≤◌};

use crate::comparing::same;
use cell_store::{Kind, Layout, Version, header};
use cut_disk::{CutDisk, Disk, MemDisk, Torn};
use freshness_routes::{Direction, Route};
use freshness_store::bound_bytes;
use key_slots::SlotId;
use std::alloc::Global;
use std::process::Abort;
use std::test::Fail;
use store_growing::{GrowFault, StoreHeader, grow_store};
use store_plan::{cell_in, make, make_cell};

/// A header and eighteen cells.
const SIZE: usize = 1256;

/// The bounds of the three routes' cells once the store of one of them has grown.
const GROWN: [u64; 3] = [900, 6, 7];

fn direction_of(place: u16) -> Direction {
    if place == 1 {
        Direction::Receives
    } else {
        Direction::Sends
    }
}

fn route_at(slot: SlotId, place: u16) -> Route {
    Route {
        id: 0x100 | place,
        direction: direction_of(place),
        slot,
        reserve: 16,
        window: 256,
        start: 5 + u64::from(place),
    }
}

/// A twin store of version 1.
const WANTED: Layout = Layout {
    kind: Kind::Twin,
    version: Version::One,
};

/// What growing the store on a disk to three routes, of the Data IDs 0x100 to 0x102, answers.
fn grow(alloc: Global, disk: &mut MemDisk) -> Result<Result<u16, GrowFault>, Fail> {
    let Some(slot) = SlotId::new(4) else {
        return Err(Fail::from("no slot"));
    };
    let routes = [route_at(slot, 0), route_at(slot, 1), route_at(slot, 2)];
    Ok(grow_store(alloc, disk, WANTED, &routes))
}

/// The first bytes of a disk, as many as eighteen cells have.
fn bytes_of(disk: &mut MemDisk) -> Result<[u8; SIZE], Fail> {
    let mut bytes = [0; SIZE];
    if disk.size() < 1256 {
        return Err(Fail::from("the disk is too small"));
    }
    disk.read(0, &mut bytes)?;
    Ok(bytes)
}

/// A store of so many cells, 1 to 18, in which this many routes have a bound, of 900 and more.
fn store_of(cells: u16, routes: u16) -> [u8; SIZE] {
    let mut image = [0; SIZE];
    if cells >= 1 && cells <= 18 {
        make(&mut image[..32 + 68 * usize::from(cells)], cells);
    }
    for place in 0..3_u16 {
        if place < routes {
            let bound = bound_bytes(0x100 | place, direction_of(place), 900 + u64::from(place));
            make_cell(&mut image, 14 + place, &bound);
        }
    }
    image
}

/// What comes of a store of one route that grows with a stop at this call and this cut, and then grows again: whether
/// it was grown at once, what the second growth answers, and the bytes.
fn cut_and_grow(
    alloc: Global,
    call: u64,
    torn: Torn,
) -> Result<(bool, Result<u16, GrowFault>, [u8; SIZE]), Fail>
    requires { 1 ≤ call }
{
    let mut disk = MemDisk::of(alloc, &store_of(15, 1))?;
    disk.stop_at(call);
    let done = grow(alloc, &mut disk)?.is_ok();
    disk.power_cut(torn);
    let again = grow(alloc, &mut disk)?;
    let bytes = bytes_of(&mut disk)?;
    Ok((done, again, bytes))
}

/// Each route has its cell in these bytes: the first as it was, the others with the bound that they begin with.
fn check_cells(rt: &impl Abort, call: u64, bytes: &[u8; SIZE]) {
    for place in 0..3_u16 {
        let bound = GROWN[usize::from(place)];
        let cell = bound_bytes(0x100 | place, direction_of(place), bound);
        same(rt, call, &cell_in(bytes, 14 + place), &Ok(cell));
    }
}

/// Whether a growth was done before the stop came. At each call before that a cut store grows again.
fn grows_from_each_cut(rt: &impl Abort, alloc: Global, torn: Torn) -> Result<bool, Fail> {
    for call in 1..40_u64 {
        let (done, again, bytes) = cut_and_grow(alloc, call, torn)?;
        same(rt, call, &again, &Ok(17));
        check_cells(rt, call, &bytes);
        if done {
            return Ok(true);
        }
    }
    Ok(false)
}

#[test]
fn a_cut_store_grows_again(rt: HostRuntime) -> Result<(), Fail> {
    for torn in [Torn::Keep, Torn::Old, Torn::Half, Torn::Fill(0x5a)] {
        let done = grows_from_each_cut(&rt, rt.alloc(), torn)?;
        same(&rt, "done", &done, &true);
    }
    Ok(())
}

/// A store of so many cells and routes, a byte that is set in it, the size of its disk, and why it isn't grown to three
/// routes.
struct Refusal {
    cells: u16,
    routes: u16,
    set: Option<(usize, u8)>,
    size: usize,
    fault: GrowFault,
}

const REFUSED: &[Refusal] = &[
    // no room for a cell after the last
    Refusal {
        cells: 15,
        routes: 1,
        set: None,
        size: 1255,
        fault: GrowFault::TooSmall,
    },
    // no room, and no header either: room is the first cause
    Refusal {
        cells: 15,
        routes: 1,
        set: Some((0, 0)),
        size: 1255,
        fault: GrowFault::TooSmall,
    },
    // the place of that cell isn't erased
    Refusal {
        cells: 15,
        routes: 1,
        set: Some((1200, 1)),
        size: SIZE,
        fault: GrowFault::TooSmall,
    },
    // the first route's cell holds no bound of it
    Refusal {
        cells: 15,
        routes: 0,
        set: None,
        size: SIZE,
        fault: GrowFault::BadBound(14),
    },
    // the header is none
    Refusal {
        cells: 15,
        routes: 1,
        set: Some((0, 0)),
        size: SIZE,
        fault: GrowFault::NotFormatted,
    },
];

fn with_byte(image: &mut [u8; SIZE], set: Option<(usize, u8)>) {
    if let Some((place, byte)) = set {
        if place < SIZE {
            image[place] = byte;
        }
    }
}

/// What growing the store of these bytes answers.
fn grow_bytes(alloc: Global, bytes: &[u8]) -> Result<Result<u16, GrowFault>, Fail> {
    if bytes.len() > 65_536 {
        return Err(Fail::from("the disk is too large"));
    }
    let mut disk = MemDisk::of(alloc, bytes)?;
    grow(alloc, &mut disk)
}

#[test]
fn a_store_is_refused_by_its_first_cause(rt: HostRuntime) -> Result<(), Fail> {
    for row in REFUSED {
        let mut image = store_of(row.cells, row.routes);
        with_byte(&mut image, row.set);
        if row.size > SIZE {
            return Err(Fail::from("the disk is too large"));
        }
        let answer = grow_bytes(rt.alloc(), &image[..row.size])?;
        same(&rt, row.size, &answer, &Err(row.fault));
    }
    Ok(())
}

/// A log store of version 2.
const OTHER: Layout = Layout {
    kind: Kind::Log,
    version: Version::Two,
};

/// A store of version 1, and the header of one of version 2.
fn image_of_both() -> [u8; 32_800] {
    let mut image = [0; 32_800];
    image[..1256].copy_from_slice(&store_of(15, 1));
    image[32_768..].copy_from_slice(&header(OTHER, 15));
    image
}

#[test]
fn a_store_of_version_2_is_refused(rt: HostRuntime) -> Result<(), Fail> {
    let answer = grow_bytes(rt.alloc(), &image_of_both())?;
    let there = StoreHeader {
        layout: OTHER,
        cells: 15,
    };
    same(&rt, 2, &answer, &Err(GrowFault::OtherStore(there)));
    Ok(())
}

#[test]
fn a_store_with_all_cells_stays(rt: HostRuntime) -> Result<(), Fail> {
    let image = store_of(17, 3);
    let mut disk = MemDisk::of(rt.alloc(), &image)?;
    let answer = grow(rt.alloc(), &mut disk)?;
    same(&rt, 17, &answer, &Ok(17));
    let bytes = bytes_of(&mut disk)?;
    same(&rt, "bytes", &(bytes == image), &true);
    Ok(())
}
