//! Stores of one cell, the least that there may be, byte by byte, and a put into one that the power is cut in. What
//! programs keep has fourteen cells or more, and is rows of checks/.
ghost use Rattle.std.specs.Prelude.{◌≡◌, length, false, IfOk};
ghost use Rattle.any_cells.specs.Either.{any_state};

use crate::comparing::same;
use crate::cutting::{ELEVENS, ZEROS, put_and_cut};
use any_cells::AnyCells;
use cell_store::{Cells, Kind, Version};
use cut_disk::{Disk, MemDisk, Torn};
use std::alloc::Global;
use std::process::Abort;
use std::test::Fail;

/// Bytes, each with its place, counted from the store's base; all others are 00.
type Pieces = &'static [(usize, &'static [u8])];

/// A layout of a store of one cell.
struct Layout {
    kind: Kind,
    version: Version,
    /// The least size of its disk, and how many of these bytes are the store's own, from the base of its version on.
    size: usize,
    len: usize,
    /// The bytes of a fresh store of zeros, and those after a put of elevens.
    fresh: Pieces,
    put: Pieces,
    /// The call of a put that opens the new cell's gate.
    opening: u64,
}

const LAYOUTS: &[Layout] = &[
    Layout {
        kind: Kind::Twin,
        version: Version::One,
        size: 100,
        len: 100,
        fresh: &[
            (0, b"SECOCST1\x01\x01\0\x01"),
            (32, b"\xa7"),
            (66, b"\xa7\x02"),
        ],
        put: &[
            (0, b"SECOCST1\x01\x01\0\x01"),
            (32, b"\xa7"),
            (66, b"\xa7\x01"),
            (68, &ELEVENS),
        ],
        opening: 5,
    },
    Layout {
        kind: Kind::Twin,
        version: Version::Two,
        size: 32_868,
        len: 100,
        fresh: &[
            (0, b"SECOCST1\x01\x02\0\x01"),
            (32, b"\xa7"),
            (66, b"\xa7\x02"),
        ],
        put: &[
            (0, b"SECOCST1\x01\x02\0\x01"),
            (32, b"\xa7"),
            (66, b"\xa7\x01"),
            (68, &ELEVENS),
        ],
        opening: 5,
    },
    Layout {
        kind: Kind::Log,
        version: Version::One,
        size: 4_580,
        len: 4_580,
        fresh: &[
            (0, b"SECOCST1\x02\x01\0\x01"),
            (32, b"\xa7"),
            (2307, b"\x02"),
        ],
        put: &[
            (0, b"SECOCST1\x02\x01\0\x01"),
            (32, b"\xa7"),
            (66, b"\xa7"),
            (69, &ELEVENS),
            (2307, b"\x02"),
        ],
        opening: 3,
    },
    Layout {
        kind: Kind::Log,
        version: Version::Two,
        size: 37_348,
        len: 4_580,
        fresh: &[
            (0, b"SECOCST1\x02\x02\0\x01"),
            (32, b"\xa7"),
            (2307, b"\x02"),
        ],
        put: &[
            (0, b"SECOCST1\x02\x02\0\x01"),
            (32, b"\xa7"),
            (66, b"\xa7"),
            (69, &ELEVENS),
            (2307, b"\x02"),
        ],
        opening: 3,
    },
];

/// A fresh store of one cell of zeros, on a disk that just has room for it.
fn fresh_store(alloc: Global, layout: &Layout) -> Result<AnyCells<MemDisk>, Fail>
    ensures count { IfOk result (λ s. length (any_state s).cells ≡ 1) }
    ensures whole { IfOk result (λ s. (any_state s).broken ≡ false) }
{
    if layout.size > 65_536 {
        return Err(Fail::from("a large disk"));
    }
    let disk = MemDisk::new(alloc, layout.size)?;
    let disk = match AnyCells::format_as(disk, layout.kind, layout.version, &[ZEROS]) {
        Ok(disk) => disk,
        Err(refused) => return Err(Fail::from(refused.fault)),
    };
    match AnyCells::attach_as(alloc, disk, layout.kind, layout.version, 1) {
        Ok(store) => Ok(store),
        Err(refused) => Err(Fail::from(refused.fault)),
    }
}

/// As many bytes as the larger of the stores has.
const MOST: usize = 4_580;

/// The store's own bytes of a disk, and 00 after them.
fn bytes_of(disk: &mut MemDisk, layout: &Layout) -> Result<[u8; MOST], Fail> {
    let mut bytes = [0; MOST];
    let base = layout.version.base();
    if layout.len > MOST || disk.size() < base + layout.len as u64 {
        return Err(Fail::from("a small disk"));
    }
    disk.read(base, &mut bytes[..layout.len])?;
    Ok(bytes)
}

/// These bytes at their places.
fn bytes_with(pieces: Pieces) -> [u8; MOST] {
    let mut bytes = [0; MOST];
    for (place, piece) in pieces {
        for (i, byte) in piece.iter().enumerate() {
            if i < MOST && *place < MOST - i {
                bytes[*place + i] = *byte;
            }
        }
    }
    bytes
}

fn bytes_of_fresh(alloc: Global, layout: &Layout) -> Result<[u8; MOST], Fail> {
    let store = fresh_store(alloc, layout)?;
    bytes_of(&mut store.release(), layout)
}

fn bytes_behind_a_put(alloc: Global, layout: &Layout) -> Result<[u8; MOST], Fail> {
    let mut store = fresh_store(alloc, layout)?;
    if store.count() != 1 || store.put(0, &ELEVENS).is_err() {
        return Err(Fail::from("no put"));
    }
    bytes_of(&mut store.release(), layout)
}

/// A store of one cell has its bytes, fresh and after a put.
fn has_its_bytes(rt: &impl Abort, alloc: Global, layout: &Layout) -> Result<(), Fail> {
    let fresh = bytes_of_fresh(alloc, layout)?;
    same(
        rt,
        "fresh",
        &fresh.as_slice(),
        &bytes_with(layout.fresh).as_slice(),
    );
    let put = bytes_behind_a_put(alloc, layout)?;
    same(
        rt,
        "put",
        &put.as_slice(),
        &bytes_with(layout.put).as_slice(),
    );
    Ok(())
}

#[test]
fn a_store_of_one_cell_has_these_bytes(rt: HostRuntime) -> Result<(), Fail> {
    for layout in LAYOUTS {
        has_its_bytes(&rt, rt.alloc(), layout)?;
    }
    Ok(())
}

/// Each kind of cut, and whether it leaves the new cell if it comes within the call that opens its gate, or the next.
const CUTS: [(Torn, bool); 5] = [
    (Torn::Keep, true),
    (Torn::Old, false),
    (Torn::Half, true),
    (Torn::Fill(0xa7), true),
    (Torn::Fill(0), false),
];

/// What a put that stops at this call and a cut come to: whether it was done, and the cell then.
fn cut_in_a_put(
    alloc: Global,
    layout: &Layout,
    calls: u64,
    torn: Torn,
) -> Result<(bool, [u8; 32]), Fail> {
    if calls == 0 {
        return Err(Fail::from("no call"));
    }
    let mut store = fresh_store(alloc, layout)?;
    put_and_cut(&mut store, 0, calls, torn)
}

/// A put that stops at each of its calls and after them: the cell is the old one or the new one, as the cut leaves it.
fn is_whole_or_absent(
    rt: &impl Abort,
    alloc: Global,
    layout: &Layout,
    cut: (Torn, bool),
) -> Result<(), Fail> {
    let opening = layout.opening;
    for calls in 1..8u64 {
        let is_done = calls > opening.saturating_add(1);
        let is_new = is_done || (calls >= opening && cut.1);
        let cell = if is_new { ELEVENS } else { ZEROS };
        let came = cut_in_a_put(alloc, layout, calls, cut.0)?;
        same(rt, calls, &came, &(is_done, cell));
    }
    Ok(())
}

#[test]
fn a_put_into_a_store_of_one_cell_is_whole_or_absent(rt: HostRuntime) -> Result<(), Fail> {
    for layout in LAYOUTS {
        for cut in CUTS {
            is_whole_or_absent(&rt, rt.alloc(), layout, cut)?;
        }
    }
    Ok(())
}
