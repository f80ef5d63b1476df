// Where a store has its bytes: places count from its base. All numbers in bytes are big-endian.
ghost use Rattle.std.specs.Prelude.{◌≡◌, ◌↔◌, ◌+◌, ◌≤◌, IsTrue};
ghost use Rattle.cell_store.specs.Layout.{header, kind_byte, version_byte};
ghost use Rattle.cell_store.specs.Twin.{twin_size, first_at};
ghost use Rattle.cell_store.specs.Copies.{side_at};

use crate::copies::Side;
use crate::kinds::{Kind, Layout, Version};

/// The bytes of a header.
pub const HEADER: usize = 32;

/// The bytes of one copy of a cell: a gate, a mark and the payload.
pub const COPY: usize = 34;

/// The bytes of both copies of a cell.
pub const PAIR: usize = 68;

/// The number of bytes that a twin store of so many cells takes: 32 for the header and 68 a cell.
pub fn twin_size(cells: u16) -> u64
    ensures { result ≡ twin_size cells }
{
    32 + 68 * u64::from(cells)
}

/// The place of the two copies of a cell.
pub fn pair_place(cell: u16) -> u64
    ensures { result ≡ first_at cell }
{
    32 + 68 * u64::from(cell)
}

/// The place of one copy of a cell.
pub fn copy_place(cell: u16, side: Side) -> u64
    ensures { result ≡ side_at cell side }
{
    match side {
        Side::First => pair_place(cell),
        Side::Second => pair_place(cell) + 34,
    }
}

fn kind_byte(kind: Kind) -> u8
    ensures { result ≡ kind_byte kind }
{
    match kind {
        Kind::Twin => 1,
        Kind::Log => 2,
    }
}

fn version_byte(version: Version) -> u8
    ensures { result ≡ version_byte version }
{
    match version {
        Version::One => 1,
        Version::Two => 2,
    }
}

/// The header of a store: the text `SECOCST1`, the kind, the version, the number of cells in two
/// bytes, and zeros.
pub fn header(layout: Layout, cells: u16) -> [u8; 32]
    ensures { result ≡ header layout cells }
{
    let kind = kind_byte(layout.kind);
    let version = version_byte(layout.version);
    let [high, low] = cells.to_be_bytes();
    [
        b'S', b'E', b'C', b'O', b'C', b'S', b'T', b'1', kind, version, high, low, 0, 0, 0, 0, 0, 0,
        0, 0, 0, 0, 0, 0, 0, 0, 0, 0, 0, 0, 0, 0,
    ]
}

/// Whether these are the header of a store of so many cells.
pub fn is_header(bytes: &[u8; 32], layout: Layout, cells: u16) -> bool
    ensures { IsTrue result ↔ (bytes.now ≡ header layout cells) }
{
    *bytes == header(layout, cells)
}
