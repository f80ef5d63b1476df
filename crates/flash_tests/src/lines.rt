//! Lines as bytes, and bytes that are no line.
ghost use Rattle.std.specs.Prelude.{◌≡◌, ◌≤◌, length};

use flash_lines::{FlashSizes, UnitSize, line_bytes, read_line, told_sizes};
use flash_places::FlashLine;
use std::process::Abort;
use std::test::Fail;

/// A line on a part of this unit, and the sizes that it tells: how many bytes it takes, and the first of them. Zeros
/// follow, and the mark.
struct LineRow {
    unit: u16,
    line: FlashLine,
    told: FlashSizes,
    size: usize,
    first: &'static [u8],
}

const COUNTED: [u8; 32] = [
    0, 1, 2, 3, 4, 5, 6, 7, 8, 9, 10, 11, 12, 13, 14, 15, 16, 17, 18, 19, 20, 21, 22, 23, 24, 25,
    26, 27, 28, 29, 30, 31,
];

/// Sizes that say nothing.
const UNTOLD: FlashSizes = FlashSizes {
    unit: 0,
    banks: 0,
    bank_size: 0,
    cells: 0,
};

/// Sizes of a part.
const TOLD: FlashSizes = FlashSizes {
    unit: 8,
    banks: 4,
    bank_size: 0x0001_0203,
    cells: 270,
};

const LINES: [LineRow; 5] = [
    LineRow {
        unit: 8,
        line: FlashLine::Head(7),
        told: TOLD,
        size: 48,
        first: b"\x5a\x00\x00\x00\x00\x00\x00\x00\x07\x00\x08\x04\x00\x01\x02\x03\x01\x0e\x00\x00\x00\x00\
            \x00\x00\x00\x00\x00\x00\x00\x00\x00\x00\x00\x00\x00\xea\xd6\x2b\xa6\x1c\xa2\xbf\x3c",
    },
    LineRow {
        unit: 8,
        line: FlashLine::Head(7),
        told: UNTOLD,
        size: 48,
        first: b"\x5a\x00\x00\x00\x00\x00\x00\x00\x07\x00\x00\x00\x00\x00\x00\x00\x00\x00\x00\x00\x00\x00\
            \x00\x00\x00\x00\x00\x00\x00\x00\x00\x00\x00\x00\x00\xa2\x72\x4c\x94\xd2\x8a\x77\xf8",
    },
    LineRow {
        unit: 32,
        line: FlashLine::Head(u64::MAX),
        told: UNTOLD,
        size: 64,
        first: b"\x5a\xff\xff\xff\xff\xff\xff\xff\xff\x00\x00\x00\x00\x00\x00\x00\x00\x00\x00\x00\x00\x00\
            \x00\x00\x00\x00\x00\x00\x00\x00\x00\x00\x00\x00\x00\x95\x25\xf0\xe9\xae\xda\x9f\xb2",
    },
    LineRow {
        unit: 16,
        line: FlashLine::Entry(3, COUNTED),
        told: TOLD,
        size: 48,
        first: b"\xa5\x00\x03\x00\x01\x02\x03\x04\x05\x06\x07\x08\x09\x0a\x0b\x0c\x0d\x0e\x0f\x10\x11\x12\
            \x13\x14\x15\x16\x17\x18\x19\x1a\x1b\x1c\x1d\x1e\x1f\x58\x15\x02\x8e\x47\xf3\x0e\x93",
    },
    LineRow {
        unit: 128,
        line: FlashLine::Entry(u16::MAX, [255; 32]),
        told: UNTOLD,
        size: 128,
        first: b"\xa5\xff\xff\xff\xff\xff\xff\xff\xff\xff\xff\xff\xff\xff\xff\xff\xff\xff\xff\xff\xff\xff\
            \xff\xff\xff\xff\xff\xff\xff\xff\xff\xff\xff\xff\xff\xc5\x7e\x80\x2c\xe8\xaa\xb9\x19",
    },
];

/// The sizes that the line of the row tells.
fn told_of(row: &LineRow) -> Option<FlashSizes> {
    match row.line {
        FlashLine::Head(_) => Some(row.told),
        FlashLine::Entry(_, _) => None,
    }
}

/// Whether these bytes are those of the row, and are read as its line.
fn is_row(row: &LineRow, bytes: &[u8]) -> bool
    requires least { 44 ≤ length bytes.now }
    requires most { length bytes.now ≤ 128 }
{
    let last = bytes.len() - 1;
    bytes.len() == row.size
        && bytes.starts_with(row.first)
        && bytes[43..last].iter().all(|byte| *byte == 0)
        && bytes[last] == 0x96
        && read_line(bytes) == Some(row.line)
        && told_sizes(bytes) == told_of(row)
}

/// Whether the line is written as these bytes, read back, and none as soon as one of its bits is another.
fn agrees(row: &LineRow) -> bool {
    let Some(unit) = UnitSize::of(row.unit) else {
        return false;
    };
    let mut room = [1; 128];
    let bytes = &mut room[..unit.line_length()];
    line_bytes(&row.told, &row.line, bytes);
    is_row(row, bytes) && is_none_if_changed(bytes)
}

/// Whether no line is read if one bit of one byte is another.
fn is_none_if_changed(bytes: &mut [u8]) -> bool
    requires least { 44 ≤ length bytes.old }
    requires most { length bytes.old ≤ 128 }
{
    for at in 0..bytes.len() {
        for bit in 0..8u8 {
            bytes[at] ^= 1 << bit;
            let line = read_line(bytes);
            bytes[at] ^= 1 << bit;
            if line.is_some() {
                return false;
            }
        }
    }
    true
}

#[test]
fn a_line_is_these_bytes(rt: HostRuntime) -> Result<(), Fail> {
    for row in &LINES {
        assert!(rt; agrees(row));
    }
    assert!(rt; UnitSize::of(64).is_some_and(|unit| unit.line_length() == 64));
    assert!(rt; UnitSize::of(4).is_none());
    Ok(())
}

#[test]
fn erased_bytes_are_no_line(rt: HostRuntime) -> Result<(), Fail> {
    assert_eq!(rt; read_line(&[0xff; 48]), None);
    assert_eq!(rt; read_line(&[0; 128]), None);
    Ok(())
}
