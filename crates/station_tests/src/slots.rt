//! What is said of a unit's store: rows of words, the status and what is printed.
ghost use Rattle.std.specs.Prelude.{◌<◌, ◌^◌};

use crate::comparing::same;
use bus_port::{CleanSource, MemSink};
use bus_store_commands::run_bus_check;
use freshness_store::{Direction, bound_bytes};
use key_slots::{Block, Counter28, Flags, Slot};
use slot_commands::run_slots;
use slot_disk::slot_bytes;
use std::alloc::{AllocError, Global};
use std::process::Abort;
use std::test::Fail;
use store_plan::{make, make_cell};

/// The bytes of a twin store of 16 cells: 32 of the header, and 68 a cell.
const SIZE: usize = 1120;

/// The key of the example of the SHE specification.
const KEY: [u8; 16] = [
    0x0f, 0x0e, 0x0d, 0x0c, 0x0b, 0x0a, 0x09, 0x08, 0x07, 0x06, 0x05, 0x04, 0x03, 0x02, 0x01, 0x00,
];

/// The words, the status and what is printed.
struct Row(&'static [&'static str], u8, &'static str);

const LIST: &str = "store twin 1 16
slot 0 empty
slot 1 empty
slot 2 empty
slot 3 empty
slot 4 filled 1
slot 5 empty
slot 6 filled 268435455 WRITE_PROTECTION BOOT_PROTECTION DEBUGGER_PROTECTION KEY_USAGE WILDCARD
slot 7 filled 2 KEY_USAGE
slot 8 empty
slot 9 empty
slot 10 empty
slot 11 empty
slot 12 empty
slot 13 empty
bound 14 6bc1 sends 0000000000000400
cell 15 BadBound
";

/// The reply is that of the example of the SHE specification.
const ROWS: &[Row] = &[
    Row(&["list", "f"], 0, LIST),
    Row(&["check", "f"], 1, "store twin 1 16\ncell 15 BadBound\n"),
    Row(
        &["reply", "f", "000000000000000000000000000001", "4", "1"],
        0,
        "loaded 00000000000000000000000000000141b472e8d8727d70d57295e74849a27917 820d8d95dc11b4668878160cb2a4e23e\n",
    ),
    Row(
        &["reply", "f", "000000000000000000000000000001", "5", "1"],
        1,
        "refused KEY_EMPTY\n",
    ),
    Row(
        &["reply", "f", "000000000000000000000000000001", "4", "5"],
        1,
        "refused BadPair\n",
    ),
    Row(
        &["reply", "f", "000000000000000000000000000000", "4", "1"],
        3,
        "value 2\n",
    ),
    Row(
        &["reply", "f", "000000000000000000000000000001", "14", "1"],
        3,
        "value 3\n",
    ),
    Row(
        &["list"],
        2,
        "usage: station slots list, check, reply, make, grow\n",
    ),
    Row(
        &["lists", "f"],
        2,
        "usage: station slots list, check, reply, make, grow\n",
    ),
];

/// A store of 16 cells: three keys, the bound of a route, and a last cell that is nobody's.
fn unit_store(image: &mut [u8; SIZE]) {
    make(image, 16);
    let example = filled(1, 0);
    make_cell(image, 4, &slot_bytes(&example));
    let protected = filled(268_435_455, 31);
    make_cell(image, 6, &slot_bytes(&protected));
    let route = filled(2, 2);
    make_cell(image, 7, &slot_bytes(&route));
    make_cell(image, 14, &bound_bytes(0x6bc1, Direction::Sends, 0x400));
}

fn filled(counter: u32, flags: u8) -> Slot
    requires counter { counter < 2 ^ 28 }
    requires flags { flags < 32 }
{
    Slot::Filled {
        key: Block::of(KEY),
        counter: Counter28::new(counter).unwrap(),
        flags: Flags::of(flags),
    }
}

/// These texts as arguments.
fn words_of(alloc: Global, texts: &[&str]) -> Result<Vec<String>, AllocError> {
    let mut words = Vec::new(alloc);
    for text in texts {
        words.push(String::from_str(alloc, text)?)?;
    }
    Ok(words)
}

/// Runs a row over these bytes, and compares.
fn check_row(rt: &impl Abort, alloc: Global, bytes: &[u8], row: &Row) -> Result<(), Fail> {
    let words = words_of(alloc, row.0)?;
    let mut file = CleanSource::new(Vec::from_slice(alloc, bytes)?);
    let mut sink = MemSink::new(alloc, 4096, Vec::new(alloc), 4096)?;
    let status = run_slots(alloc, words.as_slice(), &mut file, &mut sink);
    same(
        rt,
        row.2,
        &(status, sink.bytes()),
        &(row.1, row.2.as_bytes()),
    );
    Ok(())
}

#[test]
fn a_store_is_listed_checked_and_replies_again(rt: HostRuntime) -> Result<(), Fail> {
    let mut image = [0; SIZE];
    unit_store(&mut image);
    for row in ROWS {
        check_row(&rt, rt.alloc(), &image, row)?;
    }
    Ok(())
}

/// A check names each damaged cell, and a list none; bytes that are no store are told so.
const DAMAGED: &[Row] = &[
    Row(
        &["check", "f"],
        1,
        "store twin 1 16\ncell 0 Damaged\ncell 9 Damaged\ncell 15 BadBound\n",
    ),
    Row(&["list", "f"], 9, "store: Damaged 0\n"),
];

const BLANK: &[Row] = &[
    Row(&["check", "f"], 9, "store: NotFormatted\n"),
    Row(&["list", "f"], 9, "store: NotFormatted\n"),
];

/// No copy of this cell counts then.
fn damage(image: &mut [u8; SIZE], cell: usize)
    requires { cell < 16 }
{
    let at = 32 + 68 * cell;
    image[at..at + 68].copy_from_slice(&[0; 68]);
}

#[test]
fn each_damaged_cell_is_named(rt: HostRuntime) -> Result<(), Fail> {
    let mut image = [0; SIZE];
    for row in BLANK {
        check_row(&rt, rt.alloc(), &image, row)?;
    }
    unit_store(&mut image);
    damage(&mut image, 0);
    damage(&mut image, 9);
    for row in DAMAGED {
        check_row(&rt, rt.alloc(), &image, row)?;
    }
    Ok(())
}

/// The bus of a node whose first route is that of the store's bound.
const BUS: &str = "[[node]]
name = \"unit\"
uid = \"000000000000000000000000000001\"
[[node.route]]
id = \"6bc1\"
direction = \"send\"
slot = 7
[[node.route]]
id = \"6bc2\"
direction = \"receive\"
slot = 7
[[node.route]]
id = \"6bc3\"
direction = \"send\"
slot = 7
";

/// What a check over that bus finds.
const OVER_BUS: &[Row] = &[Row(
    &["check", "f", "b"],
    1,
    "store twin 1 16\ncell 15 BadBound 6bc2 receives\nroute 6bc3 sends NoCell\n",
)];

/// Runs a row over these bytes and that bus, and compares.
fn check_row_over_bus(rt: &impl Abort, alloc: Global, bytes: &[u8], row: &Row) -> Result<(), Fail> {
    let words = words_of(alloc, row.0)?;
    let mut file = CleanSource::new(Vec::from_slice(alloc, bytes)?);
    let mut bus = CleanSource::new(Vec::from_slice(alloc, BUS.as_bytes())?);
    let mut sink = MemSink::new(alloc, 4096, Vec::new(alloc), 4096)?;
    let status = run_bus_check(alloc, words.as_slice(), &mut file, &mut bus, &mut sink);
    same(
        rt,
        row.2,
        &(status, sink.bytes()),
        &(row.1, row.2.as_bytes()),
    );
    Ok(())
}

#[test]
fn a_store_is_checked_over_the_routes_of_its_node(rt: HostRuntime) -> Result<(), Fail> {
    let mut image = [0; SIZE];
    unit_store(&mut image);
    for row in OVER_BUS {
        check_row_over_bus(&rt, rt.alloc(), &image, row)?;
    }
    Ok(())
}
