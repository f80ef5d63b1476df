//! Check values of keys, beside those that another program computed.
use basics::Block;
use ledger_rows::check_value;
use std::process::Abort;
use std::test::Fail;

/// A key, and the first three bytes of the CMAC of `key check` under it by OpenSSL.
struct Row([u8; 16], [u8; 3]);

const ROWS: &[Row] = &[
    Row(
        [
            0x2b, 0x7e, 0x15, 0x16, 0x28, 0xae, 0xd2, 0xa6, 0xab, 0xf7, 0x15, 0x88, 0x09, 0xcf,
            0x4f, 0x3c,
        ],
        [0xd7, 0x88, 0x50],
    ),
    Row(
        [0, 1, 2, 3, 4, 5, 6, 7, 8, 9, 10, 11, 12, 13, 14, 15],
        [0x6d, 0x2d, 0x4b],
    ),
];

#[test]
fn check_values_are_those_of_another_program(rt: HostRuntime) -> Result<(), Fail> {
    for row in ROWS {
        assert_eq!(rt; check_value(&Block::of(row.0)), row.1);
    }
    Ok(())
}
