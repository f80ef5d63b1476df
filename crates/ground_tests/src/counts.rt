use crate::comparing::holds;
use basics::*;

const COUNTS: &[(u64, u64)] = &[
    (0, 1),
    (1, 2),
    (u64::MAX - 1, u64::MAX),
    (u64::MAX, u64::MAX),
];

/// What a count is after one more fault.
fn behind_one(before: u64) -> u64 {
    let mut faults = before;
    count_fault(&mut faults);
    faults
}

#[test]
fn a_count_rises_by_one_and_stands_at_its_last_value(rt: HostRuntime) {
    for row in COUNTS {
        holds(&rt, row.0, behind_one(row.0) == row.1);
    }
}
