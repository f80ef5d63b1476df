//! The statuses of runs. What a run prints, and how far it goes over a sink that fails, are rows of checks/.
use crate::comparing::holds;
use run_driver::{Unwritten, status_of_run};

const STATUSES: &[(Result<(), Unwritten>, u8)] = &[
    (Ok(()), 0),
    (Err(Unwritten::SinkFailed), 6),
    (Err(Unwritten::Memory), 7),
];

#[test]
fn each_end_of_a_run_has_its_status(rt: HostRuntime) {
    for (answer, status) in STATUSES {
        holds(&rt, *status, status_of_run(*answer) == *status);
    }
}
