//! The fault of a bus file that has no text. The text of each other one is rows of checks/rows/bus_replay_inputs.toml.
use crate::comparing::holds;
use bus_config::{ConfigFault, config_fault_text};
use std::alloc::Global;

fn has_no_text(alloc: Global, fault: &ConfigFault) -> bool {
    config_fault_text(alloc, fault).is_err()
}

#[test]
fn want_of_memory_has_no_text_as_a_fault_of_a_bus_file(rt: HostRuntime) {
    let fault = ConfigFault::Memory;
    holds(&rt, "no text", has_no_text(rt.alloc(), &fault));
}
