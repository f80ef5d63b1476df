//! The bus file as an input of a program.
ghost use Rattle.bus_programs.specs.BusFiles.{FindsBus, HasBus, IsConfigRow};

use bus_config::{BusConfig, ConfigFault, config_fault_text, read_config};
use bus_port::Source;
use program_edge::{Refusal, read_input};
use std::alloc::{AllocError, Global};

/// The bus of the bus file that a source gives, or its refusal.
pub fn bus_from<S: Source>(alloc: Global, config: &mut S) -> Result<BusConfig, Refusal>
    ensures { FindsBus (record { before = S.state config.old; after = S.state config.new }) result }
{
    let input = read_input(alloc, config)?;
    bus_in(alloc, input.as_slice())
}

/// The bus of a bus file, or its refusal.
fn bus_in(alloc: Global, text: &[u8]) -> Result<BusConfig, Refusal>
    ensures { HasBus text.now result }
{
    match read_config(alloc, text) {
        Ok(bus) => Ok(bus),
        Err(fault) => Err(config_refusal(alloc, &fault)),
    }
}

/// The refusal of a bus file, with the text that names its fault, or out of memory.
fn config_refusal(alloc: Global, fault: &ConfigFault) -> Refusal
    ensures { IsConfigRow fault.now result }
{
    match config_fault_text(alloc, fault) {
        Ok(text) => Refusal::made(3, text),
        Err(AllocError) => Refusal::no_memory(),
    }
}
