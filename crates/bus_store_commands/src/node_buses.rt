//! A bus file of one node as an input.
ghost use Rattle.bus_store_commands.specs.NodeBuses.{TakesNodeBus};

use bus_config::BusConfig;
use bus_port::Source;
use bus_programs::{bus_from, check_bus};
use program_edge::Refusal;
use std::alloc::Global;

/// The bus of one node of the bus file that a source gives, or the refusal: that of the bus file, or 3 if its bus has
/// more nodes.
pub fn node_bus_from<S: Source>(alloc: Global, config: &mut S) -> Result<BusConfig, Refusal>
    ensures { TakesNodeBus (record { before = S.state config.old; after = S.state config.new }) result }
{
    let bus = bus_from(alloc, config)?;
    check_bus(&bus)?;
    Ok(bus)
}
