//! A bus of one node, and its routes.
ghost use Rattle.std.specs.Prelude.{◌≡◌, length};
ghost use Rattle.bus_programs.specs.BusRoutes.{routes_of, HasOneNode};

use bus_config::BusConfig;
use freshness_routes::{NodeConfig, Route};
use program_edge::Refusal;

/// Whether the bus has one node, or the refusal.
pub fn check_bus(bus: &BusConfig) -> Result<(), Refusal>
    ensures { HasOneNode bus.now result }
{
    if bus.nodes().len() != 1 {
        return Err(Refusal::fixed(3, "config: nodes\n"));
    }
    Ok(())
}

/// The routes of the one node of a bus.
pub fn node_routes(bus: &BusConfig) -> &[Route]
    requires { length bus.now.nodes ≡ 1 }
    ensures { result.now ≡ routes_of bus.now }
{
    let nodes = bus.nodes();
    let node = &nodes[0];
    routes_in(&node.config)
}

/// The routes of a configuration.
fn routes_in(config: &NodeConfig) -> &[Route]
    ensures { result.now ≡ config.now.routes }
{
    config.routes.as_slice()
}
