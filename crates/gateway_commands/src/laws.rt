//! What holds of every gateway over a disk that tells its bytes, put together from the laws of the crates below; and
//! which events the worked example has.
ghost use Rattle.gateway_commands.specs.ExampleEvents.{ExampleReplays};
ghost use Rattle.gateway_commands.specs.Headline.{GatewaysAreRuns};

use bus_config::named_buses_are_buses;
use bus_laws::buses_begin_first;
use secoc_gateway::{arrivals_rise, departures_rise, forwards_what_arrived, gateway_turns_keep};

/// What was done of a gateway over a disk that tells its bytes is one run of its machine with all of `OneGatewayRun`.
pub fn gateways_are_runs()
    ensures { GatewaysAreRuns }
{
    named_buses_are_buses();
    buses_begin_first();
    forwards_what_arrived();
    arrivals_rise();
    departures_rise();
    gateway_turns_keep();
}

/// The script of the worked example is a key update and one arrival twice. The law says nothing of the answers: that
/// the gateway forwards the first arrival and refuses the second one is a row of `checks/rows/gateway.toml`.
pub fn example_replays()
    ensures { ExampleReplays }
{}
