//! Whether a gateway over the bus of a bus file takes the pairs.
ghost use Rattle.std.specs.Prelude.{◌≡◌, ◌≤◌, MatchOption};
ghost use Rattle.program_edge.specs.Rows.{row_of};
ghost use Rattle.freshness_routes.specs.declared.config.TheConstants.{MOST_ROUTES};
ghost use Rattle.secoc_gateway.specs.Pairs.{AreGood, IsLowestBad};
ghost use Rattle.gateway_commands.specs.Texts.{pair_text};
ghost use Rattle.gateway_commands.specs.Steps.{ChecksPairs};

use bus_config::BusConfig;
use freshness_routes::NodeConfig;
use program_edge::Refusal;
use secoc_gateway::lowest_bad;

/// Whether the bus has one node, and a gateway over it takes these pairs; or the refusal that names the lowest that
/// isn't taken. It takes no memory.
pub fn check_pairs(bus: &BusConfig, pairs: &[(u16, u16)]) -> Result<(), Refusal>
    ensures { ChecksPairs bus.now pairs.now result }
{
    let nodes = bus.nodes();
    if nodes.len() != 1 {
        return Err(Refusal::fixed(3, "config: nodes\n"));
    }
    let node = &nodes[0];
    match bad_pair(&node.config, pairs) {
        None => Ok(()),
        Some(place) => Err(pair_refusal(place + 1)),
    }
}

// The place of the lowest pair that a gateway over a node with this configuration doesn't take, counted from 0.
fn bad_pair(config: &NodeConfig, pairs: &[(u16, u16)]) -> Option<u16>
    ensures lowest { MatchOption result (AreGood config.now.routes pairs.now)
        (IsLowestBad config.now.routes pairs.now) }
    ensures within { MatchOption result (Unit {0}) (λ place. place ≤ MOST_ROUTES) }
{
    lowest_bad(config.routes.as_slice(), pairs)
}

// The refusal of the pair with this number, from 1.
fn pair_refusal(number: u16) -> Refusal
    ensures { result ≡ row_of 3 (pair_text number) }
{
    Refusal::numbered(3, "config: pair ", u32::from(number), "\n")
}
