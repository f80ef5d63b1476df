// The nodes of a bus file.

ghost use Rattle.std.specs.Prelude.{◌≡◌, ◌≢◌, ◌≤◌, ◌<◌, [], map, length, IfOk, All, AllPairs};
ghost use Rattle.toml.specs.View.{view};
ghost use Rattle.bus_config.specs.BusFile.{next_node as next_node_in, nodes_from};
ghost use Rattle.bus_config.specs.Heads.{IsNewNode, AreNewNodes};
ghost use Rattle.bus_config.specs.Answers.{AnswersAs, AnswersAsList};

use crate::fault::ConfigFault;
use crate::heads::{NodeHead, next_head};
use crate::node_lines::NodeLine;
use crate::routes::read_routes;
use cell_store::Version;
use freshness_routes::NodeConfig;
use std::alloc::Global;
use toml::Value;

// The node of a row, after those that were read.
#[tactic(auto, unfolding(crate::specs::BusFile::next_node))]
fn next_node(
    alloc: Global,
    version: Version,
    before: &[NodeLine],
    row: &Value,
) -> Result<NodeLine, ConfigFault>
    requires { length before.now < 8 }
    ensures exact { AnswersAs (next_node_in version before.now (view row.now)) result }
    ensures new { IfOk result (IsNewNode version before.now) }
{
    let number = before.len() as u8 + 1;
    let NodeHead { name, uid, rows } = match next_head(version, before, row) {
        Some(head) => head,
        None => return Err(ConfigFault::Node(number)),
    };
    let routes = read_routes(alloc, number, rows)?;
    match NodeConfig::new(uid, routes) {
        Some(config) => Ok(NodeLine { name, config }),
        None => Err(ConfigFault::Node(number)),
    }
}

// The nodes of the rows.
#[tactic(auto, unfolding(crate::specs::BusFile::nodes_from))]
pub(crate) fn read_nodes(
    alloc: Global,
    version: Version,
    rows: &[Value],
) -> Result<Vec<NodeLine>, ConfigFault>
    requires { length rows.now ≤ 8 }
    ensures exact { AnswersAsList (nodes_from version [] (map view rows.now)) result }
    ensures counted { IfOk result (λ nodes. length nodes.items ≡ length rows.now) }
    ensures new { IfOk result (λ nodes. AreNewNodes version nodes.items) }
{
    let mut nodes = Vec::new(alloc);
    for row in rows {
        let node = next_node(alloc, version, nodes.as_slice(), row)?;
        nodes.push(node)?;
    }
    Ok(nodes)
}
