// The whole bus file.

ghost use Rattle.std.specs.Prelude.{◌≡◌};
ghost use Rattle.toml.specs.View.{table_view};
ghost use Rattle.bus_config.specs.BusFile.{bus_in, bus_of};
ghost use Rattle.bus_config.specs.Answers.{AnswersAs};

use crate::buses::BusConfig;
use crate::fault::ConfigFault;
use crate::heads::read_root;
use crate::node_lines::sent_again;
use crate::nodes::read_nodes;
use std::alloc::Global;
use toml::Table;

/// The bus that a file tells, or the first fault.
///
/// The file is a TOML 1.1 document. Its root has `store` (`"twin"` or `"log"`; without it `"twin"`), `version` (1 or 2;
/// without it 1) and `node`, an array of 1 to 8 tables. A node has `name` (1 to 16 bytes), `uid` (30 hexadecimal
/// digits, not all 0) and `route`. That is an array of at most 64 tables in version 1 and 256 in version 2. A route has
/// `id` (four hexadecimal digits), `direction` (`"send"` or `"receive"`), `slot` (4 to 13), `reserve` (1 to 128;
/// without it 1), and `start` (16 hexadecimal digits; without it 0). One that receives has `window` (1 to 256; without
/// it 256).
pub fn read_config(alloc: Global, text: &[u8]) -> Result<BusConfig, ConfigFault>
    ensures { AnswersAs (bus_of text.now) result }
{
    match toml::table_from_slice(alloc, text) {
        Ok(table) => read_bus(alloc, &table),
        Err(error) if error.is_memory() => Err(ConfigFault::Memory),
        Err(_) => Err(ConfigFault::Toml),
    }
}

#[tactic(auto, unfolding(crate::specs::BusFile::bus_in))]
fn read_bus(alloc: Global, table: &Table) -> Result<BusConfig, ConfigFault>
    ensures { AnswersAs (bus_in (table_view table.now)) result }
{
    let root = match read_root(table) {
        Some(root) => root,
        None => return Err(ConfigFault::Root),
    };
    let nodes = read_nodes(alloc, root.version, root.rows)?;
    match sent_again(nodes.as_slice()) {
        Some(id) => Err(ConfigFault::Sender(id)),
        None => match BusConfig::new(root.kind, root.version, nodes) {
            Some(bus) => Ok(bus),
            None => Err(ConfigFault::Root),
        },
    }
}
