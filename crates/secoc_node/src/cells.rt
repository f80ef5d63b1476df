//! The cells of a node that has done nothing yet.
ghost use Rattle.std.specs.Prelude.{◌≡◌, ◌≤◌, ◌+◌, length, take, drop};
ghost use Rattle.bus_machine.specs.Node.{first_node};
ghost use Rattle.secoc_node.specs.Cells.{CellsOf};

use freshness_manager::NodeConfig;
use freshness_store::bound_bytes;

/// Writes the cells of a new node to the beginning of `out`: fourteen empty slots, and then each route's start as its
/// bound. Gives their number, 14 to 270.
pub fn first_cells(config: &NodeConfig, out: &mut [[u8; 32]; 270]) -> usize
    ensures most { result ≤ 270 }
    ensures count { result ≡ 14 + length config.now.routes }
    ensures cells { take result out.new ≡ CellsOf config.now (first_node config.now).kept }
    ensures rest { drop result out.new ≡ drop result out.old }
{
    let routes = config.routes.as_slice();
    out[..14].copy_from_slice(&[[0; 32]; 14]);
    for (place, route) in routes.iter().enumerate() {
        out[14 + place] = bound_bytes(route.id, route.direction, route.start);
    }
    14 + routes.len()
}
