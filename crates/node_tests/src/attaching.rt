//! First cells, and cells that are no node's: they are handed back as they were. Which is named is rows of
//! `checks/rows/node.toml`.
ghost use Rattle.std.specs.Prelude.{◌≡◌, ◌+◌, length, false};

use crate::bench::{STORES, config, store_of};
use crate::comparing::{holds, same};
use crate::routes::THREE;
use cell_store::{Cells, Kind, Version};
use freshness_manager::NodeConfig;
use secoc_node::{AttachFault, Node, first_cells};
use std::alloc::Global;
use std::process::Abort;
use std::test::Fail;

/// Each cell is as it was.
fn are_back<C: Cells>(rt: &impl Abort, back: &C, cells: &[[u8; 32]]) {
    holds(rt, "count", usize::from(back.count()) == cells.len());
    for place in 0..back.count() {
        let mut out = [1; 32];
        back.get(place, &mut out);
        holds(rt, place, out == cells[usize::from(place)]);
    }
}

/// The node is refused for its last bound, and each cell is handed back.
fn refuses<C: Cells + Drop>(
    rt: &impl Abort,
    alloc: Global,
    config: NodeConfig,
    store: C,
    cells: &[[u8; 32]],
) -> Result<(), Fail>
    requires count { length (C.state store).cells ≡ 14 + length config.routes }
    requires whole { (C.state store).broken ≡ false }
{
    match Node::attach(alloc, config, store) {
        Ok(_) => Err(Fail::from("a node")),
        Err(refused) => {
            same(rt, "fault", &refused.fault, &AttachFault::BadBound(16));
            are_back(rt, &refused.cells, cells);
            Ok(())
        }
    }
}

/// What a cell has that no bound has, and what stands after the cells of a node.
const NOTHING: [u8; 32] = [7; 32];

fn is_handed_back(rt: &impl Abort, alloc: Global, store: (Kind, Version)) -> Result<(), Fail> {
    let config = config(alloc, &THREE)?;
    let mut cells = [NOTHING; 270];
    let count = first_cells(&config, &mut cells);
    same(rt, "count", &count, &17);
    holds(rt, "the rest", cells[17..] == [NOTHING; 253]);
    cells[16] = NOTHING;
    let cells = &cells[..count];
    let store = store_of(alloc, store, cells)?;
    refuses(rt, alloc, config, store, cells)
}

#[test]
fn cells_that_are_no_node_s_are_handed_back(rt: HostRuntime) -> Result<(), Fail> {
    for store in STORES {
        is_handed_back(&rt, rt.alloc(), store)?;
    }
    Ok(())
}
