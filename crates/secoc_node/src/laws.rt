//! Laws of nodes and their stores: the contract of each function is the law, and its body is empty.
ghost use Rattle.std.specs.Prelude.{◌≡◌, ℕ, List};
ghost use Rattle.cut_disk.specs.Images.{firm};
ghost use Rattle.cell_store.specs.declared.kinds.Layout.{Layout};
ghost use Rattle.cell_store.specs.Store.{Stands};
ghost use Rattle.freshness_routes.specs.Config.{Config, IsConfig};
ghost use Rattle.bus_machine.specs.Node.{Kept, powered};
ghost use Rattle.secoc_node.specs.Cells.{CellsOf, IsKept};
ghost use Rattle.secoc_node.specs.Fits.{FitsNode};

/// For one configuration the cells of a node tell what it keeps.
pub fn cells_tell_what_is_kept()
    ensures { (config : Config) (kept other : Kept) → IsConfig config → IsKept config kept → IsKept config other
        → CellsOf config kept ≡ CellsOf config other → kept ≡ other }
{}

/// A disk without a loose byte that stands for what a node keeps fits the node that powers up with it.
pub fn a_settled_disk_fits_its_node()
    ensures { (layout : Layout) (config : Config) (kept : Kept) (bytes : List ℕ)
        → Stands layout bytes (CellsOf config kept)
        → FitsNode layout (powered config kept) (firm bytes) }
{}
