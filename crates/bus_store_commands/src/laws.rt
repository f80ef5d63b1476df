//! Laws of a store that is made: the contract of each function is the law, and its body is empty.
ghost use Rattle.std.specs.Prelude.{◌≡◌, ◌≤◌, ℕ, List, Some, length, replicate};
ghost use Rattle.cut_disk.specs.State.{DiskState};
ghost use Rattle.cut_disk.specs.Images.{firm, EachImage};
ghost use Rattle.cell_store.specs.declared.kinds.Kind.{Kind};
ghost use Rattle.cell_store.specs.declared.kinds.Version.{Version};
ghost use Rattle.cell_store.specs.Layout.{from_base};
ghost use Rattle.cell_store.specs.Store.{HoldsCells, store_size};
ghost use Rattle.any_cells.specs.declared.looking.Found.TheVariants.{Blank};
ghost use Rattle.any_cells.specs.Either.{layout};
ghost use Rattle.any_cells.specs.Looking.{IsFound};
ghost use Rattle.freshness_routes.specs.Config.{Config, IsConfig};
ghost use Rattle.bus_world.specs.TakingUp.{cells_in};
ghost use Rattle.bus_store_commands.specs.declared.making.MakeFault.{MakeFault};
ghost use Rattle.bus_store_commands.specs.NodeStores.{StoreMade, StoreUnmade};
ghost use Rattle.bus_store_commands.specs.CutMakes.{NewStore, CutMake};

/// Whenever the power goes while a node's store is made on a disk of zeros, a new node's store stands, or none does.
/// The same call finds the one. If none stands and a byte isn't zero, it refuses the disk: no key and no counter was in
/// it, so the file may be removed.
pub fn a_cut_make_leaves_a_new_node_or_none()
    ensures made { (kind : Kind) (version : Version) (config : Config) (size : ℕ) (before after : DiskState)
        → before.told ≡ Some (firm (replicate size 0)) → store_size (layout kind version) (cells_in config) ≤ size
        → StoreMade kind version config before after → EachImage after.told (NewStore kind version config size) }
    ensures cut { (kind : Kind) (version : Version) (config : Config) (size : ℕ) (before after : DiskState)
        (fault : MakeFault) → IsConfig config
        → before.told ≡ Some (firm (replicate size 0)) → store_size (layout kind version) (cells_in config) ≤ size
        → StoreUnmade kind version config before after fault
        → EachImage after.told (CutMake kind version config size) }
{}

/// A disk of zeros is found blank, and holds no cells even for a header.
pub fn zeros_are_blank_and_hold_no_cells()
    ensures blank { (kind : Kind) (version : Version) (n size : ℕ) → store_size (layout kind version) n ≤ size
        → IsFound kind version n (replicate size 0) Blank }
    ensures none { (kind : Kind) (version : Version) (size : ℕ) (cells : List (List ℕ)) → 1 ≤ length cells
        → ¬ HoldsCells kind (from_base version (replicate size 0)) cells }
{}
