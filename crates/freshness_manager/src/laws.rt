//! A law of the definitions: the contract of the function is the law, and its body is empty.
ghost use Rattle.std.specs.Prelude.{ℕ, ◌^◌, ◌<◌, Some, List};
ghost use Rattle.cut_disk.specs.Images.{EachImage};
ghost use Rattle.cell_store.specs.Cells.{CellsState, Settled};
ghost use Rattle.freshness_routes.specs.declared.routes.Direction.{Direction};
ghost use Rattle.freshness_manager.specs.Counters.{KeepsBound};
ghost use Rattle.freshness_manager.specs.Changing.{FailsChange, KeepsEither};

/// If the put of a new bound fails on a settled store, whatever a power cut leaves keeps the old bound or the new one.
pub fn a_failed_change_keeps_either_bound()
    ensures { (old new : CellsState) (place id : ℕ) (direction : Direction) (bound moved : ℕ) → moved < 2 ^ 64
        → Settled old → KeepsBound old.cells place id direction bound
        → FailsChange place id direction (Some moved) old new
        → EachImage new.disk.told (λ x. KeepsEither old.layout x place id direction bound moved) }
{}
