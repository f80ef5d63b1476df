//! Laws of disks that fit what a store is to keep.
ghost use Rattle.std.specs.Prelude.{◌≡◌, ℕ, true, None, is_some, List, set};
ghost use Rattle.cut_disk.specs.State.{Told};
ghost use Rattle.cut_disk.specs.Images.{CutsTo};
ghost use Rattle.cell_store.specs.Cells.{CellsState, Settled, Puts, FailsPut, StandsNow};
ghost use Rattle.store_keeping.specs.Keeping.{Keeping, MayKeep, keeps_cells, put_failed, stays_down, FitsStore};
ghost use Rattle.store_keeping.specs.Keeping.{TellsKept};
ghost use Rattle.store_keeping.specs.Keeping.{HoldsKept};

/// The disk of a settled store fits what the store holds.
pub fn settled_store_fits_what_it_holds()
    ensures { (store : CellsState) → Settled store → FitsStore (keeps_cells store.cells) store }
{}

/// While its owner is up, a store whose disk tells its bytes and fits is settled.
pub fn store_that_fits_is_settled_while_its_owner_is_up()
    ensures { (keeping : Keeping) (store : CellsState) → TellsKept keeping store → keeping.up ≡ true
        → keeping.pending ≡ None
        → HoldsKept keeping store → Settled store }
{}

/// A put that was done leaves a disk that fits the list with the cell.
pub fn put_leaves_what_is_kept()
    ensures { (keeping : Keeping) (old new : CellsState) (i : ℕ) (c : List ℕ) → FitsStore keeping old
        → keeping.up ≡ true
        → keeping.pending ≡ None → HoldsKept keeping old → Puts i c old new
        → FitsStore (keeps_cells (set keeping.cells i c)) new × HoldsKept (keeps_cells (set keeping.cells i c)) new }
{}

/// A put that failed leaves a disk that fits the old list, with the new one pending.
pub fn failed_put_leaves_its_change_pending()
    ensures { (keeping : Keeping) (old new : CellsState) (i : ℕ) (c : List ℕ) → FitsStore keeping old
        → keeping.up ≡ true
        → keeping.pending ≡ None → HoldsKept keeping old → FailsPut i c old new
        → FitsStore (put_failed (set keeping.cells i c) keeping) new }
{}

/// What is read anew after a power cut is the list that is kept, or the one that is pending.
pub fn cut_finds_what_may_be_kept()
    ensures { (keeping : Keeping) (old new : CellsState) → TellsKept keeping old → CutsTo old.disk.told new.disk.told
        → StandsNow new → new.layout ≡ old.layout → MayKeep keeping new.cells }
{}

/// A store that was read anew after a power cut has a disk that fits what was found.
pub fn store_that_was_read_anew_fits_what_it_holds()
    ensures { (old new : CellsState) → CutsTo old.disk.told new.disk.told
        → is_some new.disk.told ≡ is_some old.disk.told
        → StandsNow new → FitsStore (keeps_cells new.cells) new }
{}

/// After a power cut from which the owner didn't come up, the disk fits what it fitted.
pub fn refused_cut_leaves_what_is_kept()
    ensures { (keeping : Keeping) (old new : CellsState) → FitsStore keeping old → CutsTo old.disk.told new.disk.told
        → is_some new.disk.told ≡ is_some old.disk.told → new.layout ≡ old.layout → FitsStore (stays_down keeping) new }
{}
