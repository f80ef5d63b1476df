//! Laws of ledgers and their stores: the contract of each function is the law, and its body is empty.
ghost use Rattle.std.specs.Prelude.{◌≡◌, ℕ, List, Option, replicate};
ghost use Rattle.basics.specs.Bytes.{IsBytes};
ghost use Rattle.cut_disk.specs.Images.{firm};
ghost use Rattle.cell_store.specs.declared.kinds.Layout.{Layout};
ghost use Rattle.cell_store.specs.Store.{Stands};
ghost use Rattle.store_keeping.specs.Keeping.{Fits};
ghost use Rattle.key_campaign.specs.declared.entries.LedgerEntry.{LedgerEntry};
ghost use Rattle.key_campaign.specs.Campaign.{powered_ledger};
ghost use Rattle.key_campaign.specs.Entries.{no_entries};
ghost use Rattle.key_campaign.specs.Cell.{IsLedgerPlace, place_cell, HoldsPlace, HoldEntries, FirstBadEntry, ledger_cells};
ghost use Rattle.key_campaign.specs.State.{keeping_of};

/// The cell of a place has 32 bytes.
pub fn a_place_has_a_cell_of_32_bytes()
    ensures { (place : Option LedgerEntry) → IsLedgerPlace place → IsBytes 32 (place_cell place) }
{}

/// Cells tell entries one-to-one. A cell is the cell of at most one place, empty or an entry. A list of cells is that
/// of at most one list of places.
pub fn cells_tell_entries()
    ensures cell { (cell : List ℕ) (place other : Option LedgerEntry)
        → HoldsPlace cell place → HoldsPlace cell other → place ≡ other }
    ensures cells { (cells : List (List ℕ)) (entries others : List (Option LedgerEntry)) → HoldEntries cells entries
        → HoldEntries cells others → entries ≡ others }
{}

/// A disk without a loose byte that stands for the cells of a ledger's entries fits the ledger that powers up with
/// them.
pub fn a_settled_disk_fits_its_ledger()
    ensures { (layout : Layout) (entries : List (Option LedgerEntry)) (bytes : List ℕ)
        → Stands layout bytes (ledger_cells entries)
        → Fits layout (keeping_of (powered_ledger entries)) (firm bytes) }
{}

/// Cells that are those of entries have no bad one: a ledger is attached exactly if there is none.
pub fn held_cells_have_no_bad_entry()
    ensures { (cells : List (List ℕ)) (entries : List (Option LedgerEntry)) (bad : ℕ) → HoldEntries cells entries
        → ¬ FirstBadEntry cells bad }
{}

/// The cells of no entries are those of a ledger: 256 of 32 zero bytes.
pub fn cells_of_no_entries_are_a_ledger()
    ensures held { HoldEntries (ledger_cells no_entries) no_entries }
    ensures zeros { ledger_cells no_entries ≡ replicate 256 (replicate 32 0) }
{}
