//! Laws of stores: the contract of each function is the law, and its body is empty.
ghost use Rattle.std.specs.Prelude.{◌≡◌, ◌≢◌, ℕ, ◌^◌, ◌<◌, ◌≤◌, List, [], length, slice_index_or, slice_set, replicate};
ghost use Rattle.cell_store.specs.declared.kinds.Layout.{Layout};
ghost use Rattle.cell_store.specs.Layout.{header};
ghost use Rattle.cell_store.specs.Store.{FewCells, Stands, Fresh, Put, store_size};

/// A header tells its kind, its version and its number of cells, which two bytes can hold.
pub fn a_header_tells_its_store()
    ensures { (layout that : Layout) (n m : ℕ) → n < 2 ^ 16 → m < 2 ^ 16
        → header layout n ≡ header that m
        → (layout.kind ≡ that.kind) × (layout.version ≡ that.version) × (n ≡ m) }
{}

/// It is never blank.
pub fn a_header_is_not_blank()
    ensures { (layout : Layout) (n : ℕ) → header layout n ≢ replicate 32 0 }
{}

/// Bytes stand for at most one list in one kind and version.
pub fn bytes_stand_for_one_list()
    ensures { (layout : Layout) (x : List ℕ) (cells others : List (List ℕ))
        → Stands layout x cells → Stands layout x others → cells ≡ others }
{}

/// A fresh store stands for its cells.
pub fn a_fresh_store_stands()
    ensures { (layout : Layout) (cells : List (List ℕ)) (x y : List ℕ) → FewCells (length cells)
        → ((i : ℕ) → i < length cells → length (slice_index_or cells i []) ≡ 32)
        → store_size layout (length cells) ≤ length x
        → Fresh layout cells x y → Stands layout y cells }
{}

/// After a finished put of 32 bytes the bytes stand for the list with them in their place.
pub fn a_finished_put_stands()
    ensures { (layout : Layout) (x y : List ℕ) (cells : List (List ℕ)) (cell : ℕ) (bytes : List ℕ)
        → Stands layout x cells → cell < length cells → length bytes ≡ 32
        → Put layout x cell bytes y → Stands layout y (slice_set cells cell bytes) }
{}
