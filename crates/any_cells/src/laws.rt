//! A law of looks at disks: its contract is the law, and its body is empty.
ghost use Rattle.std.specs.Prelude.{◌≡◌, ℕ, List};
ghost use Rattle.cell_store.specs.declared.kinds.Kind.{Kind};
ghost use Rattle.cell_store.specs.declared.kinds.Version.{Version};
ghost use Rattle.any_cells.specs.declared.looking.Found.{Found};
ghost use Rattle.any_cells.specs.Looking.{IsFound};

/// Whatever the bytes are, they are found to be one thing and no other.
pub fn bytes_are_found_to_be_one_thing()
    ensures { (kind : Kind) (version : Version) (n : ℕ) (x : List ℕ)
        → (found : Found) × IsFound kind version n x found
        × ((other : Found) → IsFound kind version n x other → other ≡ found) }
{}
