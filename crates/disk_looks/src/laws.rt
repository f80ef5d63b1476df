//! A law of looks at whole disks: its contract is the law, and its body is empty.
ghost use Rattle.std.specs.Prelude.{◌≡◌, ◌≤◌, ℕ, List, length};
ghost use Rattle.cell_store.specs.declared.kinds.Kind.{Kind};
ghost use Rattle.cell_store.specs.declared.kinds.Version.{Version};
ghost use Rattle.disk_looks.specs.declared.looks.Seen.{Seen};
ghost use Rattle.disk_looks.specs.Looks.{LooksAs};

/// Whatever the bytes are, at least 32, they are seen as one thing and no other.
pub fn bytes_are_seen_as_one_thing()
    ensures { (kind : Kind) (version : Version) (n : ℕ) (x : List ℕ) → 32 ≤ length x
        → (seen : Seen) × LooksAs kind version n x seen
        × ((other : Seen) → LooksAs kind version n x other → other ≡ seen) }
{}
