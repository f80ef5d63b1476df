//! A law of what is printed: the contract of the function is the law, and its body is empty.
ghost use Rattle.std.specs.Prelude.{◌≡◌, ℕ, List};
ghost use Rattle.slot_commands.specs.KeysApart.{SameButKeys};
ghost use Rattle.slot_commands.specs.Stores.{ListsStore};

/// A list tells no key: stores that differ in the keys of their slots alone have one list.
pub fn a_list_tells_no_key()
    ensures { (x y text other : List ℕ) → SameButKeys x y → ListsStore x text → ListsStore y other → text ≡ other }
{}
