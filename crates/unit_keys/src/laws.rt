//! Laws of the definitions: each function has an empty body, and its contract is the law.
ghost use Rattle.std.specs.Prelude.{◌≡◌, ℕ, List};
ghost use Rattle.basics.specs.Blocks.{IsBlock};
ghost use Rattle.memory_update.specs.Identifier.{IsUid};
ghost use Rattle.unit_keys.specs.Derived.{unit_input};
ghost use Rattle.unit_keys.specs.Wrapped.{wrapped};

/// The input of a derivation is that of one unit and one slot: two of them have the same key only if two inputs have
/// the same CMAC.
pub fn an_input_is_of_one_unit()
    ensures { (uid uid' : List ℕ) (slot slot' : ℕ) → IsUid uid → IsUid uid'
        → unit_input uid slot ≡ unit_input uid' slot' → (uid ≡ uid') × (slot ≡ slot') }
{}

/// A wrapped text is of one key.
pub fn a_wrapped_text_is_of_one_key()
    ensures { (key plain plain' : List ℕ) → IsBlock key → IsBlock plain → IsBlock plain'
        → wrapped key plain ≡ wrapped key plain' → plain ≡ plain' }
{}
