//! Laws of the definitions: each function has an empty body, and its contract is the law.
ghost use Rattle.std.specs.Prelude.{◌≡◌, ◌↔◌, ◌<◌, ℕ, Bool, true, Contains, List, Some};
ghost use Rattle.key_slots.specs.declared.memory.Flags.{Flags};
ghost use Rattle.key_slots.specs.declared.memory.Slot.{Slot};
ghost use Rattle.key_slots.specs.declared.refusals.Erc.{Erc};
ghost use Rattle.key_slots.specs.declared.refusals.Erc.TheVariants.{KeyInvalid};
ghost use Rattle.key_slots.specs.declared.usage.Purpose.{Purpose};
ghost use Rattle.key_slots.specs.Authority.{pairs, Authorises, is_pair};
ghost use Rattle.key_slots.specs.Flags.{flags_from, flags_number};
ghost use Rattle.key_slots.specs.Names.{erc_name};
ghost use Rattle.key_slots.specs.Usage.{usable};

/// The 25 pairs are those of their rule.
pub fn pairs_have_their_rule()
    ensures { (target auth : ℕ) → Contains pairs (target, auth) ↔ Authorises target auth }
{}

/// The test of the pairs decides them, and both of a pair are numbers of slots.
pub fn the_test_decides_the_pairs()
    ensures decides { (target auth : ℕ) → (is_pair target auth ≡ true) ↔ Contains pairs (target, auth) }
    ensures slots { (target auth : ℕ) → Contains pairs (target, auth) → (target < 14) × (auth < 14) }
{}

/// A printed name is that of one refusal.
pub fn names_are_one_to_one()
    ensures { (refusal other : Erc) → erc_name refusal ≡ erc_name other → refusal ≡ other }
{}

/// Flags and the numbers of five bits give each other.
pub fn flags_are_five_bits()
    ensures flags { (flags : Flags) → flags_from (flags_number flags) ≡ flags }
    ensures number { (n : ℕ) → n < 32 → flags_number (flags_from n) ≡ n }
{}

/// Slots 0 to 3 serve no MAC and no cipher call.
pub fn slots_below_four_serve_no_call()
    ensures { (slots : List Slot) (s : ℕ) (good : Bool) (purpose : Purpose) → s < 4
        → usable slots s good purpose ≡ Some KeyInvalid }
{}
