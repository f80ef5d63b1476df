//! A law of the definitions: the function has an empty body, and its contract is the law.
ghost use Rattle.std.specs.Prelude.{◌≡◌, ℕ, ◌-◌, ◌≤◌, List, ◌∷◌, true};
ghost use Rattle.explain_commands.specs.declared.trials.KnownReceiver.{KnownReceiver};
ghost use Rattle.locate_commands.specs.Locating.{fits, AcceptsFrames};

/// With one less than a freshness that fits frames as its counter, a receiver accepts the first of them with this
/// freshness, and two after it.
pub fn what_fits_is_accepted()
    ensures { (r : KnownReceiver) (first : List ℕ) (rest : List (List ℕ)) (v : ℕ) → 1 ≤ v → 1 ≤ r.window
        → fits r (first ∷ rest) v ≡ true → AcceptsFrames r first rest v }
{}
