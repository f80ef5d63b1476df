//! Laws of the definitions: each function has an empty body, and its contract is the law.
ghost use Rattle.std.specs.Prelude.{ℕ, List, Option};
ghost use Rattle.secoc_words.specs.Counting.{Acceptance, KeepsCounters, AcceptedRise};

/// Of two PDUs that the same receiver accepts, the later has the greater freshness, if each receiver keeps its counter.
pub fn accepted_freshness_rises()
    ensures { (first : ℕ → ℕ) (answers : List (Option Acceptance)) → KeepsCounters first answers
        → AcceptedRise answers }
{}
