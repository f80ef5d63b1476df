//! Laws of the definitions: each function has an empty body, and its contract is the law.
ghost use Rattle.std.specs.Prelude.{◌≡◌, ℕ, ◌+◌, ◌≤◌, List, length, take, map, Some, None};
ghost use Rattle.secoc_words.specs.Counting.{AcceptedRise};
ghost use Rattle.secured_pdu.specs.Frame.{IsWindow};
ghost use Rattle.secured_pdu.specs.Verdict.{Accepted, Verdict};
ghost use Rattle.explain_commands.specs.declared.trials.KnownReceiver.{KnownReceiver};
ghost use Rattle.can_logs.specs.WatchMaps.{NumberedMap};
ghost use Rattle.explain_commands.specs.Trials.{accepted_freshness};
ghost use Rattle.explain_commands.specs.Explaining.{answer_accepts, answers_to};

/// A frame is accepted with the freshness with which a receiver accepts it, and by `watch`: the first bytes are the
/// Secured I-PDU, and the rest is padding.
pub fn accepted_as_a_receiver_does()
    ensures { (r : KnownReceiver) (bytes : List ℕ) (v : ℕ) → accepted_freshness r bytes ≡ Some v
        → Verdict r.key r.id r.counter r.window (take (r.size + 4) bytes) (Accepted (take r.size bytes) v) }
{}

/// A frame fails only if it is too short, or a receiver accepts it with no freshness.
pub fn no_receiver_accepts_what_fails()
    ensures { (r : KnownReceiver) (bytes : List ℕ) → IsWindow r.window → 1 ≤ r.size → r.size ≤ 60
        → r.size + 4 ≤ length bytes → accepted_freshness r bytes ≡ None
        → (payload : List ℕ) (v : ℕ)
        → ¬ Verdict r.key r.id r.counter r.window (take (r.size + 4) bytes) (Accepted payload v) }
{}

/// Of two frames that the same line of the map accepts, the later has the greater freshness.
pub fn accepted_freshness_rises_per_explained_line()
    ensures { (mapping : NumberedMap) (lines : List (List ℕ))
        → AcceptedRise (map answer_accepts (answers_to mapping lines)) }
{}
