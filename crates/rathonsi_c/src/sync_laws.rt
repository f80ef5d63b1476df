//! What the answer to a nonce says: the contract of each function is the law, and its body is empty.
ghost use Rattle.std.specs.Prelude.{◌≡◌, ◌≢◌, ◌+◌, ◌^◌, ◌<◌, ◌≤◌, ℕ, List};
ghost use Rattle.freshness_routes.specs.declared.routes.Direction.TheVariants.{Receives};
ghost use Rattle.secured_pdu.specs.Frame.{Secured};
ghost use Rattle.she_cmac.specs.Cmac.{cmac};
ghost use Rattle.counter_answers.specs.Answering.{IsQuestion, TellsWith, SharesMac, answer_input, answer_of};
ghost use Rattle.secured_pdu.specs.Verdict.{Accepted};
ghost use Rattle.rathonsi_c.specs.Images.{ImageKey};
ghost use Rattle.rathonsi_c.specs.Routes.{IsFreshnessOnly, RouteReady, RouteAdvances, ReceiveAnswers, bounded_answer};
ghost use Rattle.rathonsi_c.specs.Routes.{is_booted};
ghost use Rattle.rathonsi_c.specs.Syncing.{AnsweredBy, SyncTakeAnswers, TookAnswer, TakeMacAnswers, asked_of, asked_by};
ghost use Rattle.rathonsi_c.specs.Syncing.{way_of, input_with, input_of_answer};
ghost use Rattle.rathonsi_c.specs.Rejoining.{RejoinedBy};
ghost use Rattle.rathonsi_c.specs.declared.sync.RathonsiAnswerInput.{RathonsiAnswerInput};
ghost use Rattle.rathonsi_c.specs.declared.sync.RathonsiQuestion.{RathonsiQuestion};
ghost use Rattle.rathonsi_c.specs.Lives.{Memory, Deed, PoweredUp, Lives, RisesTo, given_out, NeverRejoins};
ghost use Rattle.rathonsi_c.specs.declared.TheConstants.{OK, RESERVE};
ghost use Rattle.rathonsi_c.specs.declared.route.RathonsiRoute.{RathonsiRoute};
ghost use Rattle.rathonsi_c.specs.declared.secoc.RathonsiVerdict.{RathonsiVerdict};

/// All freshness that a route gives out after its answer, in this life and in every later one, is above the counter that
/// the answer tells, unless the route rejoins.
pub fn freshness_after_an_answer_is_above_it()
    ensures { (n : ℕ) (before after : List Deed) (first mid last : Memory) (k : ℕ) → PoweredUp n first
        → Lives n before first mid → Lives n after mid last → k < n → NeverRejoins k after
        → (q : RathonsiQuestion) (answer : List ℕ) → AnsweredBy (mid.routes k) mid.image q answer
        → (mac : List ℕ) (told : ℕ) → TellsWith mac told answer
        → RisesTo told (given_out k after) (last.routes k).counter }
{}

/// An answer moves a counter, or asks for a reserve, only to the counter that it tells, and only if its MAC is that of
/// the question and of this counter under the key of the route's slot. What has another nonce, another unit, another
/// route or another counter in it has another input of the MAC (`counter_answers::laws`).
pub fn a_counter_is_moved_by_its_key_alone()
    ensures moved { (r : RathonsiRoute) (image answer : List ℕ) (q : RathonsiQuestion) (verdict : RathonsiVerdict)
        → SyncTakeAnswers r image q answer verdict → verdict.status ≡ OK
        → TookAnswer r image q answer verdict.freshness }
    ensures reserved { (r : RathonsiRoute) (image answer : List ℕ) (q : RathonsiQuestion) (verdict : RathonsiVerdict)
        → SyncTakeAnswers r image q answer verdict → verdict.status ≡ RESERVE
        → TookAnswer r image q answer verdict.freshness }
{}

/// What is taken is the answer to this question: to its nonce, by the unit that was asked, for the route of the other
/// direction. Else two messages have one CMAC under the key (`asked`). So a unit that answers and asks under its own
/// name takes no answer of its own (`own`). So does one that rejoins (`rejoined`, `own_rejoined`).
pub fn an_answer_of_its_own_is_not_taken()
    ensures asked { (s r : RathonsiRoute) (sent image answer : List ℕ) (q p : RathonsiQuestion) (told : ℕ)
        (a : AnsweredBy s sent q answer) (t : TookAnswer r image p answer told) → IsQuestion (asked_of s q)
        → IsQuestion (asked_by r p) → a.key ≡ t.key → asked_of s q ≢ asked_by r p
        → SharesMac a.key (answer_input (asked_of s q) s.counter) (answer_input (asked_by r p) told) }
    ensures own { (s r : RathonsiRoute) (sent image answer : List ℕ) (q p : RathonsiQuestion) (told : ℕ)
        (a : AnsweredBy s sent q answer) (t : TookAnswer r image p answer told) → IsQuestion (asked_of s q)
        → IsQuestion (asked_by r p) → a.key ≡ t.key → q.answerer ≡ p.asker
        → SharesMac a.key (answer_input (asked_of s q) s.counter) (answer_input (asked_by r p) told) }
    ensures rejoined { (s r : RathonsiRoute) (sent image answer : List ℕ) (q p : RathonsiQuestion) (told : ℕ)
        (a : AnsweredBy s sent q answer) (t : RejoinedBy r image p answer told) → IsQuestion (asked_of s q)
        → IsQuestion (asked_by r p) → a.key ≡ t.key → asked_of s q ≢ asked_by r p
        → SharesMac a.key (answer_input (asked_of s q) s.counter) (answer_input (asked_by r p) told) }
    ensures own_rejoined { (s r : RathonsiRoute) (sent image answer : List ℕ) (q p : RathonsiQuestion) (told : ℕ)
        (a : AnsweredBy s sent q answer) (t : RejoinedBy r image p answer told) → IsQuestion (asked_of s q)
        → IsQuestion (asked_by r p) → a.key ≡ t.key → q.answerer ≡ p.asker
        → SharesMac a.key (answer_input (asked_of s q) s.counter) (answer_input (asked_by r p) told) }
{}

/// A receiver that took the answer of its sender accepts every PDU that the sender sends after the answer, if its
/// freshness is within the window above what the answer tells and nothing was accepted since. Accepted means OK, or
/// RESERVE with its freshness, after which the same call answers OK.
pub fn a_pdu_after_an_answer_is_accepted()
    ensures { (s r taken : RathonsiRoute) (sent image later answer : List ℕ) (q p : RathonsiQuestion)
        (verdict : RathonsiVerdict)
        → AnsweredBy s sent q answer → SyncTakeAnswers r image p answer verdict → verdict.status ≡ OK
        → RouteAdvances Receives r image verdict.freshness taken
        → (key payload pdu : List ℕ) (bound freshness : ℕ) (second : RathonsiVerdict)
        → Secured key taken.data_id payload freshness pdu → s.counter < freshness
        → freshness ≤ s.counter + taken.window → freshness < 2 ^ 64
        → ¬ IsFreshnessOnly taken → RouteReady taken Receives later key bound → ReceiveAnswers taken later pdu second
        → second ≡ bounded_answer bound (Accepted payload freshness) }
{}

/// An answer in one step is one in two steps with the CMAC of the input under the key of the slot.
pub fn an_answer_is_two_steps()
    ensures { (r : RathonsiRoute) (image key answer : List ℕ) (q : RathonsiQuestion) (input : RathonsiAnswerInput)
        → r.counter < 2 ^ 64 → ImageKey image r.slot (is_booted r) key
        → input ≡ input_with (asked_of r q) r.counter → answer ≡ answer_of input.counter (cmac key input.bytes)
        → AnsweredBy r image q answer }
{}

/// So is a take: both give the same verdict.
pub fn a_take_is_two_steps()
    ensures { (r : RathonsiRoute) (image key answer : List ℕ) (q : RathonsiQuestion) (bound : ℕ)
        (input : RathonsiAnswerInput) (one two : RathonsiVerdict) → RouteReady r (way_of r) image key bound
        → input ≡ input_of_answer r q answer → SyncTakeAnswers r image q answer one
        → TakeMacAnswers r image q answer input (cmac key input.bytes) two → one ≡ two }
{}
