//! What all lives of two units say, if receivers rejoin, and of the nonces for it: the contract of each function is the
//! law, and its body is empty.
ghost use Rattle.std.specs.Prelude.{◌≡◌, ◌≢◌, ◌⊎◌, ◌+◌, ◌^◌, ◌<◌, ◌∷◌, ℕ, List, length};
ghost use Rattle.counter_answers.specs.Answering.{SharesMac};
ghost use Rattle.freshness_routes.specs.declared.routes.Direction.TheVariants.{Receives};
ghost use Rattle.she_cmac.specs.Cmac.{cmac};
ghost use Rattle.rathonsi_c.specs.Nonces.{MakesNonce, nonce_input};
ghost use Rattle.rathonsi_c.specs.Rejoining.{RejoinAnswers, RejoinMacAnswers, RejoinedBy};
ghost use Rattle.rathonsi_c.specs.Routes.{RouteReady};
ghost use Rattle.rathonsi_c.specs.Syncing.{input_of_answer};
ghost use Rattle.rathonsi_c.specs.declared.TheConstants.{OK, RESERVE};
ghost use Rattle.rathonsi_c.specs.declared.route.RathonsiRoute.{RathonsiRoute};
ghost use Rattle.rathonsi_c.specs.declared.secoc.RathonsiVerdict.{RathonsiVerdict};
ghost use Rattle.rathonsi_c.specs.declared.sync.RathonsiAnswerInput.{RathonsiAnswerInput};
ghost use Rattle.rathonsi_c.specs.declared.sync.RathonsiQuestion.{RathonsiQuestion};
ghost use Rattle.rathonsi_c.specs.Lives.{PoweredUp, RisesTo};
ghost use Rattle.rathonsi_c.specs.Pairs.{Pair, PairDeed, PairLives, StaysOpen, AllGenuine, nothing_seen, accepted_of_route};

/// What a receiver's route accepts strictly rises over all lives of both units, whenever the power of either goes, though
/// it rejoins, and other routes of the unit do; and the sender's counter is at least that (`all_lives`). This holds if
/// each PDU that it accepted is one that its sender sent, and each answer that it rejoined by is one that the sender
/// made since the route was opened. Its own route doesn't rejoin, as none does that sends (`senders` of
/// [`crate::laws::freshness_rises_over_all_lives`]). Without these two, it rises from an opening of the route to the
/// next (`one_life`).
pub fn freshness_rises_though_a_receiver_rejoins()
    ensures all_lives { (m n s r : ℕ) (deeds : List PairDeed) (first last : Pair) → PoweredUp m first.sender
        → PoweredUp n first.receiver → s < m → r < n → PairLives m n s deeds first last
        → AllGenuine s r nothing_seen deeds → RisesTo 0 (accepted_of_route r deeds) (last.sender.routes s).counter }
    ensures one_life { (m n s r : ℕ) (before deeds : List PairDeed) (first mid last : Pair)
        → PoweredUp n first.receiver → r < n → PairLives m n s before first mid
        → PairLives m n s deeds mid last → StaysOpen r deeds
        → RisesTo 0 (accepted_of_route r deeds) (last.receiver.routes r).counter }
{}

/// A rejoin moves a counter, or asks for a reserve, only to the counter that the answer tells, and only if the MAC of it
/// is that of the question and of this counter under the key of the route's slot. A counter goes down only if no call
/// moved it since the route was opened.
pub fn a_counter_goes_down_by_its_key_alone()
    ensures moved { (r : RathonsiRoute) (image answer : List ℕ) (q : RathonsiQuestion) (verdict : RathonsiVerdict)
        → RejoinAnswers r image q answer verdict → verdict.status ≡ OK
        → RejoinedBy r image q answer verdict.freshness }
    ensures reserved { (r : RathonsiRoute) (image answer : List ℕ) (q : RathonsiQuestion) (verdict : RathonsiVerdict)
        → RejoinAnswers r image q answer verdict → verdict.status ≡ RESERVE
        → RejoinedBy r image q answer verdict.freshness }
{}

/// A rejoin in one step is one in two steps with the CMAC of the input under the key of the slot: both give the same
/// verdict.
pub fn a_rejoin_is_two_steps()
    ensures { (r : RathonsiRoute) (image key answer : List ℕ) (q : RathonsiQuestion) (bound : ℕ)
        (input : RathonsiAnswerInput) (one two : RathonsiVerdict) → RouteReady r Receives image key bound
        → input ≡ input_of_answer r q answer → RejoinAnswers r image q answer one
        → RejoinMacAnswers r image q answer input (cmac key input.bytes) two → one ≡ two }
{}

/// Two nonces of one key are the same only if two messages have one CMAC under it, or both are made of one count of one
/// route by units of one name. A unit makes no two of one count: each becomes the route's counter, and that rises over all
/// lives, since the route sends and so never rejoins ([`crate::laws::freshness_rises_over_all_lives`]).
pub fn a_nonce_is_of_one_count()
    ensures { (r s : RathonsiRoute) (image later nonce : List ℕ) (asker other : ℕ) (m : MakesNonce r image asker nonce)
        (l : MakesNonce s later other nonce) → m.key ≡ l.key → r.data_id < 2 ^ 16 → s.data_id < 2 ^ 16
        → asker < 2 ^ 32 → other < 2 ^ 32 → r.counter + 1 < 2 ^ 64 → s.counter + 1 < 2 ^ 64
        → (r.data_id ≢ s.data_id) ⊎ ((asker ≢ other) ⊎ (r.counter ≢ s.counter))
        → SharesMac m.key (nonce_input r.data_id asker (r.counter + 1)) (nonce_input s.data_id other (s.counter + 1)) }
{}

/// The input of a nonce has 80 bytes, and the first isn't zero: that of a PDU has at most 70, that of an answer 88, and
/// that of a boot MAC begins with a zero. No message of a key update has more than 48.
pub fn a_nonce_input_is_no_other()
    ensures length { (id asker count : ℕ) → length (nonce_input id asker count) ≡ 80 }
    ensures boot { (id asker count : ℕ) (rest : List ℕ) → nonce_input id asker count ≢ 0 ∷ rest }
{}
