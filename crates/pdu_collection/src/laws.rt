//! Laws of the definitions: each function has an empty body, and its contract is the law.
ghost use Rattle.std.specs.Prelude.{◌≡◌, ℕ, List, [], ◌∷◌, ◌++◌, map, Option};
ghost use Rattle.secoc_words.specs.Counting.{AcceptedRise};
ghost use Rattle.pdu_collection.specs.Collection.{Place};
ghost use Rattle.pdu_collection.specs.Joining.{Arrival, Joining, authentic, cryptographic};
ghost use Rattle.pdu_collection.specs.declared.pair_lines.Head.{Head};
ghost use Rattle.pdu_collection.specs.declared.pair_lines.Entry.{Entry};
ghost use Rattle.pdu_collection.specs.Answering.{Said, waits, made, SaysOf, SaysMade, SaysEach, said_accepts};
ghost use Rattle.pdu_collection.specs.Made.{JudgedAsOne};

/// Arrivals join one another in one way.
pub fn arrivals_join_in_one_way()
    ensures { (place : Place) (arrivals : List Arrival) (partners partners' : List (Option ℕ))
        → Joining place arrivals partners → Joining place arrivals partners' → partners ≡ partners' }
{}

/// Of two lines that are accepted, the later has the greater freshness.
pub fn accepted_freshness_rises()
    ensures { (head : Head) (entries : List Entry) (arrivals : List Arrival) (said : List Said)
        → SaysEach head entries arrivals said → AcceptedRise (map said_accepts said) }
{}

/// The PDUs that are made of a payload and a freshness, given back as two arrivals, are judged as exactly their one
/// Secured I-PDU: if the first of them waits, whatever arrived before, and the other comes next. If the freshness is 1
/// to 256 above the counter, they are accepted.
pub fn made_pdus_are_judged_as_one()
    ensures payload_first { (head : Head) (before : List Arrival) (earlier counter freshness : ℕ)
        (payload part : List ℕ) (said : Said) → SaysMade head freshness payload (made payload part)
        → SaysOf head before earlier authentic payload waits
        → SaysOf head (before ++ record { kind = authentic; pdu = payload } ∷ []) counter cryptographic part said
        → JudgedAsOne head counter payload freshness said }
    ensures part_first { (head : Head) (before : List Arrival) (earlier counter freshness : ℕ)
        (payload part : List ℕ) (said : Said) → SaysMade head freshness payload (made payload part)
        → SaysOf head before earlier cryptographic part waits
        → SaysOf head (before ++ record { kind = cryptographic; pdu = part } ∷ []) counter authentic payload said
        → JudgedAsOne head counter payload freshness said }
{}
