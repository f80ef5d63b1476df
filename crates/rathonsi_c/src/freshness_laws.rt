//! What is true of the calls of a freshness manager: the contract of each function is the law, and its body is empty.
//! The laws over all lives ([`crate::laws`]) hold of them, too: `sends` and `accepts` are their deeds as well.
ghost use Rattle.std.specs.Prelude.{◌≡◌, ℕ, ◌+◌, ◌-◌, ◌*◌, ◌%◌, ◌^◌, ◌<◌, ◌≤◌, ◌↔◌, ℤ, List, length, take, drop};
ghost use Rattle.freshness_routes.specs.declared.routes.Direction.{Direction};
ghost use Rattle.freshness_routes.specs.declared.routes.Direction.TheVariants.{Receives, Sends};
ghost use Rattle.secured_pdu.specs.Frame.{Ahead, AheadWithBits, TakesBits, IsPayload};
ghost use Rattle.secured_pdu.specs.Verdict.{low_of};
ghost use Rattle.store_plan.specs.declared.planning.Plan.{Plan};
ghost use Rattle.rathonsi_c.specs.Images.{ImageBound};
ghost use Rattle.rathonsi_c.specs.Routes.{InUse, IsFreshnessOnly, BoundCovers, Reserves};
ghost use Rattle.freshness_store.specs.Bound.{direction_number};
ghost use Rattle.rathonsi_c.specs.Lives.{PlanDone, Memory, PoweredUp};
ghost use Rattle.rathonsi_c.specs.Freshness.{WithinWindow, CandidateWrites, AskedWrites};
ghost use Rattle.rathonsi_c.specs.Freshness.{NextAnswers, CandidateAnswers, AcceptAnswers, as_freshness_only};
ghost use Rattle.rathonsi_c.specs.Steps.{SendInputAnswers, CandidateOf, ReceiveMacAnswers};
ghost use Rattle.rathonsi_c.specs.declared.TheConstants.{OK, RESERVE};
ghost use Rattle.rathonsi_c.specs.declared.route.RathonsiRoute.{RathonsiRoute};
ghost use Rattle.rathonsi_c.specs.declared.secoc.RathonsiVerdict.{RathonsiVerdict};
ghost use Rattle.rathonsi_c.specs.declared.steps.RathonsiInput.{RathonsiInput};

/// A candidate is the only freshness within the window that has its low bits (`alone`). That of eight bits is the one
/// that `rathonsi_route_receive` takes for a PDU with this low byte (`low_byte`).
pub fn a_candidate_is_alone()
    ensures alone { (counter window bits truncated one other : ℕ) → TakesBits window bits truncated
        → AheadWithBits counter window bits truncated one → AheadWithBits counter window bits truncated other
        → one ≡ other }
    ensures low_byte { (counter window low freshness : ℕ)
        → Ahead counter window low freshness ↔ AheadWithBits counter window 8 low freshness }
{}

/// The candidate of the low bits of a freshness that is 1 to `window` above the counter is that freshness (`found`).
/// `rathonsi_freshness_candidate` answers OK for it if the bound covers it, and else RESERVE (`answered`). Then
/// `rathonsi_freshness_accept` accepts it (`accepted`).
pub fn an_honest_freshness_is_found()
    ensures found { (counter window bits sent told : ℕ) → window ≤ 2 ^ bits → WithinWindow counter window sent
        → sent < 2 ^ 64 → AheadWithBits counter window bits (sent % 2 ^ bits) told → told ≡ sent }
    ensures answered { (r : RathonsiRoute) (image : List ℕ) (bits sent bound : ℕ) (status : ℤ) → IsFreshnessOnly r
        → InUse r Receives → ImageBound image r.cell r.data_id Receives bound → 1 ≤ bits → bits ≤ 64
        → r.window ≤ 2 ^ bits → WithinWindow r.counter r.window sent → sent < 2 ^ 64
        → CandidateAnswers r image (sent % 2 ^ bits) bits status
        → (sent ≤ bound → status ≡ OK) × (bound < sent → status ≡ RESERVE) }
    ensures accepted { (r : RathonsiRoute) (image : List ℕ) (sent : ℕ) (status : ℤ) → IsFreshnessOnly r
        → InUse r Receives → BoundCovers r image Receives sent → WithinWindow r.counter r.window sent
        → AcceptAnswers r image sent status → status ≡ OK }
{}

/// Once a freshness is reserved and the plan is done, the image covers it (`covered`). So the same call of
/// `rathonsi_freshness_next` gives it (`given`).
pub fn a_reserved_freshness_is_covered()
    ensures covered { (r : RathonsiRoute) (image next : List ℕ) (direction : Direction) (freshness : ℕ)
        (old plan emptied : Plan) → InUse r direction → freshness < 2 ^ 64 → Reserves r image freshness old plan
        → PlanDone image plan next emptied → BoundCovers r next direction freshness }
    ensures given { (r : RathonsiRoute) (image : List ℕ) (status : ℤ) → IsFreshnessOnly r → InUse r Sends
        → BoundCovers r image Sends (r.counter + 1) → NextAnswers r image status → status ≡ OK }
{}

/// While the counter of a route stays, candidates make a caller do at most (`window` + `reserve` - 1) / `reserve` plans,
/// rounded down, whoever sends them (`alone`). Over all lives with any other deeds, more plans are paid by the counter:
/// it rises by more than `reserve` times the plans, less `window` and `reserve` (`over_all_lives`), if the route doesn't
/// rejoin. Power-ups, PDUs that are accepted and answers that are taken make it rise. A plan that is cut or dropped isn't
/// counted.
pub fn candidates_make_few_writes()
    ensures alone { (n : ℕ) (r : RathonsiRoute) (image : List ℕ) (bound : ℕ) → InUse r Receives
        → ImageBound image r.cell r.data_id Receives bound → r.counter ≤ bound → CandidateWrites n r image
        → n * r.reserve < r.window + r.reserve }
    ensures over_all_lives { (m n k reserve window : ℕ) (first last : Memory) → PoweredUp n first → k < n
        → (first.routes k).direction ≡ direction_number Receives → 1 ≤ reserve
        → AskedWrites m n k reserve window first last
        → m * reserve + (first.routes k).counter < (last.routes k).counter + window + reserve }
{}

/// A send and a receive in two steps are these calls, with the authenticator of profile 1 in between; and those in one
/// step are the ones in two ([`crate::step_laws`]). Of an open route a send has the status of `rathonsi_freshness_next`
/// (`sent`). If a PDU has the authenticator of its input, its verdict has the status of the candidate of its low byte, which
/// is that of the accept of its freshness (`received`). The counter moves in the same way: `RouteAdvances` is the contract
/// of all of them.
pub fn send_and_receive_are_these_calls()
    ensures sent { (r : RathonsiRoute) (image payload : List ℕ) (status told : ℤ) → ¬ IsFreshnessOnly r → InUse r Sends
        → IsPayload payload → SendInputAnswers r image payload status
        → NextAnswers (as_freshness_only r) image told → status ≡ told }
    ensures received { (r : RathonsiRoute) (image pdu mac : List ℕ) (bound : ℕ) (input : RathonsiInput)
        (verdict : RathonsiVerdict) (told taken : ℤ) → ¬ IsFreshnessOnly r → InUse r Receives
        → ImageBound image r.cell r.data_id Receives bound → CandidateOf r pdu input
        → drop (length pdu - 3) pdu ≡ take 3 mac → ReceiveMacAnswers r image pdu input mac verdict
        → CandidateAnswers (as_freshness_only r) image (low_of pdu) 8 told
        → AcceptAnswers (as_freshness_only r) image input.freshness taken
        → (verdict.status ≡ told) × ((told ≡ taken) × (verdict.freshness ≡ input.freshness)) }
{}
