//! What several plans at once leave, in three durable steps: the contract of each function is the law, and its body is
//! empty.
ghost use Rattle.std.specs.Prelude.{◌≡◌, ◌≢◌, ◌<◌, ◌≤◌, ◌⊎◌, ◌++◌, ◌∷◌, ℕ, Some, List, []};
ghost use Rattle.cell_store.specs.Twin.{cell_at};
ghost use Rattle.store_plan.specs.declared.planning.Plan.{Plan};
ghost use Rattle.store_plan.specs.Plans.{PlansPut, IsEmptyPlan};
ghost use Rattle.freshness_routes.specs.declared.routes.Direction.{Direction};
ghost use Rattle.rathonsi_c.specs.Lives.{Memory, powers_up, Lives, OpensFilled, GivesOut, RejoinsRoute};
ghost use Rattle.rathonsi_c.specs.Routes.{Reserves};
ghost use Rattle.rathonsi_c.specs.Stores.{IsWhole};
ghost use Rattle.rathonsi_c.specs.Together.{PlansEach, CutTogether, DoneTogether, applied_each, ReservesTogether};
ghost use Rattle.rathonsi_c.specs.Together.{reserve_each, AllAmong};

/// If the power goes while several plans are under way, each cell is the old one or the new one, each by itself
/// (`cell`). Every other cell is as before (`others`). An image that `rathonsi_store_check` answers OK of stays one
/// (`checked`). A write that is cut may leave anything in its own bytes, also in several of them at once; none of a step
/// is begun before all of the step before are durable.
pub fn each_cell_is_whole_or_absent()
    ensures cell { (n : ℕ) (plans : ℕ → Plan) (x y : List ℕ) (cells : ℕ → ℕ) (new : ℕ → List ℕ)
        → PlansEach n plans x cells new → CutTogether n plans x y → (k : ℕ) → k < n
        → (cell_at y (cells k) ≡ cell_at x (cells k)) ⊎ (cell_at y (cells k) ≡ Some (new k)) }
    ensures others { (n : ℕ) (plans : ℕ → Plan) (x y : List ℕ) (cells : ℕ → ℕ) (new : ℕ → List ℕ)
        → PlansEach n plans x cells new → CutTogether n plans x y → (i : ℕ)
        → ((k : ℕ) → k < n → cells k ≢ i) → cell_at y i ≡ cell_at x i }
    ensures checked { (n : ℕ) (plans : ℕ → Plan) (x y : List ℕ) (cells : ℕ → ℕ) (new : ℕ → List ℕ)
        → PlansEach n plans x cells new → CutTogether n plans x y → IsWhole x → IsWhole y }
{}

/// Once all steps are durable, the device has the bytes that `rathonsi_store_done` makes of the image, called for each
/// plan (`image`), in whatever order: the caller numbers the plans as it likes. A plan that isn't done yet is one of the
/// same put over what the others made (`put`).
pub fn plans_are_done_in_any_order()
    ensures image { (n : ℕ) (plans : ℕ → Plan) (x y : List ℕ) (cells : ℕ → ℕ) (new : ℕ → List ℕ)
        → PlansEach n plans x cells new → DoneTogether n plans x y → y ≡ applied_each n plans x }
    ensures put { (n : ℕ) (plans : ℕ → Plan) (x : List ℕ) (cells : ℕ → ℕ) (new : ℕ → List ℕ)
        → PlansEach n plans x cells new → (m k : ℕ) → m ≤ k → k < n
        → PlansPut (plans k) (applied_each m plans x) (cells k) (new k) }
{}

/// Routes that reserve at once do what they do one after the other: so the laws over all lives hold of them, too. If the
/// power goes meanwhile, some of the routes reserved, and the others didn't (`cut`). If all steps are done, all did
/// (`done`). Each plan is one for the image that the plans before it made, so `rathonsi_store_done` answers OK
/// (`reserved`; [`crate::stale_laws`]). A route may send, accept or rejoin meanwhile: the plans stay what they are
/// (`meanwhile`, `rejoined`).
pub fn routes_that_reserve_at_once_are_lives()
    ensures cut { (m n : ℕ) (which : ℕ → ℕ) (plans : ℕ → Plan) (a b : Memory) → ReservesTogether m n which a plans
        → IsEmptyPlan a.plan → CutTogether n plans a.image b.image → IsEmptyPlan b.plan
        → ((k : ℕ) → k < m → OpensFilled (a.routes k) b.image (b.routes k))
        → (done : List ℕ) × (AllAmong n which done × Lives m (reserve_each done ++ (powers_up ∷ [])) a b) }
    ensures done { (m n : ℕ) (which : ℕ → ℕ) (plans : ℕ → Plan) (a : Memory) → ReservesTogether m n which a plans
        → IsEmptyPlan a.plan
        → (done : List ℕ) × (AllAmong n which done
        × Lives m (reserve_each done) a (record a { image = applied_each n plans a.image })) }
    ensures reserved { (m n : ℕ) (which : ℕ → ℕ) (plans : ℕ → Plan) (a : Memory)
        (h : ReservesTogether m n which a plans) (k : ℕ) (old : Plan) → k < n → IsEmptyPlan old
        → Reserves (a.routes (which k)) (applied_each k plans a.image) (h.freshness k) old (plans k) }
    ensures meanwhile { (direction : Direction) (m n k freshness : ℕ) (which : ℕ → ℕ) (plans : ℕ → Plan) (a b : Memory)
        → ReservesTogether m n which a plans → GivesOut direction m k freshness a b
        → ReservesTogether m n which b plans }
    ensures rejoined { (m n k counter : ℕ) (which : ℕ → ℕ) (plans : ℕ → Plan) (a b : Memory)
        → ReservesTogether m n which a plans → RejoinsRoute m k counter a b → ReservesTogether m n which b plans }
{}
