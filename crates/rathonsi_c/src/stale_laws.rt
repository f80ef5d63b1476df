//! Of a plan that would take back what a store has counted: the contract of the function is the law, and its body is
//! empty.
ghost use Rattle.std.specs.Prelude.{ℤ, ◌≡◌, ◌⊎◌, ℕ, List, length};
ghost use Rattle.memory_update.specs.declared.messages.Request.{Request};
ghost use Rattle.store_plan.specs.declared.planning.Plan.{Plan};
ghost use Rattle.store_plan.specs.Plans.{IsEmptyPlan, PlanFits};
ghost use Rattle.rathonsi_c.specs.declared.TheConstants.{OK};
ghost use Rattle.rathonsi_c.specs.declared.route.RathonsiRoute.{RathonsiRoute};
ghost use Rattle.rathonsi_c.specs.Routes.{Reserves};
ghost use Rattle.rathonsi_c.specs.Slots.{LoadsSlot};
ghost use Rattle.rathonsi_c.specs.Growing.{PlansCell, PlansNumber};
ghost use Rattle.rathonsi_c.specs.Stores.{DoneAnswers};

/// A plan that a call made for an image is never stale for this image: `rathonsi_store_done` answers `OK`. A reserve
/// or an advance (`bound`), a load (`key`), a growth (`growth`), and the number of cells (`number`), each within the
/// image.
pub fn a_plan_of_this_image_is_done()
    ensures bound { (route : RathonsiRoute) (image : List ℕ) (freshness : ℕ) (old plan : Plan) (status : ℤ)
        → Reserves route image freshness old plan → IsEmptyPlan plan ⊎ PlanFits (length image) plan
        → DoneAnswers image plan status → status ≡ OK }
    ensures key { (uid : List ℕ) (booted : ℕ) (request : Request) (image : List ℕ) (old plan : Plan) (status : ℤ)
        → LoadsSlot uid booted request image old plan → IsEmptyPlan plan ⊎ PlanFits (length image) plan
        → DoneAnswers image plan status → status ≡ OK }
    ensures growth { (route : RathonsiRoute) (bound : ℕ) (image : List ℕ) (old plan : Plan) (status : ℤ)
        → PlansCell route bound image old plan → IsEmptyPlan plan ⊎ PlanFits (length image) plan
        → DoneAnswers image plan status → status ≡ OK }
    ensures number { (image : List ℕ) (old plan : Plan) (status : ℤ) → PlansNumber image old plan
        → IsEmptyPlan plan ⊎ PlanFits (length image) plan → DoneAnswers image plan status → status ≡ OK }
{}
