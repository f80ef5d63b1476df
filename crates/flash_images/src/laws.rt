//! What follows for a caller that keeps its store on flash: the contract of each function is the law, and its body is
//! empty.
ghost use Rattle.std.specs.Prelude.{ℕ, List};
ghost use Rattle.flash_places.specs.Places.{Flash};
ghost use Rattle.flash_laws.specs.Logs.{CellList};
ghost use Rattle.flash_laws.specs.Lives.{FlashMachine, FlashDeed, FlashFormatted, IsReadyFlash, Possible};
ghost use Rattle.flash_plan.specs.declared.plans.FlashPlan.{FlashPlan};
ghost use Rattle.flash_plan.specs.Plans.{IsIdle};
ghost use Rattle.flash_plan.specs.Standing.{plan_layout, StandsAt};
ghost use Rattle.flash_plan.specs.Turns.{Turn, PlanTurns, puts_in};
ghost use Rattle.flash_calls.specs.Numbers.{plan_in};
ghost use Rattle.flash_calls.specs.CallLives.{FlashSizes, CallState, CallDeed, CallLives, OperationsDone, TakesPut};
ghost use Rattle.flash_calls.specs.CallLives.{IsFoundStore};
ghost use Rattle.store_plan.specs.declared.planning.Plan.{Plan};
ghost use Rattle.store_plan.specs.Plans.{PlansPut, applied};
ghost use Rattle.store_plan.specs.Leaving.{LeavesPut, IsImageOf};
ghost use Rattle.flash_images.specs.Putting.{PutsOnly, TakesPutOnly};

/// The power comes back as `LeavesPut` asks, if the image is made of the cells at each start: x is the image of the
/// cells that the store had, y that of the cells that it has when it is ready again, and between them nothing was put
/// but what the plan puts. So the laws over all lives that `rathonsi_c` proves of an image hold of a store on flash. By
/// `turns` this holds of a caller of `flash_plan`, over any number of power losses.
pub fn a_flash_leaves_a_put()
    ensures cells { (plan : Plan) (x y : List ℕ) (olds cells : CellList) (deeds : List FlashDeed) → IsImageOf x olds
        → IsImageOf y cells → PutsOnly plan x deeds → Possible deeds olds cells → LeavesPut plan x y }
    ensures turns { (n : ℕ) (earlier turns : List Turn) (first olds cells scratch : CellList)
        (start a at : FlashMachine) (flash : FlashPlan) (f : Flash) (plan : Plan) (x y : List ℕ)
        → FlashFormatted (plan_layout flash n) first start → PlanTurns (plan_layout flash n) earlier start a
        → IsReadyFlash a olds → PlanTurns (plan_layout flash n) turns a at
        → StandsAt (plan_layout flash n) flash cells scratch at f → IsIdle flash → IsImageOf x olds → IsImageOf y cells
        → PutsOnly plan x (puts_in turns) → LeavesPut plan x y }
{}

/// The same of a caller in C (`flash_calls`), whose plan is idle at `a` and again at `b`. It handed in no put but the
/// plan's, and all else may have happened: operations, failures, losses of power, starts (`left`). If the put was taken
/// and only operations were performed since, the image that the plan makes is that of the cells (`done`). So an image
/// that was made of the cells stays one.
pub fn a_call_leaves_a_put()
    ensures left { (s : FlashSizes) (deeds : List CallDeed) (first : CellList) (a b : CallState) (plan : Plan)
        (x y : List ℕ) → IsFoundStore s first a → CallLives s deeds a b → IsIdle (plan_in b.numbers)
        → IsImageOf x a.cells → IsImageOf y b.cells → TakesPutOnly plan x deeds → LeavesPut plan x y }
    ensures done { (s : FlashSizes) (deeds : List CallDeed) (first : CellList) (i : ℕ) (c : List ℕ)
        (a between b : CallState) (plan : Plan) (x : List ℕ) → IsFoundStore s first a → TakesPut i c a between
        → OperationsDone deeds between b → IsIdle (plan_in b.numbers) → IsImageOf x a.cells → PlansPut plan x i c
        → IsImageOf (applied plan x) b.cells }
{}
