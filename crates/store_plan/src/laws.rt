//! Laws of plans: the contract of each function is the law, and its body is empty.
ghost use Rattle.std.specs.Prelude.{◌≡◌, ◌≢◌, ℕ, ◌+◌, ◌<◌, ◌≤◌, ◌⊎◌, List, length, Some, slice_set};
ghost use Rattle.cell_store.specs.declared.kinds.Version.TheVariants.{One};
ghost use Rattle.cell_store.specs.Layout.{twin_layout};
ghost use Rattle.cell_store.specs.Twin.{twin_size, cell_at};
ghost use Rattle.cell_store.specs.Store.{Stands, HasHeader};
ghost use Rattle.store_plan.specs.declared.planning.Plan.{Plan};
ghost use Rattle.store_plan.specs.Plans.{PlansPut, CutWithin, applied};
ghost use Rattle.store_plan.specs.Leaving.{LeavesPut, IsImageOf};
ghost use Rattle.store_plan.specs.Growing.{HasHeadButCount, SaysCells, EndsErased, HasNoLiveCopy, MayGrow, PlansGrowth};
ghost use Rattle.store_plan.specs.Growing.{PlansCount};

/// If the power goes within a plan, what stands there is the old list or the new one. The device has to keep what is
/// durable, and a write that is cut changes its own bytes alone.
pub fn a_cut_within_a_plan_leaves_either_list()
    ensures { (plan : Plan) (x y : List ℕ) (cells : List (List ℕ)) (cell : ℕ) (bytes : List ℕ)
        → Stands (twin_layout One) x cells → cell < length cells → PlansPut plan x cell bytes → CutWithin plan x y
        → Stands (twin_layout One) y cells ⊎ Stands (twin_layout One) y (slice_set cells cell bytes) }
{}

/// Its cell is the old one or the new one.
pub fn a_cut_within_a_plan_leaves_either_cell()
    ensures { (plan : Plan) (x y : List ℕ) (cell : ℕ) (bytes : List ℕ) → PlansPut plan x cell bytes → CutWithin plan x y
        → (cell_at y cell ≡ cell_at x cell) ⊎ (cell_at y cell ≡ Some bytes) }
{}

/// Every other cell is as before.
pub fn a_cut_within_a_plan_leaves_every_other_cell()
    ensures { (plan : Plan) (x y : List ℕ) (cell other : ℕ) (bytes : List ℕ) → PlansPut plan x cell bytes
        → CutWithin plan x y → other ≢ cell → cell_at y other ≡ cell_at x other }
{}

/// What a cut within a plan leaves, said of cells (`LeavesPut`): so what is proved of each device for which `LeavesPut`
/// holds is proved of one of bytes.
pub fn a_cut_within_a_plan_leaves_a_put()
    ensures { (plan : Plan) (x y : List ℕ) → CutWithin plan x y → LeavesPut plan x y }
{}

/// A device that keeps cells, and not the image, may make the image anew at each start. It leaves the same, if its
/// cells are those before the put or those after it.
pub fn images_made_anew_leave_a_put()
    ensures before { (plan : Plan) (x y : List ℕ) (cells : List (List ℕ)) → IsImageOf x cells → IsImageOf y cells
        → LeavesPut plan x y }
    ensures after { (plan : Plan) (x y : List ℕ) (cells : List (List ℕ)) (cell : ℕ) (bytes : List ℕ)
        → IsImageOf x cells → PlansPut plan x cell bytes → IsImageOf y (slice_set cells cell bytes)
        → LeavesPut plan x y }
{}

/// A put that is done makes of an image of cells one of the cells after it.
pub fn a_done_put_keeps_an_image()
    ensures { (plan : Plan) (x : List ℕ) (cells : List (List ℕ)) (cell : ℕ) (bytes : List ℕ) → IsImageOf x cells
        → PlansPut plan x cell bytes → IsImageOf (applied plan x) (slice_set cells cell bytes) }
{}

/// If the power goes within a growth of a store, its cells say the old number or the new one. If it is the new one,
/// the new cell holds its payload. Once all is done, the header has the new number. Every other cell is as it was.
pub fn a_cut_within_a_growth_leaves_a_store()
    ensures either { (plan : Plan) (x y : List ℕ) (n : ℕ) (c : List ℕ) → length c ≡ 32 → n < 1024 → SaysCells x n
        → HasHeader (twin_layout One) n x → MayGrow x n → PlansGrowth plan n c → CutWithin plan x y
        → (SaysCells y n × HasNoLiveCopy y n) ⊎ (SaysCells y (n + 1) × (cell_at y n ≡ Some c)) }
    ensures others { (plan : Plan) (x y : List ℕ) (n j : ℕ) (c : List ℕ) → length c ≡ 32 → twin_size (n + 1) ≤ length x
        → PlansGrowth plan n c → CutWithin plan x y → j ≢ n → cell_at y j ≡ cell_at x j }
    ensures done { (plan : Plan) (x : List ℕ) (n : ℕ) (c : List ℕ) → length c ≡ 32 → twin_size (n + 1) ≤ length x
        → HasHeader (twin_layout One) n x → HasNoLiveCopy x n → PlansGrowth plan n c
        → CutWithin plan x (applied plan x) × HasHeader (twin_layout One) (n + 1) (applied plan x)
        × (cell_at (applied plan x) n ≡ Some c) }
{}

/// The same of the number alone: whatever a cut leaves of it, the cells say the same. Once it is written, it is what
/// they say.
pub fn a_cut_within_a_number_leaves_the_cells()
    ensures told { (plan : Plan) (x y : List ℕ) (n : ℕ) → SaysCells x n → EndsErased x n → PlansCount plan n
        → CutWithin plan x y → SaysCells y n }
    ensures cells { (plan : Plan) (x y : List ℕ) (n j : ℕ) → 32 ≤ length x → PlansCount plan n → CutWithin plan x y
        → cell_at y j ≡ cell_at x j }
    ensures done { (plan : Plan) (x : List ℕ) (n : ℕ) → 32 ≤ length x → HasHeadButCount x n → PlansCount plan n
        → CutWithin plan x (applied plan x) × HasHeader (twin_layout One) n (applied plan x) }
{}

/// The cells of an image say one number.
pub fn cells_say_one_number()
    ensures { (x : List ℕ) (n m : ℕ) → SaysCells x n → SaysCells x m → n ≡ m }
{}
