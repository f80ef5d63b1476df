//! What a store keeps over all its software, older and newer: the contract of each function is the law, and its body is
//! empty. Each software calls `rathonsi_store_mend` at each power-up, and then `rathonsi_store_grow` for its routes.
ghost use Rattle.std.specs.Prelude.{ℤ, ◌≡◌, ◌≢◌, ◌<◌, ◌≤◌, ◌⊎◌, ◌++◌, ℕ, Some, List, take, replicate};
ghost use Rattle.cell_store.specs.declared.kinds.Version.TheVariants.{One};
ghost use Rattle.cell_store.specs.Layout.{twin_layout};
ghost use Rattle.cell_store.specs.Store.{HasHeader};
ghost use Rattle.cell_store.specs.Twin.{cell_at};
ghost use Rattle.freshness_routes.specs.declared.routes.Direction.{Direction};
ghost use Rattle.memory_update.specs.declared.messages.Reply.{Reply};
ghost use Rattle.store_plan.specs.declared.planning.Plan.{Plan};
ghost use Rattle.store_plan.specs.Plans.{IsEmptyPlan, applied};
ghost use Rattle.store_plan.specs.Leaving.{LeavesPut};
ghost use Rattle.rathonsi_c.specs.declared.route.RathonsiRoute.{RathonsiRoute};
ghost use Rattle.rathonsi_c.specs.declared.TheConstants.{OK};
ghost use Rattle.rathonsi_c.specs.Growing.{SaysSize, SizeAnswers, GivesSize, MendAnswers, PlansNumber, GrowAnswers};
ghost use Rattle.rathonsi_c.specs.Growing.{PlansCell};
ghost use Rattle.rathonsi_c.specs.Images.{ImageBound};
ghost use Rattle.rathonsi_c.specs.Lives.{Memory, Deed, Lives, SameRoute, RisesTo, SlotFilled};
ghost use Rattle.rathonsi_c.specs.Routes.{InRanges, OpenAnswers};
ghost use Rattle.rathonsi_c.specs.Slots.{ConfirmsSlot};
ghost use Rattle.rathonsi_c.specs.Softwares.{Table, CellsApart, GrowthSteps, SoftwareComesUp, Software, AllSoftware};
ghost use Rattle.rathonsi_c.specs.Softwares.{given_by_all, NoneRejoins, KeepsAtLeast, StoreWithRoom, HasOwnCell, HasFirstBound};
ghost use Rattle.rathonsi_c.specs.Stores.{IsWhole, CheckAnswers};

/// A unit gets new software with more routes, over whatever cuts, goes back to older software, and forward again, as
/// often as one likes. The freshness of each route that doesn't rejoin rises over all of it (`rises`). If the image keeps
/// a bound of the route at first, all freshness is above what that covers, and what the power leaves in the end keeps a
/// bound that is at least all that the route gave out (`covered`).
pub fn freshness_rises_over_all_software()
    ensures rises { (table : Table) (softwares : List Software) (a c : Memory) (room end : List ℕ) → CellsApart table
        → IsEmptyPlan a.plan → IsWhole a.image → AllSoftware table softwares a room c end → (k : ℕ)
        → NoneRejoins k softwares → (high : ℕ) × RisesTo 0 (given_by_all k softwares) high }
    ensures covered { (table : Table) (softwares : List Software) (a c : Memory) (room end : List ℕ) (k low : ℕ)
        → CellsApart table → IsEmptyPlan a.plan → IsWhole a.image → AllSoftware table softwares a room c end
        → NoneRejoins k softwares → KeepsAtLeast low (table.route k) a.image
        → (high : ℕ) × (RisesTo low (given_by_all k softwares) high
        × ((left : List ℕ) → LeavesPut c.plan c.image left → KeepsAtLeast high (table.route k) left)) }
{}

/// No filled slot becomes empty by a change of software, a confirmed update of a slot that wasn't planned anew stays,
/// and the store that comes up is one that `rathonsi_store_check` answers OK for.
pub fn keys_are_kept_over_all_software()
    ensures filled { (table : Table) (n slot : ℕ) (a b : Memory) (room behind : List ℕ)
        → (u : SoftwareComesUp table n a room b behind) → slot < 14 → SlotFilled u.left slot → SlotFilled b.image slot }
    ensures kept { (table : Table) (n : ℕ) (a b : Memory) (room behind uid m1 : List ℕ) (reply : Reply)
        → (u : SoftwareComesUp table n a room b behind) → ConfirmsSlot uid m1 u.left reply → ConfirmsSlot uid m1 b.image reply }
    ensures whole { (table : Table) (n : ℕ) (a b : Memory) (room behind : List ℕ) → SoftwareComesUp table n a room b behind
        → IsWhole b.image }
{}

/// A roll-back at any moment opens. Software of n routes came up once, and then any other software, newer or older, in
/// any order. The last one loses power within whatever it does, also within a growth. Then `rathonsi_store_size` and
/// `rathonsi_store_mend` answer OK. Once the number is right, `rathonsi_store_check` does, and each of the n routes
/// opens.
pub fn a_roll_back_opens()
    ensures told { (table : Table) (n steps : ℕ) (a b d e : Memory) (room behind end left y : List ℕ)
        (deeds : List Deed) (others : List Software) (status : ℤ) → CellsApart table
        → SoftwareComesUp table n a room b behind → Lives n deeds b d → AllSoftware table others d behind e end
        → LeavesPut e.plan e.image left → GrowthSteps table steps (left ++ end) y → SizeAnswers y status
        → status ≡ OK }
    ensures mended { (table : Table) (n steps : ℕ) (a b d e : Memory) (room behind end left y : List ℕ)
        (deeds : List Deed) (others : List Software) (plan : Plan) (status : ℤ) → CellsApart table
        → SoftwareComesUp table n a room b behind → Lives n deeds b d → AllSoftware table others d behind e end
        → LeavesPut e.plan e.image left → GrowthSteps table steps (left ++ end) y → IsEmptyPlan plan
        → MendAnswers y plan status → status ≡ OK }
    ensures checked { (size : ℕ) (y : List ℕ) (old new : Plan) (status : ℤ) → GivesSize y size
        → PlansNumber y old new → new ≡ old → CheckAnswers (take size y) status → status ≡ OK }
    ensures opened { (table : Table) (n steps size k : ℕ) (a b d e : Memory) (room behind end left y : List ℕ)
        (deeds : List Deed) (others : List Software) (filled : RathonsiRoute) (direction : Direction) (status : ℤ)
        → CellsApart table → SoftwareComesUp table n a room b behind → Lives n deeds b d
        → AllSoftware table others d behind e end → LeavesPut e.plan e.image left
        → GrowthSteps table steps (left ++ end) y → GivesSize y size → k < n → SameRoute (table.route k) filled
        → InRanges filled direction → OpenAnswers filled (take size y) status → status ≡ OK }
{}

/// The line erased the room up to cell `top`, above each cell of the table that a store can have. Then each call of a
/// growth is answered OK, whatever calls of whichever software came before it, and wherever in their plans the power
/// went: for a cell that the store has, and for the next one (`each_is_ok`). No cell is lost (`goes_on`). Each is as it
/// was, or holds the first bound of its route, if it was nobody's (`cells`, `kept`).
pub fn a_store_gets_all_its_cells()
    ensures goes_on { (table : Table) (steps n top : ℕ) (x y : List ℕ) → StoreWithRoom n top x
        → ((k : ℕ) → (table.route k).cell < 270 → (table.route k).cell < top) → GrowthSteps table steps x y
        → (m : ℕ) × (StoreWithRoom m top y × (n ≤ m)) }
    ensures cells { (table : Table) (steps j : ℕ) (x y : List ℕ) → GrowthSteps table steps x y
        → (cell_at y j ≡ cell_at x j) ⊎ HasFirstBound table y j }
    ensures kept { (table : Table) (steps j : ℕ) (x y bytes : List ℕ) → GrowthSteps table steps x y
        → cell_at x j ≡ Some bytes → bytes ≢ replicate 32 0 → cell_at y j ≡ Some bytes }
    ensures each_is_ok { (n top : ℕ) (y : List ℕ) (filled : RathonsiRoute) (direction : Direction) (plan : Plan)
        (status : ℤ) → StoreWithRoom n top y → filled.cell ≤ n → filled.cell < top → InRanges filled direction
        → HasOwnCell filled n y → IsEmptyPlan plan → GrowAnswers filled y plan status → status ≡ OK }
{}

/// A caller that makes the same call again, once its plan is done, comes to its end: the third call plans nothing, and
/// the store has the number of its cells, and the cell of the route with a bound.
pub fn the_third_call_plans_nothing()
    ensures ends { (filled : RathonsiRoute) (bound : ℕ) (x : List ℕ) (a one b two c three : Plan)
        → PlansCell filled bound x a one → PlansCell filled bound (applied one x) b two
        → PlansCell filled bound (applied two (applied one x)) c three → three ≡ c }
    ensures has { (filled : RathonsiRoute) (bound : ℕ) (x : List ℕ) (old new : Plan) → PlansCell filled bound x old new
        → new ≡ old → (n : ℕ) × (SaysSize x n × HasHeader (twin_layout One) n x × (filled.cell < n)
        × ((direction : Direction) × ((kept : ℕ) × ImageBound x filled.cell filled.data_id direction kept))) }
{}
