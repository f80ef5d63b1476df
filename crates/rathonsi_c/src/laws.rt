//! What all lives of a caller say: the contract of each function is the law, and its body is empty.
ghost use Rattle.std.specs.Prelude.{◌≡◌, ◌-◌, ◌<◌, ◌≤◌, ◌⊎◌, ◌++◌, ℕ, Bool, false, Some, List, [], length, take};
ghost use Rattle.std.specs.Prelude.{get_or};
ghost use Rattle.cell_store.specs.declared.kinds.Version.TheVariants.{One};
ghost use Rattle.cell_store.specs.Layout.{twin_layout};
ghost use Rattle.cell_store.specs.Store.{Stands};
ghost use Rattle.cell_store.specs.Twin.{twin_size, cell_at};
ghost use Rattle.freshness_routes.specs.declared.routes.Direction.TheVariants.{Sends};
ghost use Rattle.freshness_store.specs.Bound.{direction_number};
ghost use Rattle.memory_update.specs.Loading.{slot_of};
ghost use Rattle.memory_update.specs.declared.messages.Reply.{Reply};
ghost use Rattle.store_plan.specs.declared.planning.Plan.{Plan};
ghost use Rattle.store_plan.specs.Plans.{CutWithin, PlansPut, IsEmptyPlan};
ghost use Rattle.store_plan.specs.Leaving.{LeavesPut, IsImageOf};
ghost use Rattle.flash_plan.specs.Plans.{IsIdle};
ghost use Rattle.flash_calls.specs.Numbers.{plan_in};
ghost use Rattle.flash_calls.specs.CallLives.{FlashSizes, CallState, CallDeed, CallLives, OperationsDone, TakesPut};
ghost use Rattle.flash_calls.specs.CallLives.{IsFoundStore};
ghost use Rattle.flash_images.specs.Putting.{TakesPutOnly};
ghost use Rattle.rathonsi_c.specs.Images.{ImageSlot};
ghost use Rattle.rathonsi_c.specs.Routes.{Reserves, ReceiveAnswers};
ghost use Rattle.rathonsi_c.specs.Slots.{ConfirmsSlot};
ghost use Rattle.rathonsi_c.specs.Stores.{IsWhole};
ghost use Rattle.rathonsi_c.specs.Lives.{Memory, Deed, PoweredUp, Lives, OpensFilled, PowerBack, PlanDone, RisesTo};
ghost use Rattle.rathonsi_c.specs.Lives.{FinishesPlan};
ghost use Rattle.rathonsi_c.specs.Lives.{given_out, NeverRejoins, CounterCovered};
ghost use Rattle.rathonsi_c.specs.Lives.{NoUpdatePlanned, PlannedAs, NoneBegun, planned_after, UpdateDone, SlotFilled};
ghost use Rattle.rathonsi_c.specs.declared.TheConstants.{OK, RESERVE};
ghost use Rattle.rathonsi_c.specs.declared.route.RathonsiRoute.{RathonsiRoute};
ghost use Rattle.rathonsi_c.specs.declared.secoc.RathonsiVerdict.{RathonsiVerdict};

/// On a device of bytes the power comes back so after a cut within the plan: each write is durable before the next, and
/// one that is cut changes its own bytes alone. So the laws over all lives hold of such a device.
pub fn the_power_comes_back_on_a_device_of_bytes()
    ensures left { (plan : Plan) (image left : List ℕ) → CutWithin plan image left → LeavesPut plan image left }
    ensures back { (n : ℕ) (a b : Memory) → CutWithin a.plan a.image b.image → IsEmptyPlan b.plan
        → ((k : ℕ) → k < n → OpensFilled (a.routes k) b.image (b.routes k)) → PowerBack n a b }
{}

/// On NOR flash (`include/rathonsi_flash.h`) the power comes back so, too. The flash's plan was idle at `c` and is again
/// at `d`; the image was made of the cells each time; and no put was handed in but that of the caller's plan. Whatever
/// else happened in between, operations, failures, losses of power and starts, was `PowerBack` (`back`). So the laws
/// over all lives hold of a store on flash. If the put was taken and only operations were performed since, the plan is
/// done, and the image is that of the cells again (`done`).
pub fn the_power_comes_back_on_a_flash()
    ensures back { (n : ℕ) (s : FlashSizes) (deeds : List CallDeed) (cells : List (List ℕ)) (c d : CallState)
        (a b : Memory) → IsFoundStore s cells c → CallLives s deeds c d → IsIdle (plan_in d.numbers)
        → IsImageOf a.image c.cells → IsImageOf b.image d.cells → TakesPutOnly a.plan a.image deeds
        → IsEmptyPlan b.plan
        → ((k : ℕ) → k < n → OpensFilled (a.routes k) b.image (b.routes k)) → PowerBack n a b }
    ensures done { (s : FlashSizes) (deeds : List CallDeed) (cells : List (List ℕ)) (i : ℕ) (new : List ℕ)
        (c between d : CallState) (a b : Memory) → IsFoundStore s cells c → TakesPut i new c between
        → OperationsDone deeds between d → IsIdle (plan_in d.numbers) → IsImageOf a.image c.cells
        → PlansPut a.plan a.image i new → FinishesPlan a b → IsImageOf b.image d.cells }
{}

/// The freshness that a route sends, or accepts, strictly rises over all its lives, whenever the power goes, unless it
/// rejoins ([`crate::rejoin_laws`] speaks of it then); what the other routes do plays no part. A route that sends never
/// rejoins (`senders`). The caller keeps its duties, and else does with a store of several routes and slots what it
/// likes. Key, window, reserve and boot may change. Freshness stays at most the counter, and whatever the power leaves
/// keeps a bound that covers the counter, also if the route rejoins. A route is a Data ID in one direction: no two
/// routes have both.
pub fn freshness_rises_over_all_lives()
    ensures rises { (n : ℕ) (deeds : List Deed) (first last : Memory) → PoweredUp n first → Lives n deeds first last
        → (k : ℕ) → k < n → NeverRejoins k deeds
        → RisesTo (first.routes k).counter (given_out k deeds) (last.routes k).counter }
    ensures senders { (n : ℕ) (deeds : List Deed) (first last : Memory) → Lives n deeds first last → (k : ℕ) → k < n
        → (first.routes k).direction ≡ direction_number Sends → NeverRejoins k deeds }
    ensures covered { (n : ℕ) (deeds : List Deed) (first last : Memory) → PoweredUp n first → Lives n deeds first last
        → (k : ℕ) → k < n → (image : List ℕ) → LeavesPut last.plan last.image image
        → CounterCovered (last.routes k) image }
{}

/// An update that `rathonsi_slot_confirm` confirmed stays in its slot, with its key, its counter and its flags, and the
/// same reply confirms it. This ends when another update of the slot is done, or is planned as the power goes or all
/// begins again. An update that was planned and dropped changes nothing. If one is planned now, whatever the power
/// leaves holds the one or the other. All this also if another one of the slot was `planned` when it was confirmed. And
/// no filled slot becomes empty.
pub fn keys_are_kept_over_all_lives()
    ensures kept { (n : ℕ) (deeds : List Deed) (first last : Memory) (uid m1 : List ℕ) (reply : Reply) (planned : Bool)
        → (c : ConfirmsSlot uid m1 first.image reply) → (planned ≡ false → NoUpdatePlanned c.update.id first)
        → NoneBegun c.update.id planned deeds → Lives n deeds first last
        → ImageSlot last.image c.update.id (slot_of c.update) × ConfirmsSlot uid m1 last.image reply }
    ensures cut { (n : ℕ) (deeds : List Deed) (first last : Memory) (uid m1 : List ℕ) (reply : Reply) (planned : Bool)
        → (c : ConfirmsSlot uid m1 first.image reply) → (planned ≡ false → NoUpdatePlanned c.update.id first)
        → NoneBegun c.update.id planned deeds → Lives n deeds first last
        → planned_after c.update.id planned deeds ≡ false → (image : List ℕ) → LeavesPut last.plan last.image image
        → ImageSlot image c.update.id (slot_of c.update) × ConfirmsSlot uid m1 image reply }
    ensures either { (n : ℕ) (deeds : List Deed) (first last : Memory) (uid m1 : List ℕ) (reply : Reply)
        (planned : Bool)
        → (c : ConfirmsSlot uid m1 first.image reply) → PlannedAs c.update.id planned first
        → NoneBegun c.update.id planned deeds → Lives n deeds first last
        → (image : List ℕ) → LeavesPut last.plan last.image image
        → ImageSlot image c.update.id (slot_of c.update) ⊎ UpdateDone c.update.id last image }
    ensures filled { (n : ℕ) (deeds : List Deed) (first last : Memory) (slot : ℕ) → PoweredUp n first → slot < 14
        → SlotFilled first.image slot → Lives n deeds first last → (image : List ℕ)
        → LeavesPut last.plan last.image image
        → SlotFilled last.image slot × SlotFilled image slot }
{}

/// An image that `rathonsi_store_check` answers OK of stays one, whatever a caller that keeps its duties does, and so
/// is whatever the power leaves.
pub fn a_store_stays_whole_over_all_lives()
    ensures { (n : ℕ) (deeds : List Deed) (first last : Memory) → IsEmptyPlan first.plan → IsWhole first.image
        → Lives n deeds first last → (image : List ℕ) → LeavesPut last.plan last.image image
        → IsWhole last.image × IsWhole image }
{}

/// If `rathonsi_route_receive` answers RESERVE, and the freshness that it tells is reserved and the plan done, the same
/// call on the same PDU accepts it.
pub fn a_reserved_pdu_is_accepted()
    ensures { (r : RathonsiRoute) (image next pdu : List ℕ) (first second : RathonsiVerdict) (old plan done : Plan)
        → ReceiveAnswers r image pdu first → first.status ≡ RESERVE → Reserves r image first.freshness old plan
        → PlanDone image plan next done → ReceiveAnswers r next pdu second
        → second ≡ record { status = OK; payload_length = length pdu - 4; freshness = first.freshness } }
{}

/// The beginning of a store over a disk, which a node or the key tool left in version 1, is an image with the store's
/// cells. `rathonsi_store_check` answers OK for it, if the store has fourteen to 270 cells.
pub fn a_store_over_a_disk_is_an_image()
    ensures { (x : List ℕ) (cells : List (List ℕ)) → Stands (twin_layout One) x cells
        → 14 ≤ length cells → length cells ≤ 270 → IsWhole (take (twin_size (length cells)) x)
        × ((i : ℕ) → i < length cells → cell_at (take (twin_size (length cells)) x) i ≡ Some (get_or cells i [])) }
{}

/// The other way round: a disk whose first bytes are such an image is a store of as many cells, which it has.
pub fn an_image_is_a_store_over_a_disk()
    ensures { (image rest : List ℕ) → IsWhole image → (cells : List (List ℕ))
        × (Stands (twin_layout One) (image ++ rest) cells
        × ((i : ℕ) → i < length cells → cell_at image i ≡ Some (get_or cells i []))) }
{}
