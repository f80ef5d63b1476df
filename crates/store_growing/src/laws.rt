//! Laws of a store that grows: the contract of each function is the law, and its body is empty.
ghost use Rattle.std.specs.Prelude.{◌≡◌, ◌⊎◌, ◌+◌, ◌<◌, ◌≤◌, ◌^◌, ℕ, List, All, length, Some};
ghost use Rattle.cut_disk.specs.State.{DiskState};
ghost use Rattle.cut_disk.specs.Images.{firm};
ghost use Rattle.cell_store.specs.declared.kinds.Layout.{Layout};
ghost use Rattle.cell_store.specs.declared.kinds.Version.TheVariants.{One};
ghost use Rattle.cell_store.specs.Layout.{part, twin_layout};
ghost use Rattle.cell_store.specs.Store.{HasHeader};
ghost use Rattle.cell_store.specs.Twin.{cell_at, first_at, twin_size};
ghost use Rattle.freshness_routes.specs.declared.config.TheConstants.{MOST_ROUTES};
ghost use Rattle.freshness_routes.specs.declared.routes.Route.{Route};
ghost use Rattle.freshness_routes.specs.Config.{IsRoute};
ghost use Rattle.store_growing.specs.declared.faults.GrowFault.{GrowFault};
ghost use Rattle.store_growing.specs.StoreHeaders.{cells_counted, HasVersionTwo};
ghost use Rattle.store_growing.specs.RouteCells.{route_cell, RouteAt, first_bound, HoldsRoute, CanGrow};
ghost use Rattle.store_growing.specs.GrowingStores.{GrownTo, GrownInPart, CanBeGrown, CannotBeGrown};

/// Whenever the power goes while a store gets cells at its end, what a cell held it holds: no counter of a slot falls,
/// and no bound.
pub fn a_cut_while_a_store_grows_keeps_its_cells()
    ensures { (routes : List Route) (x y : List ℕ) → length routes ≤ MOST_ROUTES → All IsRoute routes
        → twin_size (route_cell (length routes) + 1) ≤ length x → GrownInPart routes x y
        → (cell : ℕ) (bytes : List ℕ) → cell_at x cell ≡ Some bytes → cell_at y cell ≡ Some bytes }
{}

/// A cell that the header counts is never written, whatever number stands there: its 68 bytes are as they were. Done or
/// cut, a growth also keeps what any other cell holds. What a cut leaves grows to the very bytes that the store would
/// have grown to.
pub fn a_cell_that_was_counted_stays()
    ensures counted { (routes : List Route) (x y : List ℕ) → length routes ≤ MOST_ROUTES → All IsRoute routes
        → twin_size (route_cell (length routes) + 1) ≤ length x → GrownTo routes x y ⊎ GrownInPart routes x y
        → (cell : ℕ) → cell < cells_counted x → part (first_at cell) 68 y ≡ part (first_at cell) 68 x }
    ensures store { (routes : List Route) (x y : List ℕ) → length routes ≤ MOST_ROUTES → All IsRoute routes
        → twin_size (route_cell (length routes) + 1) ≤ length x → GrownTo routes x y ⊎ GrownInPart routes x y
        → (count cell : ℕ) → count < 2 ^ 16 → HasHeader (twin_layout One) count x → cell < count
        → cell_at y cell ≡ cell_at x cell }
    ensures held { (routes : List Route) (x y : List ℕ) → length routes ≤ MOST_ROUTES → All IsRoute routes
        → twin_size (route_cell (length routes) + 1) ≤ length x → GrownTo routes x y ⊎ GrownInPart routes x y
        → (cell : ℕ) (bytes : List ℕ) → cell_at x cell ≡ Some bytes → cell_at y cell ≡ Some bytes }
    ensures ends { (routes : List Route) (x y z : List ℕ) → length routes ≤ MOST_ROUTES → All IsRoute routes
        → twin_size (route_cell (length routes) + 1) ≤ length x → GrownInPart routes x y → GrownTo routes x z
        → GrownTo routes y z }
{}

/// The bound of a route that had a cell stays, whenever the power goes.
pub fn bounds_that_stood_stay()
    ensures { (routes : List Route) (x y : List ℕ) → length routes ≤ MOST_ROUTES → All IsRoute routes
        → twin_size (route_cell (length routes) + 1) ≤ length x → GrownInPart routes x y
        → (cell : ℕ) (route : Route) → HoldsRoute x cell route → HoldsRoute y cell route }
{}

/// After a growth the header counts the cells of all routes. Each cell that the store had is as it was. Each further
/// route has a cell with its first bound.
pub fn a_grown_store_has_its_cells_and_the_new_ones()
    ensures { (routes : List Route) (x z : List ℕ) → length routes ≤ MOST_ROUTES → All IsRoute routes
        → twin_size (route_cell (length routes) + 1) ≤ length x → (grown : GrownTo routes x z)
        → CanGrow routes z (length routes) × HasHeader (twin_layout One) (route_cell (length routes)) z
        × ((cell : ℕ) → cell < route_cell grown.count → cell_at z cell ≡ cell_at x cell)
        × ((place : ℕ) (route : Route) → grown.count ≤ place → RouteAt routes place route
        → cell_at z (route_cell place) ≡ Some (first_bound route)) }
{}

/// Whatever the power leaves, the store can grow, so the same call finishes it.
pub fn a_cut_store_can_grow()
    ensures { (routes : List Route) (x y : List ℕ) → length routes ≤ MOST_ROUTES → All IsRoute routes
        → twin_size (route_cell (length routes) + 1) ≤ length x → GrownInPart routes x y
        → (¬ HasVersionTwo y) × ((count : ℕ) × CanGrow routes y count) }
{}

/// A store that can be grown isn't refused for a cause of its own: only memory and the disk can fail.
pub fn a_store_that_can_grow_is_not_refused()
    ensures { (wanted : Layout) (routes : List Route) (old : DiskState) (fault : GrowFault) → length routes ≤ MOST_ROUTES
        → CanBeGrown wanted routes old → ¬ CannotBeGrown wanted routes old fault }
{}

/// One disk is refused for one cause: the first in a fixed order.
pub fn refused_once()
    ensures { (wanted : Layout) (routes : List Route) (old : DiskState) (one other : GrowFault) → length routes ≤ MOST_ROUTES
        → CannotBeGrown wanted routes old one → CannotBeGrown wanted routes old other → one ≡ other }
{}

/// Bytes that are told, none of them loose, can be grown, or there is a cause why not: no disk is between the two.
pub fn can_or_cannot()
    ensures { (wanted : Layout) (routes : List Route) (old : DiskState) (x : List ℕ) → length routes ≤ MOST_ROUTES
        → old.told ≡ Some (firm x) → length x ≡ old.size
        → CanBeGrown wanted routes old ⊎ ((fault : GrowFault) × CannotBeGrown wanted routes old fault) }
{}
