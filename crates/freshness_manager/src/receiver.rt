//! The counter of a route that receives.
ghost use Rattle.std.specs.Prelude.{◌≡◌, ◌≤◌};

use crate::changing::{PutFailed, put_change};
use cell_store::Cells;
use freshness_routes::{MOST_RESERVE, bound_due};
use freshness_store::Direction;
use secured_pdu::candidate_of;
use std::marker::Model;

/// The counter of a route that receives, with its bound and its window. Contracts see the record of
/// its place, Data ID, reserve, window, counter and bound. The counter is at most the bound.
#[derive(Debug, Drop)]
pub struct Rx {
    place: u16,
    id: u16,
    reserve: u16,
    window: u16,
    counter: u64,
    bound: u64,
}

impl Model for Rx {
    ghost use Rattle.freshness_manager.specs.Counters.{ReceiverCounter, IsReceiver};

    ghost Value = { ReceiverCounter };

    ghost view = { λ r. record
        { place = r.place; id = r.id; reserve = r.reserve; window = r.window; counter = r.counter; bound = r.bound } };

    ghost invariant = { λ r. IsReceiver r.window r.reserve r.counter r.bound };
}

impl Rx {
    ghost use Rattle.std.specs.Prelude.{◌≡◌, ℕ, ◌<◌, ◌≤◌, false, IfNone, IfSome, IfErr, OnOk, OnErr};
    ghost use Rattle.secured_pdu.specs.Frame.{IsWindow, Ahead};
    ghost use Rattle.freshness_routes.specs.declared.routes.Direction.TheVariants.{Receives};
    ghost use Rattle.freshness_manager.specs.Counters.{KeepsBound};
    ghost use Rattle.freshness_manager.specs.Changing.{MovesTo, AdvancesTo, FailsAdvance, FailsDue, KeepsRoute};
    ghost use Rattle.freshness_manager.specs.Changing.{due_of_receiver};

    /// The counter of the route with this Data ID, whose bound is kept in the cell at this place. It
    /// begins at the bound. The reserve is 1 to 128, the window 1 to 256.
    pub fn restore(place: u16, id: u16, reserve: u16, window: u16, bound: u64) -> Rx
        requires least { 1 ≤ reserve }
        requires most { reserve ≤ MOST_RESERVE }
        requires window { IsWindow window }
        ensures { result
            ≡ record { place = place; id = id; reserve = reserve; window = window; counter = bound; bound = bound } }
    {
        Rx {
            place,
            id,
            reserve,
            window,
            counter: bound,
            bound,
        }
    }

    /// The last freshness that was accepted, or the bound at which it began; at most the bound.
    pub fn counter(&self) -> u64
        ensures value { result ≡ self.now.counter }
        ensures bounded { result ≤ self.now.bound }
    {
        self.counter
    }

    /// The bound that the store keeps.
    pub fn bound(&self) -> u64
        ensures { result ≡ self.now.bound }
    {
        self.bound
    }

    /// How far the bound moves ahead, 1 to 128.
    pub fn reserve(&self) -> u16
        ensures value { result ≡ self.now.reserve }
        ensures least { 1 ≤ result }
        ensures most { result ≤ MOST_RESERVE }
    {
        self.reserve
    }

    /// How far above the counter a freshness is accepted, 1 to 256.
    pub fn window(&self) -> u16
        ensures value { result ≡ self.now.window }
        ensures window { IsWindow result }
    {
        self.window
    }

    /// The one freshness that is 1 to the window above the counter and has this low byte; `None` if there is none, or
    /// it would not fit 64 bits.
    pub fn candidate(&self, low: u8) -> Option<u64>
        ensures none { IfNone result ((v : ℕ) → ¬ Ahead self.now.counter self.now.window low v) }
        ensures ahead { IfSome result (Ahead self.now.counter self.now.window low) }
        ensures window { IsWindow self.now.window }
    {
        candidate_of(self.counter, self.window, low)
    }

    /// Accepts a freshness above the counter, which becomes the counter. Where it is above the bound,
    /// the bound moves ahead in the store first; where it isn't, nothing is read or written.
    /// `PutFailed` if that bound could not be put; the counter is then as before.
    pub fn commit<C: Cells>(&mut self, cells: &mut C, freshness: u64) -> Result<(), PutFailed>
        requires whole { (C.state cells.old).broken ≡ false }
        requires kept { KeepsBound (C.state cells.old).cells self.old.place self.old.id Receives self.old.bound }
        requires above { self.old.counter < freshness }
        ensures moved { OnOk result (MovesTo freshness self.old self.new (C.state cells.old) (C.state cells.new)) }
        ensures failed { IfErr result (λ f. FailsDue self.old.place self.old.id Receives
            (due_of_receiver self.old freshness) f.bound (C.state cells.old) (C.state cells.new)) }
        ensures as_before { OnErr result (self.new ≡ self.old) }
        ensures store { KeepsRoute self.new.place self.new.id Receives self.new.bound
            (C.state cells.old) (C.state cells.new) result }
    {
        let change = bound_due(self.bound, self.reserve, freshness);
        match put_change(cells, self.place, self.id, Direction::Receives, change) {
            Ok(()) => {
                self.bound = change.unwrap_or(self.bound);
                self.counter = freshness;
                Ok(())
            }
            Err(failed) => Err(failed),
        }
    }

    /// Takes the counter that the sender told in an answer to this receiver's nonce. One above the counter becomes the
    /// counter, however far it is above it, the bound first as in `commit`. With another nothing is read or written.
    /// `PutFailed` if the bound could not be put; the counter is then as before.
    pub fn advance<C: Cells>(&mut self, cells: &mut C, told: u64) -> Result<(), PutFailed>
        requires whole { (C.state cells.old).broken ≡ false }
        requires kept { KeepsBound (C.state cells.old).cells self.old.place self.old.id Receives self.old.bound }
        ensures advanced { OnOk result (AdvancesTo told self.old self.new (C.state cells.old) (C.state cells.new)) }
        ensures failed { IfErr result
            (λ f. FailsAdvance told self.old f.bound (C.state cells.old) (C.state cells.new)) }
        ensures as_before { OnErr result (self.new ≡ self.old) }
        ensures store { KeepsRoute self.new.place self.new.id Receives self.new.bound
            (C.state cells.old) (C.state cells.new) result }
    {
        if told <= self.counter {
            return Ok(());
        }
        self.commit(cells, told)
    }
}
