//! The counter of a route that sends.
ghost use Rattle.std.specs.Prelude.{◌≡◌, ◌≤◌};

use crate::changing::{PutFailed, put_change};
use cell_store::Cells;
use freshness_routes::{MOST_RESERVE, bound_due};
use freshness_store::Direction;
use std::marker::Model;

/// Why a sender has no freshness.
#[derive(Clone, Copy, Debug, PartialEq, Eq, Drop)]
pub enum TxFault {
    /// The counter is 2^64 - 1, the last freshness.
    Exhausted,
    /// The bound could not be put.
    PutFailed {
        /// The bound that was to be put.
        bound: u64,
    },
}

/// The counter of a route that sends, with its bound. Contracts see the record of its place, Data ID,
/// reserve, counter and bound. The counter is at most the bound.
#[derive(Debug, Drop)]
pub struct Tx {
    place: u16,
    id: u16,
    reserve: u16,
    counter: u64,
    bound: u64,
}

impl Model for Tx {
    ghost use Rattle.freshness_manager.specs.Counters.{SenderCounter, IsReserved};

    ghost Value = { SenderCounter };

    ghost view = { λ t. record
        { place = t.place; id = t.id; reserve = t.reserve; counter = t.counter; bound = t.bound } };

    ghost invariant = { λ t. IsReserved t.reserve t.counter t.bound };
}

impl Tx {
    ghost use Rattle.std.specs.Prelude.{◌≡◌, ◌≤◌, ◌↔◌, ℕ, false, Err, IfOk, OnErr, IsErrOf};
    ghost use Rattle.freshness_routes.specs.declared.routes.Direction.TheVariants.{Sends};
    ghost use Rattle.freshness_routes.specs.Changes.{last_freshness};
    ghost use Rattle.freshness_manager.specs.Counters.{KeepsBound};
    ghost use Rattle.freshness_manager.specs.Changing.{MovesOn, FailsDue, KeepsRoute, due_of_sender};

    /// The counter of the route with this Data ID, whose bound is kept in the cell at this place. It
    /// begins at the bound. The reserve is 1 to 128.
    pub fn restore(place: u16, id: u16, reserve: u16, bound: u64) -> Tx
        requires least { 1 ≤ reserve }
        requires most { reserve ≤ MOST_RESERVE }
        ensures { result ≡ record { place = place; id = id; reserve = reserve; counter = bound; bound = bound } }
    {
        Tx {
            place,
            id,
            reserve,
            counter: bound,
            bound,
        }
    }

    /// The last freshness that was used, at most the bound.
    pub fn counter(&self) -> u64
        ensures value { result ≡ self.now.counter }
        ensures bounded { result ≤ self.now.bound }
    {
        self.counter
    }

    /// The bound that the store keeps.
    pub fn bound(&self) -> u64
        ensures { result ≡ self.now.bound }
    {
        self.bound
    }

    /// How far the bound moves ahead, 1 to 128.
    pub fn reserve(&self) -> u16
        ensures value { result ≡ self.now.reserve }
        ensures least { 1 ≤ result }
        ensures most { result ≤ MOST_RESERVE }
    {
        self.reserve
    }

    /// The freshness above the counter, which becomes the counter. If it is above the bound, the bound moves ahead in
    /// the store first; if it isn't, nothing is read or written. Errors: `Exhausted` exactly if the counter is 2^64 -
    /// 1, before anything is read or written, and `PutFailed` if the bound could not be put. After either the counter
    /// is as before.
    pub fn next<C: Cells>(&mut self, cells: &mut C) -> Result<u64, TxFault>
        requires whole { (C.state cells.old).broken ≡ false }
        requires kept { KeepsBound (C.state cells.old).cells self.old.place self.old.id Sends self.old.bound }
        ensures next { IfOk result (λ v. MovesOn v self.old self.new (C.state cells.old) (C.state cells.new)) }
        ensures exhausted { IsErrOf result TxFault.Exhausted ↔ self.old.counter ≡ last_freshness }
        ensures untouched { IsErrOf result TxFault.Exhausted → C.state cells.new ≡ C.state cells.old }
        ensures failed { (bound : ℕ) → result ≡ Err (TxFault.PutFailed bound)
            → FailsDue self.old.place self.old.id Sends (due_of_sender self.old) bound
            (C.state cells.old) (C.state cells.new) }
        ensures as_before { OnErr result (self.new ≡ self.old) }
        ensures store { KeepsRoute self.new.place self.new.id Sends self.new.bound
            (C.state cells.old) (C.state cells.new) result }
    {
        let Some(freshness) = self.counter.checked_add(1) else {
            return Err(TxFault::Exhausted);
        };
        let change = bound_due(self.bound, self.reserve, freshness);
        match put_change(cells, self.place, self.id, Direction::Sends, change) {
            Ok(()) => {
                self.bound = change.unwrap_or(self.bound);
                self.counter = freshness;
                Ok(freshness)
            }
            Err(PutFailed { bound }) => Err(TxFault::PutFailed { bound }),
        }
    }
}
