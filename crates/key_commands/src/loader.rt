//! The loader: an engine over its store, which takes one request after another.
ghost use Rattle.std.specs.Prelude.{◌≡◌, ◌≢◌, ◌≤◌, length, replicate, true, false, IfOk, IfErr};
ghost use Rattle.slot_disk.specs.Cell.{HoldSlots, FirstBadSlot};
ghost use Rattle.any_cells.specs.Either.{any_state};
ghost use Rattle.key_commands.specs.Loader.{Loads, HoldsAll};

use crate::lines::LoadLine;
use any_cells::AnyCells;
use cell_store::Cells;
use cut_disk::Disk;
use memory_update::{Request, Uid};
use run_driver::Machine;
use she_engine::{Engine, LoadFault};
use slot_disk::BadSlot;
use std::marker::Model;

/// An engine over the store on a disk, in a life without a boot. Contracts see its identifier, its slots, the store,
/// and whether it is down since the disk failed.
#[derive(Drop)]
pub struct Loader<D: Disk> {
    engine: Engine,
    store: AnyCells<D>,
    down: bool,
}

impl<D: Disk> Model for Loader<D> {
    ghost use Rattle.any_cells.specs.Either.{any_state};
    ghost use Rattle.key_commands.specs.Loader.{LoaderState, IsLoader};

    ghost Value = { LoaderState };

    ghost view = { λ l. record {
      uid = l.engine.uid;
      slots = l.engine.slots;
      store = any_state l.store;
      down = l.down;
    } };

    ghost invariant = { λ l. IsLoader l.engine (any_state l.store) l.down };
}

/// A store without an engine, and why.
#[derive(Drop)]
pub struct NotHeld<D: Disk> {
    pub store: AnyCells<D>,
    pub bad: BadSlot,
}

impl<D: Disk> Loader<D> {
    /// The engine with this identifier, which isn't zero, over the slots in the store's first fourteen cells. `BadSlot`
    /// exactly if one of these cells is no slot's; the lowest is named, and the store is handed back.
    pub fn attach(uid: Uid, store: AnyCells<D>) -> Result<Loader<D>, NotHeld<D>>
        requires cells { 14 ≤ length (any_state store).cells }
        requires whole { (any_state store).broken ≡ false }
        requires uid { uid ≢ replicate 15 0 }
        ensures loader { IfOk result (λ l. (l.uid ≡ uid) × (l.store ≡ any_state store) × (l.down ≡ false)) }
        ensures held { IfOk result HoldsAll }
        ensures bad { IfErr result (λ refused. (any_state refused.store ≡ any_state store)
            × FirstBadSlot (any_state store).cells refused.bad.0) }
    {
        match Engine::attach(uid, &store) {
            Ok(engine) => Ok(Loader {
                engine,
                store,
                down: false,
            }),
            Err(bad) => Err(NotHeld { store, bad }),
        }
    }

    /// Gives the disk back.
    pub fn release(self) -> D
        ensures disk { D.state result ≡ self.store.disk }
        ensures held { HoldsAll self }
    {
        self.store.release()
    }
}

impl<D: Disk> Machine for Loader<D> {
    type Command = Request;

    type Line = LoadLine;

    ghost use Rattle.key_commands.specs.Loader.{LoaderState};

    ghost State = { LoaderState };

    ghost state = { λ loader. loader };

    ghost steps = { Loads };

    fn step(&mut self, command: &Request) -> LoadLine {
        if self.down {
            return LoadLine::Failed;
        }
        match self.engine.load_key(&mut self.store, command) {
            Ok(reply) => LoadLine::Loaded { reply },
            Err(LoadFault::Refused(refusal)) => LoadLine::Refused(refusal),
            Err(LoadFault::Faulted) => {
                self.down = true;
                LoadLine::Failed
            }
        }
    }
}
