//! What is done with an engine over a store in memory. One function owns the store of all tests, and one the engine.
ghost use Rattle.std.specs.Prelude.{◌≡◌, length, false};

use crate::engine_bench::{UID, store_with};
use crate::{engines, receptions, sends, slots};
use cell_store::CutCells;
use freshness_manager::Direction;
use memory_update::Uid;
use she_engine::Engine;
use std::alloc::Global;
use std::process::Abort;
use std::test::Fail;

/// What is done.
pub(crate) enum Act {
    Sends(sends::Row),
    Hears(receptions::Row),
    /// Keys are loaded and used.
    Serves,
    /// The first slot and the last are put and read.
    PutsEnds,
}

/// What is done over a store with this bound.
pub(crate) struct Life {
    pub(crate) direction: Direction,
    pub(crate) bound: u64,
    pub(crate) act: Act,
}

fn with_engine<C: CutCells>(rt: &impl Abort, store: &mut C, act: &Act) -> Result<(), Fail>
    requires whole { (C.state store.old).broken ≡ false }
    requires count { length (C.state store.old).cells ≡ 15 }
{
    let mut engine = Engine::attach(Uid::of(UID), store)?;
    match act {
        Act::Sends(row) => sends::sends(rt, &engine, store, row),
        Act::Hears(row) => receptions::hears(rt, &engine, store, row),
        Act::Serves => engines::serves(rt, &mut engine, store),
        Act::PutsEnds => slots::puts_ends(rt, store),
    }
}

fn over_a_store(rt: &impl Abort, alloc: Global, life: &Life) -> Result<(), Fail> {
    let mut store = store_with(alloc, life.direction, life.bound)?;
    with_engine(rt, &mut store, &life.act)
}

/// Each of these over a store of its own.
pub(crate) fn live(rt: &impl Abort, alloc: Global, lives: &[Life]) -> Result<(), Fail> {
    for life in lives {
        over_a_store(rt, alloc, life)?;
    }
    Ok(())
}
