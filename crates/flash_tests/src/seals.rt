//! Lives of a store on a part whose reads need not settle: each operation may be the last one, and what need not be seen
//! is seen or not, as bits say.
ghost use Rattle.std.specs.Prelude.{◌≡◌, length, IfOk, OnErr};
ghost use Rattle.seal_parts.specs.declared.PartClass.TheVariants.{Blanks};
ghost use Rattle.seal_parts.specs.MemPart.{memory_part};
ghost use Rattle.seal_store.specs.Lived.{HasSealStore, StandsOn};

use seal_laws::SealSizes;
use seal_laws::laws::a_unit_is_programmed_once_on_a_part_of_blanks;
use seal_logs::{LogSizes, PlaceRead};
use seal_parts::{MemPart, PartClass};
use seal_store::{SealPutFault, SealStartFault, SealStore, begin_store, start};
use std::alloc::Global;
use std::process::Abort;
use std::test::Fail;

const SIZES: SealSizes = SealSizes {
    log: LogSizes {
        banks: 2,
        places: 8,
        cells: 2,
    },
    reserve: 2,
};

const NO_READ: PlaceRead = PlaceRead {
    line: None,
    is_begun: false,
    is_confirmed: false,
    is_closed: false,
};

/// What a test knows of the cells: what they have for sure, and what they may have, since a put was cut. And how many
/// places cuts have taken at most, since a put was done.
#[derive(Clone, Copy)]
struct Sure {
    sure: [u8; 2],
    cut: [u8; 2],
    taken: u32,
}

const ONES_AND_TWOS: Sure = Sure {
    sure: [1, 2],
    cut: [1, 2],
    taken: 0,
};

/// How a life ends.
#[derive(Clone, Copy, PartialEq, Eq, Debug)]
enum LifeEnd {
    /// With the power, or an operation that failed.
    Cut,
    /// The store jams, and says so, after cuts that took more places than the reserve has for them.
    Jammed,
    /// Something is wrong.
    Odd,
}

/// The next of a row of numbers whose bits are mixed (xorshift).
fn mixed(seed: u64) -> u64 {
    let a = seed ^ (seed << 13);
    let b = a ^ (a >> 7);
    b ^ (b << 17)
}

/// The cells that a start hands out are those that are sure, or those that a put that was cut made.
fn is_known(cells: &[[u8; 32]; 2], known: &Sure) -> bool {
    let read = [cells[0][0], cells[1][0]];
    read == known.sure || read == known.cut
}

/// A part of blanks with a store that has ones and twos.
fn first_store(alloc: Global) -> Result<MemPart, Fail>
    ensures { IfOk result (λ part. HasSealStore (memory_part part) SIZES) }
{
    let mut part = MemPart::new(alloc, PartClass::Blanks, 2, 8)?;
    match begin_store(&mut part, SIZES, &[[1; 32], [2; 32]]) {
        Ok(()) => Ok(part),
        Err(_) => Err(Fail::from("no store")),
    }
}

/// The power comes back, and goes again at this call, if it isn't 0.
fn power_up(part: &mut MemPart, bits: u64, stop: u64)
    ensures { memory_part part.new ≡ memory_part part.old }
{
    part.power_up();
    part.show_by(bits);
    if stop > 0 {
        part.stop_at(stop);
    }
}

/// Starts the store.
fn start_store(part: &mut MemPart, cells: &mut [[u8; 32]]) -> Result<SealStore, SealStartFault>
    requires has { HasSealStore (memory_part part.old) SIZES }
    requires alike { length cells.old ≡ 2 }
    ensures ready { IfOk result (λ store. StandsOn (memory_part part.new) store cells.new) }
    ensures sizes { IfOk result (λ store. store.sizes ≡ SIZES) }
    ensures off { OnErr result (HasSealStore (memory_part part.new) SIZES) }
{
    let mut reads = [NO_READ; 16];
    let mut chain = [0; 8];
    a_unit_is_programmed_once_on_a_part_of_blanks();
    match start(part, SIZES, cells, &mut reads, &mut chain) {
        Ok(store) => Ok(store),
        Err(SealStartFault::Failed) => Err(SealStartFault::Failed),
        Err(SealStartFault::Unserved) => Err(SealStartFault::Unserved),
        Err(SealStartFault::NoStore) => Err(SealStartFault::NoStore),
        Err(SealStartFault::Damaged) => Err(SealStartFault::Damaged),
        Err(SealStartFault::Exhausted) => Err(SealStartFault::Exhausted),
    }
}

/// Puts bytes into a cell.
fn put_once(
    part: &mut MemPart,
    store: &mut SealStore,
    cells: &mut [[u8; 32]],
    cell: u16,
    payload: &[u8; 32],
) -> Result<(), SealPutFault>
    requires stands { StandsOn (memory_part part.old) store.old cells.old }
    ensures stands { StandsOn (memory_part part.new) store.new cells.new }
    ensures sizes { store.new.sizes ≡ store.old.sizes }
{
    a_unit_is_programmed_once_on_a_part_of_blanks();
    match store.put(part, cells, cell, payload) {
        Ok(()) => Ok(()),
        Err(SealPutFault::Failed) => Err(SealPutFault::Failed),
        Err(SealPutFault::Exhausted) => Err(SealPutFault::Exhausted),
        Err(SealPutFault::NoCell) => Err(SealPutFault::NoCell),
        Err(SealPutFault::NotReady) => Err(SealPutFault::NotReady),
    }
}

/// Replaces all cells.
fn anew_once(
    part: &mut MemPart,
    store: &mut SealStore,
    cells: &mut [[u8; 32]],
    made: &[[u8; 32]],
) -> Result<(), SealPutFault>
    requires stands { StandsOn (memory_part part.old) store.old cells.old }
    ensures stands { StandsOn (memory_part part.new) store.new cells.new }
    ensures sizes { store.new.sizes ≡ store.old.sizes }
{
    a_unit_is_programmed_once_on_a_part_of_blanks();
    match store.make_anew(part, cells, made) {
        Ok(()) => Ok(()),
        Err(SealPutFault::Failed) => Err(SealPutFault::Failed),
        Err(SealPutFault::Exhausted) => Err(SealPutFault::Exhausted),
        Err(SealPutFault::NoCell) => Err(SealPutFault::NoCell),
        Err(SealPutFault::NotReady) => Err(SealPutFault::NotReady),
    }
}

/// Puts a value into a cell; each seventh value goes into all of them.
fn change_once(
    part: &mut MemPart,
    store: &mut SealStore,
    cells: &mut [[u8; 32]],
    cell: u16,
    value: u8,
) -> Result<(), SealPutFault>
    requires stands { StandsOn (memory_part part.old) store.old cells.old }
    ensures stands { StandsOn (memory_part part.new) store.new cells.new }
    ensures sizes { store.new.sizes ≡ store.old.sizes }
{
    if value % 7 == 0 {
        return anew_once(part, store, cells, &[[value; 32]; 2]);
    }
    put_once(part, store, cells, cell, &[value; 32])
}

/// What the cells have after this value.
fn changed(sure: [u8; 2], cell: u8, value: u8) -> [u8; 2] {
    if value % 7 == 0 {
        return [value; 2];
    }
    if cell == 0 {
        return [value, sure[1]];
    }
    [sure[0], value]
}

/// A store may jam if cuts have taken enough places.
fn jammed(may: bool) -> LifeEnd {
    if may { LifeEnd::Jammed } else { LifeEnd::Odd }
}

/// Puts until something fails.
fn put_some(
    part: &mut MemPart,
    store: &mut SealStore,
    cells: &mut [[u8; 32]],
    known: &mut Sure,
    puts: u8,
    first: u8,
) -> LifeEnd
    requires stands { StandsOn (memory_part part.old) store.old cells.old }
    ensures stands { StandsOn (memory_part part.new) store.new cells.new }
    ensures sizes { store.new.sizes ≡ store.old.sizes }
{
    for i in 0..puts {
        let value = first.wrapping_add(i);
        let cell = i % 2;
        known.cut = changed(known.sure, cell, value);
        match change_once(part, store, cells, cell as u16, value) {
            Ok(()) => {
                known.sure = known.cut;
                known.taken = 0;
            }
            Err(SealPutFault::Failed) => {
                known.taken = known.taken.saturating_add(2);
                return LifeEnd::Cut;
            }
            Err(SealPutFault::Exhausted) => {
                known.cut = known.sure;
                return jammed(known.taken >= SIZES.reserve);
            }
            Err(SealPutFault::NotReady) => return LifeEnd::Odd,
            Err(SealPutFault::NoCell) => return LifeEnd::Odd,
        }
    }
    LifeEnd::Cut
}

/// One life.
fn live_once(part: &mut MemPart, known: &mut Sure, bits: u64, stop: u64) -> LifeEnd
    requires { HasSealStore (memory_part part.old) SIZES }
    ensures { HasSealStore (memory_part part.new) SIZES }
{
    let mut cells = [[0; 32]; 2];
    power_up(part, bits, stop);
    match start_store(part, &mut cells) {
        Ok(store) => {
            if !is_known(&cells, known) {
                return LifeEnd::Odd;
            }
            let now = [cells[0][0], cells[1][0]];
            *known = Sure {
                sure: now,
                cut: now,
                taken: known.taken,
            };
            let mut store = store;
            let puts = ((bits >> 50) % 8) as u8;
            let first = ((bits >> 40) % 256) as u8;
            put_some(part, &mut store, &mut cells, known, puts, first)
        }
        Err(SealStartFault::Failed) => {
            known.taken = known.taken.saturating_add(1);
            LifeEnd::Cut
        }
        Err(SealStartFault::Exhausted) => jammed(known.taken > SIZES.reserve),
        Err(SealStartFault::NoStore) => LifeEnd::Odd,
        Err(SealStartFault::Unserved) => LifeEnd::Odd,
        Err(SealStartFault::Damaged) => LifeEnd::Odd,
    }
}

/// So many lives from this seed: how many ended jammed, or none if one was odd.
fn live_on(alloc: Global, seed: u64, lives: u32) -> Result<Option<u32>, Fail> {
    let mut part = first_store(alloc)?;
    let mut known = ONES_AND_TWOS;
    let mut bits = seed;
    let mut jams = 0u32;
    for _ in 0..lives {
        bits = mixed(bits);
        let stop = if bits % 5 == 0 {
            0
        } else {
            48 + (bits >> 20) % 40
        };
        match live_once(&mut part, &mut known, bits, stop) {
            LifeEnd::Cut => {}
            LifeEnd::Jammed => {
                jams = jams.saturating_add(1);
                part = first_store(alloc)?;
                known = ONES_AND_TWOS;
            }
            LifeEnd::Odd => return Ok(None),
        }
    }
    Ok(Some(jams))
}

#[test]
fn no_life_of_a_store_on_a_part_of_blanks_is_odd(rt: HostRuntime) -> Result<(), Fail> {
    let mut jams = 0u32;
    for seed in 1..40u64 {
        match live_on(rt.alloc(), seed, 200)? {
            Some(more) => jams = jams.saturating_add(more),
            None => return Err(Fail::from("a life was odd")),
        }
    }
    assert!(rt; jams > 0);
    Ok(())
}

#[test]
fn a_part_of_guards_is_not_served(rt: HostRuntime) -> Result<(), Fail> {
    let mut part = MemPart::new(rt.alloc(), PartClass::Guards, 2, 8)?;
    let mut cells = [[0; 32]; 2];
    let mut reads = [NO_READ; 16];
    let mut chain = [0; 8];
    match begin_store(&mut part, SIZES, &cells) {
        Err(SealStartFault::Unserved) => {}
        _ => return Err(Fail::from("a store was begun")),
    }
    match start(&mut part, SIZES, &mut cells, &mut reads, &mut chain) {
        Err(SealStartFault::Unserved) => Ok(()),
        _ => Err(Fail::from("a store was started")),
    }
}
