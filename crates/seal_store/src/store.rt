//! The store.
ghost use Rattle.std.specs.Prelude.{◌≡◌, ◌≢◌, ◌^◌, ◌<◌, ◌≤◌, suc, set, length, true, false};
ghost use Rattle.std.specs.Prelude.{IfErr, OnOk, OnErr, IsErrOf};
ghost use Rattle.basics.specs.FaultCount.{Rose};
ghost use Rattle.seal_parts.specs.declared.PartClass.TheVariants.{Blanks};
ghost use Rattle.seal_parts.specs.State.{PartRuns};
ghost use Rattle.seal_parts.specs.Designs.{MayDoPartWrites};
ghost use Rattle.seal_laws.specs.Writes.{put_writes, move_writes, FitsPut, FitsMove};
ghost use Rattle.seal_laws.specs.Writes.{put_on as point_put, moved_on as point_moved_on};
ghost use Rattle.seal_laws.specs.Lives.{PutsSeal, CutsPutSeal, MakesAnewSeal, CutsAnewSeal};
ghost use Rattle.seal_store.specs.Store.{machine_at, MayPut, IsFull};

use crate::SealStore;
use crate::writing::{bank_after, write_move, write_put};
use seal_laws::{SealPoint, SealSizes};
use seal_parts::{PartFailed, SealPart};

/// Why a put isn't done.
#[derive(Clone, Copy, Debug, PartialEq, Eq, Drop)]
pub enum SealPutFault {
    /// An operation of the part failed. The put may be there after the next start, or not.
    Failed,
    /// No place is left in the bank, or no generation. The store is as it was, and can be read.
    Exhausted,
    /// There is no cell of this number.
    NoCell,
    /// An earlier put failed, and there was no start since.
    NotReady,
}

/// Whether a put goes to the next place.
fn fits_put(sizes: SealSizes, point: &SealPoint) -> bool
    ensures fits { result ≡ true → FitsPut sizes point.now }
    ensures full { result ≡ false → FitsPut sizes point.now → ⊥ }
{
    let lacking = point.lacking.saturating_sub(1) as u64;
    let last = point.next as u64 + lacking + sizes.reserve as u64;
    last < sizes.log.places as u64
}

/// Whether a move finds a place for each of its deeds, and a generation.
fn fits_move(sizes: SealSizes, point: &SealPoint) -> bool
    ensures fits { result ≡ true → FitsMove sizes point.now }
    ensures full { result ≡ false → FitsMove sizes point.now → ⊥ }
{
    let places = point.next as u64 + point.lacking as u64;
    places < sizes.log.places as u64 && point.generation < u64::MAX
}

/// Where the store stands after a put that went to the next place.
fn put_on(point: &SealPoint) -> SealPoint
    requires { suc point.now.next < 2 ^ 32 }
    ensures { result ≡ point_put point.now }
{
    SealPoint {
        bank: point.bank,
        generation: point.generation,
        next: point.next + 1,
        last: Some(point.next),
        lacking: point.lacking.saturating_sub(1),
    }
}

/// Where it stands after a move.
fn moved_on(sizes: SealSizes, point: &SealPoint) -> SealPoint
    requires inside { point.now.bank < sizes.log.banks }
    requires generation { suc point.now.generation < 2 ^ 64 }
    ensures is { result ≡ point_moved_on sizes point.now }
    ensures inside { result.bank < sizes.log.banks }
{
    SealPoint {
        bank: bank_after(sizes.log, point.bank),
        generation: point.generation + 1,
        next: sizes.log.cells as u32,
        last: None,
        lacking: 2,
    }
}

impl SealStore {
    /// A store that stands here.
    pub(crate) fn at(sizes: SealSizes, point: SealPoint) -> SealStore
        requires inside { point.bank < sizes.log.banks }
        requires room { sizes.log.cells ≤ sizes.log.places }
        ensures sizes { result.sizes ≡ sizes }
        ensures point { result.point ≡ point }
        ensures ready { result.is_ready ≡ true }
    {
        SealStore {
            sizes,
            point,
            is_ready: true,
        }
    }

    /// A put to the next place.
    fn put_next<P: SealPart>(
        &mut self,
        part: &mut P,
        cells: &mut [[u8; 32]],
        cell: u16,
        payload: &[u8; 32],
    ) -> Result<(), PartFailed>
        requires class { (P.state part.old).class ≡ Blanks }
        requires banks { self.old.sizes.log.banks ≡ (P.state part.old).banks }
        requires places { self.old.sizes.log.places ≡ (P.state part.old).places }
        requires ready { self.old.is_ready ≡ true }
        requires below { cell < length cells.old }
        requires fits { FitsPut self.old.sizes self.old.point }
        requires may { MayDoPartWrites Blanks (put_writes Blanks self.old.point cell payload.now)
            (P.state part.old).flash }
        ensures runs { PartRuns (P.state part.old) (P.state part.new) }
        ensures count { OnOk result ((P.state part.new).faults ≡ (P.state part.old).faults) }
        ensures failed { OnErr result (Rose (P.state part.old).faults (P.state part.new).faults) }
        ensures sizes { self.new.sizes ≡ self.old.sizes }
        ensures done { OnOk result (PutsSeal Blanks self.old.sizes cell payload.now
            (machine_at (P.state part.old).flash self.old cells.old)
            (machine_at (P.state part.new).flash self.new cells.new)) }
        ensures cut { OnErr result (CutsPutSeal Blanks self.old.sizes cell payload.now
            (machine_at (P.state part.old).flash self.old cells.old)
            (machine_at (P.state part.new).flash self.new cells.new)) }
    {
        match write_put(part, self.point, cell, *payload) {
            Ok(()) => {
                cells[cell as usize] = *payload;
                self.point = put_on(&self.point);
                Ok(())
            }
            Err(failed) => {
                self.is_ready = false;
                Err(failed)
            }
        }
    }

    /// A put into the copy of the next bank.
    fn put_moved<P: SealPart>(
        &mut self,
        part: &mut P,
        cells: &mut [[u8; 32]],
        cell: u16,
        payload: &[u8; 32],
    ) -> Result<(), PartFailed>
        requires class { (P.state part.old).class ≡ Blanks }
        requires banks { self.old.sizes.log.banks ≡ (P.state part.old).banks }
        requires places { self.old.sizes.log.places ≡ (P.state part.old).places }
        requires alike { length cells.old ≡ self.old.sizes.log.cells }
        requires few { length cells.old < 2 ^ 16 }
        requires ready { self.old.is_ready ≡ true }
        requires below { cell < length cells.old }
        requires full { FitsPut self.old.sizes self.old.point → ⊥ }
        requires fits { FitsMove self.old.sizes self.old.point }
        requires may { MayDoPartWrites Blanks
            (move_writes Blanks self.old.sizes self.old.point (set cells.old cell payload.now))
            (P.state part.old).flash }
        ensures runs { PartRuns (P.state part.old) (P.state part.new) }
        ensures count { OnOk result ((P.state part.new).faults ≡ (P.state part.old).faults) }
        ensures failed { OnErr result (Rose (P.state part.old).faults (P.state part.new).faults) }
        ensures sizes { self.new.sizes ≡ self.old.sizes }
        ensures done { OnOk result (PutsSeal Blanks self.old.sizes cell payload.now
            (machine_at (P.state part.old).flash self.old cells.old)
            (machine_at (P.state part.new).flash self.new cells.new)) }
        ensures cut { OnErr result (CutsPutSeal Blanks self.old.sizes cell payload.now
            (machine_at (P.state part.old).flash self.old cells.old)
            (machine_at (P.state part.new).flash self.new cells.new)) }
    {
        cells[cell as usize] = *payload;
        match write_move(part, self.sizes, self.point, cells) {
            Ok(()) => {
                self.point = moved_on(self.sizes, &self.point);
                Ok(())
            }
            Err(failed) => {
                self.is_ready = false;
                Err(failed)
            }
        }
    }

    /// Puts these bytes into a cell: one deed, or, if the bank is full, a copy with them in the next bank. A put that
    /// answers `Failed` is there after the next start, or not: `cells` isn't to be relied on until then.
    pub fn put<P: SealPart>(
        &mut self,
        part: &mut P,
        cells: &mut [[u8; 32]],
        cell: u16,
        payload: &[u8; 32],
    ) -> Result<(), SealPutFault>
        requires class { (P.state part.old).class ≡ Blanks }
        requires banks { self.old.sizes.log.banks ≡ (P.state part.old).banks }
        requires places { self.old.sizes.log.places ≡ (P.state part.old).places }
        requires alike { length cells.old ≡ self.old.sizes.log.cells }
        requires may { self.old.is_ready ≡ true → cell < length cells.old
            → MayPut self.old.sizes self.old.point cell payload.now cells.old (P.state part.old).flash }
        ensures runs { PartRuns (P.state part.old) (P.state part.new) }
        ensures sizes { self.new.sizes ≡ self.old.sizes }
        ensures count { OnOk result ((P.state part.new).faults ≡ (P.state part.old).faults) }
        ensures failed { IsErrOf result SealPutFault.Failed
            → Rose (P.state part.old).faults (P.state part.new).faults }
        ensures done { OnOk result (PutsSeal Blanks self.old.sizes cell payload.now
            (machine_at (P.state part.old).flash self.old cells.old)
            (machine_at (P.state part.new).flash self.new cells.new)) }
        ensures cut { IsErrOf result SealPutFault.Failed → CutsPutSeal Blanks self.old.sizes cell payload.now
            (machine_at (P.state part.old).flash self.old cells.old)
            (machine_at (P.state part.new).flash self.new cells.new) }
        ensures not_ready { IsErrOf result SealPutFault.NotReady → self.old.is_ready ≡ false }
        ensures no_cell { IsErrOf result SealPutFault.NoCell
            → (self.old.is_ready ≡ true) × (length cells.old ≤ cell) }
        ensures exhausted { IsErrOf result SealPutFault.Exhausted → (self.old.is_ready ≡ true)
            × ((cell < length cells.old) × IsFull self.old.sizes self.old.point) }
        ensures untouched { IfErr result (λ e. e ≢ SealPutFault.Failed
            → (P.state part.new ≡ P.state part.old) × ((self.new ≡ self.old) × (cells.new ≡ cells.old))) }
    {
        if !self.is_ready {
            return Err(SealPutFault::NotReady);
        }
        if cell >= self.sizes.log.cells {
            return Err(SealPutFault::NoCell);
        }
        if fits_put(self.sizes, &self.point) {
            return match self.put_next(part, cells, cell, payload) {
                Ok(()) => Ok(()),
                Err(_) => Err(SealPutFault::Failed),
            };
        }
        if !fits_move(self.sizes, &self.point) {
            return Err(SealPutFault::Exhausted);
        }
        match self.put_moved(part, cells, cell, payload) {
            Ok(()) => Ok(()),
            Err(_) => Err(SealPutFault::Failed),
        }
    }

    /// Replaces all cells, by a copy in the next bank: the store has all of them then, or is as it was. `cells` is then
    /// `made`. A call that answers `Failed` is there after the next start, or not. `NoCell`: `made` has not as many.
    pub fn make_anew<P: SealPart>(
        &mut self,
        part: &mut P,
        cells: &mut [[u8; 32]],
        made: &[[u8; 32]],
    ) -> Result<(), SealPutFault>
        requires class { (P.state part.old).class ≡ Blanks }
        requires banks { self.old.sizes.log.banks ≡ (P.state part.old).banks }
        requires places { self.old.sizes.log.places ≡ (P.state part.old).places }
        requires alike { length cells.old ≡ self.old.sizes.log.cells }
        requires may { self.old.is_ready ≡ true → length made.now ≡ length cells.old
            → FitsMove self.old.sizes self.old.point → MayDoPartWrites Blanks (move_writes Blanks self.old.sizes self.old.point made.now)
            (P.state part.old).flash }
        ensures runs { PartRuns (P.state part.old) (P.state part.new) }
        ensures sizes { self.new.sizes ≡ self.old.sizes }
        ensures count { OnOk result ((P.state part.new).faults ≡ (P.state part.old).faults) }
        ensures failed { IsErrOf result SealPutFault.Failed
            → Rose (P.state part.old).faults (P.state part.new).faults }
        ensures done { OnOk result (MakesAnewSeal Blanks self.old.sizes made.now
            (machine_at (P.state part.old).flash self.old cells.old)
            (machine_at (P.state part.new).flash self.new cells.new)) }
        ensures cut { IsErrOf result SealPutFault.Failed → CutsAnewSeal Blanks self.old.sizes made.now
            (machine_at (P.state part.old).flash self.old cells.old)
            (machine_at (P.state part.new).flash self.new cells.new) }
        ensures not_ready { IsErrOf result SealPutFault.NotReady → self.old.is_ready ≡ false }
        ensures no_cell { IsErrOf result SealPutFault.NoCell
            → (self.old.is_ready ≡ true) × (length made.now ≢ length cells.old) }
        ensures exhausted { IsErrOf result SealPutFault.Exhausted → (self.old.is_ready ≡ true)
            × ((length made.now ≡ length cells.old) × (FitsMove self.old.sizes self.old.point → ⊥)) }
        ensures untouched { IfErr result (λ e. e ≢ SealPutFault.Failed
            → (P.state part.new ≡ P.state part.old) × ((self.new ≡ self.old) × (cells.new ≡ cells.old))) }
    {
        if !self.is_ready {
            return Err(SealPutFault::NotReady);
        }
        if made.len() != self.sizes.log.cells as usize {
            return Err(SealPutFault::NoCell);
        }
        if !fits_move(self.sizes, &self.point) {
            return Err(SealPutFault::Exhausted);
        }
        match write_move(part, self.sizes, self.point, made) {
            Ok(()) => {
                cells.copy_from_slice(made);
                self.point = moved_on(self.sizes, &self.point);
                Ok(())
            }
            Err(_) => {
                self.is_ready = false;
                Err(SealPutFault::Failed)
            }
        }
    }
}
