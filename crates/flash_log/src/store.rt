//! The store.
ghost use Rattle.flash_places.specs.declared.FlashLine.TheVariants.{Entry};
ghost use Rattle.std.specs.Prelude.{◌≡◌, ◌≤◌, ◌<◌, length, get_or, true, false, Err, IfOk, OnOk, OnErr};
ghost use Rattle.basics.specs.FaultCount.{Rose};
ghost use Rattle.flash_places.specs.Places.{SameFlash, Programs};
ghost use Rattle.flash_places.specs.State.{FlashRuns};
ghost use Rattle.flash_laws.specs.Lives.{off, next_bank};
ghost use Rattle.flash_log.specs.Going.{machine, layout_on, Goes};
ghost use Rattle.flash_log.specs.Scanned.{NoLogCounts};
ghost use Rattle.flash_log.specs.Taking.{last_generation};
ghost use Rattle.flash_log.specs.Stores.{FitsFlash, FindsLast, GoesOnIfFree, IsStoreOf, stage_of, PutsOnFlash, FailsPutOnFlash};
ghost use Rattle.flash_log.specs.declared.store.AttachFault.TheVariants.{Failed as attach_failed, NoStore, Exhausted as attach_exhausted};
ghost use Rattle.flash_log.specs.declared.store.PutFault.TheVariants.{Failed as put_failed, Exhausted as put_exhausted, NotReady};

use crate::copying::{next_bank, renew};
use crate::scanning::{FoundLog, scan};
use flash_places::{FlashDevice, FlashLine};

/// Why a store isn't attached.
#[derive(Clone, Copy, Debug, PartialEq, Eq, Drop)]
pub enum AttachFault {
    /// An operation of the flash failed.
    Failed,
    /// No bank holds a log of so many cells that counts.
    NoStore,
    /// The log that counts has the last generation.
    Exhausted,
}

/// Why a put isn't done.
#[derive(Clone, Copy, Debug, PartialEq, Eq, Drop)]
pub enum PutFault {
    /// An operation of the flash failed. The put may be there after the next attach, or not.
    Failed,
    /// The bank is full, and its log has the last generation.
    Exhausted,
    /// An earlier put failed, and the store wasn't attached since.
    NotReady,
}

/// A store that was attached. Its cells are the caller's, and are passed to each call with the flash.
#[derive(Clone, Copy, Debug, PartialEq, Eq, Drop)]
pub struct FlashLog {
    bank: u8,
    generation: u64,
    /// The place of the next put.
    next: u32,
    /// Whether no put has failed.
    is_ready: bool,
}

/// Whether a start may go on in the log that it found: its bank is free behind it, and the next bank's head was read
/// and is older.
pub fn may_go_on(banks: u8, log: &FoundLog, latest: &[u64; 16]) -> bool
    requires inside { log.now.bank < banks }
    requires few { banks ≤ 16 }
    ensures sized { log.now.generation ≤ last_generation }
    ensures free { result ≡ true → log.now.is_free ≡ true }
    ensures read { result ≡ true → get_or latest.now (next_bank banks log.now.bank) 0 < last_generation }
    ensures older { result ≡ true → get_or latest.now (next_bank banks log.now.bank) 0 < log.now.generation }
    ensures may { log.now.is_free ≡ true → get_or latest.now (next_bank banks log.now.bank) 0 < last_generation
        → get_or latest.now (next_bank banks log.now.bank) 0 < log.now.generation → result ≡ true }
{
    let next = next_bank(banks, log.bank);
    let head = latest[next as usize];
    let generation = log.generation;
    log.is_free && head < u64::MAX && head < generation
}

/// Reads all banks, and makes a copy of the log that counts in the next one. If all behind that log is blank for sure,
/// and the next bank's head is blank or older, it goes on in the log that it found, and erases nothing: `goes_on` says
/// so of a flash that tells which places are blank. `cells` is then the store's list; `scratch` has anything.
pub fn attach<D: FlashDevice>(
    device: &mut D,
    cells: &mut [[u8; 32]],
    scratch: &mut [[u8; 32]],
) -> Result<FlashLog, AttachFault>
    requires alike { length scratch.old ≡ length cells.old }
    requires fits { FitsFlash (length cells.old) (D.state device.old) }
    ensures runs { FlashRuns (D.state device.old) (D.state device.new) }
    ensures count { OnOk result ((D.state device.new).faults ≡ (D.state device.old).faults) }
    ensures failed { result ≡ Err attach_failed → Rose (D.state device.old).faults (D.state device.new).faults }
    ensures no_store { result ≡ Err NoStore → NoLogCounts (layout_on (D.state device.old) (length cells.old))
        (D.state device.old).flash (D.state device.new).flash }
    ensures exhausted { result ≡ Err attach_exhausted → FindsLast (layout_on (D.state device.old) (length cells.old))
        (D.state device.old).flash (D.state device.new).flash }
    ensures ready { IfOk result (λ s. Goes (layout_on (D.state device.old) (length cells.old))
        (machine (D.state device.old).flash off) (machine (D.state device.new).flash (stage_of s cells.new))) }
    ensures goes_on { (D.state device.old).tells_blank ≡ true
        → IfOk result (λ s. GoesOnIfFree (layout_on (D.state device.old) (length cells.old))
        (D.state device.old).flash (D.state device.new).flash s cells.new) }
    ensures is_ready { IfOk result (λ s. s.is_ready ≡ true) }
    ensures store { IfOk result (λ s. IsStoreOf s (length cells.old) (D.state device.new)) }
    ensures cut { OnErr result (Goes (layout_on (D.state device.old) (length cells.old))
        (machine (D.state device.old).flash off) (machine (D.state device.new).flash off)) }
{
    let mut latest = [u64::MAX; 16];
    let found = match scan(device, &mut latest, cells, scratch) {
        Ok(Some(found)) => found,
        Ok(None) => return Err(AttachFault::NoStore),
        Err(_) => return Err(AttachFault::Failed),
    };
    let banks = device.banks();
    if may_go_on(banks, &found, &latest) {
        return Ok(FlashLog {
            bank: found.bank,
            generation: found.generation,
            next: found.next,
            is_ready: true,
        });
    }
    if found.generation == u64::MAX {
        return Err(AttachFault::Exhausted);
    }
    match renew(device, found.bank, found.generation, cells) {
        Ok(()) => Ok(FlashLog {
            bank: next_bank(banks, found.bank),
            generation: found.generation + 1,
            next: 1 + cells.len() as u32,
            is_ready: true,
        }),
        Err(_) => Err(AttachFault::Failed),
    }
}

impl FlashLog {
    /// Sees that there is a place for a put: if the bank is full, the log is copied to the next one.
    fn make_room<D: FlashDevice>(
        &mut self,
        device: &mut D,
        cells: &[[u8; 32]],
    ) -> Result<(), PutFault>
        requires ready { self.old.is_ready ≡ true }
        requires store { IsStoreOf self.old (length cells.now) (D.state device.old) }
        ensures runs { FlashRuns (D.state device.old) (D.state device.new) }
        ensures count { OnOk result ((D.state device.new).faults ≡ (D.state device.old).faults) }
        ensures failed { result ≡ Err put_failed → Rose (D.state device.old).faults (D.state device.new).faults }
        ensures exhausted { result ≡ Err put_exhausted → (self.old.generation ≡ last_generation)
            × ((D.state device.old).places ≤ self.old.next) }
        ensures not_ready { result ≡ Err NotReady → ⊥ }
        ensures room { self.old.next < (D.state device.old).places → D.state device.new ≡ D.state device.old }
        ensures same { self.old.next < (D.state device.old).places → self.new ≡ self.old }
        ensures unchanged { result ≡ Err put_exhausted → (self.new ≡ self.old)
            × SameFlash (D.state device.old).flash (D.state device.new).flash }
        ensures goes { OnOk result (Goes (layout_on (D.state device.old) (length cells.now))
            (machine (D.state device.old).flash (stage_of self.old cells.now))
            (machine (D.state device.new).flash (stage_of self.new cells.now))) }
        ensures stays { OnOk result (self.new.is_ready ≡ true) }
        ensures store { IsStoreOf self.new (length cells.now) (D.state device.new) }
        ensures next { OnOk result (self.new.next < (D.state device.new).places) }
        ensures broken { result ≡ Err put_failed → self.new.is_ready ≡ false }
        ensures cut { result ≡ Err put_failed → Goes (layout_on (D.state device.old) (length cells.now))
            (machine (D.state device.old).flash (stage_of self.old cells.now))
            (machine (D.state device.new).flash off) }
    {
        if self.next < device.places() {
            return Ok(());
        }
        if self.generation == u64::MAX {
            return Err(PutFault::Exhausted);
        }
        match renew(device, self.bank, self.generation, cells) {
            Ok(()) => {
                self.bank = next_bank(device.banks(), self.bank);
                self.generation += 1;
                self.next = 1 + cells.len() as u32;
                Ok(())
            }
            Err(_) => {
                self.is_ready = false;
                Err(PutFault::Failed)
            }
        }
    }

    /// Puts these bytes into a cell: one program, or, if the bank is full, a copy of the log before it.
    pub fn put<D: FlashDevice>(
        &mut self,
        device: &mut D,
        cells: &mut [[u8; 32]],
        cell: u16,
        payload: &[u8; 32],
    ) -> Result<(), PutFault>
        requires cell { cell < length cells.old }
        requires store { IsStoreOf self.old (length cells.old) (D.state device.old) }
        ensures runs { FlashRuns (D.state device.old) (D.state device.new) }
        ensures put { OnOk result (PutsOnFlash cell payload.now
            (record { store = self.old; cells = cells.old; device = D.state device.old })
            (record { store = self.new; cells = cells.new; device = D.state device.new })) }
        ensures failed { result ≡ Err put_failed → FailsPutOnFlash cell payload.now
            (record { store = self.old; cells = cells.old; device = D.state device.old })
            (record { store = self.new; cells = cells.new; device = D.state device.new }) }
        ensures exhausted { result ≡ Err put_exhausted → (self.old.generation ≡ last_generation)
            × ((D.state device.old).places ≤ self.old.next) }
        ensures not_ready { result ≡ Err NotReady → self.old.is_ready ≡ false }
        ensures one { OnOk result (self.old.next < (D.state device.old).places
            → Programs self.old.bank self.old.next (Entry cell payload.now) (D.state device.old).flash
            (D.state device.new).flash) }
        ensures kept { OnErr result (cells.new ≡ cells.old) }
        ensures store { IsStoreOf self.new (length cells.old) (D.state device.new) }
    {
        if !self.is_ready {
            return Err(PutFault::NotReady);
        }
        match self.make_room(device, cells) {
            Ok(()) => {}
            Err(fault) => return Err(fault),
        }
        match device.program(self.bank, self.next, &FlashLine::Entry(cell, *payload)) {
            Ok(()) => {
                self.next += 1;
                cells[cell as usize] = *payload;
                Ok(())
            }
            Err(_) => {
                self.is_ready = false;
                Err(PutFault::Failed)
            }
        }
    }
}
