//! The engine: its slots, its boot, and the loading of keys.
ghost use Rattle.std.specs.Prelude.{◌≡◌, ◌≢◌, ◌≤◌, length, replicate, true, false, None, Err, IfOk, IfErr};
ghost use Rattle.std.specs.Result.{result_err};
ghost use Rattle.key_slots.specs.Slots.{slot_at};
ghost use Rattle.key_slots.specs.Usage.{usable as use_refusal};
ghost use Rattle.memory_update.specs.Loading.{key_in};
ghost use Rattle.secure_boot.specs.Booting.{Boots, IsImage, is_good, is_decided};
ghost use Rattle.slot_disk.specs.Cell.{HoldSlots, FirstBadSlot};
ghost use Rattle.she_engine.specs.Boots.{boot_after};
ghost use Rattle.she_engine.specs.Loads.{Loaded, NotLoaded};

use crate::loading::{allowed, slot_at, slot_of};
use crate::mac_key::MacKey;
use crate::memory::KeyMemory;
use cell_store::Cells;
use key_slots::{Erc, Purpose, Slot, SlotId, usable};
use memory_update::{Reply, Request, Uid, confirm_for};
use secure_boot::{BootState, decide};
use she_aes::Schedule;
use slot_disk::{BadSlot, put_slot, read_slots};

/// A slot that was to be put when the disk failed.
#[derive(Clone, Copy)]
pub struct PendingSlot {
    target: SlotId,
    slot: Slot,
}

/// A SHE engine with its identifier. Contracts see its identifier, its slots, and what secure boot came to in this
/// life. They also see the slot that a load was to put when the disk failed, which no call hands out.
#[derive(Drop)]
pub struct Engine {
    uid: Uid,
    slots: KeyMemory,
    boot: BootState,
    pending: Option<PendingSlot>,
}

/// Why a key isn't loaded.
#[derive(Clone, Copy, Debug, PartialEq, Eq)]
pub enum LoadFault {
    /// The first refusal that applies.
    Refused(Erc),
    /// The disk failed as the slot was put. After the next power-up the slot is the old one or the new one.
    Faulted,
}

impl Engine {
    /// The engine with this identifier, which isn't zero, over the slots in the store's first fourteen cells. No boot
    /// has been made, and nothing is pending. `BadSlot` exactly if one of these cells is no slot's; the lowest is
    /// named.
    pub fn attach<C: Cells>(uid: Uid, cells: &C) -> Result<Engine, BadSlot>
        requires cells { 14 ≤ length (C.state cells.now).cells }
        requires uid { uid ≢ replicate 15 0 }
        ensures slots { IfOk result (λ e. HoldSlots (C.state cells.now).cells e.slots) }
        ensures new { IfOk result (λ e. (e.uid ≡ uid) × (e.boot ≡ BootState.Undecided)
            × (e.pending ≡ None)) }
        ensures bad { IfErr result (λ bad. FirstBadSlot (C.state cells.now).cells bad.0) }
    {
        let slots = read_slots(cells)?;
        Ok(Engine {
            uid,
            slots: KeyMemory::of(slots),
            boot: BootState::Undecided,
            pending: None,
        })
    }

    /// Loads the key of the request into its slot and the slot's cell, and confirms it with the engine's own
    /// identifier. `Refused` names the first refusal that applies, and then nothing has changed and no call of the disk
    /// was made. `Faulted` comes only if the disk failed: the slots are as before, and the slot that was to be put is
    /// pending.
    pub fn load_key<C: Cells>(
        &mut self,
        cells: &mut C,
        request: &Request,
    ) -> Result<Reply, LoadFault>
        requires whole { (C.state cells.old).broken ≡ false }
        requires held { HoldSlots (C.state cells.old).cells self.old.slots }
        ensures loaded { IfOk result (Loaded self.old self.new (C.state cells.old) (C.state cells.new)
            request.now) }
        ensures not_loaded { IfErr result (NotLoaded self.old self.new (C.state cells.old)
            (C.state cells.new) request.now) }
        ensures held { HoldSlots (C.state cells.new).cells self.new.slots }
    {
        let good = self.boot.is_good();
        let update = match allowed(self.slots.slots(), good, self.uid, request) {
            Ok(update) => update,
            Err(refusal) => return Err(LoadFault::Refused(refusal)),
        };
        let slot = slot_of(&update);
        match put_slot(cells, update.id, &slot) {
            Ok(()) => {
                self.slots.set(update.id, slot);
                Ok(confirm_for(&update, self.uid))
            }
            Err(_) => {
                self.pending = Some(PendingSlot {
                    target: update.id,
                    slot,
                });
                Err(LoadFault::Faulted)
            }
        }
    }

    // The first refusal of the use of the slot's key.
    fn usable_for(&self, slot: SlotId, purpose: Purpose) -> Result<(), Erc>
        ensures { result_err result ≡ use_refusal self.now.slots slot (is_good self.now.boot) purpose }
    {
        if slot.number() < 4 {
            return Err(Erc::KeyInvalid);
        }
        let held = slot_at(self.slots.slots(), slot);
        usable(held, self.boot.is_good(), purpose)
    }

    // The round keys of the slot's key, if it may be used.
    pub(crate) fn key_for(&self, slot: SlotId, purpose: Purpose) -> Result<&Schedule, Erc>
        ensures refusal { result_err result ≡ use_refusal self.now.slots slot (is_good self.now.boot) purpose }
        ensures key { IfOk result (λ schedule. schedule.now ≡ key_in (slot_at self.now.slots slot)) }
    {
        if let Err(refusal) = self.usable_for(slot, purpose) {
            return Err(refusal);
        }
        match self.slots.schedule(slot) {
            Some(schedule) => Ok(schedule),
            None => Err(Erc::KeyEmpty),
        }
    }

    /// The first refusal of a use of the slot's key for MACs.
    pub fn usable_for_mac(&self, slot: SlotId) -> Result<(), Erc>
        ensures { result_err result ≡ use_refusal self.now.slots slot (is_good self.now.boot) Purpose.Mac }
    {
        self.usable_for(slot, Purpose::Mac)
    }

    /// Lends the slot's key to make and judge Secured I-PDUs, with the refusals of [`Engine::usable_for_mac`].
    pub fn mac_key(&self, slot: SlotId) -> Result<MacKey<'_>, Erc>
        ensures refusal { result_err result ≡ use_refusal self.now.slots slot (is_good self.now.boot) Purpose.Mac }
        ensures key { IfOk result (λ key. key ≡ key_in (slot_at self.now.slots slot)) }
    {
        let schedule = self.key_for(slot, Purpose::Mac)?;
        Ok(MacKey::of(schedule))
    }

    /// Decides the secure boot of this life with an image of 1 to 65,536 bytes: whether slot 3, BOOT_MAC, holds its
    /// boot MAC under the key of slot 2, BOOT_MAC_KEY. `SequenceError` comes exactly if a boot was decided before in
    /// this life. Else `NoSecureBoot` comes exactly if one of the two slots is empty; it doesn't count as a boot.
    pub fn boot(&mut self, image: &[u8]) -> Result<bool, Erc>
        requires { IsImage image.now }
        ensures once { is_decided self.old.boot ≡ true → result ≡ Err Erc.SequenceError }
        ensures decided { is_decided self.old.boot ≡ false → Boots self.old.slots image.now result }
        ensures after { self.new ≡ record self.old { boot = boot_after self.old.boot result } }
    {
        if self.boot.is_decided() {
            return Err(Erc::SequenceError);
        }
        let good = match decide(self.slots.slots(), image) {
            Ok(good) => good,
            Err(refusal) => return Err(refusal),
        };
        self.boot = BootState::decided(good);
        Ok(good)
    }
}
