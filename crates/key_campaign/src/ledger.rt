//! A ledger in all its lives.
ghost use Rattle.std.specs.Prelude.{◌≡◌, ◌≢◌, ◌<◌, ◌≤◌, ◌+◌, ◌↔◌, [], length, true, false, None, option_map, not, IfOk};
ghost use Rattle.std.specs.Prelude.{IfErr, OnOk, OnErr, IsErrOf};
ghost use Rattle.key_campaign.specs.Words.{ArmsStop, ArmsFail, Rose, Runs, CutAndRead, Settled, is_pair};
ghost use Rattle.key_campaign.specs.Words.{place_count, greatest_counter, IsUnit, entry_for, last_issued, Advances};
ghost use Rattle.key_campaign.specs.Words.{powered_ledger, changed_ledger, failed_change, SoundLedger, HasNoPlace};
ghost use Rattle.key_campaign.specs.Words.{RefusesConfirm, told_entry, LedgerStep, HoldEntries, FirstBadEntry};
ghost use Rattle.key_campaign.specs.Words.{LedgerComesUp, LedgerStaysDown, FitsLedger, TellsLedger, ServedLedger};
ghost use Rattle.key_campaign.specs.Words.{issued_line, confirmed_line, ledger_cut_line, IsEntry, entry_at, AdoptStep};

use crate::faults::{BadEntry, LedgerCut, LedgerFault};
use crate::places::{Places, put_entry, read_places};
use crate::{Adoption, LedgerCommand, LedgerEntry, LedgerLine, LedgerRefusal, PendingEntry};
use basics::Block;
use cell_store::{Cells, CutCells, PutFailed};
use cut_disk::Torn;
use key_slots::{Counter28, Flags, SlotId, may_authorise};
use memory_update::{Reply, Request, Uid, Update, build, is_confirmed};
use std::marker::Model;

/// The ledger of a key campaign over a store of cells. Contracts see the machine's ledger and the state of the store.
/// The ledger is always sound, and while it is up its store has the cells of its entries.
#[derive(Drop)]
pub struct Ledger<C: Cells> {
    entries: Places,
    up: bool,
    pending: Option<PendingEntry>,
    cells: C,
}

impl<C: Cells> Model for Ledger<C> {
    ghost use Rattle.key_campaign.specs.State.{LedgerState, IsLedger};

    ghost Value = { LedgerState };

    ghost view = { λ l. record {
      campaign = record { entries = l.entries; up = l.up; pending = l.pending };
      store = C.state l.cells;
    } };

    ghost invariant = { λ l.
        IsLedger (record { entries = l.entries; up = l.up; pending = l.pending }) (C.state l.cells) };
}

impl<C: Cells> Ledger<C> {
    /// The ledger over a store of 256 cells. `BadEntry` exactly if a cell is neither empty nor an entry, or repeats the
    /// unit and slot of an earlier one; the lowest is named, and the cells are handed back as they were.
    pub fn attach(cells: C) -> Result<Ledger<C>, BadEntry<C>>
        requires count { length (C.state cells).cells ≡ place_count }
        requires whole { (C.state cells).broken ≡ false }
        ensures up { IfOk result (λ l. l.campaign ≡ powered_ledger l.campaign.entries) }
        ensures held { IfOk result (λ l. HoldEntries (C.state cells).cells l.campaign.entries) }
        ensures store { IfOk result (λ l. l.store ≡ C.state cells) }
        ensures sound { IfOk result (λ l. SoundLedger l.campaign) }
        ensures fits { Settled (C.state cells) → IfOk result FitsLedger }
        ensures bad { IfErr result (λ r. FirstBadEntry (C.state cells).cells r.entry) }
        ensures handed_back { IfErr result (λ r. C.state r.cells ≡ C.state cells) }
    {
        match read_places(&cells) {
            Ok(entries) => Ok(Ledger {
                entries,
                up: true,
                pending: None,
                cells,
            }),
            Err(entry) => Err(BadEntry { cells, entry }),
        }
    }

    // Puts an entry into its place, in the store and then in memory. If the disk fails, the change is pending and the
    // ledger down.
    fn put(&mut self, place: u16, entry: LedgerEntry) -> Result<(), PutFailed>
        requires up { self.old.campaign.up ≡ true }
        requires advances { Advances self.old.campaign.entries (record { place = place; entry = entry }) }
        ensures made { OnOk result (self.new.campaign
            ≡ changed_ledger (record { place = place; entry = entry }) self.old.campaign) }
        ensures failed { OnErr result (self.new.campaign
            ≡ failed_change (record { place = place; entry = entry }) self.old.campaign) }
        ensures rose { OnErr result (Rose self.old.store.disk.faults self.new.store.disk.faults) }
        ensures faults { OnOk result (self.new.store.disk.faults ≡ self.old.store.disk.faults) }
        ensures layout { self.new.store.layout ≡ self.old.store.layout }
        ensures runs { Runs [] 6 self.old.store.disk self.new.store.disk }
        ensures fits { FitsLedger self.old → FitsLedger self.new }
        ensures sound { SoundLedger self.new.campaign }
    {
        match put_entry(&mut self.cells, place, &entry) {
            Ok(()) => {
                self.entries.set(usize::from(place), entry);
                Ok(())
            }
            Err(failed) => {
                self.pending = Some(PendingEntry { place, entry });
                self.up = false;
                Err(failed)
            }
        }
    }

    /// Issues the request that puts a new key into slot `id` of one unit (SHE specification, memory update). The key of
    /// slot `auth` authorises it, and it has the next counter of that unit and slot. The entry with this counter is put
    /// before the request is made. The UID is that of one unit: it isn't zero. Errors, in their order: `Down`,
    /// `BadPair`, `Full`, `Spent`, `Faulted`. After each of them but `Faulted` all is as before, and no call of the
    /// disk was made.
    pub fn issue(
        &mut self,
        uid: Uid,
        id: SlotId,
        auth: SlotId,
        flags: Flags,
        key: &Block,
        authkey: &Block,
    ) -> Result<(Counter28, Request), LedgerFault>
        requires { IsUnit uid }
        ensures step { LedgerStep self.old.campaign
            (LedgerCommand.Issue
            (record { uid = uid; id = id; auth = auth; flags = flags; key = key.now; authkey = authkey.now }))
            (issued_line result) self.new.campaign }
        ensures untouched { IfErr result (λ fault. fault ≢ LedgerFault.Faulted → self.new ≡ self.old) }
        ensures down { IsErrOf result LedgerFault.Down ↔ self.old.campaign.up ≡ false }
        ensures bad_pair { IsErrOf result LedgerFault.BadPair
            ↔ ((self.old.campaign.up ≡ true) × (is_pair id auth ≡ false)) }
        ensures full { IsErrOf result LedgerFault.Full
            ↔ ((self.old.campaign.up ≡ true) × (is_pair id auth ≡ true) × HasNoPlace self.old.campaign.entries uid id) }
        ensures spent { IsErrOf result LedgerFault.Spent
            ↔ ((self.old.campaign.up ≡ true) × (is_pair id auth ≡ true)
            × (last_issued uid id self.old.campaign.entries ≡ greatest_counter)) }
        ensures serves { ServedLedger self.old self.new result }
    {
        if !self.up {
            return Err(LedgerFault::Down);
        }
        if !may_authorise(id, auth) {
            return Err(LedgerFault::BadPair);
        }
        let (place, counter) = match self.entries.next(&uid, id) {
            Ok(next) => next,
            Err(fault) => return Err(fault),
        };
        let entry = LedgerEntry {
            uid,
            id,
            counter,
            confirmed: false,
        };
        match self.put(place, entry) {
            Ok(()) => {
                let update = Update {
                    uid,
                    id,
                    auth,
                    counter,
                    flags,
                    key: *key,
                };
                Ok((counter, build(&update, authkey)))
            }
            Err(_) => Err(LedgerFault::Faulted),
        }
    }

    /// Records that a unit's engine confirmed the update that was issued last for its slot `id`, and gives the update's
    /// counter (SHE specification, memory update). The update has this new key, and the key of slot `auth` authorised
    /// it. Errors, in their order: `Down`, `Unknown`, `AlreadyConfirmed`, `NotConfirmed`, `Faulted`. After each of them
    /// but `Faulted` all is as before, and no call of the disk was made.
    pub fn confirm(
        &mut self,
        uid: Uid,
        id: SlotId,
        auth: SlotId,
        key: &Block,
        reply: &Reply,
    ) -> Result<Counter28, LedgerFault>
        ensures step { LedgerStep self.old.campaign
            (LedgerCommand.Confirm (record { uid = uid; id = id; auth = auth; key = key.now; reply = reply.now }))
            (confirmed_line result) self.new.campaign }
        ensures untouched { IfErr result (λ fault. fault ≢ LedgerFault.Faulted → self.new ≡ self.old) }
        ensures down { IsErrOf result LedgerFault.Down ↔ self.old.campaign.up ≡ false }
        ensures unknown { IsErrOf result LedgerFault.Unknown
            ↔ ((self.old.campaign.up ≡ true) × (entry_for uid id self.old.campaign.entries ≡ None)) }
        ensures already { IsErrOf result LedgerFault.AlreadyConfirmed
            ↔ RefusesConfirm self.old.campaign
            (record { uid = uid; id = id; auth = auth; key = key.now; reply = reply.now })
            LedgerRefusal.AlreadyConfirmed }
        ensures not_confirmed { IsErrOf result LedgerFault.NotConfirmed
            ↔ RefusesConfirm self.old.campaign
            (record { uid = uid; id = id; auth = auth; key = key.now; reply = reply.now })
            LedgerRefusal.NotConfirmed }
        ensures serves { ServedLedger self.old self.new result }
    {
        if !self.up {
            return Err(LedgerFault::Down);
        }
        let Some((place, held)) = self.entries.find(&uid, id) else {
            return Err(LedgerFault::Unknown);
        };
        if held.confirmed {
            return Err(LedgerFault::AlreadyConfirmed);
        }
        let update = Update {
            uid,
            id,
            auth,
            counter: held.counter,
            flags: Flags::of(0),
            key: *key,
        };
        if !is_confirmed(reply, &update, uid) {
            return Err(LedgerFault::NotConfirmed);
        }
        let entry = LedgerEntry {
            confirmed: true,
            ..held
        };
        match self.put(place as u16, entry) {
            Ok(()) => Ok(held.counter),
            Err(_) => Err(LedgerFault::Faulted),
        }
    }

    /// Takes over an entry that is known from elsewhere: that an update with its counter was issued for its unit and
    /// slot, and whether it was confirmed. It is put if it says more than the ledger: a higher counter, or the same and
    /// it alone is confirmed. Otherwise nothing is done. Errors, in their order: `Down`, `Full`, `Faulted`. After each
    /// of them but `Faulted` all is as before, and no call of the disk was made.
    pub fn adopt(&mut self, entry: &LedgerEntry) -> Result<Adoption, LedgerFault>
        requires { IsEntry entry.now }
        ensures step { AdoptStep self.old.campaign entry.now result self.new.campaign }
        ensures untouched { IfErr result (λ fault. fault ≢ LedgerFault.Faulted → self.new ≡ self.old) }
        ensures unmoved { IfOk result (λ done. done ≢ Adoption.Raised → self.new ≡ self.old) }
        ensures down { IsErrOf result LedgerFault.Down ↔ self.old.campaign.up ≡ false }
        ensures full { IsErrOf result LedgerFault.Full
            ↔ ((self.old.campaign.up ≡ true) × HasNoPlace self.old.campaign.entries entry.now.uid entry.now.id) }
        ensures serves { ServedLedger self.old self.new result }
    {
        if !self.up {
            return Err(LedgerFault::Down);
        }
        let place = match self.entries.place_to_adopt(entry) {
            Ok(place) => place,
            Err(answer) => return answer,
        };
        match self.put(place, *entry) {
            Ok(()) => Ok(Adoption::Raised),
            Err(_) => Err(LedgerFault::Faulted),
        }
    }

    /// What stands at a place, 0 to 255, also while the ledger is down.
    #[tactic(auto, unfolding(crate::specs::Entries::place_count))]
    pub fn entry(&self, place: u16) -> Option<LedgerEntry>
        requires { place < place_count }
        ensures entry { result ≡ entry_at self.now.campaign.entries place }
        ensures sound { SoundLedger self.now.campaign }
    {
        self.entries.get(usize::from(place))
    }

    /// The counter that was issued last for a unit and slot, and whether it was confirmed, also while the ledger is
    /// down; `None` exactly if there is no entry.
    pub fn show(&self, uid: Uid, id: SlotId) -> Option<(Counter28, bool)>
        ensures { result ≡ option_map told_entry (entry_for uid id self.now.campaign.entries) }
    {
        let (_place, entry) = self.entries.find(&uid, id)?;
        Some((entry.counter, entry.confirmed))
    }

    /// Whether the ledger issues and confirms nothing until its power is cut: a call of its disk failed, or a power cut
    /// was refused, since it was last powered up. Whatever was called before and answered, the ledger is sound.
    pub fn is_down(&self) -> bool
        ensures down { result ≡ not self.now.campaign.up }
        ensures sound { SoundLedger self.now.campaign }
    {
        !self.up
    }

    /// Gives the cells back. Nothing is written.
    pub fn release(self) -> C
        ensures { C.state result ≡ self.store }
    {
        self.cells
    }
}

impl<C: CutCells> Ledger<C> {
    /// Cuts the power and powers up again, from a ledger that is up as from one that is down: the cells are read anew,
    /// so that the bytes of the disk stand for them. Errors: `Store` if the store isn't read, then `BadEntry`. The
    /// ledger is then down, and its entries and its pending change are as before. Over a disk that tells its bytes, and
    /// fits the ledger, only the disk itself can fail.
    pub fn power_cut(&mut self, torn: Torn) -> Result<(), LedgerCut>
        ensures step { TellsLedger self.old
            → LedgerStep self.old.campaign (LedgerCommand.Cut torn) (ledger_cut_line result) self.new.campaign }
        ensures up { OnOk result (LedgerComesUp self.old self.new) }
        ensures refused { IfErr result (LedgerStaysDown self.old self.new) }
        ensures disk { CutAndRead torn (68 + place_count) self.old.store.disk self.new.store.disk }
        ensures layout { self.new.store.layout ≡ self.old.store.layout }
        ensures fits { FitsLedger self.old → FitsLedger self.new }
        ensures sound { SoundLedger self.new.campaign }
    {
        self.up = false;
        if let Err(fault) = self.cells.power_cut(torn) {
            return Err(LedgerCut::Store(fault));
        }
        match read_places(&self.cells) {
            Ok(entries) => {
                self.entries = entries;
                self.pending = None;
                self.up = true;
                Ok(())
            }
            Err(bad) => Err(LedgerCut::BadEntry(bad)),
        }
    }

    /// Passes on to the disk: from the call of this number on, 1 for the next, each call of the disk fails until the
    /// power is cut.
    pub fn stop_at(&mut self, calls: u64)
        requires { 1 ≤ calls }
        ensures step { LedgerStep self.old.campaign (LedgerCommand.Stop calls) LedgerLine.Armed self.new.campaign }
        ensures rest { self.new ≡ record self.old { store = record self.old.store { disk = self.new.store.disk } } }
        ensures arms { ArmsStop calls self.old.store.disk self.new.store.disk }
        ensures fits { FitsLedger self.old → FitsLedger self.new }
        ensures sound { SoundLedger self.new.campaign }
    {
        self.cells.stop_at(calls);
    }

    /// Passes on to the disk: the call of this number, 1 for the next, fails.
    pub fn fail_at(&mut self, calls: u64)
        requires { 1 ≤ calls }
        ensures step { LedgerStep self.old.campaign (LedgerCommand.Fail calls) LedgerLine.Armed self.new.campaign }
        ensures rest { self.new ≡ record self.old { store = record self.old.store { disk = self.new.store.disk } } }
        ensures arms { ArmsFail calls self.old.store.disk self.new.store.disk }
        ensures fits { FitsLedger self.old → FitsLedger self.new }
        ensures sound { SoundLedger self.new.campaign }
    {
        self.cells.fail_at(calls);
    }
}
