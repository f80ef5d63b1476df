//! Which update an engine takes (SHE specification, memory update protocol).
ghost use Rattle.std.specs.Prelude.{◌≡◌, ◌==◌, ◌&&◌, not, nat_lt};
ghost use Rattle.std.specs.Result.{result_err};
ghost use Rattle.key_slots.specs.Authority.{is_pair};
ghost use Rattle.key_slots.specs.Slots.{IsSlots, slot_at, counter_of, flags_of, is_empty};
ghost use Rattle.key_slots.specs.Usage.{first_applying};
ghost use Rattle.memory_update.specs.Loading.{Allows, head_refusals, is_meant, key_in, slot_of};

use basics::Block;
use key_slots::{Erc, Flags, Slot, SlotId, Slots, may_authorise};
use memory_update::{Request, Uid, Update, head, unseal};

// The refusals in their order, each after the test for which it applies.
macro_rules! refuse_first {
    ($($applies:expr => $refusal:expr),+ $(,)?) => {{
        $(if $applies {
            return Err($refusal);
        })+
        Ok(())
    }};
}

/// What a slot holds after an update.
pub fn slot_of(update: &Update) -> Slot
    ensures { result ≡ slot_of update.now }
{
    Slot::Filled {
        key: update.key,
        counter: update.counter,
        flags: update.flags,
    }
}

// The flags of a slot; an empty slot has none set.
fn flags_of(slot: &Slot) -> Flags
    ensures { result ≡ flags_of slot.now }
{
    match slot {
        Slot::Empty => Flags::of(0),
        Slot::Filled { flags, .. } => *flags,
    }
}

// The counter of a slot; an empty slot's is 0.
fn counter_of(slot: &Slot) -> u32
    ensures { result ≡ counter_of slot.now }
{
    match slot {
        Slot::Empty => 0,
        Slot::Filled { counter, .. } => counter.number(),
    }
}

// The key of a slot; of an empty one, which only its own update asks for, sixteen bytes ff.
fn key_in(slot: &Slot) -> Block
    ensures { result ≡ key_in slot.now }
{
    match slot {
        Slot::Empty => Block::of([0xff; 16]),
        Slot::Filled { key, .. } => *key,
    }
}

// The slot of this number.
pub fn slot_at(slots: &Slots, id: SlotId) -> &Slot
    ensures value { result.now ≡ slot_at slots.now id }
    ensures whole { IsSlots slots.now }
{
    slots.get(id)
}

fn is_no_pair(id: SlotId, auth: SlotId) -> bool
    ensures { result ≡ not (is_pair id auth) }
{
    !may_authorise(id, auth)
}

// Whether the authorising slot is empty and isn't the target.
fn is_empty_other(authority: &Slot, id: SlotId, auth: SlotId) -> bool
    ensures { result ≡ (is_empty authority.now && not (id == auth)) }
{
    match authority {
        Slot::Empty => id.number() != auth.number(),
        Slot::Filled { .. } => false,
    }
}

// Whether the slot's key is there only after a successful boot, and none was made.
fn is_held_back(slot: &Slot, good: bool) -> bool
    ensures { result ≡ ((flags_of slot.now).boot && not good) }
{
    flags_of(slot).boot && !good
}

// The refusals by ID and AuthID alone; `good` says that a successful boot was made in this life.
fn head_refusal(slots: &Slots, good: bool, id: SlotId, auth: SlotId) -> Result<(), Erc>
    ensures { result_err result ≡ first_applying (head_refusals slots.now good id auth) }
{
    refuse_first! {
        is_no_pair(id, auth) => Erc::KeyInvalid,
        flags_of(slot_at(slots, id)).write => Erc::KeyWriteProtected,
        is_empty_other(slot_at(slots, auth), id, auth) => Erc::KeyEmpty,
        is_held_back(slot_at(slots, auth), good) => Erc::KeyNotAvailable,
    }
}

// Whether the update is for the engine with this identifier, or for every engine if the target lets it, and raises the
// counter.
fn is_fit(uid: Uid, target: &Slot, update: &Update) -> bool
    ensures { result ≡ (is_meant uid target.now update.now.uid
        && nat_lt (counter_of target.now) update.now.counter) }
{
    let for_all = update.uid.is_zero();
    let meant = (update.uid == uid || for_all) && !(for_all && flags_of(target).wildcard);
    meant && counter_of(target) < update.counter.number()
}

/// The update that the engine with this identifier takes, or the first refusal that applies; `good` says that a
/// successful boot was made in this life.
pub fn allowed(slots: &Slots, good: bool, uid: Uid, request: &Request) -> Result<Update, Erc>
    ensures { Allows slots.now good uid request.now result }
{
    let Some(head) = head(&request.m1) else {
        return Err(Erc::KeyInvalid);
    };
    if let Err(refusal) = head_refusal(slots, good, head.id, head.auth) {
        return Err(refusal);
    }
    let update = match unseal(request, &key_in(slot_at(slots, head.auth))) {
        Ok(update) => update,
        Err(_) => return Err(Erc::KeyUpdateError),
    };
    if is_fit(uid, slot_at(slots, head.id), &update) {
        Ok(update)
    } else {
        Err(Erc::KeyUpdateError)
    }
}
