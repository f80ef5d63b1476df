//! Laws of the messages and of loading: each function has an empty body, and its contract is the law.
ghost use Rattle.std.specs.Prelude.{◌≡◌, ◌≢◌, ◌<◌, ℕ, Bool, List, replicate, Result, Ok, None};
ghost use Rattle.basics.specs.Blocks.{IsBlock};
ghost use Rattle.key_slots.specs.declared.memory.Slot.{Slot};
ghost use Rattle.key_slots.specs.declared.refusals.Erc.{Erc};
ghost use Rattle.key_slots.specs.Slots.{slot_at, counter_of, IsSlots};
ghost use Rattle.key_slots.specs.Usage.{first_applying};
ghost use Rattle.memory_update.specs.Loading.{key_in, head_refusals, Allows};
ghost use Rattle.memory_update.specs.Messages.{request_mac, update_in, id_of, Builds, Carries, Confirms, HasSlots, IsRequest, IsUid, IsUpdate, SameConfirmed};
ghost use Rattle.memory_update.specs.declared.messages.Reply.{Reply};
ghost use Rattle.memory_update.specs.declared.messages.Request.{Request};
ghost use Rattle.memory_update.specs.declared.messages.Update.{Update};

/// A request carries at most one update under one authorising key, whatever its padding.
pub fn a_carried_update_is_one()
    ensures { (request : Request) (authkey : List ℕ) (u v : Update) → IsBlock authkey
        → Carries request authkey u → Carries request authkey v → u ≡ v }
{}

/// A request whose ID and AuthID are at most 13 and whose M3 is right carries one update: the one in its M1 and M2.
pub fn a_whole_request_carries_its_update()
    ensures carried { (request : Request) (authkey : List ℕ) → IsBlock authkey → IsRequest request → HasSlots request.m1
        → request.m3 ≡ request_mac authkey request.m1 request.m2 → Carries request authkey (update_in authkey request) }
    ensures only { (request : Request) (authkey : List ℕ) (u : Update) → IsBlock authkey → Carries request authkey u
        → update_in authkey request ≡ u }
{}

/// A request that is built carries its update, names slots, and has the right M3; and one request is built for an
/// update.
pub fn a_built_request_carries_its_update()
    ensures carried { (request : Request) (authkey : List ℕ) (u : Update) → Builds request authkey u
        → Carries request authkey u }
    ensures slots { (request : Request) (authkey : List ℕ) (u : Update) → Builds request authkey u
        → HasSlots request.m1 }
    ensures mac { (request : Request) (authkey : List ℕ) (u : Update) → Builds request authkey u
        → request.m3 ≡ request_mac authkey request.m1 request.m2 }
    ensures one { (request other : Request) (authkey : List ℕ) (u : Update) → Builds request authkey u
        → Builds other authkey u
        → request ≡ other }
{}

/// One reply confirms an update to an engine.
pub fn one_reply_confirms_an_update()
    ensures { (reply other : Reply) (u : Update) (uid : List ℕ) → Confirms reply u uid → Confirms other u uid
        → reply ≡ other }
{}

/// A reply confirms at most one update of a unit: it tells the unit's UID, the slots, and under one key the counter.
pub fn a_reply_confirms_one_update()
    ensures { (reply : Reply) (u v : Update) (uid other : List ℕ) → IsUpdate u → IsUpdate v → IsUid uid → IsUid other
        → Confirms reply u uid → Confirms reply v other → SameConfirmed uid other u v }
{}

/// A reply has nothing of the update's flags, nor of its UID: in it stands the engine's own.
pub fn a_reply_has_no_flags()
    ensures { (reply : Reply) (u v : Update) (uid : List ℕ) → u.id ≡ v.id → u.auth ≡ v.auth → u.counter ≡ v.counter
        → u.key ≡ v.key → Confirms reply u uid → Confirms reply v uid }
{}

/// At most one answer to a request holds, and one does.
pub fn one_answer_to_a_load()
    ensures one { (slots : List Slot) (good : Bool) (uid : List ℕ) (request : Request)
        (answer other : Result Update Erc)
        → IsSlots slots → Allows slots good uid request answer → Allows slots good uid request other → answer ≡ other }
    ensures some { (slots : List Slot) (good : Bool) (uid : List ℕ) (request : Request) → IsSlots slots
        → IsRequest request
        → (answer : Result Update Erc) × Allows slots good uid request answer }
{}

/// An update that is taken is for the target that M1 names, and its counter is greater than the target's.
pub fn a_taken_update_raises_the_counter()
    ensures target { (slots : List Slot) (good : Bool) (uid : List ℕ) (request : Request) (u : Update)
        → Allows slots good uid request (Ok u) → id_of request.m1 ≡ u.id }
    ensures counter { (slots : List Slot) (good : Bool) (uid : List ℕ) (request : Request) (u : Update) → IsSlots slots
        → Allows slots good uid request (Ok u) → counter_of (slot_at slots u.id) < u.counter }
{}

/// An engine whose UID isn't zero takes a request that is built for it on three conditions: the first four refusals
/// don't apply, the authorising slot has the given key, and the target's counter is lower.
pub fn a_built_request_is_taken()
    ensures { (slots : List Slot) (good : Bool) (uid : List ℕ) (request : Request) (authkey : List ℕ) (u : Update)
        → IsBlock authkey → Builds request authkey u → key_in (slot_at slots u.auth) ≡ authkey
        → first_applying (head_refusals slots good u.id u.auth) ≡ None → u.uid ≡ uid → uid ≢ replicate 15 0
        → counter_of (slot_at slots u.id) < u.counter → Allows slots good uid request (Ok u) }
{}
