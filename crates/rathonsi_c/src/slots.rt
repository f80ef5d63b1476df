//! The key slots in the image of a store: loaded, and confirmed.
ghost use Rattle.std.specs.Prelude.{◌≡◌, ◌≢◌, length};
ghost use Rattle.store_plan.specs.Plans.{PlanFits};
ghost use Rattle.rathonsi_c.specs.Slots.{LoadAnswers, LoadsSlot, ConfirmAnswers, ConfirmsSlot};
ghost use Rattle.rathonsi_c.specs.Updates.{as_request, as_reply};

use crate::images::{slot_at, slots_named};
use crate::refusals::erc_status;
use crate::she::{RathonsiReply, RathonsiRequest, read_request, reply_struct};
use crate::{BAD_ID, BAD_VALUE, BUSY, DAMAGED, KEY_EMPTY, OK};
use basics::Block;
use key_slots::Slot;
use memory_update::{Uid, Update, confirm_for, head};
use she_engine::{allowed, slot_of};
use slot_disk::slot_bytes;
use store_plan::{Plan, is_empty, plan_put};

/// Plans the update that the request carries for the engine with this identifier; `booted` is 1 after a secure boot
/// that succeeded in this life, else 0. `BUSY`, `BAD_VALUE` (`booted` is neither), `DAMAGED` (the cell of a slot that
/// M1 names holds no slot), and of a load `KEY_INVALID`, `KEY_WRITE_PROTECTED`, `KEY_EMPTY`, `KEY_NOT_AVAILABLE`,
/// `KEY_UPDATE_ERROR`: the first that applies.
#[unsafe(no_mangle)]
pub extern "C" fn rathonsi_slot_load(
    uid: &[u8; 15],
    booted: u8,
    request: &RathonsiRequest,
    image: &[u8],
    plan: &mut Plan,
) -> i32
    ensures answer { LoadAnswers uid.now booted (as_request request.now) image.now plan.old result }
    ensures loads { result ≡ OK → LoadsSlot uid.now booted (as_request request.now) image.now plan.old plan.new }
    ensures fits { result ≡ OK → PlanFits (length image.now) plan.new }
    ensures unchanged { result ≢ OK → plan.new ≡ plan.old }
{
    if !is_empty(plan) {
        return BUSY;
    }
    if booted > 1 {
        return BAD_VALUE;
    }
    let Some(slots) = slots_named(image, &request.m1) else {
        return DAMAGED;
    };
    let update = match allowed(&slots, booted == 1, Uid::of(*uid), &read_request(request)) {
        Ok(update) => update,
        Err(refusal) => return erc_status(refusal),
    };
    match plan_put(
        image,
        u16::from(update.id.number()),
        &slot_bytes(&slot_of(&update)),
    ) {
        Ok(made) => {
            *plan = made;
            OK
        }
        Err(_) => DAMAGED,
    }
}

/// Writes the reply M4, M5 by which the engine with this identifier confirms what the slot that M1 names holds in the
/// image. So no reply tells of a key before its plan is done. `BAD_ID`: M1 names no slots. `DAMAGED`: the cell is no
/// slot's. `KEY_EMPTY`. The first that applies.
#[unsafe(no_mangle)]
pub extern "C" fn rathonsi_slot_confirm(
    uid: &[u8; 15],
    m1: &[u8; 16],
    image: &[u8],
    reply: &mut RathonsiReply,
) -> i32
    ensures answer { ConfirmAnswers m1.now image.now result }
    ensures confirms { result ≡ OK → ConfirmsSlot uid.now m1.now image.now (as_reply reply.new) }
    ensures unchanged { result ≢ OK → reply.new ≡ reply.old }
{
    let Some(head) = head(&Block::of(*m1)) else {
        return BAD_ID;
    };
    let Some(slot) = slot_at(image, head.id.number()) else {
        return DAMAGED;
    };
    let Slot::Filled {
        key,
        counter,
        flags,
    } = slot
    else {
        return KEY_EMPTY;
    };
    let update = Update {
        uid: head.uid,
        id: head.id,
        auth: head.auth,
        counter,
        flags,
        key,
    };
    *reply = reply_struct(&confirm_for(&update, Uid::of(*uid)));
    OK
}
