//! The key derivation and the key update of SHE.
ghost use Rattle.std.specs.Prelude.{◌≡◌, ◌≢◌, ◌↔◌, IfNone, IfSome};
ghost use Rattle.she_kdf.specs.Derivation.{kdf};
ghost use Rattle.she_kdf.specs.declared.Constant.TheVariants.{Enc, Mac};
ghost use Rattle.memory_update.specs.Messages.{request_mac, Builds, Carries, Confirms, HasSlots};
ghost use Rattle.rathonsi_c.specs.Calls.{IsKey};
ghost use Rattle.rathonsi_c.specs.Updates.{IsSendable, IsConstant, as_update, as_request, as_reply};

use crate::keys::key_of;
use crate::{BAD_ID, BAD_LENGTH, BAD_MAC, BAD_VALUE, OK};
use basics::Block;
use key_slots::{Counter28, Flags, SlotId};
use memory_update::{Reply, Request, Uid, Unseal, Update, build, confirm_for, unseal};
use she_kdf::{Constant, derive};

/// A key update: what is to be put into slot `id`, authorised by the key of slot `auth`.
#[derive(Clone, Copy, PartialEq, Eq)]
#[repr(C)]
pub struct RathonsiUpdate {
    /// The identifier of the engine, or zero bytes for every engine.
    pub uid: [u8; 15],
    /// The slot that is updated, 0 to 13.
    pub id: u8,
    /// The slot whose key authorises the update, 0 to 13.
    pub auth: u8,
    /// The five flags, WRITE_PROTECTION 16, BOOT_PROTECTION 8, DEBUGGER_PROTECTION 4, KEY_USAGE 2, WILDCARD 1.
    pub flags: u8,
    /// The new counter, below 2^28.
    pub counter: u32,
    /// The new key.
    pub key: [u8; 16],
}

/// The messages M1, M2 and M3.
#[derive(Clone, Copy, Debug, PartialEq, Eq)]
#[repr(C)]
pub struct RathonsiRequest {
    /// UID, ID and AuthID, in the clear.
    pub m1: [u8; 16],
    /// Counter, flags, padding and new key, encrypted; for C these are 32 bytes.
    pub m2: [[u8; 16]; 2],
    /// The MAC of M1 and M2.
    pub m3: [u8; 16],
}

/// The messages M4 and M5.
#[derive(Clone, Copy, Debug, PartialEq, Eq)]
#[repr(C)]
pub struct RathonsiReply {
    /// UID, ID and AuthID, and the counter, encrypted; for C these are 32 bytes.
    pub m4: [[u8; 16]; 2],
    /// The MAC of M4.
    pub m5: [u8; 16],
}

/// Writes the key that is derived from a key of 16 bytes to `derived`, with KEY_UPDATE_ENC_C for 1 and KEY_UPDATE_MAC_C
/// for 2. Another length of the key is `BAD_LENGTH`, and else another constant `BAD_VALUE`.
#[unsafe(no_mangle)]
pub extern "C" fn rathonsi_she_derive(key: &[u8], constant: u32, derived: &mut [u8; 16]) -> i32
    ensures done { (result ≡ OK) ↔ (IsKey key.now × IsConstant constant) }
    ensures bad_length { (result ≡ BAD_LENGTH) ↔ ¬ IsKey key.now }
    ensures bad_value { (result ≡ BAD_VALUE) ↔ (IsKey key.now × ¬ IsConstant constant) }
    ensures to_encrypt { result ≡ OK → constant ≡ 1 → derived.new ≡ kdf key.now Enc }
    ensures to_authenticate { result ≡ OK → constant ≡ 2 → derived.new ≡ kdf key.now Mac }
    ensures unchanged { result ≢ OK → derived.new ≡ derived.old }
{
    let Some(key) = key_of(key) else {
        return BAD_LENGTH;
    };
    if constant == 1 {
        *derived = *derive(&key, Constant::Enc).bytes();
        OK
    } else if constant == 2 {
        *derived = *derive(&key, Constant::Mac).bytes();
        OK
    } else {
        BAD_VALUE
    }
}

/// Writes the request M1, M2, M3 that puts the update into an engine whose slot `auth` holds the authorising key, of 16
/// bytes. Another length of the key is `BAD_LENGTH`, and else a number of the update outside its range `BAD_VALUE`.
#[unsafe(no_mangle)]
pub extern "C" fn rathonsi_she_make_update(
    authkey: &[u8],
    update: &RathonsiUpdate,
    request: &mut RathonsiRequest,
) -> i32
    ensures done { (result ≡ OK) ↔ (IsKey authkey.now × IsSendable update.now) }
    ensures bad_length { (result ≡ BAD_LENGTH) ↔ ¬ IsKey authkey.now }
    ensures bad_value { (result ≡ BAD_VALUE) ↔ (IsKey authkey.now × ¬ IsSendable update.now) }
    ensures built { result ≡ OK → Builds (as_request request.new) authkey.now (as_update update.now) }
    ensures unchanged { result ≢ OK → request.new ≡ request.old }
{
    let Some(authkey) = key_of(authkey) else {
        return BAD_LENGTH;
    };
    let Some(update) = read_struct(update) else {
        return BAD_VALUE;
    };
    *request = request_struct(&build(&update, &authkey));
    OK
}

/// Reads the update that a request carries under the authorising key, of 16 bytes; its padding bits aren't examined.
/// Another length of the key is `BAD_LENGTH`; else an M1 that names no slots is `BAD_ID`, and else an M3 that differs
/// `BAD_MAC`.
#[unsafe(no_mangle)]
pub extern "C" fn rathonsi_she_read_update(
    authkey: &[u8],
    request: &RathonsiRequest,
    update: &mut RathonsiUpdate,
) -> i32
    ensures done { (result ≡ OK) ↔ (IsKey authkey.now × HasSlots request.now.m1
        × (request.now.m3 ≡ request_mac authkey.now request.now.m1 request.now.m2)) }
    ensures bad_length { (result ≡ BAD_LENGTH) ↔ ¬ IsKey authkey.now }
    ensures bad_id { (result ≡ BAD_ID) ↔ (IsKey authkey.now × ¬ HasSlots request.now.m1) }
    ensures bad_mac { (result ≡ BAD_MAC) ↔ (IsKey authkey.now × HasSlots request.now.m1
        × (request.now.m3 ≢ request_mac authkey.now request.now.m1 request.now.m2)) }
    ensures carried { result ≡ OK → Carries (as_request request.now) authkey.now (as_update update.new) }
    ensures sendable { result ≡ OK → IsSendable update.new }
    ensures unchanged { result ≢ OK → update.new ≡ update.old }
{
    let Some(authkey) = key_of(authkey) else {
        return BAD_LENGTH;
    };
    match unseal(&read_request(request), &authkey) {
        Ok(carried) => {
            *update = update_struct(&carried);
            OK
        }
        Err(Unseal::BadId) => BAD_ID,
        Err(Unseal::BadMac) => BAD_MAC,
    }
}

/// Writes the reply M4, M5 by which the engine with this identifier of 15 bytes confirms the update. A number of the
/// update outside its range is `BAD_VALUE`.
#[unsafe(no_mangle)]
pub extern "C" fn rathonsi_she_confirm(
    update: &RathonsiUpdate,
    uid: &[u8; 15],
    reply: &mut RathonsiReply,
) -> i32
    ensures done { (result ≡ OK) ↔ IsSendable update.now }
    ensures bad_value { (result ≡ BAD_VALUE) ↔ ¬ IsSendable update.now }
    ensures confirms { result ≡ OK → Confirms (as_reply reply.new) (as_update update.now) uid.now }
    ensures unchanged { result ≢ OK → reply.new ≡ reply.old }
{
    let Some(update) = read_struct(update) else {
        return BAD_VALUE;
    };
    *reply = reply_struct(&confirm_for(&update, Uid::of(*uid)));
    OK
}

// The update that the struct is; of numbers outside their ranges there is none.
fn read_struct(update: &RathonsiUpdate) -> Option<Update>
    ensures none { IfNone result (¬ IsSendable update.now) }
    ensures some { IfSome result (λ u. IsSendable update.now × (u ≡ as_update update.now)) }
{
    if update.flags >= 32 {
        return None;
    }
    Some(Update {
        uid: Uid::of(update.uid),
        id: SlotId::new(update.id)?,
        auth: SlotId::new(update.auth)?,
        counter: Counter28::new(update.counter)?,
        flags: Flags::of(update.flags),
        key: Block::of(update.key),
    })
}

// The struct of an update.
fn update_struct(update: &Update) -> RathonsiUpdate
    ensures value { as_update result ≡ update.now }
    ensures sendable { IsSendable result }
{
    RathonsiUpdate {
        uid: *update.uid.bytes(),
        id: update.id.number(),
        auth: update.auth.number(),
        flags: update.flags.number(),
        counter: update.counter.number(),
        key: *update.key.bytes(),
    }
}

// M1, M2 and M3 of the struct.
pub(crate) fn read_request(request: &RathonsiRequest) -> Request
    ensures { result ≡ as_request request.now }
{
    let [first, second] = request.m2;
    Request {
        m1: Block::of(request.m1),
        m2: [Block::of(first), Block::of(second)],
        m3: Block::of(request.m3),
    }
}

// The struct of M1, M2 and M3.
fn request_struct(request: &Request) -> RathonsiRequest
    ensures { as_request result ≡ request.now }
{
    let [first, second] = &request.m2;
    RathonsiRequest {
        m1: *request.m1.bytes(),
        m2: [*first.bytes(), *second.bytes()],
        m3: *request.m3.bytes(),
    }
}

// The struct of M4 and M5.
pub(crate) fn reply_struct(reply: &Reply) -> RathonsiReply
    ensures { as_reply result ≡ reply.now }
{
    let [first, second] = &reply.m4;
    RathonsiReply {
        m4: [*first.bytes(), *second.bytes()],
        m5: *reply.m5.bytes(),
    }
}
