//! The request M1, M2, M3: made, and read again.
ghost use Rattle.std.specs.Prelude.{◌≡◌, ◌≢◌, ◌↔◌, Some, Ok, Err, IsSome, IfSome, IfOk, All, length};
ghost use Rattle.basics.specs.Blocks.{IsBlock};
ghost use Rattle.memory_update.specs.Messages.{request_mac, update_in, Builds, Carries, HasSlots, HeadOf};
ghost use Rattle.memory_update.specs.declared.messages.Head.{Head};
ghost use Rattle.memory_update.specs.declared.messages.Update.{Update};
ghost use Rattle.memory_update.specs.declared.messages.Unseal.TheVariants.{BadId, BadMac};

use crate::blocks::{counter_in, derived, flags_in, head_block, plain_block, word_of};
use crate::messages::{Head, Request, Uid, Unseal, Update};
use key_slots::SlotId;
use she_aes::{Block, cbc_decrypt, cbc_encrypt};
use she_cmac::cmac_of_parts;
use she_kdf::Constant;

// M3: the MAC of M1 and M2 under the key that is derived from the authorising key.
fn mac_of_request(authkey: &Block, m1: &Block, m2: &[Block; 2]) -> Block
    ensures value { result ≡ request_mac authkey.now m1.now m2.now }
    ensures m1 { IsBlock m1.now }
    ensures m2 { All IsBlock m2.now × (length m2.now ≡ 2) }
    ensures key { IsBlock authkey.now }
{
    let [first, second] = m2;
    let parts = [m1.as_slice(), first.as_slice(), second.as_slice()];
    cmac_of_parts(&derived(authkey, Constant::Mac), &parts)
}

/// The request that puts the update into an engine whose slot `auth` holds the authorising key.
/// The 95 padding bits of M2 are zero.
pub fn build(update: &Update, authkey: &Block) -> Request
    ensures { Builds result authkey.now update.now }
{
    let m1 = head_block(&update.uid, update.id, update.auth);
    let plain = [plain_block(update.counter, update.flags), update.key];
    let m2 = cbc_encrypt(&derived(authkey, Constant::Enc), &Block::zero(), &plain);
    let m3 = mac_of_request(authkey, &m1, &m2);
    Request { m1, m2, m3 }
}

/// UID, ID and AuthID of an M1; `None` exactly if ID or AuthID is over 13.
pub fn head(m1: &Block) -> Option<Head>
    ensures found { IfSome result (HeadOf m1.now) }
    ensures some { IsSome result ↔ HasSlots m1.now }
    ensures only { (h : Head) → HeadOf m1.now h → result ≡ Some h }
{
    let m1 = m1.as_slice();
    let mut uid = [0; 15];
    uid.copy_from_slice(&m1[..15]);
    let uid = Uid::of(uid);
    let slots = m1[15];
    let id = SlotId::new(slots / 16)?;
    let auth = SlotId::new(slots % 16)?;
    Some(Head { uid, id, auth })
}

// The update in the request, whatever the padding bits.
fn opened(request: &Request, head: &Head, authkey: &Block) -> Update
    requires { HeadOf request.now.m1 head.now }
    ensures { result ≡ update_in authkey.now request.now }
{
    let key = derived(authkey, Constant::Enc);
    let [first, last] = cbc_decrypt(&key, &Block::zero(), &request.m2);
    let word = word_of(&first);
    Update {
        uid: head.uid,
        id: head.id,
        auth: head.auth,
        counter: counter_in(word),
        flags: flags_in(word),
        key: last,
    }
}

/// The update that the request carries under the authorising key. The padding bits of M2 aren't examined. `BadId` comes
/// exactly if `head` is `None`, and `BadMac` exactly if there is a head and M3 differs.
pub fn unseal(request: &Request, authkey: &Block) -> Result<Update, Unseal>
    ensures carried { IfOk result (Carries request.now authkey.now) }
    ensures only { (u : Update) → Carries request.now authkey.now u → result ≡ Ok u }
    ensures bad_id { (result ≡ Err BadId) ↔ (¬ HasSlots request.now.m1) }
    ensures bad_mac { (result ≡ Err BadMac)
        ↔ (HasSlots request.now.m1 × (request.now.m3 ≢ request_mac authkey.now request.now.m1 request.now.m2)) }
{
    let Some(head) = head(&request.m1) else {
        return Err(Unseal::BadId);
    };
    if request.m3 != mac_of_request(authkey, &request.m1, &request.m2) {
        return Err(Unseal::BadMac);
    }
    let update = opened(request, &head, authkey);
    Ok(update)
}
