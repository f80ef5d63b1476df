//! The answer M4, M5 that confirms an update.
ghost use Rattle.std.specs.Prelude.{◌≡◌, ◌↔◌, IsTrue};
ghost use Rattle.memory_update.specs.Messages.{Confirms};

use crate::blocks::{counter_block, derived, head_block};
use crate::messages::{Reply, Uid, Update};
use she_aes::encrypt;
use she_cmac::cmac_of_parts;
use she_kdf::Constant;

/// M4 and M5, by which the engine with this identifier confirms the update.
pub fn confirm_for(update: &Update, uid: Uid) -> Reply
    ensures { Confirms result update.now uid }
{
    let head = head_block(&uid, update.id, update.auth);
    let counter = counter_block(update.counter);
    let m4 = [
        head,
        encrypt(&derived(&update.key, Constant::Enc), &counter),
    ];
    let [first, second] = &m4;
    let parts = [first.as_slice(), second.as_slice()];
    let m5 = cmac_of_parts(&derived(&update.key, Constant::Mac), &parts);
    Reply { m4, m5 }
}

/// Whether the reply is the one by which the engine with this identifier confirms the update.
pub fn is_confirmed(reply: &Reply, update: &Update, uid: Uid) -> bool
    ensures { IsTrue result ↔ Confirms reply.now update.now uid }
{
    *reply == confirm_for(update, uid)
}
