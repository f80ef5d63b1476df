//! Which slot's key may authorise an update of which slot.
ghost use Rattle.std.specs.Prelude.{◌↔◌, IsTrue, Contains};
ghost use Rattle.key_slots.specs.Authority.{pairs};

use crate::numbers::SlotId;

/// Whether the key of slot `auth` may authorise an update of slot `id`. Nothing authorises one of SECRET_KEY;
/// MASTER_ECU_KEY authorises one of any other slot, BOOT_MAC_KEY one of BOOT_MAC, and each key but BOOT_MAC one of its
/// own slot.
pub fn may_authorise(id: SlotId, auth: SlotId) -> bool
    ensures { IsTrue result ↔ Contains pairs (id, auth) }
{
    let (target, authority) = (id.number(), auth.number());
    if target == 0 {
        return false;
    }
    if authority == 1 {
        return true;
    }
    if target == 3 {
        authority == 2
    } else {
        authority == target
    }
}
