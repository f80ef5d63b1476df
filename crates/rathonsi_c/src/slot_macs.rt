//! The CMAC of a message under the key of a slot, for a driver of MACs under another module.
ghost use Rattle.std.specs.Prelude.{◌≡◌, ◌≢◌, ◌==◌};
ghost use Rattle.rathonsi_c.specs.SlotMacs.{SlotMacAnswers, IsSlotMac};

use crate::route::key_of;
use crate::{BAD_VALUE, OK};
use she_aes::expand;
use she_cmac::cmac;

/// Writes the CMAC of a message of any length under the key of a slot, 4 to 13, all 16 bytes (SP 800-38B, section 6.2).
/// Answers in this order: `BAD_VALUE` (it is no such slot, or `booted` isn't 0 or 1), `DAMAGED`, `KEY_EMPTY`,
/// `KEY_INVALID`, `KEY_NOT_AVAILABLE`.
#[unsafe(no_mangle)]
pub extern "C" fn rathonsi_slot_mac(
    slot: u8,
    booted: u8,
    image: &[u8],
    message: &[u8],
    mac: &mut [u8; 16],
) -> i32
    ensures answer { SlotMacAnswers slot booted image.now result }
    ensures value { result ≡ OK → IsSlotMac slot booted image.now message.now mac.new }
    ensures unchanged { result ≢ OK → mac.new ≡ mac.old }
{
    if slot < 4 || slot > 13 || booted > 1 {
        return BAD_VALUE;
    }
    match key_of(image, slot, booted == 1) {
        Ok(key) => {
            *mac = *cmac(&expand(&key), message).bytes();
            OK
        }
        Err(refusal) => refusal.status(),
    }
}
