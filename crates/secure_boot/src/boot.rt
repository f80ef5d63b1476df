//! The boot MAC and the decision (SHE specification, secure booting).
ghost use Rattle.std.specs.Prelude.{◌≡◌, ◌≤◌, length};
ghost use Rattle.basics.specs.Blocks.{IsBlock};
ghost use Rattle.secure_boot.specs.Booting.{bootmac, Boots, IsImage};

use key_slots::{Erc, Slot, SlotId, Slots};
use she_aes::{Block, Schedule, expand};
use she_cmac::cmac_of_parts;

/// The boot MAC of an image of 1 to 65,536 bytes under the boot MAC key of the schedule: the CMAC of 12 zero
/// bytes, the image's length in bits as four bytes, high byte first, and the image.
pub fn boot_mac(schedule: &Schedule, image: &[u8]) -> Block
    requires { IsImage image.now }
    ensures value { result ≡ bootmac schedule.now image.now }
    ensures is_block { IsBlock result }
{
    let bits = (8 * image.len() as u32).to_be_bytes();
    cmac_of_parts(schedule, &[&[0; 12], &bits, image])
}

/// What a boot with this image, of 1 to 65,536 bytes, comes to: whether slot 3, BOOT_MAC, holds the image's boot MAC
/// under the key of slot 2, BOOT_MAC_KEY. `NoSecureBoot` if one of the two is empty.
pub fn decide(slots: &Slots, image: &[u8]) -> Result<bool, Erc>
    requires { IsImage image.now }
    ensures { Boots slots.now image.now result }
{
    let boot_mac_key = slots.get(SlotId::new(2).unwrap());
    let stored = slots.get(SlotId::new(3).unwrap());
    let (Slot::Filled { key, .. }, Slot::Filled { key: mac, .. }) = (boot_mac_key, stored) else {
        return Err(Erc::NoSecureBoot);
    };
    Ok(*mac == boot_mac(&expand(key), image))
}
