//! A unit's key from a master key.
ghost use Rattle.std.specs.Prelude.{◌≡◌};
ghost use Rattle.basics.specs.Blocks.{IsBlock};
ghost use Rattle.unit_keys.specs.Derived.{unit_key};

use basics::Block;
use key_slots::SlotId;
use memory_update::Uid;
use she_aes::expand;
use she_cmac::cmac_of_parts;

// The counter of the only block, the label with the byte after it, and the length of the key in bits.
const COUNTER: [u8; 4] = [0, 0, 0, 1];

const LABEL: [u8; 18] = *b"Rathonsi unit key\0";

const LENGTH: [u8; 4] = [0, 0, 0, 128];

/// The key of a slot of the unit with this UID, 16 bytes: one block of SP 800-108's counter mode with CMAC-AES-128
/// under the master key. The label is `Rathonsi unit key`, the context the UID's 15 bytes and the slot's number.
#[tactic(auto, unfolding(crate::specs::Derived::unit_key, crate::specs::Derived::derivation_input))]
pub fn unit_key(master: &Block, uid: &Uid, slot: SlotId) -> Block
    ensures value { result ≡ unit_key master.now uid.now slot }
    ensures is_block { IsBlock result }
{
    let number = [slot.number()];
    cmac_of_parts(
        &expand(master),
        &[&COUNTER, &LABEL, uid.as_slice(), &number, &LENGTH],
    )
}
