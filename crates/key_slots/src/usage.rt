//! When the key of a slot may be used.
ghost use Rattle.std.specs.Prelude.{◌≡◌, ℕ, ◌≤◌, List};
ghost use Rattle.std.specs.Result.{result_err};
ghost use Rattle.key_slots.specs.declared.memory.Slot.{Slot};
ghost use Rattle.key_slots.specs.Slots.{slot_at};
ghost use Rattle.key_slots.specs.Usage.{slot_refusals, first_applying, usable as use_refusal};

use crate::memory::Slot;
use crate::refusals::Erc;

/// What a key is to be used for.
#[derive(Clone, Copy, Debug, PartialEq, Eq)]
pub enum Purpose {
    /// To make or check a MAC.
    Mac,
    /// To encrypt or decrypt.
    Cipher,
}

// The refusals in their order, each after the test for which it applies.
macro_rules! refuse_first {
    ($($applies:expr => $refusal:expr),+ $(,)?) => {{
        $(if $applies {
            return Err($refusal);
        })+
        Ok(())
    }};
}

/// Whether the slot's key may be used: `booted` says that a successful secure boot was made since
/// power-up. Serves the slots from 4 on; that the others serve no such call is the caller's test.
pub fn usable(slot: &Slot, booted: bool, purpose: Purpose) -> Result<(), Erc>
    ensures first { result_err result ≡ first_applying (slot_refusals slot.now booted purpose) }
    ensures at_a_slot { (slots : List Slot) (s : ℕ) → 4 ≤ s → slot_at slots s ≡ slot.now
        → result_err result ≡ use_refusal slots s booted purpose }
{
    let Slot::Filled { flags, .. } = slot else {
        return Err(Erc::KeyEmpty);
    };
    refuse_first! {
        flags.usage != (purpose == Purpose::Mac) => Erc::KeyInvalid,
        flags.boot && !booted => Erc::KeyNotAvailable,
    }
}
