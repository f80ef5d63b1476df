//! The check value of a key.

ghost use Rattle.std.specs.Prelude.{◌≡◌};
ghost use Rattle.ledger_rows.specs.Check.{key_check};

use basics::Block;
use she_aes::expand;
use she_cmac::cmac;

/// The check value of a key: the first three bytes of the CMAC of `key check` under it. It tells two keys apart but for
/// one pair in 2^24. The text has 9 bytes, and what the MAC of a PDU covers has 11 or more. So it is no authenticator of
/// a PDU.
#[tactic(auto, unfolding(crate::specs::Check::key_check))]
pub fn check_value(key: &Block) -> [u8; 3]
    ensures { result ≡ key_check key.now }
{
    let tag = cmac(&expand(key), b"key check".as_slice());
    let mut check = [0; 3];
    check.copy_from_slice(&tag.as_slice()[..3]);
    check
}
