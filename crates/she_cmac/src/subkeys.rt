// The subkeys (SP 800-38B, section 6.1).
ghost use Rattle.std.specs.Prelude.{◌≡◌};
ghost use Rattle.basics.specs.Numbers.{bytes_of};
ghost use Rattle.she_cmac.specs.Cmac.{dbl, encrypted_zero, first_subkey, second_subkey};

use she_aes::{Block, Schedule, encrypt};

// The number shifted left by one bit and reduced to 128 bits, with no branch on its bits.
#[tactic(auto, using(crate::proofs::Doubling::doubled))]
fn double(number: u128) -> u128
    ensures { result ≡ dbl number }
{
    (number << 1) ^ ((number >> 127) * 0x87)
}

// The subkey K1, for a last block that is complete.
pub(crate) fn first_subkey(schedule: &Schedule) -> Block
    ensures { result ≡ first_subkey schedule.now }
{
    block_of(double(encrypted_zero(schedule)))
}

// The subkey K2, for a last block that is padded.
pub(crate) fn second_subkey(schedule: &Schedule) -> Block
    ensures { result ≡ second_subkey schedule.now }
{
    block_of(double(double(encrypted_zero(schedule))))
}

// The encrypted zero block, as a big-endian number.
fn encrypted_zero(schedule: &Schedule) -> u128
    ensures { result ≡ encrypted_zero schedule.now }
{
    u128::from_be_bytes(*encrypt(schedule, &Block::zero()).bytes())
}

// The block whose big-endian number this is.
fn block_of(number: u128) -> Block
    ensures { result ≡ bytes_of 16 number }
{
    Block::of(number.to_be_bytes())
}
