//! CRC-64, with ECMA-182's polynomial.
ghost use Rattle.std.specs.Prelude.{◌≡◌};
ghost use Rattle.flash_lines.specs.Crc.{times_x, crc_step, crc64};

/// A remainder times x, with no branch on its bits.
#[tactic(auto, using(crate::proofs::CrcSteps::doubled))]
fn double(remainder: u64) -> u64
    ensures { result ≡ times_x remainder }
{
    (remainder << 1) ^ ((remainder >> 63) * 0x42f0_e1eb_a9ea_3693)
}

/// The remainder of a message that has this byte more.
#[tactic(auto, unfolding(crate::specs::Crc::crc_step))]
fn step(remainder: u64, byte: u8) -> u64
    ensures { result ≡ crc_step remainder byte }
{
    let mut after = remainder ^ ((byte as u64) << 56);
    for _ in 0..8u8 {
        after = double(after);
    }
    after
}

/// The CRC-64 of these bytes (ECMA-182's polynomial; it begins with ones, and its bits are inverted at the end).
#[tactic(auto, unfolding(crate::specs::Crc::crc64))]
pub fn crc64(bytes: &[u8]) -> u64
    ensures { result ≡ crc64 bytes.now }
{
    let mut remainder = u64::MAX;
    for byte in bytes {
        remainder = step(remainder, *byte);
    }
    remainder ^ u64::MAX
}
