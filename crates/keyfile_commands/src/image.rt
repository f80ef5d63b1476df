//! The image of a boot MAC.
ghost use Rattle.std.specs.Prelude.{◌≡◌, ◌≤◌, length};
ghost use Rattle.secure_boot.specs.Booting.{bootmac};
ghost use Rattle.keyfile_commands.specs.Rows.{image_limit};
ghost use Rattle.keyfile_commands.specs.Steps.{TakesBootImage};

use basics::Block;
use bus_port::{ReadAll, Source, read_all};
use program_edge::{InputFault, Refusal};
use she_aes::expand;
use she_cmac::cmac_of_parts;
use std::alloc::Global;

/// The most bytes of an image.
const IMAGE_LIMIT: usize = 16_777_216;

/// The image of this source, 1 to 16,777,216 bytes, read in pieces. Refusals: 5, 8 and 7 of an input, 3 if it is empty.
pub fn boot_image_from<S: Source>(alloc: Global, image: &mut S) -> Result<Vec<u8>, Refusal>
    ensures { TakesBootImage (record { before = S.state image.old; after = S.state image.new }) result }
{
    match read_all(alloc, image, IMAGE_LIMIT) {
        Ok(bytes) => {
            if bytes.is_empty() {
                return Err(Refusal::fixed(3, "image: length\n"));
            }
            Ok(bytes)
        }
        Err(ReadAll::Failed) => Err(Refusal::from(InputFault::ReadFault)),
        Err(ReadAll::TooLong) => Err(Refusal::from(InputFault::TooLong)),
        Err(ReadAll::Memory) => Err(Refusal::no_memory()),
    }
}

/// The boot MAC of an image under this key (SHE specification, secure booting): the CMAC of 12 zero bytes, the image's
/// length in bits as four bytes, high byte first, and the image.
pub fn image_mac(key: &Block, image: &[u8]) -> Block
    requires { length image.now ≤ image_limit }
    ensures { result ≡ bootmac key.now image.now }
{
    let bits = (8 * image.len() as u32).to_be_bytes();
    cmac_of_parts(&expand(key), &[&[0; 12], &bits, image])
}
