//! The image with which a node boots before the log.
ghost use Rattle.std.specs.Prelude.{◌↔◌, IsTrue};
ghost use Rattle.secoc_node.specs.Words.{IsImage};
ghost use Rattle.endpoint_commands.specs.Steps.{FindsImage};

use basics::Bytes;
use bus_port::Source;
use program_edge::{Refusal, read_input};
use std::alloc::Global;

/// The most bytes of an image.
const MOST_IMAGE: usize = 65_536;

/// Whether a node boots with these bytes.
fn is_image(bytes: &[u8]) -> bool
    ensures { IsTrue result ↔ IsImage bytes.now }
{
    !bytes.is_empty() && bytes.len() <= MOST_IMAGE
}

/// The image that a source gives, 1 to 65,536 bytes, if one is asked for; or the refusal of the source or of its
/// length.
pub fn image_from<S: Source>(
    alloc: Global,
    is_asked: bool,
    image: &mut S,
) -> Result<Option<Bytes>, Refusal>
    ensures { FindsImage is_asked (record { before = S.state image.old; after = S.state image.new }) result }
{
    if !is_asked {
        return Ok(None);
    }
    let bytes = read_input(alloc, image)?;
    if !is_image(bytes.as_slice()) {
        return Err(Refusal::fixed(3, "image: length\n"));
    }
    Ok(Some(Bytes::of(bytes)))
}
