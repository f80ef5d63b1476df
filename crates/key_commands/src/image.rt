//! Boot images.
ghost use Rattle.std.specs.Prelude.{◌≡◌, IfOk};
ghost use Rattle.secure_boot.specs.Booting.{IsImage};
ghost use Rattle.text_lines.specs.Forms.{hex_bytes_form};

use basics::Bytes;
use std::alloc::Global;
use std::marker::Model;
use text_lines::{Memory, forms};

/// A boot image, 1 to 65,536 bytes. Contracts see the list of its bytes.
#[derive(Debug, Drop)]
pub struct Image {
    bytes: Bytes,
}

impl Model for Image {
    ghost use Rattle.std.specs.Prelude.{List, ℕ};
    ghost use Rattle.secure_boot.specs.Booting.{IsImage};

    ghost Value = { List ℕ };

    ghost view = { λ i. i.bytes };

    ghost invariant = { λ i. IsImage i.bytes };
}

impl Image {
    /// The image that a word is: an even number of hexadecimal digits of either case, 2 to 131,072; none exactly if the
    /// word is of another form.
    pub fn of_word(alloc: Global, word: &[u8]) -> Result<Option<Image>, Memory>
        ensures { IfOk result (λ found. found ≡ hex_bytes_form 1 65536 word.now) }
    {
        match forms::hex_bytes(alloc, word, 1, 65_536) {
            Ok(Some(bytes)) => Ok(Some(Image { bytes })),
            Ok(None) => Ok(None),
            Err(memory) => Err(memory),
        }
    }

    /// The bytes of the image.
    pub fn bytes(&self) -> &[u8]
        ensures value { result.now ≡ self.now }
        ensures is_image { IsImage self.now }
    {
        self.bytes.bytes()
    }
}
