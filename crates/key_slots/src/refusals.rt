//! The refusals of the key memory, and their printed names.
ghost use Rattle.std.specs.Prelude.{◌≡◌, Some};
ghost use Rattle.key_slots.specs.Names.{erc_name};

use std::error::Error;
use std::fmt;

/// Why the engine refuses a call: the error codes of the SHE specification that this project uses.
/// The specification's error numbers aren't used.
#[derive(Clone, Copy, Debug, PartialEq, Eq)]
pub enum Erc {
    /// The key is protected by the secure boot, and no successful boot was made since power-up.
    KeyNotAvailable,
    /// The slot doesn't serve this call, or the pair of slots isn't allowed.
    KeyInvalid,
    /// The slot holds no key.
    KeyEmpty,
    /// The slots of the secure boot aren't filled.
    NoSecureBoot,
    /// The slot takes no update.
    KeyWriteProtected,
    /// The request's MAC, identifier or counter is refused.
    KeyUpdateError,
    /// A boot was decided before in this life.
    SequenceError,
}

impl Erc {
    /// The name that is printed, in capitals with underscores.
    pub fn name(self) -> &'static str
        ensures { result.now ≡ erc_name self }
    {
        match self {
            Erc::KeyNotAvailable => "KEY_NOT_AVAILABLE",
            Erc::KeyInvalid => "KEY_INVALID",
            Erc::KeyEmpty => "KEY_EMPTY",
            Erc::NoSecureBoot => "NO_SECURE_BOOT",
            Erc::KeyWriteProtected => "KEY_WRITE_PROTECTED",
            Erc::KeyUpdateError => "KEY_UPDATE_ERROR",
            Erc::SequenceError => "SEQUENCE_ERROR",
        }
    }
}

impl fmt::Display for Erc {
    ghost output = { λ e. Some (erc_name e) };

    fn fmt<W: fmt::Write>(&self, f: &mut fmt::Formatter<W>) -> fmt::Result {
        f.write_str(self.name())
    }
}

impl Error for Erc {}
