//! The printed text of flags.

ghost use Rattle.std.specs.Prelude.{◌≡◌, IfOk};
ghost use Rattle.std.specs.String.{string_bytes};
ghost use Rattle.secoc_words.specs.Written.{flags_text as flags_digits};

use key_slots::Flags;
use std::alloc::{AllocError, Global};

/// The flags of a slot as five digits 0 or 1, in the order WRITE_PROTECTION, BOOT_PROTECTION, DEBUGGER_PROTECTION,
/// KEY_USAGE, WILDCARD (SHE specification, message M2).
pub fn flags_text(alloc: Global, flags: Flags) -> Result<String, AllocError>
    ensures { IfOk result (λ text. string_bytes text ≡ flags_digits flags) }
{
    let write = u8::from(flags.write);
    let boot = u8::from(flags.boot);
    let debugger = u8::from(flags.debugger);
    let usage = u8::from(flags.usage);
    let wildcard = u8::from(flags.wildcard);
    format!(in alloc; "{write}{boot}{debugger}{usage}{wildcard}")
}
