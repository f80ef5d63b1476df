//! What is shown of a value, added to a text.
ghost use Rattle.std.specs.Prelude.{OnOk};
ghost use Rattle.std.specs.Fmt.{AppendsText};

use std::alloc::{AllocError, Global};
use std::fmt::Display;

/// Adds what is shown of this, as the arguments of a format.
pub(crate) fn push_shown<D: Display + Drop>(
    alloc: Global,
    text: &mut Vec<u8>,
    shown: D,
) -> Result<(), AllocError>
    ensures { OnOk result (AppendsText text.old.items text.new.items (D.output shown)) }
{
    let made = String::format(alloc, shown)?;
    text.extend_from_slice(made.as_bytes())
}
