//! What is asked: a call of a function instead of a macro, whose steps would be proved anew in each test.
ghost use Rattle.std.specs.Prelude.{IsTrue};

use std::fmt::Display;
use std::process::Abort;

/// This holds; `what` tells what was asked, if it doesn't.
pub(crate) fn holds<W: Display + Copy>(rt: &impl Abort, what: W, it: bool)
    ensures { IsTrue it }
{
    assert!(rt; it, "{what}");
}
