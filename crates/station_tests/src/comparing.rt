//! What is compared: a call of a function instead of a macro, whose steps would be proved anew in each test.
use std::fmt::{Debug, Display};
use std::process::Abort;

/// Two values are the same; `what` tells which, if they aren't.
pub(crate) fn same<W: Display + Copy, T: PartialEq + Debug>(
    rt: &impl Abort,
    what: W,
    left: &T,
    right: &T,
) {
    assert_eq!(rt; *left, *right, "{what}");
}
