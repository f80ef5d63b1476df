//! The printed texts of faults.

ghost use Rattle.std.specs.Prelude.{◌≡◌, IfOk};
ghost use Rattle.std.specs.String.{string_bytes};
ghost use Rattle.text_lines.specs.Texts.{fault_text_of};

use crate::fault::{Cause, Memory};
use std::alloc::Global;

/// The text of a fault of the line with this number, with the line feed after it.
pub fn fault_text(alloc: Global, line: u32, cause: &Cause) -> Result<String, Memory>
    ensures { IfOk result (λ text. string_bytes text ≡ fault_text_of (record { line = line; cause = cause.now })) }
{
    match cause {
        Cause::Event => Ok(format!(in alloc; "script: line {line}: unknown event\n")?),
        Cause::Count => Ok(format!(in alloc; "script: line {line}: wrong number of words\n")?),
        Cause::Field(number) => Ok(format!(in alloc; "script: line {line}: word {number}\n")?),
        Cause::TooMany => Ok(format!(in alloc; "script: line {line}: too many events\n")?),
    }
}
