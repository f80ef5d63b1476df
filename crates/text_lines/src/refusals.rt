//! The rows of lines that are refused: 4, and the text that names the line and the cause of its fault,
//! exactly.
ghost use Rattle.text_lines.specs.LineRows.{IsRowOf};

use crate::texts::fault_text;
use crate::{Memory, ScriptFault};
use program_edge::Refusal;
use std::alloc::Global;

/// The refusal of a line, with the text that names it, or out of memory for the text.
pub fn line_refusal(alloc: Global, fault: ScriptFault) -> Refusal
    ensures { IsRowOf fault result }
{
    match fault {
        ScriptFault::At { line, cause } => match fault_text(alloc, line, &cause) {
            Ok(text) => Refusal::made(4, text),
            Err(Memory) => Refusal::no_memory(),
        },
        ScriptFault::Memory => Refusal::no_memory(),
    }
}
