//! What is printed of a map that isn't taken, on one line.
ghost use Rattle.std.specs.Prelude.{◌≡◌, IfOk, string_bytes};
ghost use Rattle.can_logs.specs.MapFaults.{map_word_form, map_fault_text, IsMapRowOf, map_input_row};

use program_edge::{InputFault, Refusal};
use std::alloc::Global;
use text_lines::{Cause, Memory, ScriptFault};

/// The words of a line, without its comment.
const LINE_FORM: &str =
    "CANID ID KEY FRESH LEN [WINDOW [CHANNEL]] [optional] [every=SECONDS] [silent=SECONDS] [name=NAME]";

/// The form that the word of a line with this number hasn't.
fn word_form(number: u8) -> &'static str
    ensures { result.now ≡ map_word_form number }
{
    match number {
        1 => "a CAN identifier, 3 or 8 hexadecimal digits, whose frames no earlier line hears",
        2 => "a Data ID of 4 hexadecimal digits",
        3 => "a key of 32 hexadecimal digits",
        4 => "a freshness of 16 hexadecimal digits",
        5 => "a length of 1 to 60",
        6 =>
            "a window of 1 to 256, every= or silent= and seconds, or name= and 1 to 32 letters, digits, -, . or _",
        _ =>
            "optional, every= or silent= and seconds, or name= and 1 to 32 letters, digits, -, . or _, each once",
    }
}

/// The line for a fault of the map's line with this number.
fn fault_line(alloc: Global, line: u32, cause: &Cause) -> Result<String, Memory>
    ensures { IfOk result (λ text. string_bytes text ≡ map_fault_text (record { line = line; cause = cause.now })) }
{
    match cause {
        Cause::Event => Ok(format!(in alloc; "map: line {line}: no line of a map\n")?),
        Cause::Count => {
            let form = LINE_FORM;
            Ok(format!(in alloc; "map: line {line}: wrong number of words: {form}\n")?)
        }
        Cause::Field(number) => {
            let form = word_form(*number);
            Ok(format!(in alloc; "map: line {line}: word {number}: {form}\n")?)
        }
        Cause::TooMany => Ok(format!(in alloc; "map: line {line}: more than 256 lines\n")?),
    }
}

/// The refusal of a map by its first line that is none, or out of memory for its text.
pub fn map_line_refusal(alloc: Global, fault: ScriptFault) -> Refusal
    ensures { IsMapRowOf fault result }
{
    match fault {
        ScriptFault::At { line, cause } => match fault_line(alloc, line, &cause) {
            Ok(text) => Refusal::made(4, text),
            Err(Memory) => Refusal::no_memory(),
        },
        ScriptFault::Memory => Refusal::no_memory(),
    }
}

/// The refusal if the source of the map gives none.
pub fn map_input_refusal(fault: InputFault) -> Refusal
    ensures { result ≡ map_input_row fault }
{
    match fault {
        InputFault::ReadFault => Refusal::fixed(5, "map: read fault\n"),
        InputFault::TooLong => Refusal::fixed(8, "map: input too long\n"),
        InputFault::Memory => Refusal::no_memory(),
    }
}
