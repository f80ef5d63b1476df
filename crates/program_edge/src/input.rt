//! Whole inputs.
ghost use Rattle.std.specs.Prelude.{◌≡◌, ◌↔◌, ◌+◌, ◌<◌, IfOk, IfErr, IsErrOf, Some, List, ℕ, length};
ghost use Rattle.bus_port.specs.Fault.{last_count};
ghost use Rattle.bus_port.specs.Whole.{ReadsAll};
ghost use Rattle.program_edge.specs.Input.{input_limit, NoInput};

use bus_port::{ReadAll, Source, read_all};
use std::alloc::Global;

/// The most bytes that an input has.
const INPUT_LIMIT: usize = 1_048_576;

/// Why an input isn't there: the first that happened.
#[derive(Clone, Copy, Debug, PartialEq, Eq)]
pub enum InputFault {
    /// The source failed.
    ReadFault,
    /// One byte more than an input has came.
    TooLong,
    /// There was no memory.
    Memory,
}

impl InputFault {
    ghost use Rattle.program_edge.specs.Input.{input_fault_status, input_fault_text};

    /// The status of a program that ends by it: 5, 8 or 7.
    pub fn status(self) -> u8
        ensures { result ≡ input_fault_status self }
    {
        match self {
            InputFault::ReadFault => 5,
            InputFault::TooLong => 8,
            InputFault::Memory => 7,
        }
    }

    /// What is printed then: a line with its line feed, or nothing if memory is out.
    pub fn text(self) -> &'static str
        ensures { result.now ≡ input_fault_text self }
    {
        match self {
            InputFault::ReadFault => "read fault\n",
            InputFault::TooLong => "input too long\n",
            InputFault::Memory => "",
        }
    }
}

/// All bytes of a source up to its end, at most 1,048,576. It asks for one byte more at most, and what came
/// before a fault is gone from the source.
pub fn read_input<S: Source>(alloc: Global, source: &mut S) -> Result<Vec<u8>, InputFault>
    ensures ok { IfOk result (λ bytes. ReadsAll (S.state source.old) (S.state source.new) input_limit bytes.items) }
    ensures refused { IfErr result (NoInput (S.state source.old) (S.state source.new)) }

    // Exactly if one byte more came.
    ensures too_long { (S.state source.old).taken + input_limit < last_count
        → (IsErrOf result InputFault.TooLong
        ↔ ((S.state source.old).taken + input_limit < (S.state source.new).taken)) }
    ensures too_long_told { (left : List ℕ) → (S.state source.old).told ≡ Some left
        → IsErrOf result InputFault.TooLong → input_limit < length left }
{
    match read_all(alloc, source, INPUT_LIMIT) {
        Ok(bytes) => Ok(bytes),
        Err(ReadAll::Failed) => Err(InputFault::ReadFault),
        Err(ReadAll::TooLong) => Err(InputFault::TooLong),
        Err(ReadAll::Memory) => Err(InputFault::Memory),
    }
}
