//! Why lines of text are refused.

ghost use Rattle.text_lines.specs.declared.fault.LineFault.TheVariants.{Refused, OutOfMemory};
ghost use Rattle.text_lines.specs.declared.fault.ScriptFault.TheVariants.{Memory as NoMemory};
ghost use Rattle.std.specs.Prelude.{◌≡◌};

use std::alloc::{AllocError, AllocFailed};
use thiserror::Error;

/// There was no memory.
#[derive(Clone, Copy, Debug, PartialEq, Eq)]
pub struct Memory;

impl From<AllocError> for Memory {
    fn from(_error: AllocError) -> Memory {
        Memory
    }
}

impl<T: Drop> From<AllocFailed<T>> for Memory {
    fn from(_error: AllocFailed<T>) -> Memory {
        Memory
    }
}

/// Why a line is refused. If several causes stand together, the first of `TooMany`, `Event`, `Count` and the lowest
/// `Field` is given.
#[derive(Clone, Copy, Debug, PartialEq, Eq, Error)]
pub enum Cause {
    /// The first word is no event.
    #[error("unknown event")]
    Event,
    /// The line has another number of words.
    #[error("wrong number of words")]
    Count,
    /// The word with this number, counted from 1, isn't of its form.
    #[error("word {0}")]
    Field(u8),
    /// The line is after 65,536 others that were read.
    #[error("too many events")]
    TooMany,
}

/// Why a text of lines is refused.
#[derive(Clone, Copy, Debug, PartialEq, Eq, Error)]
pub enum ScriptFault {
    /// The line with this number is refused. Lines count from 1, with those that are skipped.
    #[error("line {line}: {cause}")]
    At { line: u32, cause: Cause },
    /// There was no memory.
    #[error("out of memory")]
    Memory,
}

impl From<Memory> for ScriptFault {
    ghost from_gives = { λ _ fault. fault ≡ NoMemory };

    fn from(_memory: Memory) -> ScriptFault {
        ScriptFault::Memory
    }
}

impl<T: Drop> From<AllocFailed<T>> for ScriptFault {
    ghost from_gives = { λ _ fault. fault ≡ NoMemory };

    fn from(_error: AllocFailed<T>) -> ScriptFault {
        ScriptFault::Memory
    }
}

/// Why one line is refused by its reader.
#[derive(Clone, Copy, Debug, PartialEq, Eq, Error)]
pub enum LineFault {
    /// The line is refused.
    #[error("{0}")]
    Refused(Cause),
    /// There was no memory.
    #[error("out of memory")]
    OutOfMemory,
}

impl From<Cause> for LineFault {
    ghost from_gives = { λ cause fault. fault ≡ Refused cause };

    fn from(cause: Cause) -> LineFault {
        LineFault::Refused(cause)
    }
}

impl From<Memory> for LineFault {
    ghost from_gives = { λ _ fault. fault ≡ OutOfMemory };

    fn from(_memory: Memory) -> LineFault {
        LineFault::OutOfMemory
    }
}
