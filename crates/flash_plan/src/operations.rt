//! Operations on a flash, and their outcomes.
ghost use Rattle.std.specs.Prelude.{◌≡◌, ◌<◌};
ghost use Rattle.flash_places.specs.State.{FlashRuns};
ghost use Rattle.flash_plan.specs.Performing.{Performs, IsWithinFlash, MayBegin};

use flash_places::{Answer, FlashDevice, FlashLine};

/// What the caller does next. Banks and places are numbered from 0.
#[derive(Clone, Copy, Debug, PartialEq, Eq, Drop)]
pub enum Operation {
    /// Reads a place of a bank, checked.
    Read(u8, u32),
    /// Erases a bank.
    Erase(u8),
    /// Programs a place of a bank, which is blank, with a line.
    Program(u8, u32, FlashLine),
}

/// What came of an operation. An outcome that is none of its own, as `Done` of a read, counts as `Failed`.
#[derive(Clone, Copy, Debug, PartialEq, Eq, Drop)]
pub enum FlashOutcome {
    /// A read answered this.
    Answered(Answer),
    /// The erase or the program is done.
    Done,
    /// The operation failed.
    Failed,
}

/// Performs an operation on a flash.
pub fn perform<D: FlashDevice>(device: &mut D, operation: &Operation) -> FlashOutcome
    requires inside { IsWithinFlash (D.state device.old).banks (D.state device.old).places operation.now }
    requires blank { MayBegin operation.now (D.state device.old).flash }
    ensures runs { FlashRuns (D.state device.old) (D.state device.new) }
    ensures performs { Performs (D.state device.old).places operation.now result (D.state device.old).flash
        (D.state device.new).flash }
{
    match operation {
        Operation::Read(bank, place) => match device.look(*bank, *place) {
            Ok(answer) => FlashOutcome::Answered(answer),
            Err(_) => FlashOutcome::Failed,
        },
        Operation::Erase(bank) => match device.erase(*bank) {
            Ok(()) => FlashOutcome::Done,
            Err(_) => FlashOutcome::Failed,
        },
        Operation::Program(bank, place, line) => match device.program(*bank, *place, line) {
            Ok(()) => FlashOutcome::Done,
            Err(_) => FlashOutcome::Failed,
        },
    }
}
