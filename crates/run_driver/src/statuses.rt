//! The status of a program that writes the lines of a run.
ghost use Rattle.std.specs.Prelude.{◌≡◌};
ghost use Rattle.run_driver.specs.Statuses.{unwritten_status};

use crate::printing::Unwritten;
use program_edge::{DONE, NO_MEMORY, WRITE_FAULT};

/// The status of a run whose lines were all written, or not.
pub fn status_of_run(printed: Result<(), Unwritten>) -> u8
    ensures { result ≡ unwritten_status printed }
{
    match printed {
        Ok(()) => DONE,
        Err(Unwritten::SinkFailed) => WRITE_FAULT,
        Err(Unwritten::Memory) => NO_MEMORY,
    }
}
