//! The commands of `slots` that only read.
ghost use Rattle.std.specs.Prelude.{◌≡◌, ◌⊎◌, ◌≤◌, length, map as each, string_bytes, IfOk, IfErr};
ghost use Rattle.program_edge.specs.Input.{input_limit};
ghost use Rattle.program_edge.specs.Rows.{row_of, memory_row};
ghost use Rattle.slot_commands.specs.SlotRows.{DoesSlotTask, AnswersSlots};
ghost use Rattle.slot_commands.specs.SlotReads.{ReadsUnitStore};

use crate::checking::check_bytes;
use crate::listing::list_bytes;
use crate::replying::reply_from;
use crate::tasks::{SlotTask, task_in};
use bus_port::{Sink, Source};
use program_edge::{DONE, Refusal, read_input, tell, tell_refusal};
use std::alloc::Global;

/// The status of a check that finds something.
const FOUND: u8 = 1;

/// Does what the words after `slots` ask of the file with this source, and gives the status that the program ends with.
/// The file is only read, and all of it before anything is printed.
///
/// The statuses are looked for in the order 2, 3, then 5 and 8 of the file; of `reply` 1 if the slots are no pair; 9 of
/// the file's bytes; 1. Out of memory, 7, prints nothing. A sink that fails makes the status 6, whatever was to be
/// printed.
pub fn run_slots<S: Source, K: Sink>(
    alloc: Global,
    words: &[String],
    file: &mut S,
    sink: &mut K,
) -> u8
    // `ReadsUnitStore` of specs/SlotReads.antt has a member for each promise, in the order of the table of answers.
    ensures { ReadsUnitStore
        (record {
          words = each string_bytes words.now;
          file = record { before = S.state file.old; after = S.state file.new };
        })
        (record { before = K.state sink.old; after = K.state sink.new; status = result }) }
{
    match answer(alloc, words, file) {
        Ok((text, status)) => tell(sink, text.as_slice(), status),
        Err(refusal) => tell_refusal(sink, &refusal),
    }
}

/// What is printed, and the status; or the first refusal that applies.
fn answer<S: Source>(
    alloc: Global,
    words: &[String],
    file: &mut S,
) -> Result<(Vec<u8>, u8), Refusal>
    ensures { AnswersSlots
        (record {
          words = each string_bytes words.now;
          file = record { before = S.state file.old; after = S.state file.new };
        })
        result }
{
    let task = task_in(words)?;
    let bytes = read_input(alloc, file)?;
    do_task(alloc, &task, bytes.as_slice())
}

/// What the task comes to over these bytes.
fn do_task(alloc: Global, task: &SlotTask, bytes: &[u8]) -> Result<(Vec<u8>, u8), Refusal>
    requires { length bytes.now ≤ input_limit }
    ensures done { IfOk result (λ r. DoesSlotTask bytes.now task.now (row_of r.1 r.0.items)) }
    ensures refused { IfErr result (λ row. DoesSlotTask bytes.now task.now row ⊎ (row ≡ memory_row)) }
{
    match task {
        SlotTask::List => {
            let text = list_bytes(alloc, bytes)?;
            Ok((text, DONE))
        }
        SlotTask::Check => {
            let (text, good) = check_bytes(alloc, bytes, None, None)?;
            if good {
                Ok((text, DONE))
            } else {
                Ok((text, FOUND))
            }
        }
        SlotTask::Reply(asked) => {
            let text = reply_from(alloc, bytes, asked)?;
            Ok((text, DONE))
        }
    }
}
