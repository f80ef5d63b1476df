//! The key command.
ghost use Rattle.std.specs.Prelude.{◌≡◌, drop, map as each, string_bytes, Ok};
ghost use Rattle.program_edge.specs.Endings.{EndsInRow};
ghost use Rattle.key_commands.specs.Rows.{AskedComes};
ghost use Rattle.key_commands.specs.Keys.{Keys};
ghost use Rattle.key_commands.specs.Steps.{PreparesTask};
ghost use Rattle.key_commands.specs.declared.tasks.Task.TheVariants.{Words};

use crate::load_over;
use crate::parsing::parse;
use crate::refusals::{usage_refusal, value_refusal};
use crate::subcommands::subcommand_of;
use crate::tasks::{Task, WordTask, task_of};
use crate::work::do_task;
use bus_port::{Sink, Source};
use cut_disk::Disk;
use program_edge::{DONE, Refusal, tell, tell_refusal};
use std::alloc::Global;
use text_lines::Memory;

/// Runs the subcommand that the arguments ask for, and gives the status that the program ends with. The first of the
/// arguments is the program's name. Every text that is printed ends with a line feed.
///
/// The statuses are looked for in the order 2, 3; of `load` then 5, 8 and 4 of the source of requests, 9 of the first
/// disk, and 10. Out of memory, 7, prints nothing, except for what `load` answered before. A sink that fails makes the
/// status 6, whatever was to be printed. No other subcommand reads from the source of requests or touches a disk.
pub fn run_key<S: Source, K: Sink, D: Disk>(
    alloc: Global,
    words: &[String],
    request: &mut S,
    sink: &mut K,
    disks: &mut Vec<D>,
) -> u8
    // `Keys` of specs/Keys.antt has a member for each promise, in the order of the table of answers.
    ensures { Keys
        (record {
          words = drop 1 (each string_bytes words.now);
          request = record { before = request.old; after = request.new };
          disks = record { before = disks.old.items; after = disks.new.items };
          reading = record { before = S.state request.old; after = S.state request.new };
          known = record { before = each D.state disks.old.items; after = each D.state disks.new.items };
        })
        (record { before = K.state sink.old; after = K.state sink.new; status = result }) }
{
    run_asked(alloc, behind_name(words), request, sink, disks)
}

/// The arguments, without the program's name.
fn behind_name(words: &[String]) -> &[String]
    ensures { each string_bytes result.now ≡ drop 1 (each string_bytes words.now) }
{
    match words {
        [] => words,
        [_name, rest @ ..] => rest,
    }
}

/// The same over the arguments without the program's name.
pub(crate) fn run_asked<S: Source, K: Sink, D: Disk>(
    alloc: Global,
    words: &[String],
    request: &mut S,
    sink: &mut K,
    disks: &mut Vec<D>,
) -> u8
    ensures { Keys
        (record {
          words = each string_bytes words.now;
          request = record { before = request.old; after = request.new };
          disks = record { before = disks.old.items; after = disks.new.items };
          reading = record { before = S.state request.old; after = S.state request.new };
          known = record { before = each D.state disks.old.items; after = each D.state disks.new.items };
        })
        (record { before = K.state sink.old; after = K.state sink.new; status = result }) }
{
    match prepare(alloc, words) {
        Ok(asked) => match &asked {
            Task::Words(task) => do_job(alloc, task, sink),
            Task::Load { uid } => load_over(alloc, *uid, request, sink, disks),
        },
        Err(refusal) => tell_refusal(sink, &refusal),
    }
}

/// The first phase: the arguments from the subcommand on. It ends in a task, or in the first refusal that applies.
fn prepare(alloc: Global, words: &[String]) -> Result<Task, Refusal>
    ensures { PreparesTask (each string_bytes words.now) result }
{
    let Some(subcommand) = subcommand_of(words) else {
        return Err(usage_refusal());
    };
    let matches = parse(alloc, subcommand, words)?;
    match task_of(alloc, subcommand, &matches) {
        Ok(Ok(task)) => Ok(task),
        Ok(Err(bad)) => Err(value_refusal(alloc, bad)),
        Err(Memory) => Err(Refusal::no_memory()),
    }
}

/// The second phase of a task other than a load: it is done, and what it comes to is printed.
fn do_job<K: Sink>(alloc: Global, task: &WordTask, sink: &mut K) -> u8
    ensures { EndsInRow (AskedComes (Ok (Words task.now)))
        (record { before = K.state sink.old; after = K.state sink.new; status = result }) }
{
    match do_task(alloc, task) {
        Ok(text) => tell(sink, text.as_bytes(), DONE),
        Err(refusal) => tell_refusal(sink, &refusal),
    }
}
