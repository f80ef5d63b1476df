//! The command of the program.
ghost use Rattle.std.specs.Prelude.{◌≡◌, ℕ, List, map, string_bytes};
ghost use Rattle.gateway_commands.specs.Promises.{RunsGateway};
ghost use Rattle.gateway_commands.specs.Words.{AsksGateway};
ghost use Rattle.gateway_commands.specs.Steps.{AsksPairs, PreparesGateway};

use crate::inputs::check_pairs;
use crate::job::GatewayJob;
use crate::running::do_job;
use crate::words::asked_pairs;
use bus_port::{Sink, Source};
use bus_programs::{OwnScript, bus_from, script_from};
use cut_disk::CutDisk;
use program_edge::{Refusal, tell_refusal};
use std::alloc::{AllocError, Global};

/// Runs a script over a gateway, and gives the status that the program ends with. Of the arguments, the program's name
/// left out, the first names the bus file, which `config` gives, and the second the script, which `script` gives; each
/// other one, 1 to 32 of them, is a pair `IN=OUT` of Data IDs of four hexadecimal digits. The bus has one node. The
/// first disk is formatted for it, and each line is written as soon as its event is done. All reading comes before all
/// printing, and every text that is printed ends with a line feed.
///
/// The statuses are looked for in this order: 2; 5, 8 and 3 of the bus file and its pairs; 5, 8 and 4 of the script; 9
/// and 10 of the disk. A sink that fails makes the status 6, whatever was to be printed, and no further event is done.
/// Out of memory, 7, prints nothing more.
pub fn run_gateway<S: Source, T: Source, K: Sink, D: CutDisk>(
    alloc: Global,
    words: &[String],
    config: &mut S,
    script: &mut T,
    sink: &mut K,
    disks: &mut Vec<D>,
) -> u8
    // `RunsGateway` of specs/Promises.antt has a member for each promise, in the order of the table of answers. What is
    // said of events that were done is `DoneGateway`. Its `stay` says what the disks keep and which lines tell that one
    // failed, also of disks that don't tell their bytes. Over a disk that tells them what was done is one run of the
    // machine, and one record has all that holds of it: `is_a_run`, `forwards_what_arrived`, `arrivals_rise`,
    // `departures_rise`, `disks` and `failures`.
    ensures { RunsGateway (disks.new ≡ disks.old)
        (record {
          words = map string_bytes words.now;
          config = record { before = S.state config.old; after = S.state config.new };
          script = record { before = T.state script.old; after = T.state script.new };
        })
        (record { before = map D.state disks.old.items; after = map D.state disks.new.items })
        (record { before = K.state sink.old; after = K.state sink.new; status = result }) }
{
    match asked_pairs(alloc, words) {
        Ok(asked) => run_asked(alloc, asked, config, script, sink, disks),
        Err(AllocError) => tell_refusal(sink, &Refusal::no_memory()),
    }
}

/// Runs the gateway with these pairs, which some arguments give, as [`run_gateway`] does; or tells the usage line, if
/// they give none.
pub(crate) fn run_asked<S: Source, T: Source, K: Sink, D: CutDisk>(
    alloc: Global,
    asked: Option<Vec<(u16, u16)>>,
    config: &mut S,
    script: &mut T,
    sink: &mut K,
    disks: &mut Vec<D>,
) -> u8
    requires { (words : List (List ℕ)) × AsksPairs words asked }
    ensures { (words : List (List ℕ)) → AsksPairs words asked → RunsGateway (disks.new ≡ disks.old)
        (record {
          words = words;
          config = record { before = S.state config.old; after = S.state config.new };
          script = record { before = T.state script.old; after = T.state script.new };
        })
        (record { before = map D.state disks.old.items; after = map D.state disks.new.items })
        (record { before = K.state sink.old; after = K.state sink.new; status = result }) }
{
    match prepare(alloc, asked, config, script) {
        Ok(job) => do_job(alloc, job, sink, disks),
        Err(refusal) => tell_refusal(sink, &refusal),
    }
}

const USAGE: &str = "usage: gateway B F IN=OUT ..\n";

// The first phase. It ends in a job, or in the first refusal that applies.
fn prepare<S: Source, T: Source>(
    alloc: Global,
    asked: Option<Vec<(u16, u16)>>,
    config: &mut S,
    script: &mut T,
) -> Result<GatewayJob, Refusal>
    ensures { (words : List (List ℕ)) → AsksPairs words asked → PreparesGateway
        (record {
          words = words;
          config = record { before = S.state config.old; after = S.state config.new };
          script = record { before = T.state script.old; after = T.state script.new };
        })
        result }
{
    match asked {
        None => Err(Refusal::fixed(2, USAGE)),
        Some(pairs) => read_job(alloc, pairs, config, script),
    }
}

// The inputs of a gateway with these pairs: a job, or the first refusal that applies.
fn read_job<S: Source, T: Source>(
    alloc: Global,
    pairs: Vec<(u16, u16)>,
    config: &mut S,
    script: &mut T,
) -> Result<GatewayJob, Refusal>
    ensures { (words : List (List ℕ)) → AsksGateway words pairs.items → PreparesGateway
        (record {
          words = words;
          config = record { before = S.state config.old; after = S.state config.new };
          script = record { before = T.state script.old; after = T.state script.new };
        })
        result }
{
    let bus = bus_from(alloc, config)?;
    check_pairs(&bus, pairs.as_slice())?;
    let events = script_from::<OwnScript, T>(alloc, &bus, script)?;
    Ok(GatewayJob { bus, pairs, events })
}
