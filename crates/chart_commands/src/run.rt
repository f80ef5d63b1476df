//! The command of the program.
ghost use Rattle.std.specs.Prelude.{◌≡◌, map, string_bytes};
ghost use Rattle.chart_commands.specs.Promises.{RunsChart};

use crate::charting::chart;
use crate::inputs::prepare;
use bus_port::{Sink, Source};
use cut_disk::CutDisk;
use program_edge::tell_refusal;
use std::alloc::Global;

/// Runs a script over a bus, prints the chart of the run as an SVG, and gives the status that the program ends with.
/// The arguments are those after the program's name, two: of the bus file, which `config` gives, and of the script,
/// which `script` gives. One disk a node is formatted, and all events are done before the first byte is printed. All
/// reading comes before all printing.
///
/// The statuses are looked for in this order: 2; 5, 8 and 3 of the bus file; 5, 8 and 4 of the script; 9 and 10 of the
/// disks. A sink that fails makes the status 6. Out of memory, 7, prints nothing.
pub fn run_chart<S: Source, T: Source, K: Sink, D: CutDisk>(
    alloc: Global,
    words: &[String],
    config: &mut S,
    script: &mut T,
    sink: &mut K,
    disks: &mut Vec<D>,
) -> u8
    // `RunsChart` of specs/Promises.antt has a member for each promise, in the order of the table of answers. At 0 the
    // sink has exactly the chart of the lines more (`drawn`). Over disks that tell their bytes these are the lines of
    // one run of the machine from the first world of the bus. One record has all that holds of it, the same as of a
    // replay: `is_a_run`, `are_lines`, `rising`, `authentic`, `single`, `keys_kept`, `cuts_skip_little`, `covered`,
    // `disks`, `failures` and `honest`.
    ensures { RunsChart (disks.new ≡ disks.old)
        (record {
          words = map string_bytes words.now;
          config = record { before = S.state config.old; after = S.state config.new };
          script = record { before = T.state script.old; after = T.state script.new };
        })
        (record { before = map D.state disks.old.items; after = map D.state disks.new.items })
        (record { before = K.state sink.old; after = K.state sink.new; status = result }) }
{
    match prepare(alloc, words, config, script) {
        Ok(job) => chart(alloc, &job.bus, job.events.as_slice(), sink, disks),
        Err(refusal) => tell_refusal(sink, &refusal),
    }
}
