//! What the sources of a chart have, or why they have it not.
ghost use Rattle.std.specs.Prelude.{map, string_bytes};
ghost use Rattle.chart_commands.specs.Steps.{PreparesChart};

use crate::job::ChartJob;
use bus_port::Source;
use bus_programs::{BusScript, bus_from, script_from};
use program_edge::Refusal;
use std::alloc::Global;

const USAGE: &str = "usage: chart B F\n";

/// The first phase: the arguments and the inputs. It ends in a job, or in the first refusal that applies.
pub fn prepare<S: Source, T: Source>(
    alloc: Global,
    words: &[String],
    config: &mut S,
    script: &mut T,
) -> Result<ChartJob, Refusal>
    ensures { PreparesChart
        (record {
          words = map string_bytes words.now;
          config = record { before = S.state config.old; after = S.state config.new };
          script = record { before = T.state script.old; after = T.state script.new };
        })
        result }
{
    if words.len() != 2 {
        return Err(Refusal::fixed(2, USAGE));
    }
    let bus = bus_from(alloc, config)?;
    let events = script_from::<BusScript, T>(alloc, &bus, script)?;
    Ok(ChartJob { bus, events })
}
