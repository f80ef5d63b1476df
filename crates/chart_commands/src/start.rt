//! The arguments of the command line, without the program's name.
ghost use Rattle.std.specs.Prelude.{map, string_bytes, option_map};
ghost use Rattle.program_edge.specs.NamedSources.{word_source, openings};
ghost use Rattle.chart_commands.specs.Named.{ChartOfWords};

use crate::example::{BUS, SCRIPT, WORDS};
use crate::run::run_chart;
use bus_port::{Sink, Source, TextSource};
use bus_programs::{disks_if, example_inputs, unopened};
use program_edge::{NO_MEMORY, Opener, WordSource, open_two};
use std::alloc::Global;

/// Draws the run of the script over the bus that two arguments name, as [`run_chart`] does, over eight blank disks of
/// 65,536 bytes; without an argument the example. It gives the status that the program ends with, and the sources of the
/// bus file and of the script as the chart left them. The disks are made before anything is opened.
pub fn chart_words<O: Opener, I: Source + Drop, K: Sink>(
    alloc: Global,
    opener: &mut O,
    input: &mut Option<I>,
    words: &[String],
    sink: &mut K,
) -> (u8, WordSource<O::Opened, I>, WordSource<O::Opened, I>)
    // All that a chart promises, of these words, over the sources that they name, which are those handed back, or of
    // the example; or there was no memory for it, and nothing was opened or written. Each of two words is opened once,
    // and no other. 2 comes of words of another number alone, and of these always, or 6. The disks that it makes are
    // enough, and don't fail as the bus starts.
    ensures { ChartOfWords (O.opens opener.old)
        (openings (O.opened opener.old) (option_map I.state input.old))
        (openings (O.opened opener.new) (option_map I.state input.new))
        (record {
          config = word_source O.Opened.state I.state result.1;
          script = word_source O.Opened.state I.state result.2;
        })
        (map string_bytes words.now)
        (record { before = K.state sink.old; after = K.state sink.new; status = result.0 }) }
{
    if words.is_empty() {
        let Ok(example) = example_inputs(alloc, &WORDS, 8) else {
            return unopened(NO_MEMORY);
        };
        let (given, mut disks) = example;
        let texts = given.as_slice();
        let mut config = TextSource::new(BUS);
        let mut script = TextSource::new(SCRIPT);
        let status = run_chart(alloc, texts, &mut config, &mut script, sink, &mut disks);
        return unopened(status);
    }
    let Ok(mut disks) = disks_if(alloc, words.len() == 2, 8) else {
        return unopened(NO_MEMORY);
    };
    let (mut config, mut script) = open_two(opener, input, words);
    let status = run_chart(alloc, words, &mut config, &mut script, sink, &mut disks);
    (status, config, script)
}
