//! The arguments of the command line, without the program's name.
ghost use Rattle.std.specs.Prelude.{map, string_bytes, option_map, IsTrue};
ghost use Rattle.program_edge.specs.NamedSources.{word_source, openings};
ghost use Rattle.gateway_commands.specs.Words.{AsksNoGateway, AsksSomeGateway};
ghost use Rattle.gateway_commands.specs.Named.{NamesFirstTwo, GatewayOfWords};

use crate::example::{BUS, SCRIPT, WORDS};
use crate::run::{run_asked, run_gateway};
use crate::words::asked_pairs;
use bus_port::{Sink, Source, TextSource};
use bus_programs::{disks_if, example_inputs, unopened};
use program_edge::{NO_MEMORY, Opener, WordSource, open_both, two_words};
use std::alloc::Global;

/// The arguments that name the bus file and the script: the first two, and none if they ask for no gateway.
fn source_words(words: &[String], is_asked: bool) -> (Option<&str>, Option<&str>)
    requires asked { IsTrue is_asked → AsksSomeGateway (map string_bytes words.now) }
    requires other { ¬ IsTrue is_asked → AsksNoGateway (map string_bytes words.now) }
    ensures { NamesFirstTwo (map string_bytes words.now) (option_map (λ w. w.now) result.0)
        (option_map (λ w. w.now) result.1) }
{
    if is_asked {
        return two_words(&words[..2]);
    }
    (None, None)
}

/// Runs a gateway over the bus file and the script that the first two arguments name, as [`run_gateway`] does, over a
/// blank disk of 65,536 bytes; without an argument the example. It gives the status that the program ends with, and the
/// sources of the bus file and of the script as the gateway left them. The disk is made before anything is opened.
pub fn gateway_words<O: Opener, I: Source + Drop, K: Sink>(
    alloc: Global,
    opener: &mut O,
    input: &mut Option<I>,
    words: &[String],
    sink: &mut K,
) -> (u8, WordSource<O::Opened, I>, WordSource<O::Opened, I>)
    // All that a gateway promises, of these words, over the sources that they name, which are those handed back, or of
    // the example; or there was no memory for it, and nothing was opened or written. Each word that names a source is
    // opened once, and no other. 2 comes of words of another form alone, and of these always, or 6. The disk that it
    // makes is enough, and doesn't fail as the gateway starts.
    ensures { GatewayOfWords (O.opens opener.old)
        (openings (O.opened opener.old) (option_map I.state input.old))
        (openings (O.opened opener.new) (option_map I.state input.new))
        (record {
          config = word_source O.Opened.state I.state result.1;
          script = word_source O.Opened.state I.state result.2;
        })
        (map string_bytes words.now)
        (record { before = K.state sink.old; after = K.state sink.new; status = result.0 }) }
{
    if words.is_empty() {
        let Ok(example) = example_inputs(alloc, &WORDS, 1) else {
            return unopened(NO_MEMORY);
        };
        let (given, mut disks) = example;
        let texts = given.as_slice();
        let mut config = TextSource::new(BUS);
        let mut script = TextSource::new(SCRIPT);
        let status = run_gateway(alloc, texts, &mut config, &mut script, sink, &mut disks);
        return unopened(status);
    }
    let Ok(asked) = asked_pairs(alloc, words) else {
        return unopened(NO_MEMORY);
    };
    let (bus, events) = source_words(words, asked.is_some());
    let Ok(mut disks) = disks_if(alloc, asked.is_some(), 1) else {
        return unopened(NO_MEMORY);
    };
    let (mut config, mut script) = open_both(opener, input, bus, events);
    let status = run_asked(alloc, asked, &mut config, &mut script, sink, &mut disks);
    (status, config, script)
}
