//! The arguments after `slots`: what they ask is done over the files that they name.
ghost use Rattle.std.specs.Prelude.{◌≡◌, map as each, string_bytes, option_map, codes};
ghost use Rattle.program_edge.specs.NamedSources.{word_source, openings, OverTwoNamed};
ghost use Rattle.bus_store_commands.specs.BusWords.{file_over_bus};
ghost use Rattle.bus_store_commands.specs.ChecksOverBus.{ChecksOverBus};

use crate::checking::run_bus_check;
use crate::words::file_over_bus;
use bus_port::{Sink, Source};
use program_edge::{Opener, WordSource, open_both};
use std::alloc::Global;

/// Checks the store of FILE over the routes of the node of BUS, as [`run_bus_check`] does. It gives the status that the
/// program ends with, and the two sources as the run left them. `-` names the input, which is taken then; a second `-`
/// is a missing source. Of malformed arguments nothing is opened.
pub fn bus_check_words<O: Opener, I: Source + Drop, K: Sink>(
    alloc: Global,
    opener: &mut O,
    input: &mut Option<I>,
    words: &[String],
    sink: &mut K,
) -> (u8, WordSource<O::Opened, I>, WordSource<O::Opened, I>)
    // All that a check promises, over the files that the arguments name, whose sources are those that are handed back.
    // Each is opened once, and no other.
    ensures { OverTwoNamed (O.opens opener.old)
        (openings (O.opened opener.old) (option_map I.state input.old))
        (openings (O.opened opener.new) (option_map I.state input.new))
        (file_over_bus (codes "check") (each string_bytes words.now) 1)
        (file_over_bus (codes "check") (each string_bytes words.now) 2)
        (word_source O.Opened.state I.state result.1) (word_source O.Opened.state I.state result.2)
        (λ file bus. ChecksOverBus
        (record { words = each string_bytes words.now; file = file; bus = bus })
        (record { before = K.state sink.old; after = K.state sink.new; status = result.0 })) }
{
    let (mut file, mut bus) = open_both(
        opener,
        input,
        file_over_bus("check", words, 1),
        file_over_bus("check", words, 2),
    );
    let status = run_bus_check(alloc, words, &mut file, &mut bus, sink);
    (status, file, bus)
}
