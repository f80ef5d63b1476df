//! The arguments `grow FILE BUS`: what they ask is done over the file and the disk that they name.
ghost use Rattle.std.specs.Prelude.{◌≡◌, codes, map as each, string_bytes, option_map};
ghost use Rattle.program_edge.specs.NamedSources.{word_source, openings, OverNamed};
ghost use Rattle.bus_store_commands.specs.BusWords.{file_over_bus};
ghost use Rattle.bus_store_commands.specs.GrowsOverBus.{GrowsOverBus, layout_of_bus};

use crate::growing::{grow_asked, grow_named};
use crate::words::{argument_at, file_over_bus};
use bus_config::BusConfig;
use bus_port::{Sink, Source};
use bus_programs::node_routes;
use cell_store::Layout;
use file_disk::DiskOpener;
use program_edge::{Opener, WordSource, open_word, tell_refusal};
use std::alloc::Global;

/// Grows the store of FILE to a cell for each route of the node of BUS. It gives the status that the program ends with,
/// and the source of the bus file and the disk as the run left them. `-` names the input, which is taken then. The bus
/// file is read whole before the disk is opened. FILE is never made: a disk over one that isn't there fails.
///
/// The statuses are looked for in the order 2; 5, 8 and 3 of the bus file; 9 and 10 of the disk, whose causes
/// `grow_store` has in their order.
pub fn grow_words<O: Opener, P: DiskOpener, I: Source + Drop, K: Sink>(
    alloc: Global,
    opener: &mut O,
    disk_opener: &mut P,
    input: &mut Option<I>,
    words: &[String],
    sink: &mut K,
) -> (u8, WordSource<O::Opened, I>, Option<P::Opened>)
    // All that a growth promises, over the bus file and the disk that the arguments name, which are handed back. Each
    // is opened once, and no other.
    ensures grows { OverNamed (O.opens opener.old)
        (openings (O.opened opener.old) (option_map I.state input.old))
        (openings (O.opened opener.new) (option_map I.state input.new))
        (file_over_bus (codes "grow") (each string_bytes words.now) 2)
        (word_source O.Opened.state I.state result.1)
        (λ bus. GrowsOverBus (P.opens disk_opener.old) (P.opened disk_opener.old) (P.opened disk_opener.new)
        (record { words = each string_bytes words.now; bus = bus }) (option_map P.Opened.state result.2)
        (record { before = K.state sink.old; after = K.state sink.new; status = result.0 })) }
    // No file was made.
    ensures none_made { P.made disk_opener.new ≡ P.made disk_opener.old }
{
    let mut file = open_word(opener, input, file_over_bus("grow", words, 2));
    match grow_asked(alloc, words, &mut file) {
        Ok(bus) => {
            let word = argument_at(words, 1);
            let wanted = layout_of_bus(&bus);
            let (status, disk) = grow_named(
                alloc,
                disk_opener,
                word,
                wanted,
                node_routes(&bus),
                sink,
            );
            (status, file, disk)
        }
        Err(refusal) => (tell_refusal(sink, &refusal), file, None),
    }
}

/// The kind and the version of the store that a bus wants.
fn layout_of_bus(bus: &BusConfig) -> Layout
    ensures { result ≡ layout_of_bus bus.now }
{
    Layout {
        kind: bus.kind(),
        version: bus.version(),
    }
}
