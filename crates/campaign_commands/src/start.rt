//! The arguments of the command line, without the program's name.
ghost use Rattle.std.specs.Prelude.{◌≡◌, ◌++◌, ℕ, List, map, string_bytes, option_map};
ghost use Rattle.program_edge.specs.NamedSources.{word_source, openings};
ghost use Rattle.campaign_commands.specs.Files.{CampaignOfWords};

use crate::example::run_example;
use crate::run::run_campaign;
use bus_port::{Sink, Source};
use file_disk::{DiskOpener, open_disks};
use program_edge::{MissingSource, NO_MEMORY, Opener, WordSource, open_word, two_words};
use std::alloc::Global;

/// Runs the script that the first of two arguments names over the disk that the second opens, as [`run_campaign`]
/// does; without an argument the example. It gives the status that the program ends with, and the script's source and
/// the disk as the campaign left them.
pub fn campaign_words<O: Opener, P: DiskOpener, I: Source + Drop, K: Sink>(
    alloc: Global,
    opener: &mut O,
    disk_opener: &mut P,
    input: &mut Option<I>,
    words: &[String],
    sink: &mut K,
) -> (u8, WordSource<O::Opened, I>, Vec<P::Opened>)
    // All that a campaign promises, of these arguments, over the script and the disk that they name, which are those
    // handed back, or of the example; or there was no memory for the disk.
    ensures promises { CampaignOfWords (O.opens opener.old) (P.opens disk_opener.old)
        (record {
          before = openings (O.opened opener.old) (option_map I.state input.old);
          after = openings (O.opened opener.new) (option_map I.state input.new);
          disks_before = P.opened disk_opener.old;
          disks_after = P.opened disk_opener.new;
        })
        (map string_bytes words.now)
        (word_source O.Opened.state I.state result.1) (map P.Opened.state result.2.items)
        (record { before = K.state sink.old; after = K.state sink.new; status = result.0 }) }
    // The file of each disk that was opened was made, if it wasn't there. No other file was made.
    ensures makes { (words : List (List ℕ)) × (P.opened disk_opener.new ≡ P.opened disk_opener.old ++ words)
        × (P.made disk_opener.new ≡ P.made disk_opener.old ++ words) }
{
    if words.is_empty() {
        let status = run_example(alloc, sink);
        let script = WordSource::Missing(MissingSource::new());
        return (status, script, Vec::new(alloc));
    }
    let (script_word, disk_word) = two_words(words);
    let Ok(mut disks) = open_disks(alloc, disk_opener, disk_word) else {
        let missing = MissingSource::new();
        return (NO_MEMORY, WordSource::Missing(missing), Vec::new(alloc));
    };
    let mut script = open_word(opener, input, script_word);
    let status = run_campaign(alloc, words, &mut script, sink, &mut disks);
    (status, script, disks)
}
