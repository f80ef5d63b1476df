//! The arguments of the command line: what they name is opened, and an endpoint runs over it.
ghost use Rattle.std.specs.Prelude.{◌≡◌, ◌⊎◌, ◌++◌, ℕ, List, map as each, string_bytes, option_map, slice_get};
ghost use Rattle.program_edge.specs.NamedSources.{word_source, openings};
ghost use Rattle.endpoint_commands.specs.Rows.{AsksEndpoint, AsksForm};
ghost use Rattle.endpoint_commands.specs.Named.{word_of_form, SourcesNamed, EndpointOverDisk, EndpointOfWords};

use crate::run::{EndpointForm, do_endpoint, form_of, prepare};
use bus_port::{Sink, Source};
use file_disk::{DiskOpener, open_disks};
use program_edge::{Opener, Refusal, WordSource, open_word, tell_refusal};
use std::alloc::{AllocError, Global};

/// The argument at a place, of arguments of this form; none of malformed arguments.
fn word_at(words: &[String], form: Option<EndpointForm>, place: usize) -> Option<&str>
    requires { AsksForm (each string_bytes words.now) form }
    ensures { option_map (λ w. w.now) result ≡ word_of_form (each string_bytes words.now) place }
{
    match form {
        Some(_) => word_in(words, place),
        None => None,
    }
}

/// The argument at a place, if there are so many.
fn word_in(words: &[String], place: usize) -> Option<&str>
    ensures { option_map (λ w. w.now) result ≡ slice_get (each string_bytes words.now) place }
{
    if place >= words.len() {
        return None;
    }
    Some(words[place].as_str())
}

/// The sources of an endpoint, as a run left them.
#[derive(Drop)]
pub struct EndpointSources<O: Source, I: Source> {
    /// That of the bus file.
    pub config: WordSource<O, I>,
    /// That of the map.
    pub map: WordSource<O, I>,
    /// That of the log.
    pub log: WordSource<O, I>,
    /// That of the image.
    pub image: WordSource<O, I>,
}

/// Runs an endpoint over what the arguments name, as [`run_endpoint`](crate::run_endpoint) does. It gives the status
/// that the program ends with, and the sources and the disk as the run left them. `-` names the input, which is taken
/// then. If several arguments are `-`, the first has it, and the others are missing. The disk is opened last: bus file,
/// map and image are read whole and taken before, so that a refused command makes no file. Of malformed arguments
/// nothing is opened.
pub fn endpoint_words<O: Opener, P: DiskOpener, I: Source + Drop, K: Sink, E: Sink>(
    alloc: Global,
    opener: &mut O,
    disk_opener: &mut P,
    input: &mut Option<I>,
    words: &[String],
    sink: &mut K,
    errors: &mut E,
) -> (u8, EndpointSources<O::Opened, I>, Vec<P::Opened>)
    // All that a run promises, over the sources and the disk that the arguments name, which are those handed back.
    ensures named { EndpointOfWords P.Opened.state (O.opens opener.old) (P.opens disk_opener.old)
        (record {
          before = openings (O.opened opener.old) (option_map I.state input.old);
          after = openings (O.opened opener.new) (option_map I.state input.new);
          disks_before = P.opened disk_opener.old;
          disks_after = P.opened disk_opener.new;
        })
        (each string_bytes words.now)
        (record {
          config = word_source O.Opened.state I.state result.1.config;
          map = word_source O.Opened.state I.state result.1.map;
          log = word_source O.Opened.state I.state result.1.log;
          image = word_source O.Opened.state I.state result.1.image;
        })
        result.2
        (record {
          output = record { before = K.state sink.old; after = K.state sink.new };
          errors = record { before = E.state errors.old; after = E.state errors.new };
          status = result.0;
        }) }
    // The file of each disk that was opened was made, if it wasn't there. No other file was made.
    ensures makes { (words : List (List ℕ)) × (P.opened disk_opener.new ≡ P.opened disk_opener.old ++ words)
        × (P.made disk_opener.new ≡ P.made disk_opener.old ++ words) }
    ensures usage { result.0 ≡ 2 → ¬ AsksEndpoint (each string_bytes words.now) }
    ensures usage_only { ¬ AsksEndpoint (each string_bytes words.now) → (result.0 ≡ 2) ⊎ (result.0 ≡ 6) }
{
    let mut sources = open_sources(opener, input, words);
    let (status, disks) = run_named(
        alloc,
        disk_opener,
        words,
        &mut sources.config,
        &mut sources.map,
        &mut sources.log,
        &mut sources.image,
        sink,
        errors,
    );
    (status, sources, disks)
}

/// Opens the sources that the arguments name, in the order of [`EndpointSources`].
fn open_sources<O: Opener, I: Source + Drop>(
    opener: &mut O,
    input: &mut Option<I>,
    words: &[String],
) -> EndpointSources<O::Opened, I>
    ensures { SourcesNamed (O.opens opener.old)
        (openings (O.opened opener.old) (option_map I.state input.old))
        (openings (O.opened opener.new) (option_map I.state input.new))
        (each string_bytes words.now)
        (record {
          config = word_source O.Opened.state I.state result.config;
          map = word_source O.Opened.state I.state result.map;
          log = word_source O.Opened.state I.state result.log;
          image = word_source O.Opened.state I.state result.image;
        }) }
{
    let form = form_of(words);
    let config = open_word(opener, input, word_at(words, form, 0));
    let map = open_word(opener, input, word_at(words, form, 1));
    let log = open_word(opener, input, word_at(words, form, 2));
    let image = open_word(opener, input, word_at(words, form, 4));
    EndpointSources {
        config,
        map,
        log,
        image,
    }
}

/// Runs an endpoint over these sources. Once all of them but the log were read and taken, the disk that the arguments
/// name is opened, which is handed back. If there is no memory for it, the status is 7.
fn run_named<P: DiskOpener, S: Source, M: Source, T: Source, I: Source, K: Sink, E: Sink>(
    alloc: Global,
    disk_opener: &mut P,
    words: &[String],
    config: &mut S,
    map: &mut M,
    log: &mut T,
    image: &mut I,
    sink: &mut K,
    errors: &mut E,
) -> (u8, Vec<P::Opened>)
    ensures runs { EndpointOverDisk P.Opened.state (P.opens disk_opener.old) (P.opened disk_opener.old)
        (P.opened disk_opener.new)
        (record {
          words = each string_bytes words.now;
          config = record { before = S.state config.old; after = S.state config.new };
          map = record { before = M.state map.old; after = M.state map.new };
          image = record { before = I.state image.old; after = I.state image.new };
          log = record { before = T.state log.old; after = T.state log.new };
        })
        result.1
        (record {
          output = record { before = K.state sink.old; after = K.state sink.new };
          errors = record { before = E.state errors.old; after = E.state errors.new };
          status = result.0;
        }) }
    ensures makes { (words : List (List ℕ)) × (P.opened disk_opener.new ≡ P.opened disk_opener.old ++ words)
        × (P.made disk_opener.new ≡ P.made disk_opener.old ++ words) }
{
    let form = form_of(words);
    match prepare(alloc, form, config, map, image) {
        Ok(job) => match open_disks(alloc, disk_opener, word_at(words, form, 3)) {
            Ok(opened) => {
                let mut disks = opened;
                let status = do_endpoint(alloc, job, log, sink, errors, &mut disks);
                (status, disks)
            }
            Err(AllocError) => {
                let refusal = Refusal::no_memory();
                (tell_refusal(errors, &refusal), Vec::new(alloc))
            }
        },
        Err(refusal) => (tell_refusal(errors, &refusal), Vec::new(alloc)),
    }
}
