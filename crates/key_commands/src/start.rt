//! The arguments of the command line, without the program's name.
ghost use Rattle.std.specs.Prelude.{◌≡◌, ◌⊎◌, ◌<◌, ◌≤◌, [], length, map as each, option_map, string_bytes};
ghost use Rattle.std.specs.Prelude.{IfOk, OnErr};
ghost use Rattle.key_commands.specs.declared.example.TheConstants.{EXAMPLE};
ghost use Rattle.key_commands.specs.declared.subcommands.Subcommand.TheVariants.{Load};
ghost use Rattle.key_commands.specs.Subcommands.{NamesSubcommand};
ghost use Rattle.key_commands.specs.Files.{NamesFile, NamesLoadDisk, RunsWords, RunsWithFile, WantsFile};

use crate::example::{EXAMPLE, texts_of};
use crate::parsing::parse;
use crate::run::run_asked;
use crate::subcommands::{Subcommand, subcommand_of};
use bus_port::{Sink, Source};
use file_disk::{DiskOpener, open_standing_disks};
use program_edge::NO_MEMORY;
use std::alloc::{AllocError, Global};

/// Runs the subcommand that the arguments ask for, as [`run_key`](crate::run_key) does, over the disk that the FILE of
/// a load opens; without an argument the example. It gives the status that the program ends with, and that disk as the
/// command left it. No file is made: if FILE isn't there each call of its disk fails. If there is no memory for the
/// disk, nothing is read, written or opened.
pub fn key_words<P: DiskOpener, S: Source, K: Sink>(
    alloc: Global,
    disk_opener: &mut P,
    words: &[String],
    request: &mut S,
    sink: &mut K,
) -> (u8, Vec<P::Opened>)
    // All that a key command promises, over the example's words, and no disk.
    ensures example { length words.now ≡ 0
        → RunsWords S.state P.Opened.state (each (λ text. text.now) EXAMPLE)
        (record { before = request.old; after = request.new })
        (record { before = []; after = result.1.items })
        (record { before = K.state sink.old; after = K.state sink.new; status = result.0 }) }
    ensures unopened { length words.now ≡ 0 → P.opened disk_opener.new ≡ P.opened disk_opener.old }

    // All that it promises, of these words, over the disk that they name, which is the one handed back; or there was no
    // memory for it.
    ensures named { 0 < length words.now
        → RunsWithFile S.state P.Opened.state (P.opens disk_opener.old)
        (record { before = P.opened disk_opener.old; after = P.opened disk_opener.new })
        (each string_bytes words.now)
        (record { before = request.old; after = request.new }) result.1.items
        (record { before = K.state sink.old; after = K.state sink.new; status = result.0 })
        ⊎ WantsFile (record { before = P.opened disk_opener.old; after = P.opened disk_opener.new })
        (each string_bytes words.now)
        (record { before = S.state request.old; after = S.state request.new }) (each P.Opened.state result.1.items)
        (record { before = K.state sink.old; after = K.state sink.new; status = result.0 }) }

    ensures none_made { P.made disk_opener.new ≡ P.made disk_opener.old }

    // What comes of an input and of a store comes of `load` alone.
    ensures load_alone { (result.0 ≡ 4) ⊎ (result.0 ≡ 5) ⊎ (8 ≤ result.0)
        → NamesSubcommand (each string_bytes words.now) Load }
{
    if words.is_empty() {
        let Ok(example) = texts_of(alloc, &EXAMPLE) else {
            return (NO_MEMORY, Vec::new(alloc));
        };
        let mut none = Vec::new(alloc);
        let status = run_asked(alloc, example.as_slice(), request, sink, &mut none);
        return (status, none);
    }
    let Ok(mut disks) = open_named(alloc, disk_opener, words) else {
        return (NO_MEMORY, Vec::new(alloc));
    };
    let status = run_asked(alloc, words, request, sink, &mut disks);
    (status, disks)
}

/// The disk that the words name, opened once; none of words that name no file. No file is made.
fn open_named<P: DiskOpener>(
    alloc: Global,
    disk_opener: &mut P,
    words: &[String],
) -> Result<Vec<P::Opened>, AllocError>
    ensures named { IfOk result (λ disks. NamesLoadDisk (P.opens disk_opener.old) (P.opened disk_opener.old)
        (P.opened disk_opener.new) (each string_bytes words.now) (each P.Opened.state disks.items)) }
    ensures asks { OnErr result (NamesSubcommand (each string_bytes words.now) Load) }
    ensures unopened { OnErr result (P.opened disk_opener.new ≡ P.opened disk_opener.old) }
    ensures unmade { P.made disk_opener.new ≡ P.made disk_opener.old }
{
    let file = file_word(alloc, words)?;
    open_standing_disks(alloc, disk_opener, file)
}

/// The file that the words name.
fn file_word<'a>(alloc: Global, words: &'a [String]) -> Result<Option<&'a str>, AllocError>
    ensures names { IfOk result (λ file. NamesFile (each string_bytes words.entry.now)
        (option_map (λ w. w.now) file)) }
    ensures asks { OnErr result (NamesSubcommand (each string_bytes words.entry.now) Load) }
{
    match subcommand_of(words) {
        Some(Subcommand::Load) => load_file(alloc, words),
        _ => Ok(None),
    }
}

/// The value FILE of a load, if clap takes its arguments.
fn load_file<'a>(alloc: Global, words: &'a [String]) -> Result<Option<&'a str>, AllocError>
    ensures names { NamesSubcommand (each string_bytes words.entry.now) Load
        → IfOk result (λ file. NamesFile (each string_bytes words.entry.now) (option_map (λ w. w.now) file)) }
{
    match parse(alloc, Subcommand::Load, words) {
        Ok(matches) => Ok(matches.get_str("FILE")),
        Err(refusal) if refusal.status() == NO_MEMORY => Err(AllocError),
        Err(_) => Ok(None),
    }
}
