//! The arguments of the command line.
ghost use Rattle.std.specs.Prelude.{◌≡◌, ◌++◌, ℕ, List, drop, map as each, string_bytes, option_map};
ghost use Rattle.program_edge.specs.NamedSources.{word_source, openings};
ghost use Rattle.program_edge.specs.Told.{EndingTold};
ghost use Rattle.station_commands.specs.Station.{part_named, part_of, slot_part, ledger_part, key_part, RunsStation};
ghost use Rattle.station_commands.specs.Station.{station_usage, MayMakeFile};

use adopt_commands::adopts_words;
use bus_port::{Sink, Source};
use bus_store_commands::{asks_over_bus, bus_check_words, grow_words, make_words};
use cut_disk::CutDisk;
use derive_commands::derive_words;
use file_disk::DiskOpener;
use keyfile_commands::keyfile_words;
use ledger_commands::{ledgers_words, word_at};
use program_edge::{Opener, Refusal, WordSource, tell_refusal};
use slot_commands::slots_words;
use std::alloc::Global;

/// What the arguments name.
#[derive(Clone, Copy, Debug, PartialEq, Eq)]
pub enum StationPart {
    /// `slots`: what a unit's store holds.
    Slots,
    /// `slots check FILE BUS`: what is wrong with a store over the routes of its node.
    BusCheck,
    /// `slots make`: a store for the routes of a node's bus.
    Making,
    /// `slots grow`: cells for the routes that a node's bus has more.
    Growth,
    /// `ledger`: what ledgers hold.
    Ledger,
    /// `ledger adopt`, `import` and `merge`: entries that a ledger takes over.
    Adoption,
    /// `key`: messages and boot MACs with keys from files.
    Key,
    /// `key derive`: a unit's key from a master key.
    Derivation,
}

/// The sources of the files that the other arguments named, and the disks, as the run left them.
#[derive(Drop)]
pub enum StationFiles<O: Source, I: Source, D: CutDisk> {
    /// That of a unit's store.
    Store(WordSource<O, I>),
    /// That of a unit's store, and that of a bus file.
    StoreAndBus(WordSource<O, I>, WordSource<O, I>),
    /// That of a bus file, and the disk of a store that was to be made, if it was opened.
    Made(WordSource<O, I>, Option<D>),
    /// That of a bus file, and the disk of a store that was to grow, if it was opened.
    Grown(WordSource<O, I>, Option<D>),
    /// Those of the ledgers that were opened.
    Ledgers(Vec<WordSource<O, I>>),
    /// That of a file whose entries a ledger was to take over, and the ledger's disk; each at most one.
    Adopted(Vec<WordSource<O, I>>, Vec<D>),
    /// Those of two key files, or of a key file and an image.
    Keys(WordSource<O, I>, WordSource<O, I>),
    /// That of a master key's file.
    Master(WordSource<O, I>),
    /// Nothing was asked for.
    Nothing,
}

/// Runs what the arguments ask for over the files that they name. It gives the status that the program ends with, and
/// the sources of the files and the disks as the run left them. `-` names the input, which is taken then; a second `-`
/// is a missing source. If the first argument is another one nothing is opened, and the status is 2, or 6 if the sink
/// failed. Only `slots make` and `ledger` with `--new` may make a file.
pub fn station_words<O: Opener, P: DiskOpener, I: Source + Drop, K: Sink>(
    alloc: Global,
    opener: &mut O,
    disk_opener: &mut P,
    input: &mut Option<I>,
    words: &[String],
    sink: &mut K,
) -> (u8, StationFiles<O::Opened, I, P::Opened>)
    ensures promises { RunsStation (O.opens opener.old) (P.opens disk_opener.old) (word_source O.Opened.state I.state)
        P.Opened.state (each string_bytes words.now)
        (record {
          before = openings (O.opened opener.old) (option_map I.state input.old);
          after = openings (O.opened opener.new) (option_map I.state input.new);
          disks_before = P.opened disk_opener.old;
          disks_after = P.opened disk_opener.new;
        })
        result.1 (record { before = K.state sink.old; after = K.state sink.new; status = result.0 }) }
    // With such arguments the file of the disk that was opened was made, if it wasn't there. No other file was made.
    ensures makes { MayMakeFile (each string_bytes words.now)
        → (opened : List (List ℕ)) × (P.opened disk_opener.new ≡ P.opened disk_opener.old ++ opened)
        × (P.made disk_opener.new ≡ P.made disk_opener.old ++ opened) }
    ensures none_made { ¬ MayMakeFile (each string_bytes words.now) → P.made disk_opener.new ≡ P.made disk_opener.old }
{
    let rest = after_part(words);
    let Some(part) = part_of(words) else {
        let status = tell_usage(sink);
        return (status, StationFiles::Nothing);
    };
    match part {
        StationPart::Slots => {
            let (status, file) = slots_words(alloc, opener, input, rest, sink);
            (status, StationFiles::Store(file))
        }
        StationPart::BusCheck => {
            let (status, file, bus) = bus_check_words(alloc, opener, input, rest, sink);
            (status, StationFiles::StoreAndBus(file, bus))
        }
        StationPart::Making => {
            let (status, bus, disk) = make_words(alloc, opener, disk_opener, input, rest, sink);
            (status, StationFiles::Made(bus, disk))
        }
        StationPart::Growth => {
            let (status, bus, disk) = grow_words(alloc, opener, disk_opener, input, rest, sink);
            (status, StationFiles::Grown(bus, disk))
        }
        StationPart::Ledger => {
            let (status, files) = ledgers_words(alloc, opener, input, rest, sink);
            (status, StationFiles::Ledgers(files))
        }
        StationPart::Adoption => {
            let (status, files, disks) = adopts_words(
                alloc,
                opener,
                disk_opener,
                input,
                rest,
                sink,
            );
            (status, StationFiles::Adopted(files, disks))
        }
        StationPart::Key => {
            let (status, first, second) = keyfile_words(alloc, opener, input, rest, sink);
            (status, StationFiles::Keys(first, second))
        }
        StationPart::Derivation => {
            let (status, file) = derive_words(alloc, opener, input, rest, sink);
            (status, StationFiles::Master(file))
        }
    }
}

/// Prints the usage line.
fn tell_usage<K: Sink>(sink: &mut K) -> u8
    ensures { EndingTold (K.state sink.old) (K.state sink.new) station_usage 2 result }
{
    tell_refusal(
        sink,
        &Refusal::fixed(2, "usage: station slots, ledger, key\n"),
    )
}

/// What the arguments name.
fn part_of(words: &[String]) -> Option<StationPart>
    ensures { result ≡ part_of (each string_bytes words.now) }
{
    let checks_over_bus = asks_over_bus("check", after_part(words));
    part_named(word_at(words, 1), word_at(words, 2), checks_over_bus)
}

/// The part of these names; of `slots` the check over a bus, if the arguments ask for that.
fn part_named(name: &str, next: &str, checks_over_bus: bool) -> Option<StationPart>
    ensures { result ≡ part_named name.now next.now checks_over_bus }
{
    if name == "slots" {
        return Some(slot_part(next, checks_over_bus));
    }
    if name == "ledger" {
        return Some(ledger_part(next));
    }
    if name == "key" {
        Some(key_part(next))
    } else {
        None
    }
}

/// What arguments after `slots` name, of which this is the first.
fn slot_part(name: &str, checks_over_bus: bool) -> StationPart
    ensures { result ≡ slot_part name.now checks_over_bus }
{
    if name == "make" {
        StationPart::Making
    } else if name == "grow" {
        StationPart::Growth
    } else if checks_over_bus {
        StationPart::BusCheck
    } else {
        StationPart::Slots
    }
}

/// What this argument after `ledger` names.
fn ledger_part(name: &str) -> StationPart
    ensures { result ≡ ledger_part name.now }
{
    if name == "adopt" || name == "import" || name == "merge" {
        StationPart::Adoption
    } else {
        StationPart::Ledger
    }
}

/// What this argument after `key` names.
fn key_part(name: &str) -> StationPart
    ensures { result ≡ key_part name.now }
{
    if name == "derive" {
        StationPart::Derivation
    } else {
        StationPart::Key
    }
}

/// The arguments after the first.
fn after_part(words: &[String]) -> &[String]
    ensures { each string_bytes result.now ≡ drop 1 (each string_bytes words.now) }
{
    match words {
        [] => words,
        [_name, rest @ ..] => rest,
    }
}
