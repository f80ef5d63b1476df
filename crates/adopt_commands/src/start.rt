//! The arguments after `ledger`: the ledger that they name takes over entries.
ghost use Rattle.std.specs.Prelude.{◌≡◌, ◌+◌, ◌<◌, ◌^◌, [], ◌∷◌, ◌++◌, true, false, if◌then◌else◌, All};
ghost use Rattle.std.specs.Prelude.{map as each, string_bytes, option_map, length, IfOk, OnOk, OnErr};
ghost use Rattle.text_lines.specs.Readings.{nth_word};
ghost use Rattle.ledger_commands.specs.Named.{OverAllNamed};
ghost use Rattle.file_disk.specs.NamedDisks.{IsOpenedBy, OpenedByWords};
ghost use Rattle.program_edge.specs.NamedSources.{word_source, openings};
ghost use Rattle.key_campaign.specs.Entries.{IsEntry};
ghost use Rattle.adopt_commands.specs.AdoptTasks.{may_make, ledger_place};
ghost use Rattle.adopt_commands.specs.AdoptFiles.{EndsAdoptWords, EndsAdoptTask, EndsInto, ledger_word};
ghost use Rattle.adopt_commands.specs.AdoptsOver.{AdoptsOver, MakesOpened};

use crate::adopting::adopt_over;
use crate::entries::{entries_of, one_entry};
use crate::tasks::{AdoptTask, EntryFile, ledger_place, may_make, task_in};
use bus_port::{Sink, Source};
use file_disk::{DiskOpener, open_disk, open_standing_disk};
use key_campaign::LedgerEntry;
use ledger_commands::word_at;
use program_edge::{Opener, Refusal, WordSource, open_word, tell_refusal};
use std::alloc::{AllocError, Global};

/// Lets the ledger that the second argument names, or after `--new` the third, take over what the arguments say. It
/// gives the status that the program ends with, and the source of the file and the disk as they were left. `-` names
/// the input, which is taken then. The file is read whole before the disk is opened, so that one that is refused makes
/// no file. Without `--new` no file and no ledger is made.
///
/// The statuses are looked for in the order 2, 3, then 5, 8, 4 and 9 of the file, 9 and 10 of the disk, 1.
pub fn adopts_words<O: Opener, P: DiskOpener, I: Source + Drop, K: Sink>(
    alloc: Global,
    opener: &mut O,
    disk_opener: &mut P,
    input: &mut Option<I>,
    words: &[String],
    sink: &mut K,
) -> (u8, Vec<WordSource<O::Opened, I>>, Vec<P::Opened>)
    // All that is promised, over the file and the disk. `RunsAdoption` of specs/AdoptRuns.antt has a member for each
    // promise, in the order of the table of answers.
    ensures promises { AdoptsOver (O.opens opener.old) (P.opens disk_opener.old)
        (record {
          before = openings (O.opened opener.old) (option_map I.state input.old);
          after = openings (O.opened opener.new) (option_map I.state input.new);
          disks_before = P.opened disk_opener.old;
          disks_after = P.opened disk_opener.new;
        })
        (each string_bytes words.now)
        (each (word_source O.Opened.state I.state) result.1.items) (each P.Opened.state result.2.items)
        (record { before = K.state sink.old; after = K.state sink.new; status = result.0 }) }
    // With `--new` the file of the disk that was opened was made, if it wasn't there. No other file was made.
    ensures makes { MakesOpened (may_make (each string_bytes words.now))
        (P.opened disk_opener.old) (P.opened disk_opener.new) (P.made disk_opener.old) (P.made disk_opener.new) }
    ensures none_made { may_make (each string_bytes words.now) ≡ false
        → P.made disk_opener.new ≡ P.made disk_opener.old }
    ensures unmade { P.opened disk_opener.new ≡ P.opened disk_opener.old
        → P.made disk_opener.new ≡ P.made disk_opener.old }
{
    adopt_asked(alloc, opener, disk_opener, input, words, sink)
}

/// Does what the arguments ask for.
fn adopt_asked<O: Opener, P: DiskOpener, I: Source + Drop, K: Sink>(
    alloc: Global,
    opener: &mut O,
    disk_opener: &mut P,
    input: &mut Option<I>,
    words: &[String],
    sink: &mut K,
) -> (u8, Vec<WordSource<O::Opened, I>>, Vec<P::Opened>)
    ensures ends { EndsAdoptWords (O.opens opener.old) (P.opens disk_opener.old)
        (record {
          before = openings (O.opened opener.old) (option_map I.state input.old);
          after = openings (O.opened opener.new) (option_map I.state input.new);
          disks_before = P.opened disk_opener.old;
          disks_after = P.opened disk_opener.new;
        })
        (each string_bytes words.now)
        (each (word_source O.Opened.state I.state) result.1.items) (each P.Opened.state result.2.items)
        (record { before = K.state sink.old; after = K.state sink.new; status = result.0 }) }
    ensures makes { MakesOpened (may_make (each string_bytes words.now))
        (P.opened disk_opener.old) (P.opened disk_opener.new) (P.made disk_opener.old) (P.made disk_opener.new) }
{
    match task_in(words) {
        Ok(AdoptTask::One(entry)) => {
            let unopened = Vec::new(alloc);
            let (status, disks) = adopt_one(alloc, disk_opener, &entry, words, sink);
            (status, unopened, disks)
        }
        Ok(AdoptTask::All(kind)) => {
            adopt_file(alloc, opener, disk_opener, input, kind, words, sink)
        }
        Err(refusal) => {
            let unopened = Vec::new(alloc);
            let no_disk = Vec::new(alloc);
            (tell_refusal(sink, &refusal), unopened, no_disk)
        }
    }
}

/// Takes over the entry of the arguments.
fn adopt_one<P: DiskOpener, K: Sink>(
    alloc: Global,
    disk_opener: &mut P,
    entry: &LedgerEntry,
    words: &[String],
    sink: &mut K,
) -> (u8, Vec<P::Opened>)
    requires { IsEntry entry.now }
    ensures ends { EndsInto (P.opens disk_opener.old) (P.opened disk_opener.old) (P.opened disk_opener.new)
        (ledger_word (each string_bytes words.now)) (may_make (each string_bytes words.now)) true
        (entry.now ∷ []) (each P.Opened.state result.1.items)
        (record { before = K.state sink.old; after = K.state sink.new; status = result.0 }) }
    ensures makes { MakesOpened (may_make (each string_bytes words.now))
        (P.opened disk_opener.old) (P.opened disk_opener.new) (P.made disk_opener.old) (P.made disk_opener.new) }
{
    match one_entry(alloc, entry) {
        Ok(entries) => {
            let may = may_make(words);
            let ledger = word_at(words, ledger_place(words));
            adopt_into(
                alloc,
                disk_opener,
                ledger,
                entries.as_slice(),
                may,
                true,
                sink,
            )
        }
        Err(refusal) => {
            let no_disk = Vec::new(alloc);
            (tell_refusal(sink, &refusal), no_disk)
        }
    }
}

/// Takes over the entries of the file that the argument after the ledger names.
fn adopt_file<O: Opener, P: DiskOpener, I: Source + Drop, K: Sink>(
    alloc: Global,
    opener: &mut O,
    disk_opener: &mut P,
    input: &mut Option<I>,
    kind: EntryFile,
    words: &[String],
    sink: &mut K,
) -> (u8, Vec<WordSource<O::Opened, I>>, Vec<P::Opened>)
    ensures ends { OverAllNamed (O.opens opener.old)
        (openings (O.opened opener.old) (option_map I.state input.old))
        (openings (O.opened opener.new) (option_map I.state input.new))
        (nth_word (each string_bytes words.now) (ledger_place (each string_bytes words.now) + 1) ∷ [])
        (each (word_source O.Opened.state I.state) result.1.items)
        (EndsAdoptTask (P.opens disk_opener.old)
        (record {
          before = openings (O.opened opener.old) (option_map I.state input.old);
          after = openings (O.opened opener.new) (option_map I.state input.new);
          disks_before = P.opened disk_opener.old;
          disks_after = P.opened disk_opener.new;
        })
        (each string_bytes words.now) (AdoptTask.All kind) (each P.Opened.state result.2.items)
        (record { before = K.state sink.old; after = K.state sink.new; status = result.0 })) }
    ensures makes { MakesOpened (may_make (each string_bytes words.now))
        (P.opened disk_opener.old) (P.opened disk_opener.new) (P.made disk_opener.old) (P.made disk_opener.new) }
{
    let mut files = match Vec::with_capacity(alloc, 1) {
        Ok(files) => files,
        Err(AllocError) => {
            let refusal = Refusal::no_memory();
            let unopened = Vec::new(alloc);
            let no_disk = Vec::new(alloc);
            return (tell_refusal(sink, &refusal), unopened, no_disk);
        }
    };
    let place = ledger_place(words);
    let name = word_at(words, place + 1);
    let mut file = open_word(opener, input, Some(name));
    let entries = entries_of(alloc, kind, &mut file);
    files.push_reserved(file);
    match entries {
        Ok(entries) => {
            let may = may_make(words);
            let ledger = word_at(words, place);
            let entries = entries.as_slice();
            let (status, disks) = adopt_into(alloc, disk_opener, ledger, entries, may, false, sink);
            (status, files, disks)
        }
        Err(refusal) => {
            let no_disk = Vec::new(alloc);
            (tell_refusal(sink, &refusal), files, no_disk)
        }
    }
}

/// Lets the ledger that this argument names take over these entries.
fn adopt_into<P: DiskOpener, K: Sink>(
    alloc: Global,
    disk_opener: &mut P,
    word: &str,
    entries: &[LedgerEntry],
    may: bool,
    strict: bool,
    sink: &mut K,
) -> (u8, Vec<P::Opened>)
    requires few { length entries.now < 2 ^ 32 }
    requires are { All IsEntry entries.now }
    ensures ends { EndsInto (P.opens disk_opener.old) (P.opened disk_opener.old) (P.opened disk_opener.new) word.now
        may strict entries.now (each P.Opened.state result.1.items)
        (record { before = K.state sink.old; after = K.state sink.new; status = result.0 }) }
    ensures makes { MakesOpened may (P.opened disk_opener.old) (P.opened disk_opener.new)
        (P.made disk_opener.old) (P.made disk_opener.new) }
{
    match ledger_disk(alloc, disk_opener, word, may) {
        Ok(opened) => {
            let mut disks = opened;
            let status = adopt_over(alloc, entries, may, strict, sink, &mut disks);
            (status, disks)
        }
        Err(AllocError) => {
            let refusal = Refusal::no_memory();
            let no_disk = Vec::new(alloc);
            (tell_refusal(sink, &refusal), no_disk)
        }
    }
}

/// The disk of a ledger. Its file is made if it isn't there and one may be made.
fn ledger_disk<P: DiskOpener>(
    alloc: Global,
    disk_opener: &mut P,
    word: &str,
    may: bool,
) -> Result<Vec<P::Opened>, AllocError>
    ensures disk { IfOk result (λ disks. IsOpenedBy (P.opens disk_opener.old) word.now
        (each P.Opened.state disks.items)) }
    ensures noted { OnOk result (P.opened disk_opener.new ≡ P.opened disk_opener.old ++ word.now ∷ []) }
    ensures unopened { OnErr result (P.opened disk_opener.new ≡ P.opened disk_opener.old) }
    ensures made { OnOk result (P.made disk_opener.new
        ≡ P.made disk_opener.old ++ (if may then word.now ∷ [] else [])) }
    ensures unmade { OnErr result (P.made disk_opener.new ≡ P.made disk_opener.old) }
{
    if may {
        open_disk(alloc, disk_opener, word)
    } else {
        open_standing_disk(alloc, disk_opener, word)
    }
}
