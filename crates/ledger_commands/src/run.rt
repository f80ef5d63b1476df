//! The commands of `ledger` that only read: each file that the arguments name, one after another.
ghost use Rattle.std.specs.Prelude.{◌≡◌, ◌≤◌, ◌++◌, if◌then◌else◌, OnOk, [], map as each, string_bytes, option_map, length, IfOk, IfErr};
ghost use Rattle.std.specs.Vec.{vec_len, vec_capacity};
ghost use Rattle.program_edge.specs.NamedSources.{word_source, openings};
ghost use Rattle.key_campaign.specs.Entries.{place_count};
ghost use Rattle.ledger_commands.specs.LedgerRows.{LacksLedgerFile, task_text, is_found};
ghost use Rattle.ledger_commands.specs.ReadSteps.{AnswersLedger, PushesLedgers, EndsReading};

use crate::reading::read_ledger;
use crate::tasks::{ReadTask, ledgers_in};
use crate::texts::{push_backup, push_entries, push_open, push_shown};
use any_cells::AnyCells;
use bus_port::{Sink, Source};
use cut_disk::MemDisk;
use key_campaign::Ledger;
use program_edge::{DONE, Opener, Refusal, WordSource, open_word, read_input, tell, tell_refusal};
use std::alloc::{AllocError, Global};

/// The status if an entry that is asked for isn't there.
const NOT_THERE: u8 = 1;

/// Does a task over the ledgers that the arguments name, which are only read. Gives the status that the program ends
/// with, and the sources, as they were left. Each file is opened and read before the next, and all before anything is
/// printed.
pub fn read_words<O: Opener, I: Source + Drop, K: Sink>(
    alloc: Global,
    opener: &mut O,
    input: &mut Option<I>,
    task: &ReadTask,
    words: &[String],
    sink: &mut K,
) -> (u8, Vec<WordSource<O::Opened, I>>)
    requires { 2 ≤ length words.now }
    ensures { EndsReading (O.opens opener.old)
        (openings (O.opened opener.old) (option_map I.state input.old))
        (openings (O.opened opener.new) (option_map I.state input.new))
        task.now (each string_bytes words.now)
        (each (word_source O.Opened.state I.state) result.1.items)
        (record { before = K.state sink.old; after = K.state sink.new; status = result.0 }) }
{
    let ledgers = ledgers_in(task, words);
    let mut files = match Vec::with_capacity(alloc, ledgers.len()) {
        Ok(files) => files,
        Err(AllocError) => {
            let unopened = Vec::new(alloc);
            let refusal = Refusal::no_memory();
            return (tell_refusal(sink, &refusal), unopened);
        }
    };
    let mut text = Vec::new(alloc);
    match push_ledgers(alloc, opener, input, task, ledgers, &mut files, &mut text) {
        Ok(found) => {
            let status = tell(sink, text.as_slice(), status_of(found));
            (status, files)
        }
        Err(refusal) => (tell_refusal(sink, &refusal), files),
    }
}

/// The status if all that was asked for was found, or not.
fn status_of(found: bool) -> u8
    ensures { result ≡ if found then 0 else 1 }
{
    if found { DONE } else { NOT_THERE }
}

/// Adds what the task comes to over each ledger that these arguments name; whether all that it asks for was found.
fn push_ledgers<O: Opener, I: Source + Drop>(
    alloc: Global,
    opener: &mut O,
    input: &mut Option<I>,
    task: &ReadTask,
    ledgers: &[String],
    files: &mut Vec<WordSource<O::Opened, I>>,
    text: &mut Vec<u8>,
) -> Result<bool, Refusal>
    requires room { length ledgers.now ≤ vec_capacity files.old }
    requires none { files.old.items ≡ [] }
    requires len { vec_len files.old ≡ 0 }
    requires blank { text.old.items ≡ [] }
    ensures { PushesLedgers (O.opens opener.old)
        (openings (O.opened opener.old) (option_map I.state input.old))
        (openings (O.opened opener.new) (option_map I.state input.new))
        task.now (each string_bytes ledgers.now)
        (each (word_source O.Opened.state I.state) files.new.items) text.new.items result }
{
    let mut all_found = true;
    for ledger in ledgers {
        let mut file = open_word(opener, input, Some(ledger.as_str()));
        let pushed = push_ledger(alloc, task, &mut file, text);
        files.push_reserved(file);
        match pushed {
            Ok(found) => all_found = all_found && found,
            Err(refusal) => return Err(refusal),
        }
    }
    Ok(all_found)
}

/// Adds what the task comes to over the ledger of a file; whether what it asks for was found.
fn push_ledger<S: Source>(
    alloc: Global,
    task: &ReadTask,
    file: &mut S,
    text: &mut Vec<u8>,
) -> Result<bool, Refusal>
    ensures read { IfOk result (AnswersLedger task.now
        (record { before = S.state file.old; after = S.state file.new }) text.old.items text.new.items) }
    ensures refused { IfErr result (LacksLedgerFile
        (record { before = S.state file.old; after = S.state file.new })) }
{
    let bytes = match read_input(alloc, file) {
        Ok(bytes) => bytes,
        Err(fault) => return Err(Refusal::from(fault)),
    };
    let ledger = match read_ledger(alloc, bytes.as_slice()) {
        Ok(ledger) => ledger,
        Err(refusal) => return Err(refusal),
    };
    match push_answer(task, &ledger, text) {
        Ok(()) => Ok(is_found(task, &ledger)),
        Err(AllocError) => Err(Refusal::no_memory()),
    }
}

/// Adds what the task comes to over a ledger.
fn push_answer(
    task: &ReadTask,
    ledger: &Ledger<AnyCells<MemDisk>>,
    text: &mut Vec<u8>,
) -> Result<(), AllocError>
    requires { length ledger.now.campaign.entries ≡ place_count }
    ensures { OnOk result (text.new.items ≡ text.old.items ++ task_text task.now ledger.now.campaign.entries) }
{
    match *task {
        ReadTask::List => push_entries(text, ledger),
        ReadTask::Open => push_open(text, ledger),
        ReadTask::Export => push_backup(text, ledger),
        ReadTask::Show { uid, id } => push_shown(text, ledger.show(uid, id)),
    }
}

/// Whether what the task asks for is there.
fn is_found(task: &ReadTask, ledger: &Ledger<AnyCells<MemDisk>>) -> bool
    ensures { result ≡ is_found task.now ledger.now.campaign.entries }
{
    match *task {
        ReadTask::List | ReadTask::Open | ReadTask::Export => true,
        ReadTask::Show { uid, id } => ledger.show(uid, id).is_some(),
    }
}
