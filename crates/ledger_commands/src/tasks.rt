//! What the arguments after `ledger` ask for.
ghost use Rattle.std.specs.Prelude.{◌≡◌, ◌≤◌, map as each, string_bytes, Some, Ok, IfOk, IfErr, length};
ghost use Rattle.text_lines.specs.Readings.{nth_word};
ghost use Rattle.ledger_commands.specs.LedgerTasks.{ledger_asked, ledgers_named, asks, asks_some};
ghost use Rattle.ledger_commands.specs.LedgerTasks.{show_asked};
ghost use Rattle.ledger_commands.specs.TaskRows.{IsNoTask, GivesTask};

use crate::refusals::{slot_refusal, unit_refusal, usage_refusal};
use key_slots::SlotId;
use memory_update::Uid;
use program_edge::Refusal;

/// What is asked of ledgers that are only read.
#[derive(Clone, Copy, Debug, PartialEq, Eq, Drop)]
pub enum ReadTask {
    /// The entries of each.
    List,
    /// Those that no reply confirmed.
    Open,
    /// A backup.
    Export,
    /// One entry.
    Show {
        /// The unit's identifier, not zero.
        uid: Uid,
        /// The slot.
        id: SlotId,
    },
}

/// The task of these arguments, or the first refusal: 2 if they are malformed, 3 with the first value that isn't of its
/// form. The ledger is value 1.
#[tactic(auto, unfolding(crate::specs::LedgerTasks::ledger_asked))]
pub fn task_in(words: &[String]) -> Result<ReadTask, Refusal>
    ensures task { IfOk result (λ task. ledger_asked (each string_bytes words.now) ≡ Some (Ok task)) }
    ensures many { IfOk result (λ _. 2 ≤ length words.now) }
    ensures refused { IfErr result (IsNoTask (ledger_asked (each string_bytes words.now))) }
{
    if asks_some(words, "list") {
        return Ok(ReadTask::List);
    }
    if asks_some(words, "open") {
        return Ok(ReadTask::Open);
    }
    if asks(words, "export", 2) {
        return Ok(ReadTask::Export);
    }
    if asks(words, "show", 4) {
        return show_in(word_at(words, 3), word_at(words, 4));
    }
    Err(usage_refusal())
}

/// The arguments that name the ledgers of a task that only reads.
pub fn ledgers_in<'a>(task: &ReadTask, words: &'a [String]) -> &'a [String]
    requires { 2 ≤ length words.now }
    ensures { each string_bytes result.now ≡ ledgers_named task.now (each string_bytes words.now) }
{
    match *task {
        ReadTask::List | ReadTask::Open => &words[1..],
        ReadTask::Export | ReadTask::Show { .. } => &words[1..2],
    }
}

/// Whether there are so many arguments, the first of which is this one.
fn asks(words: &[String], name: &str, count: usize) -> bool
    ensures { result ≡ asks (each string_bytes words.now) name.now count }
{
    words.len() == count && word_at(words, 1) == name
}

/// Whether there are at least two.
fn asks_some(words: &[String], name: &str) -> bool
    ensures { result ≡ asks_some (each string_bytes words.now) name.now }
{
    words.len() >= 2 && word_at(words, 1) == name
}

/// The argument with this number, from 1; empty if there are fewer.
pub fn word_at(words: &[String], number: usize) -> &str
    requires { 1 ≤ number }
    ensures { result.now ≡ nth_word (each string_bytes words.now) number }
{
    if number > words.len() {
        return "";
    }
    words[number - 1].as_str()
}

fn show_in(uid: &str, id: &str) -> Result<ReadTask, Refusal>
    ensures { GivesTask (show_asked uid.now id.now) result }
{
    let Some(uid) = secoc_words::engine_uid(uid.as_bytes()) else {
        return Err(unit_refusal());
    };
    let Some(id) = secoc_words::slot(id.as_bytes()) else {
        return Err(slot_refusal());
    };
    Ok(ReadTask::Show { uid, id })
}
