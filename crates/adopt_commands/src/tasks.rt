//! What the arguments after `ledger` ask for, if entries are to be taken over.
ghost use Rattle.std.specs.Prelude.{◌≡◌, ◌≤◌, map as each, string_bytes, Some, Ok, IfOk, IfErr};
ghost use Rattle.adopt_commands.specs.AdoptTasks.{may_make, ledger_place, adoption_asked, task_after, asks_of};
ghost use Rattle.adopt_commands.specs.AdoptTasks.{one_asked, IsOneEntry};
ghost use Rattle.adopt_commands.specs.AdoptRows.{AsksNoAdoption, GivesOne};

use crate::refusals::{counter_refusal, slot_refusal, unit_refusal, usage_refusal};
use key_campaign::LedgerEntry;
use ledger_backups::{entry_counter, entry_slot};
use ledger_commands::word_at;
use program_edge::Refusal;

/// Which entries a ledger is to take over.
#[derive(Clone, Copy, Debug, PartialEq, Eq, Drop)]
pub enum AdoptTask {
    /// This one, which is confirmed.
    One(LedgerEntry),
    /// Those of a file.
    All(EntryFile),
}

/// What a file with entries is.
#[derive(Clone, Copy, Debug, PartialEq, Eq, Drop)]
pub enum EntryFile {
    /// The text of a backup.
    Backup,
    /// Another ledger.
    Ledger,
}

/// Whether `--new` stands after the command's name: if there is no ledger one is made.
pub fn may_make(words: &[String]) -> bool
    ensures { result ≡ may_make (each string_bytes words.now) }
{
    word_at(words, 2) == "--new"
}

/// The place of the ledger among the arguments, counted from 1.
pub fn ledger_place(words: &[String]) -> usize
    ensures place { result ≡ ledger_place (each string_bytes words.now) }
    ensures first { 1 ≤ result }
    ensures few { result ≤ 3 }
{
    if may_make(words) { 3 } else { 2 }
}

/// The task of these arguments, or the first refusal: 2 if they are malformed, 3 with the first value that isn't of its
/// form. The ledger is value 1. `--new` is no value.
pub fn task_in(words: &[String]) -> Result<AdoptTask, Refusal>
    ensures task { IfOk result (λ task. adoption_asked (each string_bytes words.now) ≡ Some (Ok task)) }
    ensures one { IfOk result IsOneEntry }
    ensures refused { IfErr result (AsksNoAdoption (adoption_asked (each string_bytes words.now))) }
{
    task_after(ledger_place(words), words)
}

/// The same, if the ledger has this place.
#[tactic(auto, unfolding(crate::specs::AdoptTasks::task_after))]
fn task_after(place: usize, words: &[String]) -> Result<AdoptTask, Refusal>
    requires { place ≤ 3 }
    ensures task { IfOk result (λ task. task_after place (each string_bytes words.now) ≡ Some (Ok task)) }
    ensures one { IfOk result IsOneEntry }
    ensures refused { IfErr result (AsksNoAdoption (task_after place (each string_bytes words.now))) }
{
    if asks_of(words, "import", place + 1) {
        return Ok(AdoptTask::All(EntryFile::Backup));
    }
    if asks_of(words, "merge", place + 1) {
        return Ok(AdoptTask::All(EntryFile::Ledger));
    }
    if asks_of(words, "adopt", place + 3) {
        return one_in(
            word_at(words, place + 1),
            word_at(words, place + 2),
            word_at(words, place + 3),
        );
    }
    Err(usage_refusal())
}

/// Whether there are so many arguments, the first of which is this one.
fn asks_of(words: &[String], name: &str, count: usize) -> bool
    ensures { result ≡ asks_of (each string_bytes words.now) name.now count }
{
    words.len() == count && word_at(words, 1) == name
}

fn one_in(uid: &str, id: &str, counter: &str) -> Result<AdoptTask, Refusal>
    ensures gives { GivesOne (one_asked uid.now id.now counter.now) result }
    ensures one { IfOk result IsOneEntry }
{
    let Some(uid) = secoc_words::engine_uid(uid.as_bytes()) else {
        return Err(unit_refusal());
    };
    let Some(id) = entry_slot(id.as_bytes()) else {
        return Err(slot_refusal());
    };
    let Some(counter) = entry_counter(counter.as_bytes()) else {
        return Err(counter_refusal());
    };
    Ok(AdoptTask::One(LedgerEntry {
        uid,
        id,
        counter,
        confirmed: true,
    }))
}
