//! What the words after `slots` ask for.
ghost use Rattle.std.specs.Prelude.{map as each, string_bytes, Some};
ghost use Rattle.slot_commands.specs.SlotTasks.{slots_asked, task_named, reply_named, reply_asked};
ghost use Rattle.slot_commands.specs.TaskSteps.{AnswersAsked};

use key_slots::SlotId;
use memory_update::Uid;
use program_edge::Refusal;

/// Which reply is asked for.
#[derive(Clone, Copy, Debug, PartialEq, Eq, Drop)]
pub struct ReplyAsked {
    /// The identifier of the unit's engine, not zero.
    pub uid: Uid,
    /// The slot that was updated.
    pub id: SlotId,
    /// The slot whose key authorised the update.
    pub auth: SlotId,
}

/// What is asked of a unit's store that is only read.
#[derive(Clone, Copy, Debug, PartialEq, Eq, Drop)]
pub enum SlotTask {
    /// What each cell holds.
    List,
    /// Which cells are damaged or another's.
    Check,
    /// The reply by which the engine confirms what a slot holds.
    Reply(ReplyAsked),
}

const USAGE: &str = "usage: station slots list, check, reply, make, grow\n";

/// The task of these words, or the first refusal: 2 if they are malformed, 3 with the first value that isn't of its
/// form. The file is value 1.
pub fn task_in(words: &[String]) -> Result<SlotTask, Refusal>
    ensures { AnswersAsked (slots_asked (each string_bytes words.now)) result }
{
    match words {
        [name, _file] => task_of_name(name.as_str()),
        [name, _file, uid, id, auth] => {
            task_of_values(name.as_str(), uid.as_str(), id.as_str(), auth.as_str())
        }
        _ => Err(Refusal::fixed(2, USAGE)),
    }
}

/// The task of this name that has no further values.
fn task_of_name(name: &str) -> Result<SlotTask, Refusal>
    ensures { AnswersAsked (task_named name.now) result }
{
    if name == "list" {
        Ok(SlotTask::List)
    } else if name == "check" {
        Ok(SlotTask::Check)
    } else {
        Err(Refusal::fixed(2, USAGE))
    }
}

/// The task of this name that has three further values.
fn task_of_values(name: &str, uid: &str, id: &str, auth: &str) -> Result<SlotTask, Refusal>
    ensures { AnswersAsked (reply_named name.now uid.now id.now auth.now) result }
{
    if name == "reply" {
        reply_of(uid, id, auth)
    } else {
        Err(Refusal::fixed(2, USAGE))
    }
}

/// The reply that three values ask for.
fn reply_of(uid: &str, id: &str, auth: &str) -> Result<SlotTask, Refusal>
    ensures { AnswersAsked (Some (reply_asked uid.now id.now auth.now)) result }
{
    let Some(uid) = secoc_words::engine_uid(uid.as_bytes()) else {
        return Err(Refusal::fixed(3, "value 2\n"));
    };
    let Some(id) = secoc_words::slot(id.as_bytes()) else {
        return Err(Refusal::fixed(3, "value 3\n"));
    };
    let Some(auth) = secoc_words::slot(auth.as_bytes()) else {
        return Err(Refusal::fixed(3, "value 4\n"));
    };
    Ok(SlotTask::Reply(ReplyAsked { uid, id, auth }))
}
