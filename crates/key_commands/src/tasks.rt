//! What the values of a subcommand ask for.
ghost use Rattle.std.specs.Prelude.{◌≡◌, IfOk};
ghost use Rattle.clap.specs.Words.{rows_of, found_of};
ghost use Rattle.key_commands.specs.Subcommands.{values_of as names_of};
ghost use Rattle.key_commands.specs.Parsing.{values_in};
ghost use Rattle.key_commands.specs.Tasks.{value_at, make_of, read_of, confirm_of, boot_task, bootmac_of, load_task};
ghost use Rattle.key_commands.specs.Tasks.{task_of as task_by};
ghost use Rattle.key_commands.specs.declared.subcommands.Subcommand.TheVariants as subcommand;

use crate::image::Image;
use crate::parsing::value_of;
use crate::subcommands::Subcommand;
use basics::Block;
use clap::ArgMatches;
use key_slots::Flags;
use memory_update::{Reply, Request, Uid, Update};
use std::alloc::Global;
use text_lines::Memory;

/// What a subcommand is to do.
#[derive(Debug, Drop)]
pub enum Task {
    /// A task over the arguments alone.
    Words(WordTask),
    /// Load the requests of a source into the engine with this identifier.
    Load { uid: Uid },
}

/// What is done over the arguments alone, without the source of requests and the disks.
#[derive(Debug, Drop)]
pub enum WordTask {
    /// Make the request that puts the update into an engine whose slot `auth` holds this key.
    Make { update: Update, authkey: Block },
    /// Read the update that the request carries under this key.
    Read { request: Request, authkey: Block },
    /// Check that the reply confirms the update to the engine with the update's identifier. The flags aren't asked for.
    Confirm { reply: Reply, update: Update },
    /// Make the boot MAC of the image under the boot MAC key.
    Bootmac { key: Block, image: Image },
}

/// The first value of a subcommand that isn't of its form, by its number, counted from 1.
#[derive(Clone, Copy, Debug, PartialEq, Eq)]
pub struct BadValue {
    pub number: u8,
}

/// What the values ask a subcommand for, or the first value that isn't of its form. Memory is taken for an image alone.
pub fn task_of(
    alloc: Global,
    subcommand: Subcommand,
    matches: &ArgMatches<'_>,
) -> Result<Result<Task, BadValue>, Memory>
    ensures { IfOk result (λ asked. asked
        ≡ task_by subcommand (values_in (names_of subcommand) (rows_of (found_of matches.now)))) }
{
    match subcommand {
        Subcommand::Make => Ok(make_of(matches)),
        Subcommand::Read => Ok(read_of(matches)),
        Subcommand::Confirm => Ok(confirm_of(matches)),
        Subcommand::Bootmac => bootmac_of(alloc, matches),
        Subcommand::Load => Ok(load_task(matches)),
    }
}

#[tactic(auto, unfolding(crate::specs::Tasks::make_of))]
fn make_of(matches: &ArgMatches<'_>) -> Result<Task, BadValue>
    ensures { result ≡ make_of (values_in (names_of subcommand.Make) (rows_of (found_of matches.now))) }
{
    let uid = value_at(1, secoc_words::uid(value_of(matches, "UID")))?;
    let id = value_at(2, secoc_words::slot(value_of(matches, "ID")))?;
    let auth = value_at(3, secoc_words::slot(value_of(matches, "AUTH")))?;
    let counter = value_at(4, secoc_words::counter(value_of(matches, "COUNTER")))?;
    let flags = value_at(5, secoc_words::flags(value_of(matches, "FLAGS")))?;
    let key = value_at(6, secoc_words::key(value_of(matches, "NEWKEY")))?;
    let authkey = value_at(7, secoc_words::key(value_of(matches, "AUTHKEY")))?;
    let update = Update {
        uid,
        id,
        auth,
        counter,
        flags,
        key,
    };
    Ok(Task::Words(WordTask::Make { update, authkey }))
}

#[tactic(auto, unfolding(crate::specs::Tasks::read_of))]
fn read_of(matches: &ArgMatches<'_>) -> Result<Task, BadValue>
    ensures { result ≡ read_of (values_in (names_of subcommand.Read) (rows_of (found_of matches.now))) }
{
    let authkey = value_at(1, secoc_words::key(value_of(matches, "AUTHKEY")))?;
    let m1 = value_at(2, secoc_words::key(value_of(matches, "M1")))?;
    let m2 = value_at(3, secoc_words::two(value_of(matches, "M2")))?;
    let m3 = value_at(4, secoc_words::key(value_of(matches, "M3")))?;
    let request = Request { m1, m2, m3 };
    Ok(Task::Words(WordTask::Read { request, authkey }))
}

#[tactic(auto, unfolding(crate::specs::Tasks::confirm_of))]
fn confirm_of(matches: &ArgMatches<'_>) -> Result<Task, BadValue>
    ensures { result ≡ confirm_of (values_in (names_of subcommand.Confirm) (rows_of (found_of matches.now))) }
{
    let uid = value_at(1, secoc_words::engine_uid(value_of(matches, "UID")))?;
    let id = value_at(2, secoc_words::slot(value_of(matches, "ID")))?;
    let auth = value_at(3, secoc_words::slot(value_of(matches, "AUTH")))?;
    let counter = value_at(4, secoc_words::counter(value_of(matches, "COUNTER")))?;
    let key = value_at(5, secoc_words::key(value_of(matches, "NEWKEY")))?;
    let m4 = value_at(6, secoc_words::two(value_of(matches, "M4")))?;
    let m5 = value_at(7, secoc_words::key(value_of(matches, "M5")))?;
    let update = Update {
        uid,
        id,
        auth,
        counter,
        flags: Flags {
            write: false,
            boot: false,
            debugger: false,
            usage: false,
            wildcard: false,
        },
        key,
    };
    let reply = Reply { m4, m5 };
    Ok(Task::Words(WordTask::Confirm { reply, update }))
}

#[tactic(auto, unfolding(crate::specs::Tasks::bootmac_of))]
fn bootmac_of(alloc: Global, matches: &ArgMatches<'_>) -> Result<Result<Task, BadValue>, Memory>
    ensures { IfOk result (λ asked. asked
        ≡ bootmac_of (values_in (names_of subcommand.Bootmac) (rows_of (found_of matches.now)))) }
{
    let key = secoc_words::key(value_of(matches, "KEY"));
    let image = Image::of_word(alloc, value_of(matches, "IMAGE"))?;
    Ok(boot_task(key, image))
}

/// The boot MAC of these two values, if both are of their forms.
#[tactic(auto, unfolding(crate::specs::Tasks::boot_task))]
fn boot_task(key: Option<Block>, image: Option<Image>) -> Result<Task, BadValue>
    ensures { result ≡ boot_task key image }
{
    let key = value_at(1, key)?;
    let image = value_at(2, image)?;
    Ok(Task::Words(WordTask::Bootmac { key, image }))
}

#[tactic(auto, unfolding(crate::specs::Tasks::load_task))]
fn load_task(matches: &ArgMatches<'_>) -> Result<Task, BadValue>
    ensures { result ≡ load_task (values_in (names_of subcommand.Load) (rows_of (found_of matches.now))) }
{
    let uid = value_at(2, secoc_words::engine_uid(value_of(matches, "UID")))?;
    Ok(Task::Load { uid })
}

/// The value with this number, counted from 1, if it is of its form.
fn value_at<T: Drop>(number: u8, value: Option<T>) -> Result<T, BadValue>
    ensures { result ≡ value_at number value }
{
    value.ok_or(BadValue { number })
}
