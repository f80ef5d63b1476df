//! What a task over the arguments alone comes to.
ghost use Rattle.std.specs.Prelude.{◌≡◌, IfOk};
ghost use Rattle.key_commands.specs.Steps.{Does};
ghost use Rattle.key_commands.specs.declared.tasks.Task.TheVariants.{Words};
ghost use Rattle.key_commands.specs.declared.tasks.WordTask.TheVariants.{Make, Read, Confirm, Bootmac};

use crate::image::Image;
use crate::tasks::WordTask;
use crate::texts::{mac_text, request_text, update_text};
use memory_update::{Reply, Request, Unseal, Update, build, is_confirmed, unseal};
use program_edge::Refusal;
use secure_boot::boot_mac;
use she_aes::{Block, expand};
use std::alloc::{AllocError, Global};

/// Does a task: the text that is printed if it is done, or why its messages are refused.
pub fn do_task(alloc: Global, task: &WordTask) -> Result<String, Refusal>
    ensures { Does (Words task.now) result }
{
    match task {
        WordTask::Make { update, authkey } => make(alloc, update, authkey),
        WordTask::Read { request, authkey } => read(alloc, request, authkey),
        WordTask::Confirm { reply, update } => confirm(alloc, reply, update),
        WordTask::Bootmac { key, image } => boot(alloc, key, image),
    }
}

/// Makes the request.
fn make(alloc: Global, update: &Update, authkey: &Block) -> Result<String, Refusal>
    ensures { Does (Words (Make update.now authkey.now)) result }
{
    match request_text(alloc, &build(update, authkey)) {
        Ok(text) => Ok(text),
        Err(AllocError) => Err(Refusal::no_memory()),
    }
}

/// Reads the request.
fn read(alloc: Global, request: &Request, authkey: &Block) -> Result<String, Refusal>
    ensures { Does (Words (Read request.now authkey.now)) result }
{
    match unseal(request, authkey) {
        Ok(update) => match update_text(alloc, &update) {
            Ok(text) => Ok(text),
            Err(AllocError) => Err(Refusal::no_memory()),
        },
        Err(Unseal::BadId) => Err(Refusal::fixed(1, "BadId\n")),
        Err(Unseal::BadMac) => Err(Refusal::fixed(1, "BadMac\n")),
    }
}

/// Checks the reply.
fn confirm(alloc: Global, reply: &Reply, update: &Update) -> Result<String, Refusal>
    ensures { Does (Words (Confirm reply.now update.now)) result }
{
    if !is_confirmed(reply, update, update.uid) {
        return Err(Refusal::fixed(1, "not confirmed\n"));
    }
    match String::from_str(alloc, "confirmed\n") {
        Ok(text) => Ok(text),
        Err(AllocError) => Err(Refusal::no_memory()),
    }
}

/// Makes the boot MAC.
fn boot(alloc: Global, key: &Block, image: &Image) -> Result<String, Refusal>
    ensures { Does (Words (Bootmac key.now image.now)) result }
{
    match mac_text(alloc, &boot_mac(&expand(key), image.bytes())) {
        Ok(text) => Ok(text),
        Err(AllocError) => Err(Refusal::no_memory()),
    }
}
