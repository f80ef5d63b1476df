//! The reply by which a unit's engine confirms what a slot holds.
ghost use Rattle.std.specs.Prelude.{◌≡◌, ◌≤◌, ◌⊎◌, ◌^◌, length, IfOk, IfErr};
ghost use Rattle.program_edge.specs.Rows.{row_of, memory_row};
ghost use Rattle.key_commands.specs.declared.lines.LoadLine.TheVariants.{Loaded};
ghost use Rattle.key_commands.specs.LoadTexts.{load_text};
ghost use Rattle.slot_commands.specs.Replies.{RepliesFrom, CellReplies, SlotReplies};

use crate::reading::read_store;
use crate::refusals::bad_slot;
use crate::tasks::ReplyAsked;
use cell_store::Cells;
use key_commands::{LoadLine, LoadText};
use key_slots::{Slot, may_authorise};
use memory_update::{Reply, Update, confirm_for};
use program_edge::Refusal;
use run_driver::LineText;
use slot_disk::slot_in;
use std::alloc::Global;

/// The line that `keytool load` printed when the slot got what it holds in the store in these bytes. Errors, in their
/// order: 1 and `refused BadPair`; 9 and the first cause why the store or the slot can't be read; 1 and `refused
/// KEY_EMPTY`; or 7 if memory is out.
pub fn reply_from(alloc: Global, bytes: &[u8], asked: &ReplyAsked) -> Result<Vec<u8>, Refusal>
    requires { length bytes.now ≤ 2 ^ 24 }
    ensures replied { IfOk result (λ text. RepliesFrom bytes.now asked.now (row_of 0 text.items)) }
    ensures refused { IfErr result (λ row. RepliesFrom bytes.now asked.now row ⊎ (row ≡ memory_row)) }
{
    if !may_authorise(asked.id, asked.auth) {
        return Err(Refusal::fixed(1, "refused BadPair\n"));
    }
    let (_, store) = read_store(alloc, bytes)?;
    let mut cell = [0; 32];
    store.get(u16::from(asked.id.number()), &mut cell);
    reply_of_cell(alloc, &cell, asked)
}

/// The line that confirms what this cell holds.
fn reply_of_cell(alloc: Global, cell: &[u8; 32], asked: &ReplyAsked) -> Result<Vec<u8>, Refusal>
    ensures replied { IfOk result (λ text. CellReplies asked.now cell.now (row_of 0 text.items)) }
    ensures refused { IfErr result (λ row. CellReplies asked.now cell.now row ⊎ (row ≡ memory_row)) }
{
    match slot_in(cell) {
        Some(slot) => reply_of_slot(alloc, &slot, asked),
        None => Err(bad_slot(alloc, asked.id)),
    }
}

/// The line that confirms what this slot holds.
fn reply_of_slot(alloc: Global, slot: &Slot, asked: &ReplyAsked) -> Result<Vec<u8>, Refusal>
    ensures replied { IfOk result (λ text. SlotReplies asked.now slot.now (row_of 0 text.items)) }
    ensures refused { IfErr result (λ row. SlotReplies asked.now slot.now row ⊎ (row ≡ memory_row)) }
{
    match slot {
        Slot::Empty => Err(Refusal::fixed(1, "refused KEY_EMPTY\n")),
        Slot::Filled {
            key,
            counter,
            flags,
        } => {
            let update = Update {
                uid: asked.uid,
                id: asked.id,
                auth: asked.auth,
                counter: *counter,
                flags: *flags,
                key: *key,
            };
            reply_text(alloc, confirm_for(&update, asked.uid))
        }
    }
}

/// The line of this reply.
fn reply_text(alloc: Global, reply: Reply) -> Result<Vec<u8>, Refusal>
    ensures text { IfOk result (λ text. text.items ≡ load_text (Loaded reply)) }
    ensures refused { IfErr result (λ row. row ≡ memory_row) }
{
    let mut text = Vec::new(alloc);
    match LoadText::append(alloc, 1, &LoadLine::Loaded { reply }, &mut text) {
        Ok(()) => Ok(text),
        Err(_) => Err(Refusal::no_memory()),
    }
}
