//! The rows of bytes that give no store.
ghost use Rattle.std.specs.Prelude.{◌≡◌, ◌⊎◌, IfOk, IfErr, string_bytes};
ghost use Rattle.program_edge.specs.Rows.{row_of, memory_row};
ghost use Rattle.key_commands.specs.Opening.{TellsStoreFault, bad_slot_row, few_cells_row};

use any_cells::{fixed_fault_text, store_fault_text};
use cell_store::StoreFault;
use key_slots::SlotId;
use program_edge::Refusal;
use std::alloc::{AllocError, Global};

/// The row of a store of less than fourteen cells.
pub fn few_cells() -> Refusal
    ensures { result ≡ few_cells_row }
{
    Refusal::fixed(9, "store: too few cells\n")
}

/// The row of a fault of the store. Telling one without a number takes no memory.
pub fn store_refusal(alloc: Global, fault: StoreFault) -> Refusal
    ensures { TellsStoreFault fault result }
{
    match fault {
        StoreFault::DiskFailed => Refusal::fixed(9, fixed_fault_text!("store: ", DiskFailed, "\n")),
        StoreFault::NotFormatted => {
            Refusal::fixed(9, fixed_fault_text!("store: ", NotFormatted, "\n"))
        }
        StoreFault::TooSmall => Refusal::fixed(9, fixed_fault_text!("store: ", TooSmall, "\n")),
        StoreFault::Memory => Refusal::no_memory(),
        StoreFault::Damaged(_) => match store_fault_text(alloc, fault) {
            Ok(cause) => made(format!(in alloc; "store: {cause}\n")),
            Err(AllocError) => Refusal::no_memory(),
        },
    }
}

/// The row of a cell that is no slot's.
pub fn bad_slot(alloc: Global, id: SlotId) -> Refusal
    ensures { (result ≡ bad_slot_row id) ⊎ (result ≡ memory_row) }
{
    let number = id.number();
    made(format!(in alloc; "store: BadSlot {number}\n"))
}

/// The row of 9 with this text, or out of memory for the text.
fn made(text: Result<String, AllocError>) -> Refusal
    ensures ok { IfOk text (λ text. result ≡ row_of 9 (string_bytes text)) }
    ensures err { IfErr text (λ _. result ≡ memory_row) }
{
    match text {
        Ok(text) => Refusal::made(9, text),
        Err(AllocError) => Refusal::no_memory(),
    }
}
