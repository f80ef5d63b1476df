//! The refusals of arguments, and of files that give no ledger.
ghost use Rattle.std.specs.Prelude.{◌≡◌, ◌⊎◌, ◌++◌, codes, string_bytes, IfOk};
ghost use Rattle.std.specs.Fmt.{decimal};
ghost use Rattle.text_lines.specs.Texts.{line};
ghost use Rattle.any_cells.specs.FaultTexts.{store_fault_text as fault_text};
ghost use Rattle.program_edge.specs.Rows.{row_of, memory_row};
ghost use Rattle.ledger_commands.specs.LedgerRows.{ledger_usage, ledger_value_text};
ghost use Rattle.ledger_commands.specs.LedgerBytes.{bad_entry_row};
ghost use Rattle.ledger_commands.specs.StoreRows.{IsStoreRow};

use any_cells::{fixed_fault_text, store_fault_text};
use cell_store::StoreFault;
use program_edge::Refusal;
use std::alloc::{AllocError, Global};

const USAGE: &str = "usage: station ledger list, open, show, export, adopt, import, merge\n";

/// The refusal of malformed arguments.
pub fn usage_refusal() -> Refusal
    ensures { result ≡ row_of 2 ledger_usage }
{
    Refusal::fixed(2, USAGE)
}

/// The refusal of a unit that isn't of its form.
pub fn unit_refusal() -> Refusal
    ensures { result ≡ row_of 3 (ledger_value_text 2) }
{
    Refusal::fixed(3, "value 2\n")
}

/// The refusal of a slot that isn't of its form.
pub fn slot_refusal() -> Refusal
    ensures { result ≡ row_of 3 (ledger_value_text 3) }
{
    Refusal::fixed(3, "value 3\n")
}

/// The refusal for a fault of the store: 10 if the disk failed, and else 9. Out of memory is 7, also for a text with a
/// number. Telling a disk that failed, or has no store, takes no memory.
pub fn store_refusal(alloc: Global, fault: StoreFault) -> Refusal
    ensures { IsStoreRow fault result }
{
    match fault {
        StoreFault::DiskFailed => Refusal::fixed(
            10,
            fixed_fault_text!("store: ", DiskFailed, "\n"),
        ),
        StoreFault::NotFormatted => {
            Refusal::fixed(9, fixed_fault_text!("store: ", NotFormatted, "\n"))
        }
        StoreFault::TooSmall => Refusal::fixed(9, fixed_fault_text!("store: ", TooSmall, "\n")),
        StoreFault::Memory => Refusal::no_memory(),
        StoreFault::Damaged(_) => match store_text(alloc, fault) {
            Ok(text) => Refusal::made(9, text),
            Err(AllocError) => Refusal::no_memory(),
        },
    }
}

/// The line of a store's fault.
fn store_text(alloc: Global, fault: StoreFault) -> Result<String, AllocError>
    ensures { IfOk result (λ text. string_bytes text ≡ line (codes "store: " ++ fault_text fault)) }
{
    let fault = store_fault_text(alloc, fault)?;
    format!(in alloc; "store: {fault}\n")
}

/// The refusal of a cell that is no entry; out of memory is 7.
pub fn bad_entry_refusal(alloc: Global, entry: u16) -> Refusal
    ensures { (result ≡ bad_entry_row entry) ⊎ (result ≡ memory_row) }
{
    match format!(in alloc; "store: BadEntry {entry}\n") {
        Ok(text) => Refusal::made(9, text),
        Err(AllocError) => Refusal::no_memory(),
    }
}
