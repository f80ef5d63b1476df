//! The refusals of a campaign.
ghost use Rattle.std.specs.Prelude.{◌≡◌, ◌++◌, codes, string_bytes, IfOk};
ghost use Rattle.text_lines.specs.Texts.{line};
ghost use Rattle.any_cells.specs.FaultTexts.{store_fault_text as fault_text};
ghost use Rattle.campaign_commands.specs.Steps.{IsNoLedgerRow};
ghost use Rattle.campaign_commands.specs.Rows.{campaign_usage, too_few_text, too_small_text};
ghost use Rattle.program_edge.specs.Rows.{row_of};

use crate::opening::NoLedgerCause;
use any_cells::{fixed_fault_text, store_fault_text};
use cell_store::StoreFault;
use program_edge::Refusal;
use std::alloc::{AllocError, Global};

const USAGE: &str = "usage: campaign F DISK\n";

/// The refusal of arguments that aren't two.
pub fn usage_refusal() -> Refusal
    ensures { result ≡ row_of 2 campaign_usage }
{
    Refusal::fixed(2, USAGE)
}

/// The refusal of no disk.
pub fn no_disk_refusal() -> Refusal
    ensures { result ≡ row_of 9 too_few_text }
{
    Refusal::fixed(9, "disks: too few\n")
}

/// The refusal of a disk of fewer bytes than a ledger needs.
pub fn small_disk_refusal() -> Refusal
    ensures { result ≡ row_of 9 too_small_text }
{
    Refusal::fixed(9, "disks: too small\n")
}

/// The refusal of a disk without a ledger, with the text that names its cause; or out of memory, also for a text with a
/// number. Telling a disk that failed, or has no store, takes no memory.
pub fn no_ledger_refusal(alloc: Global, cause: NoLedgerCause) -> Refusal
    ensures { IsNoLedgerRow cause result }
{
    match cause {
        NoLedgerCause::Store(StoreFault::TooSmall) => small_disk_refusal(),
        NoLedgerCause::Store(StoreFault::Memory) => Refusal::no_memory(),
        NoLedgerCause::Store(StoreFault::DiskFailed) => {
            Refusal::fixed(10, fixed_fault_text!("store: ", DiskFailed, "\n"))
        }
        NoLedgerCause::Store(StoreFault::NotFormatted) => {
            Refusal::fixed(10, fixed_fault_text!("store: ", NotFormatted, "\n"))
        }
        NoLedgerCause::Store(fault) => match store_text(alloc, fault) {
            Ok(text) => Refusal::made(10, text),
            Err(AllocError) => Refusal::no_memory(),
        },
        NoLedgerCause::BadEntry(bad) => match format!(in alloc; "store: BadEntry {bad}\n") {
            Ok(text) => Refusal::made(10, text),
            Err(AllocError) => Refusal::no_memory(),
        },
    }
}

/// The line of a store's fault.
fn store_text(alloc: Global, fault: StoreFault) -> Result<String, AllocError>
    ensures { IfOk result (λ text. string_bytes text ≡ line (codes "store: " ++ fault_text fault)) }
{
    let fault = store_fault_text(alloc, fault)?;
    format!(in alloc; "store: {fault}\n")
}
