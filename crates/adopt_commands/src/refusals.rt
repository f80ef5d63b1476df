//! The refusals of arguments and of disks.
ghost use Rattle.std.specs.Prelude.{◌≡◌, ◌⊎◌};
ghost use Rattle.program_edge.specs.Rows.{row_of, memory_row};
ghost use Rattle.ledger_commands.specs.LedgerBytes.{cause_row};
ghost use Rattle.ledger_commands.specs.LedgerRows.{ledger_usage, ledger_value_text};
ghost use Rattle.adopt_commands.specs.AdoptRows.{IsLedgerRow, no_ledger_disk_row};

use campaign_commands::NoLedgerCause;
use ledger_commands::{bad_entry_refusal, store_refusal};
use program_edge::Refusal;
use std::alloc::Global;

const USAGE: &str = "usage: station ledger list, open, show, export, adopt, import, merge\n";

/// The refusal of malformed arguments.
pub fn usage_refusal() -> Refusal
    ensures { result ≡ row_of 2 ledger_usage }
{
    Refusal::fixed(2, USAGE)
}

/// The refusal of a unit that isn't of its form.
pub fn unit_refusal() -> Refusal
    ensures { result ≡ row_of 3 (ledger_value_text 2) }
{
    Refusal::fixed(3, "value 2\n")
}

/// The refusal of a slot that isn't of its form.
pub fn slot_refusal() -> Refusal
    ensures { result ≡ row_of 3 (ledger_value_text 3) }
{
    Refusal::fixed(3, "value 3\n")
}

/// The refusal of a counter that isn't of its form.
pub fn counter_refusal() -> Refusal
    ensures { result ≡ row_of 3 (ledger_value_text 4) }
{
    Refusal::fixed(3, "value 4\n")
}

/// The refusal of no disk.
pub fn no_disk_refusal() -> Refusal
    ensures { result ≡ no_ledger_disk_row }
{
    Refusal::fixed(9, "store: no disk\n")
}

/// The refusal of a disk without a ledger: 10 if it failed, else 9 and the cause; out of memory is 7.
pub fn ledger_refusal(alloc: Global, cause: NoLedgerCause) -> Refusal
    ensures { IsLedgerRow cause result }
{
    match cause {
        NoLedgerCause::Store(fault) => store_refusal(alloc, fault),
        NoLedgerCause::BadEntry(bad) => bad_entry_refusal(alloc, bad),
    }
}
