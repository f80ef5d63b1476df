//! The ledger in the bytes of a file.
ghost use Rattle.std.specs.Prelude.{◌≡◌, ◌≤◌, ◌⊎◌, ◌^◌, length, IfOk, IfErr};
ghost use Rattle.program_edge.specs.Rows.{memory_row};
ghost use Rattle.ledger_commands.specs.LedgerBytes.{HoldsLedger, NoLedgerIn};

use crate::refusals::{bad_entry_refusal, store_refusal};
use any_cells::AnyCells;
use cell_store::{Kind, Version};
use cut_disk::MemDisk;
use key_campaign::Ledger;
use program_edge::Refusal;
use std::alloc::Global;

/// The ledger that these bytes stand for: a twin store of version 1 with 256 cells, each empty or an entry. Errors: 9
/// and the first cause why they are none, or 7 if memory is out. A blank file is none.
pub fn read_ledger(alloc: Global, bytes: &[u8]) -> Result<Ledger<AnyCells<MemDisk>>, Refusal>
    requires { length bytes.now ≤ 2 ^ 24 }
    ensures read { IfOk result (λ ledger. HoldsLedger bytes.now ledger.campaign.entries) }
    ensures refused { IfErr result (λ row. NoLedgerIn bytes.now row ⊎ (row ≡ memory_row)) }
{
    let Ok(disk) = MemDisk::of(alloc, bytes) else {
        return Err(Refusal::no_memory());
    };
    let cells = match AnyCells::attach_as(alloc, disk, Kind::Twin, Version::One, 256) {
        Ok(cells) => cells,
        Err(refused) => return Err(store_refusal(alloc, refused.fault)),
    };
    match Ledger::attach(cells) {
        Ok(ledger) => Ok(ledger),
        Err(bad) => Err(bad_entry_refusal(alloc, bad.entry)),
    }
}
