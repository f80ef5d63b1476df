//! The ledger on a disk: one that stands there, or one that may be made.
ghost use Rattle.std.specs.Prelude.{◌≡◌, false, IfOk, IfErr};
ghost use Rattle.campaign_commands.specs.Opening.{LedgerOpened};
ghost use Rattle.adopt_commands.specs.AdoptRows.{IsNotBlank, LacksAsked};
ghost use Rattle.adopt_commands.specs.StandingLedgers.{LacksStanding};

use any_cells::AnyCells;
use campaign_commands::{NoLedger, NoLedgerCause, open_ledger};
use cell_store::{Cells, Kind, Version};
use cut_disk::CutDisk;
use key_campaign::Ledger;
use std::alloc::Global;

/// The ledger on a disk. If one may be made, a disk whose first 32 bytes are zero is formatted as one without entries.
/// Errors: those of `open_ledger`, in its order; if none may be made such a disk is `NotFormatted`.
pub fn ledger_on<D: CutDisk>(
    alloc: Global,
    disk: D,
    may: bool,
) -> Result<Ledger<AnyCells<D>>, NoLedger<D>>
    ensures opened { IfOk result (LedgerOpened (D.state disk)) }
    ensures stood { may ≡ false → IfOk result (λ _. IsNotBlank (D.state disk)) }
    ensures refused { IfErr result (λ r. LacksAsked may (D.state disk) (D.state r.disk) r.cause) }
{
    if may {
        open_ledger(alloc, disk)
    } else {
        standing_ledger(alloc, disk)
    }
}

/// The ledger that stands on a disk, which is only read.
fn standing_ledger<D: CutDisk>(alloc: Global, disk: D) -> Result<Ledger<AnyCells<D>>, NoLedger<D>>
    ensures opened { IfOk result (LedgerOpened (D.state disk)) }
    ensures stood { IfOk result (λ _. IsNotBlank (D.state disk)) }
    ensures refused { IfErr result (λ r. LacksStanding (D.state disk) (D.state r.disk) r.cause) }
{
    let cells = match AnyCells::attach_as(alloc, disk, Kind::Twin, Version::One, 256) {
        Ok(cells) => cells,
        Err(refused) => {
            return Err(NoLedger {
                disk: refused.disk,
                cause: NoLedgerCause::Store(refused.fault),
            });
        }
    };
    match Ledger::attach(cells) {
        Ok(ledger) => Ok(ledger),
        Err(bad) => Err(NoLedger {
            disk: bad.cells.release(),
            cause: NoLedgerCause::BadEntry(bad.entry),
        }),
    }
}
