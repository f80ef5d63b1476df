//! The ledger that stands on a disk, or a new one on a blank disk.
ghost use Rattle.std.specs.Prelude.{◌≡◌, IfOk, IfErr};
ghost use Rattle.key_campaign.specs.Entries.{no_entries};
ghost use Rattle.key_campaign.specs.Cell.{ledger_cells};
ghost use Rattle.campaign_commands.specs.Opening.{LedgerOpened, LacksLedger};

use any_cells::{AnyCells, open_store};
use cell_store::{Cells, Kind, StoreFault, Version};
use cut_disk::CutDisk;
use key_campaign::Ledger;
use std::alloc::Global;

/// Why there is no ledger on a disk.
#[derive(Clone, Copy, Debug, PartialEq, Eq, Drop)]
pub enum NoLedgerCause {
    /// The store isn't opened.
    Store(StoreFault),
    /// This cell, the lowest, is neither empty nor an entry, or repeats an earlier one's unit and slot.
    BadEntry(u16),
}

/// A disk that is handed back, since there is no ledger on it.
#[derive(Debug, Drop)]
pub struct NoLedger<D> {
    /// The disk.
    pub disk: D,
    /// Why there is none.
    pub cause: NoLedgerCause,
}

/// The cells of a ledger without entries.
fn empty_cells() -> [[u8; 32]; 256]
    ensures { result ≡ ledger_cells no_entries }
{
    [[0; 32]; 256]
}

/// The ledger on a disk of at least 17,440 bytes. If the first 32 bytes are zero it is a new one without entries: the
/// disk is formatted as a twin store of version 1 with 256 cells. Else it is the one that stands there. Errors: those
/// of `open_store`, in its order, then `BadEntry`.
pub fn open_ledger<D: CutDisk>(alloc: Global, disk: D) -> Result<Ledger<AnyCells<D>>, NoLedger<D>>
    ensures opened { IfOk result (LedgerOpened (D.state disk)) }
    ensures refused { IfErr result (λ r. LacksLedger (D.state disk) (D.state r.disk) r.cause) }
{
    let empty = empty_cells();
    let cells = match open_store(alloc, disk, Kind::Twin, Version::One, &empty) {
        Ok(cells) => cells,
        Err(refused) => {
            return Err(NoLedger {
                disk: refused.disk,
                cause: NoLedgerCause::Store(refused.fault),
            });
        }
    };
    match Ledger::attach(cells) {
        Ok(ledger) => Ok(ledger),
        Err(bad) => Err(NoLedger {
            disk: bad.cells.release(),
            cause: NoLedgerCause::BadEntry(bad.entry),
        }),
    }
}
