//! Entries that the ledger on a disk takes over, and their lines.
ghost use Rattle.std.specs.Prelude.{◌≡◌, ◌<◌, ◌^◌, Bool, false, length, All, map};
ghost use Rattle.cut_disk.specs.State.{DiskState};
ghost use Rattle.key_campaign.specs.Entries.{IsEntry};
ghost use Rattle.campaign_commands.specs.Opening.{LedgerOpened};
ghost use Rattle.adopt_commands.specs.AdoptRows.{EndsOnLedger, EndsOverLedgers, IsNotBlank};
ghost use Rattle.adopt_commands.specs.Adoptions.{adopt_status};

use crate::keeper::Keeper;
use crate::lines::AdoptText;
use crate::refusals::{ledger_refusal, no_disk_refusal};
use crate::standing::ledger_on;
use any_cells::{AnyCells, put_first};
use bus_port::Sink;
use cell_store::Cells;
use cut_disk::CutDisk;
use key_campaign::{Ledger, LedgerEntry};
use program_edge::{DONE, NO_MEMORY, WRITE_FAULT, tell_refusal};
use run_driver::{Stop, Unwritten, print_run_until_last};
use std::alloc::Global;

/// The status if an entry was refused.
const REFUSED: u8 = 1;

/// The status if the disk failed as an entry was put.
const DISK_FAILED: u8 = 10;

/// The ledger on the first disk takes over these entries, one after another; what comes of each is written before the
/// next. A disk whose first 32 bytes are zero is formatted as a ledger without entries, if one may be made. The disk is
/// back in its place at every return.
///
/// The statuses: 9 if there is no disk or no ledger; 10 if the disk failed; 1 if an entry was refused: `Full`, or, if
/// it is strict, the ledger is ahead; else 0. A sink that fails makes it 6, out of memory is 7.
pub fn adopt_over<K: Sink, D: CutDisk>(
    alloc: Global,
    entries: &[LedgerEntry],
    may: bool,
    strict: bool,
    sink: &mut K,
    disks: &mut Vec<D>,
) -> u8
    requires few { length entries.now < 2 ^ 32 }
    requires are { All IsEntry entries.now }
    ensures { EndsOverLedgers may strict entries.now
        (record { before = K.state sink.old; after = K.state sink.new; status = result })
        (map D.state disks.old.items) (map D.state disks.new.items) }
{
    if disks.is_empty() {
        let refusal = no_disk_refusal();
        return tell_refusal(sink, &refusal);
    }
    let disk = disks.remove(0);
    let (disk, status) = adopt_on(alloc, entries, may, strict, sink, disk);
    put_first(disks, disk);
    status
}

/// The same over one disk, which is handed back.
fn adopt_on<K: Sink, D: CutDisk>(
    alloc: Global,
    entries: &[LedgerEntry],
    may: bool,
    strict: bool,
    sink: &mut K,
    disk: D,
) -> (D, u8)
    requires few { length entries.now < 2 ^ 32 }
    requires are { All IsEntry entries.now }
    ensures { EndsOnLedger may strict entries.now
        (record { before = K.state sink.old; after = K.state sink.new; status = result.1 })
        (D.state disk) (D.state result.0) }
{
    match ledger_on(alloc, disk, may) {
        Ok(ledger) => adopt_in(alloc, entries, strict, sink, ledger),
        Err(none) => {
            let refusal = ledger_refusal(alloc, none.cause);
            (none.disk, tell_refusal(sink, &refusal))
        }
    }
}

/// The same over a ledger that was opened; its disk is handed back.
fn adopt_in<K: Sink, D: CutDisk>(
    alloc: Global,
    entries: &[LedgerEntry],
    strict: bool,
    sink: &mut K,
    ledger: Ledger<AnyCells<D>>,
) -> (D, u8)
    requires few { length entries.now < 2 ^ 32 }
    requires are { All IsEntry entries.now }
    ensures { (before : DiskState) (may : Bool) → LedgerOpened before ledger → (may ≡ false → IsNotBlank before)
        → EndsOnLedger may strict entries.now
        (record { before = K.state sink.old; after = K.state sink.new; status = result.1 })
        before (D.state result.0) }
{
    let mut keeper = Keeper::of(ledger, strict);
    let printed = print_run_until_last::<Keeper<AnyCells<D>>, AdoptText, K>(
        alloc,
        &mut keeper,
        entries,
        sink,
    );
    let status = status_of_adoptions(keeper.has_refused(), printed);
    (keeper.release().release(), status)
}

/// The status by whether an entry was refused, and how printing ended.
fn status_of_adoptions(refused: bool, printed: Result<(), Stop>) -> u8
    ensures { result ≡ adopt_status refused printed }
{
    match printed {
        Ok(()) if refused => REFUSED,
        Ok(()) => DONE,
        Err(Stop::Last) => DISK_FAILED,
        Err(Stop::Unprinted(Unwritten::SinkFailed)) => WRITE_FAULT,
        Err(Stop::Unprinted(Unwritten::Memory)) => NO_MEMORY,
    }
}
