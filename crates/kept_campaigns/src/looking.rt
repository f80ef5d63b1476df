//! The look at the disk of a ledger, before a campaign goes on there.
ghost use Rattle.std.specs.Prelude.{◌≡◌, ◌≤◌, length, map, IfErr, OnOk};
ghost use Rattle.cut_disk.specs.State.{Told};
ghost use Rattle.cut_disk.specs.Calls.{AsBefore};
ghost use Rattle.kept_campaigns.specs.LedgerLooks.{ledger_room, KeepsLedgerTold, FailsToKeepLedger, LedgerLooked, LedgerUnkept, unkept_row};

use any_cells::{put_first, store_size};
use cell_store::{Kind, Version};
use cut_disk::Disk;
use disk_looks::{LookFault, Seen, look_whole, standing_refusal};
use program_edge::Refusal;
use std::alloc::Global;
use store_growing::StoreHeader;

/// The number of a ledger's cells.
const LEDGER_CELLS: u16 = 256;

/// Why a campaign doesn't go on over a disk. The disk was read, and not written.
#[derive(Clone, Copy, Debug, PartialEq, Eq, Drop)]
pub enum UnkeptLedger {
    /// The header of this store stands there, of another kind, version or number of cells than a ledger's.
    OtherStore(StoreHeader),
    /// No header of a store stands there, and a byte isn't zero.
    NotFormatted,
    /// A call of the disk failed.
    DiskFailed,
    /// There was no memory.
    Memory,
}

/// Looks at the one disk, if it has room for a ledger. Ok if it hasn't, or if its bytes are all zeros or have the header
/// of a ledger's store. It writes nothing, and the disk is in its place again.
pub(crate) fn look_at_ledger<D: Disk>(alloc: Global, disks: &mut Vec<D>) -> Result<(), UnkeptLedger>
    requires { length disks.old.items ≡ 1 }
    ensures looked { OnOk result (LedgerLooked (map D.state disks.old.items) (map D.state disks.new.items)) }
    ensures refused { IfErr result (LedgerUnkept (map D.state disks.old.items) (map D.state disks.new.items)) }
{
    let disk = disks.remove(0);
    let (disk, outcome) = look_at_disk(alloc, disk);
    put_first(disks, disk);
    outcome
}

/// The same of a disk, which is handed back.
fn look_at_disk<D: Disk>(alloc: Global, disk: D) -> (D, Result<(), UnkeptLedger>)
    ensures as_before { OnOk result.1 (AsBefore 3 (D.state disk) (D.state result.0)) }
    ensures keeps { OnOk result.1 (ledger_room ≤ (D.state disk).size → KeepsLedgerTold (D.state disk)) }
    ensures refused { IfErr result.1 (FailsToKeepLedger (D.state disk) (D.state result.0)) }
{
    let mut disk = disk;
    if disk.size() < store_size(Kind::Twin, Version::One, LEDGER_CELLS) {
        return (disk, Ok(()));
    }
    match look_whole(alloc, &mut disk, Kind::Twin, Version::One, LEDGER_CELLS) {
        Ok(Seen::Unused) => (disk, Ok(())),
        Ok(Seen::Standing) => (disk, Ok(())),
        Ok(Seen::Other(there)) => (disk, Err(UnkeptLedger::OtherStore(there))),
        Ok(Seen::Neither) => (disk, Err(UnkeptLedger::NotFormatted)),
        Ok(Seen::Older) => (disk, Err(UnkeptLedger::NotFormatted)),
        Err(LookFault::DiskFailed) => (disk, Err(UnkeptLedger::DiskFailed)),
        Err(LookFault::Memory) => (disk, Err(UnkeptLedger::Memory)),
    }
}

/// The refusal of a campaign that doesn't go on: 10, with the line of the store that stands, or that a ledger's isn't
/// there or failed. It is 7 only if the look was out of memory.
pub(crate) fn unkept_refusal(fault: UnkeptLedger) -> Refusal
    ensures { result ≡ unkept_row fault }
{
    match fault {
        UnkeptLedger::OtherStore(there) => standing_refusal(10, there),
        UnkeptLedger::NotFormatted => Refusal::fixed(10, "store: NotFormatted\n"),
        UnkeptLedger::DiskFailed => Refusal::fixed(10, "store: DiskFailed\n"),
        UnkeptLedger::Memory => Refusal::no_memory(),
    }
}
