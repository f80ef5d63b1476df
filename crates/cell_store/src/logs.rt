// The log store: two banks, one of which counts. Each has the cells, and behind them the changes.
ghost use Rattle.std.specs.Prelude.{◌≡◌, ◌+◌, ◌*◌, ◌<◌, ◌≤◌, [], length, Some, OnOk, OnErr, IfOk, IfErr};
ghost use Rattle.cut_disk.specs.State.{Told};
ghost use Rattle.cut_disk.specs.Calls.{Rose, Runs};
ghost use Rattle.cell_store.specs.declared.kinds.Version.TheVariants.{One};
ghost use Rattle.cell_store.specs.Layout.{log_layout};
ghost use Rattle.cell_store.specs.Log.{log_size};
ghost use Rattle.cell_store.specs.Store.{FewCells, store_size};
ghost use Rattle.cell_store.specs.ReadOrder.{log_reads, log_reads_to};
ghost use Rattle.cell_store.specs.Attaching.{Attached, NotAttached, Formatted, NotFormed};
ghost use Rattle.cell_store.specs.LogKept.{KeepsLog, PutsLog, LeavesEither, LogBesides};

use crate::appending::append;
use crate::banks::{Bank, PLACES};
use crate::cells::{Cells, CutCells};
use crate::faults::{PutFailed, Refused, Reread, StoreFault};
use crate::kinds::Version;
use crate::log_formatting::write_log;
use crate::log_reading::read_log;
use crate::refilling::refill;
use cut_disk::{CutDisk, Disk, DiskFailed, Torn};
use std::alloc::{AllocError, Global};
use std::marker::Model;
use std::mem;

/// A log store on a disk. It takes `log_size` bytes from the base of its version on; the bytes before and after them
/// stay as they are.
#[derive(Drop)]
pub struct LogCells<D: Disk> {
    disk: D,
    version: Version,
    cells: Vec<[u8; 32]>,
    /// Room of the same length, into which cells are read anew after a power cut.
    reread: Vec<[u8; 32]>,
    /// Room for a bank but its gate, which a put writes in one call.
    space: Vec<u8>,
    bank: Bank,
    /// A put failed, or the store couldn't be read anew, since the last power cut.
    broken: bool,
}

impl<D: Disk> Model for LogCells<D> {
    ghost use Rattle.std.specs.Prelude.{length};
    ghost use Rattle.cell_store.specs.Cells.{CellsState};

    ghost Value = { CellsState };

    ghost use Rattle.cell_store.specs.LogStore.{log_state, IsLogStore};

    ghost view = { λ a. log_state a.version (D.state a.disk) a.cells.items a.broken };

    ghost invariant = { λ a. IsLogStore a.version (D.state a.disk) a.cells.items (length a.reread.items)
        (length a.space.items) a.bank a.broken };
}

/// The number of bytes that a log store of so many cells takes: 32 for the header and 2242 and 32 a
/// cell for each of two banks.
pub fn log_size(cells: u16) -> u64
    ensures { result ≡ log_size cells }
{
    4516 + 64 * u64::from(cells)
}

type Rooms = (Vec<[u8; 32]>, Vec<[u8; 32]>, Vec<u8>);

/// Twice the room for so many cells, and the room for a bank.
fn room_for(alloc: Global, cells: usize) -> Result<Rooms, AllocError>
    requires { cells ≤ 1024 }
    ensures { IfOk result (λ rooms. (length rooms.0.items ≡ cells) × (length rooms.1.items ≡ cells)
        × (length rooms.2.items ≡ 2241 + 32 * cells)) }
{
    let held = vec![in alloc; [0; 32]; cells]?;
    let reread = vec![in alloc; [0; 32]; cells]?;
    let space = vec![in alloc; 0; 2241 + 32 * cells]?;
    Ok((held, reread, space))
}

/// Reads a store into this room.
fn read_into<D: Disk>(
    mut disk: D,
    version: Version,
    mut cells: Vec<[u8; 32]>,
    reread: Vec<[u8; 32]>,
    space: Vec<u8>,
) -> Result<LogCells<D>, Refused<D>>
    requires few { FewCells (length cells.items) }
    requires room { store_size (log_layout version) (length cells.items) ≤ (D.state disk).size }
    requires same { length reread.items ≡ length cells.items }
    requires space { length space.items ≡ 2241 + 32 * length cells.items }
    ensures attached { IfOk result (Attached (log_layout version) (log_reads (length cells.items))
        (length cells.items) (D.state disk)) }
    ensures refused { IfErr result (λ r. NotAttached (log_layout version)
        (log_reads (length cells.items)) (log_reads_to (length cells.items)) (length cells.items)
        (D.state disk) (D.state r.disk) r.fault) }
{
    match read_log(&mut disk, version, &mut cells) {
        Ok(bank) => Ok(LogCells {
            disk,
            version,
            cells,
            reread,
            space,
            bank,
            broken: false,
        }),
        Err(fault) => Err(Refused {
            disk,
            fault: StoreFault::from(fault),
        }),
    }
}

/// Puts a cell into the first free place of the bank that counts, or fills the other bank if no place is free.
fn put_cell<D: Disk>(
    disk: &mut D,
    version: Version,
    bank: Bank,
    cells: &[[u8; 32]],
    cell: u16,
    payload: &[u8; 32],
    space: &mut [u8],
) -> Result<Bank, DiskFailed>
    requires few { FewCells (length cells.now) }
    requires below { cell < length cells.now }
    requires room { store_size (log_layout version) (length cells.now) ≤ (D.state disk.old).size }
    requires space { length space.old ≡ 2241 + 32 * length cells.now }
    requires keeps { (t : Told) → (D.state disk.old).told ≡ Some t
        → KeepsLog version (length cells.now) t.bytes cells.now bank }
    ensures runs { Runs [] 6 (D.state disk.old) (D.state disk.new) }
    ensures faults { OnOk result ((D.state disk.new).faults ≡ (D.state disk.old).faults) }
    ensures failed { OnErr result (Rose (D.state disk.old).faults (D.state disk.new).faults) }
    ensures besides { LogBesides version (length cells.now) (D.state disk.old).told
        (D.state disk.new).told }
    ensures done { IfOk result (λ b. PutsLog version (length cells.now) cell payload.now cells.now b
        (D.state disk.old).told (D.state disk.new).told) }
    ensures images { OnErr result (LeavesEither version cell payload.now cells.now
        (D.state disk.old).told (D.state disk.new).told) }
{
    if bank.used < PLACES {
        append(disk, version, bank, cells, cell, payload)
    } else {
        refill(disk, version, bank, cells, cell, payload, space)
    }
}

impl<D: Disk> LogCells<D> {
    /// Formats the disk as a store of version 1 of these cells, 1 to 1024, as `format_as` does.
    pub fn format(disk: D, cells: &[[u8; 32]]) -> Result<D, Refused<D>>
        requires { FewCells (length cells.now) }
        ensures formatted { IfOk result (λ d. Formatted (log_layout One) (147 + 2 * length cells.now) cells.now
            (D.state disk) (D.state d)) }
        ensures refused { IfErr result (λ r. NotFormed (log_layout One) (147 + 2 * length cells.now) cells.now
            (D.state disk) (D.state r.disk) r.fault) }
    {
        LogCells::format_as(disk, Version::One, cells)
    }

    /// Formats the disk as a store of this version of these cells, 1 to 1024. Errors: `TooSmall` and `DiskFailed`. The
    /// bytes before and after the store stay as they are, after `DiskFailed` if no byte was loose. `DiskFailed` then
    /// leaves one of three: the store's bytes as they were except for the header, a header of zeros, or all but the
    /// header of a fresh store.
    #[tactic(auto, using(crate::proofs::Formed::formed, crate::proofs::Formed::half_formed))]
    pub fn format_as(mut disk: D, version: Version, cells: &[[u8; 32]]) -> Result<D, Refused<D>>
        requires { FewCells (length cells.now) }
        ensures formatted { IfOk result (λ d. Formatted (log_layout version) (147 + 2 * length cells.now) cells.now
            (D.state disk) (D.state d)) }
        ensures refused { IfErr result (λ r. NotFormed (log_layout version) (147 + 2 * length cells.now) cells.now
            (D.state disk) (D.state r.disk) r.fault) }
    {
        if disk.size() < version.base() + log_size(cells.len() as u16) {
            return Err(Refused {
                disk,
                fault: StoreFault::TooSmall,
            });
        }
        match write_log(&mut disk, version, cells) {
            Ok(()) => Ok(disk),
            Err(_) => Err(Refused {
                disk,
                fault: StoreFault::DiskFailed,
            }),
        }
    }

    /// Attaches the store of version 1 of so many cells, 1 to 1024, as `attach_as` does.
    pub fn attach(alloc: Global, disk: D, cells: u16) -> Result<LogCells<D>, Refused<D>>
        requires { FewCells cells }
        ensures attached { IfOk result (Attached (log_layout One) (log_reads cells) cells
            (D.state disk)) }
        ensures refused { IfErr result (λ r. NotAttached (log_layout One) (log_reads cells)
            (log_reads_to cells) cells (D.state disk) (D.state r.disk) r.fault) }
    {
        LogCells::attach_as(alloc, disk, Version::One, cells)
    }

    /// Attaches the store of this version of so many cells, 1 to 1024, that stands on the disk. It reads the header,
    /// the gates and marks of both banks, then the cells and places of the bank that counts. It writes nothing. It
    /// makes the room for the cells twice, and that of a bank. Errors, in this order: `TooSmall`, `Memory`; then in the
    /// order of reading `DiskFailed`, `NotFormatted` and `Damaged`. `Damaged` has 0 if no bank counts, else the number
    /// of the first damaged place, from 1.
    pub fn attach_as(
        alloc: Global,
        disk: D,
        version: Version,
        cells: u16,
    ) -> Result<LogCells<D>, Refused<D>>
        requires { FewCells cells }
        ensures attached { IfOk result (Attached (log_layout version) (log_reads cells) cells
            (D.state disk)) }
        ensures refused { IfErr result (λ r. NotAttached (log_layout version) (log_reads cells)
            (log_reads_to cells) cells (D.state disk) (D.state r.disk) r.fault) }
    {
        if disk.size() < version.base() + log_size(cells) {
            return Err(Refused {
                disk,
                fault: StoreFault::TooSmall,
            });
        }
        match room_for(alloc, usize::from(cells)) {
            Ok((held, reread, space)) => read_into(disk, version, held, reread, space),
            Err(AllocError) => Err(Refused {
                disk,
                fault: StoreFault::Memory,
            }),
        }
    }
}

impl<D: Disk> Cells for LogCells<D> {
    type Medium = D;

    ghost state = { λ s. s };

    fn count(&self) -> u16 {
        self.cells.len() as u16
    }

    fn get(&self, cell: u16, out: &mut [u8; 32]) {
        *out = self.cells[cell as usize];
    }

    fn put(&mut self, cell: u16, bytes: &[u8; 32]) -> Result<(), PutFailed> {
        let bank = self.bank;
        match put_cell(
            &mut self.disk,
            self.version,
            bank,
            &self.cells,
            cell,
            bytes,
            &mut self.space,
        ) {
            Ok(bank) => {
                self.cells[cell as usize] = *bytes;
                self.bank = bank;
                Ok(())
            }
            Err(_) => {
                self.broken = true;
                Err(PutFailed)
            }
        }
    }

    fn release(self) -> D {
        let LogCells {
            disk,
            version: _,
            cells: _,
            reread: _,
            space: _,
            bank: _,
            broken: _,
        } = self;
        disk
    }
}

impl<D: CutDisk> CutCells for LogCells<D> {
    fn power_cut(&mut self, torn: Torn) -> Result<(), Reread> {
        self.disk.power_cut(torn);
        match read_log(&mut self.disk, self.version, &mut self.reread) {
            Ok(bank) => {
                mem::swap(&mut self.cells, &mut self.reread);
                self.bank = bank;
                self.broken = false;
                Ok(())
            }
            Err(fault) => {
                self.broken = true;
                Err(fault)
            }
        }
    }

    fn stop_at(&mut self, calls: u64) {
        self.disk.stop_at(calls);
    }

    fn fail_at(&mut self, calls: u64) {
        self.disk.fail_at(calls);
    }
}
