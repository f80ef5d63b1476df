// The twin store: two copies of each cell, one of which counts.
ghost use Rattle.std.specs.Prelude.{◌≡◌, ◌+◌, ◌≤◌, length, IfOk, IfErr};
ghost use Rattle.cell_store.specs.declared.kinds.Version.TheVariants.{One};
ghost use Rattle.cell_store.specs.Layout.{twin_layout};
ghost use Rattle.cell_store.specs.Store.{FewCells, store_size};
ghost use Rattle.cell_store.specs.ReadOrder.{twin_reads, twin_reads_to};
ghost use Rattle.cell_store.specs.Attaching.{Attached, NotAttached, Formatted, NotFormed};

use crate::cells::{Cells, CutCells};
use crate::copies::{Held, next};
use crate::faults::{PutFailed, Refused, Reread, StoreFault};
use crate::formatting::write_store;
use crate::kinds::Version;
use crate::layout::{copy_place, twin_size};
use crate::reading::read_store;
use crate::writing::write_copy;
use cut_disk::{CutDisk, Disk, Torn};
use std::alloc::{AllocError, Global};
use std::marker::Model;
use std::mem;

/// A twin store on a disk. It takes `twin_size` bytes from the base of its version on; the bytes before and after them
/// stay as they are.
#[derive(Drop)]
pub struct TwinCells<D: Disk> {
    disk: D,
    version: Version,
    held: Vec<Held>,
    /// Room of the same length, into which cells are read anew after a power cut.
    reread: Vec<Held>,
    /// A put failed, or the store couldn't be read anew, since the last power cut.
    broken: bool,
}

impl<D: Disk> Model for TwinCells<D> {
    ghost use Rattle.std.specs.Prelude.{length};
    ghost use Rattle.cell_store.specs.Cells.{CellsState};

    ghost Value = { CellsState };

    ghost use Rattle.cell_store.specs.TwinStore.{twin_state, IsTwinStore};

    ghost view = { λ a. twin_state a.version (D.state a.disk) a.held.items a.broken };

    ghost invariant = { λ a. IsTwinStore a.version (D.state a.disk) a.held.items
        (length a.reread.items) a.broken };
}

/// Twice the room for so many cells.
fn room_for(alloc: Global, cells: usize) -> Result<(Vec<Held>, Vec<Held>), AllocError>
    ensures { IfOk result (λ rooms. (length rooms.0.items ≡ cells) × (length rooms.1.items ≡ cells)) }
{
    let held = vec![in alloc; Held::BLANK; cells]?;
    let reread = vec![in alloc; Held::BLANK; cells]?;
    Ok((held, reread))
}

impl<D: Disk> TwinCells<D> {
    /// Formats the disk as a store of version 1 of these cells, 1 to 1024, as `format_as` does.
    pub fn format(disk: D, cells: &[[u8; 32]]) -> Result<D, Refused<D>>
        requires { FewCells (length cells.now) }
        ensures formatted { IfOk result (λ d. Formatted (twin_layout One) (5 + length cells.now) cells.now
            (D.state disk) (D.state d)) }
        ensures refused { IfErr result (λ r. NotFormed (twin_layout One) (5 + length cells.now) cells.now
            (D.state disk) (D.state r.disk) r.fault) }
    {
        TwinCells::format_as(disk, Version::One, cells)
    }

    /// Formats the disk as a store of this version of these cells, 1 to 1024. Errors: `TooSmall` and `DiskFailed`. The
    /// bytes before and after the store stay as they are, after `DiskFailed` if no byte was loose. `DiskFailed` then
    /// leaves one of three: the store's bytes as they were except for the header, a header of zeros, or all but the
    /// header of a fresh store.
    #[tactic(auto, using(crate::proofs::Formed::formed, crate::proofs::Formed::half_formed))]
    pub fn format_as(mut disk: D, version: Version, cells: &[[u8; 32]]) -> Result<D, Refused<D>>
        requires { FewCells (length cells.now) }
        ensures formatted { IfOk result (λ d. Formatted (twin_layout version) (5 + length cells.now) cells.now
            (D.state disk) (D.state d)) }
        ensures refused { IfErr result (λ r. NotFormed (twin_layout version) (5 + length cells.now) cells.now
            (D.state disk) (D.state r.disk) r.fault) }
    {
        if disk.size() < version.base() + twin_size(cells.len() as u16) {
            return Err(Refused {
                disk,
                fault: StoreFault::TooSmall,
            });
        }
        match write_store(&mut disk, version, cells) {
            Ok(()) => Ok(disk),
            Err(_) => Err(Refused {
                disk,
                fault: StoreFault::DiskFailed,
            }),
        }
    }

    /// Attaches the store of version 1 of so many cells, 1 to 1024, as `attach_as` does.
    pub fn attach(alloc: Global, disk: D, cells: u16) -> Result<TwinCells<D>, Refused<D>>
        requires { FewCells cells }
        ensures attached { IfOk result (Attached (twin_layout One) (twin_reads cells) cells
            (D.state disk)) }
        ensures refused { IfErr result (λ r. NotAttached (twin_layout One) (twin_reads cells)
            twin_reads_to cells (D.state disk) (D.state r.disk) r.fault) }
    {
        TwinCells::attach_as(alloc, disk, Version::One, cells)
    }

    /// Attaches the store of this version of so many cells, 1 to 1024, that stands on the disk. It reads the header and
    /// then each cell, and writes nothing. It makes the room for the cells twice. Errors, in this order: `TooSmall`,
    /// `Memory`; then in the order of reading `DiskFailed`, `NotFormatted` and `Damaged`, with the first cell that has
    /// no copy that counts.
    pub fn attach_as(
        alloc: Global,
        disk: D,
        version: Version,
        cells: u16,
    ) -> Result<TwinCells<D>, Refused<D>>
        requires { FewCells cells }
        ensures attached { IfOk result (Attached (twin_layout version) (twin_reads cells) cells
            (D.state disk)) }
        ensures refused { IfErr result (λ r. NotAttached (twin_layout version) (twin_reads cells)
            twin_reads_to cells (D.state disk) (D.state r.disk) r.fault) }
    {
        if disk.size() < version.base() + twin_size(cells) {
            return Err(Refused {
                disk,
                fault: StoreFault::TooSmall,
            });
        }
        match room_for(alloc, usize::from(cells)) {
            Ok((held, reread)) => read_into(disk, version, held, reread),
            Err(AllocError) => Err(Refused {
                disk,
                fault: StoreFault::Memory,
            }),
        }
    }
}

/// Reads a store into this room.
fn read_into<D: Disk>(
    mut disk: D,
    version: Version,
    mut held: Vec<Held>,
    reread: Vec<Held>,
) -> Result<TwinCells<D>, Refused<D>>
    requires few { FewCells (length held.items) }
    requires room { store_size (twin_layout version) (length held.items) ≤ (D.state disk).size }
    requires same { length reread.items ≡ length held.items }
    ensures attached { IfOk result (Attached (twin_layout version)
        (twin_reads (length held.items)) (length held.items) (D.state disk)) }
    ensures refused { IfErr result (λ r. NotAttached (twin_layout version)
        (twin_reads (length held.items)) twin_reads_to (length held.items) (D.state disk)
        (D.state r.disk) r.fault) }
{
    match read_store(&mut disk, version, &mut held) {
        Ok(()) => Ok(TwinCells {
            disk,
            version,
            held,
            reread,
            broken: false,
        }),
        Err(fault) => Err(Refused {
            disk,
            fault: StoreFault::from(fault),
        }),
    }
}

impl<D: Disk> Cells for TwinCells<D> {
    type Medium = D;

    ghost state = { λ s. s };

    fn count(&self) -> u16 {
        self.held.len() as u16
    }

    fn get(&self, cell: u16, out: &mut [u8; 32]) {
        *out = self.held[cell as usize].payload;
    }

    fn put(&mut self, cell: u16, bytes: &[u8; 32]) -> Result<(), PutFailed> {
        let index = cell as usize;
        let old = self.held[index];
        let side = old.side.other();
        let mark = next(old.mark);
        let at = self.version.base() + copy_place(cell, side);
        match write_copy(&mut self.disk, at, old.spare_is_live, mark, bytes) {
            Ok(()) => {
                self.held[index] = Held {
                    payload: *bytes,
                    mark,
                    side,
                    spare_is_live: true,
                };
                Ok(())
            }
            Err(_) => {
                self.broken = true;
                Err(PutFailed)
            }
        }
    }

    fn release(self) -> D {
        let TwinCells {
            disk,
            version: _,
            held: _,
            reread: _,
            broken: _,
        } = self;
        disk
    }
}

impl<D: CutDisk> CutCells for TwinCells<D> {
    fn power_cut(&mut self, torn: Torn) -> Result<(), Reread> {
        self.disk.power_cut(torn);
        match read_store(&mut self.disk, self.version, &mut self.reread) {
            Ok(()) => {
                mem::swap(&mut self.held, &mut self.reread);
                self.broken = false;
                Ok(())
            }
            Err(fault) => {
                self.broken = true;
                Err(fault)
            }
        }
    }

    fn stop_at(&mut self, calls: u64) {
        self.disk.stop_at(calls);
    }

    fn fail_at(&mut self, calls: u64) {
        self.disk.fail_at(calls);
    }
}
