//! A store of either kind, in either version: each call goes to the store that it is, with its contract.
//!
//! `migrate` moves the store that counts, of 1 to 441 cells, to version 2. If it stands and no byte is loose, each
//! image at each exit stands for the same list in the version that counts there. Only room, memory or the disk refuses
//! the move. Then no bytes but those of the store of version 2 change, and after Ok every image counts as version 2.
//! Other refusals are exact by told bytes. `look` says what a disk has for a store: blank, standing, older, or else;
//! exactly, in at most two reads. `find_store` says which store counts there, of any kind, version and number of cells.
//! `open_store` makes one on a blank disk and attaches one that stands; a refusal leaves a disk that isn't blank as it
//! was. `store_size` is where a store ends, `store_fault_text` its fault's text. `put_first` can't fail.
#![tactic(auto)]

mod faults;
mod finding;
mod fronts;
pub mod laws;
mod looking;
mod migrating;
mod opening;

ghost use Rattle.std.specs.Prelude.{◌≡◌, length, IfOk, IfErr};
ghost use Rattle.cell_store.specs.declared.kinds.Version.TheVariants.{Two};
ghost use Rattle.cell_store.specs.Store.{FewCells, store_size};
ghost use Rattle.cell_store.specs.Attaching.{Attached, NotAttached, Formatted, NotFormed, Probed, NotProbed};
ghost use Rattle.cell_store.specs.ReadOrder.{reads, reads_to};
ghost use Rattle.any_cells.specs.Either.{layout, format_calls, any_state};

use cell_store::{
    Cells, CutCells, Kind, LogCells, Probe, PutFailed, Refused, Reread, StoreFault, TwinCells,
    Version, log_size, probe_as, twin_size,
};
use cut_disk::{CutDisk, Disk, Torn};
pub use faults::store_fault_text;
pub use finding::{CountingStore, find_store};
pub use fronts::put_first;
pub use looking::{Found, look};
pub use migrating::migrate;
pub use opening::open_store;
use std::alloc::Global;

/// The number of bytes that a disk needs for a store of so many cells: 0 or 32768 for the version,
/// and the size of the kind's store.
pub fn store_size(kind: Kind, version: Version, cells: u16) -> u64
    ensures { result ≡ store_size (layout kind version) cells }
{
    let size = match kind {
        Kind::Twin => twin_size(cells),
        Kind::Log => log_size(cells),
    };
    version.base() + size
}

/// What the 32 bytes at the base of version 2 are, read in one call. Errors: `TooSmall` for a disk of
/// less than 32800 bytes, and `DiskFailed`.
pub fn probe_two<D: Disk>(disk: &mut D) -> Result<Probe, StoreFault>
    ensures probed { IfOk result (Probed Two (D.state disk.old) (D.state disk.new)) }
    ensures refused { IfErr result (NotProbed Two (D.state disk.old) (D.state disk.new)) }
{
    probe_as(disk, Version::Two)
}

/// A twin store or a log store on a disk.
#[derive(Drop)]
pub enum AnyCells<D: Disk> {
    Twin(TwinCells<D>),
    Log(LogCells<D>),
}

impl<D: Disk> AnyCells<D> {
    /// Formats the disk as a store of this kind and version of these cells, 1 to 1024, as `format_as`
    /// of that kind's store does. Errors: `TooSmall` and `DiskFailed`.
    pub fn format_as(
        disk: D,
        kind: Kind,
        version: Version,
        cells: &[[u8; 32]],
    ) -> Result<D, Refused<D>>
        requires { FewCells (length cells.now) }
        ensures formatted { IfOk result (λ d. Formatted (layout kind version)
            (format_calls kind (length cells.now)) cells.now (D.state disk) (D.state d)) }
        ensures refused { IfErr result (λ r. NotFormed (layout kind version)
            (format_calls kind (length cells.now)) cells.now (D.state disk) (D.state r.disk) r.fault) }
    {
        match kind {
            Kind::Twin => TwinCells::format_as(disk, version, cells),
            Kind::Log => LogCells::format_as(disk, version, cells),
        }
    }

    /// Attaches the store of this kind and version of so many cells, 1 to 1024, that stands on the disk. It does so by
    /// `attach_as` of that kind's store, with its errors.
    pub fn attach_as(
        alloc: Global,
        disk: D,
        kind: Kind,
        version: Version,
        cells: u16,
    ) -> Result<AnyCells<D>, Refused<D>>
        requires { FewCells cells }
        ensures attached { IfOk result (λ s. Attached (layout kind version) (reads kind cells) cells
            (D.state disk) (any_state s)) }
        ensures refused { IfErr result (λ r. NotAttached (layout kind version) (reads kind cells)
            (reads_to kind cells) cells (D.state disk) (D.state r.disk) r.fault) }
    {
        match kind {
            Kind::Twin => match TwinCells::attach_as(alloc, disk, version, cells) {
                Ok(store) => Ok(AnyCells::Twin(store)),
                Err(refused) => Err(refused),
            },
            Kind::Log => match LogCells::attach_as(alloc, disk, version, cells) {
                Ok(store) => Ok(AnyCells::Log(store)),
                Err(refused) => Err(refused),
            },
        }
    }
}

impl<D: Disk> Cells for AnyCells<D> {
    ghost use Rattle.any_cells.specs.Either.{any_state};

    type Medium = D;

    ghost state = { any_state };

    fn count(&self) -> u16 {
        match self {
            AnyCells::Twin(store) => store.count(),
            AnyCells::Log(store) => store.count(),
        }
    }

    fn get(&self, cell: u16, out: &mut [u8; 32]) {
        match self {
            AnyCells::Twin(store) => store.get(cell, out),
            AnyCells::Log(store) => store.get(cell, out),
        }
    }

    fn put(&mut self, cell: u16, bytes: &[u8; 32]) -> Result<(), PutFailed> {
        match self {
            AnyCells::Twin(store) => store.put(cell, bytes),
            AnyCells::Log(store) => store.put(cell, bytes),
        }
    }

    fn release(self) -> D {
        match self {
            AnyCells::Twin(store) => store.release(),
            AnyCells::Log(store) => store.release(),
        }
    }
}

impl<D: CutDisk> CutCells for AnyCells<D> {
    fn power_cut(&mut self, torn: Torn) -> Result<(), Reread> {
        match self {
            AnyCells::Twin(store) => store.power_cut(torn),
            AnyCells::Log(store) => store.power_cut(torn),
        }
    }

    fn stop_at(&mut self, calls: u64) {
        match self {
            AnyCells::Twin(store) => store.stop_at(calls),
            AnyCells::Log(store) => store.stop_at(calls),
        }
    }

    fn fail_at(&mut self, calls: u64) {
        match self {
            AnyCells::Twin(store) => store.fail_at(calls),
            AnyCells::Log(store) => store.fail_at(calls),
        }
    }
}
