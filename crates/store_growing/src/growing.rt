//! Cells at the end of a store for the routes that a bus has more.
ghost use Rattle.std.specs.Prelude.{◌≡◌, ◌≤◌, ◌+◌, ◌*◌, [], length, Some, ◌↔◌, IsTrue, IfOk, IfErr, OnOk, OnErr};
ghost use Rattle.cut_disk.specs.Calls.{Rose, Runs};
ghost use Rattle.cut_disk.specs.Images.{firm};
ghost use Rattle.cell_store.specs.declared.kinds.Version.TheVariants.{One};
ghost use Rattle.cell_store.specs.Layout.{part, twin_layout};
ghost use Rattle.cell_store.specs.Twin.{twin_size};
ghost use Rattle.freshness_routes.specs.declared.config.TheConstants.{MOST_ROUTES};
ghost use Rattle.store_plan.specs.Growing.{with_number};
ghost use Rattle.store_growing.specs.RouteCells.{route_cell};
ghost use Rattle.store_growing.specs.GrowingStores.{OfBytes, GrowsStore, NotGrown, CanBeGrown, with_cell, with_cells};
ghost use Rattle.store_growing.specs.GrowSteps.{Sees, NotSeen, FitsWanted, TakesHeader, RefusesHeader, MakesOfBytes};
ghost use Rattle.store_growing.specs.GrowSteps.{CutsCellOnDisk, CutsCellsOnDisk, CutsNumberOnDisk};
ghost use Rattle.store_growing.specs.GrowSteps.{WritesLacking, CutsLacking};

use crate::faults::GrowFault;
use crate::headers::{StoreHeader, header_beside};
use crate::looking::{SLOT_COUNT, routes_there};
use cell_store::{Kind, LIVE, Layout, Version, marked, pair_place};
use cut_disk::{Disk, DiskFailed, write_and_sync};
use freshness_routes::Route;
use freshness_store::bound_bytes;
use std::alloc::{AllocError, Global};
use store_plan::has_head;

/// Grows the twin store of version 1 on a disk to a cell for each of these routes, at most 256, if the bus wants such a
/// store. Those that have cells are the first of them. It gives the number of cells, also if none was lacking. Cells
/// are written first, each whole or absent whenever the power goes, and then their number. A cell that is counted is
/// never written. After a cut the same call goes on. If it is refused, except for `DiskFailed`, the disk is as it was.
///
/// Errors, in this order: `TooSmall` of the disk; `Memory`; `DiskFailed` of a read; `OtherStore` and `NotFormatted`;
/// `Damaged` and `BadSlot` of the first slot that is either; `BadBound`; `TooSmall` of what comes after the cells.
pub fn grow_store<D: Disk>(
    alloc: Global,
    disk: &mut D,
    wanted: Layout,
    routes: &[Route],
) -> Result<u16, GrowFault>
    requires { length routes.now ≤ MOST_ROUTES }
    ensures count { IfOk result (λ n. n ≡ route_cell (length routes.now)) }
    ensures could { OnOk result (OfBytes (D.state disk.old) (λ x. CanBeGrown wanted routes.now (D.state disk.old))) }
    ensures wants { OnOk result (wanted ≡ twin_layout One) }
    ensures grown { OnOk result (GrowsStore routes.now (D.state disk.old) (D.state disk.new)) }
    ensures faults { OnOk result ((D.state disk.new).faults ≡ (D.state disk.old).faults) }
    ensures refused { IfErr result (NotGrown wanted routes.now (D.state disk.old) (D.state disk.new)) }
    ensures runs { Runs [] (4 + 4 * length routes.now) (D.state disk.old) (D.state disk.new) }
{
    if disk.size() < 32 + 68 * (u64::from(SLOT_COUNT) + routes.len() as u64 + 1) {
        return Err(GrowFault::TooSmall);
    }
    match vec![in alloc; 0; disk.size() as usize] {
        Ok(mut image) => grow_image(disk, image.as_mut_slice(), wanted, routes),
        Err(AllocError) => Err(GrowFault::Memory),
    }
}

/// The same in room for the bytes of the disk.
fn grow_image<D: Disk>(
    disk: &mut D,
    image: &mut [u8],
    wanted: Layout,
    routes: &[Route],
) -> Result<u16, GrowFault>
    requires few { length routes.now ≤ MOST_ROUTES }
    requires room { twin_size (route_cell (length routes.now) + 1) ≤ length image.old }
    requires sized { length image.old ≡ (D.state disk.old).size }
    ensures count { IfOk result (λ n. n ≡ route_cell (length routes.now)) }
    ensures could { OnOk result (OfBytes (D.state disk.old) (λ x. CanBeGrown wanted routes.now (D.state disk.old))) }
    ensures wants { OnOk result (wanted ≡ twin_layout One) }
    ensures grown { OnOk result (GrowsStore routes.now (D.state disk.old) (D.state disk.new)) }
    ensures faults { OnOk result ((D.state disk.new).faults ≡ (D.state disk.old).faults) }
    ensures refused { IfErr result (NotGrown wanted routes.now (D.state disk.old) (D.state disk.new)) }
    ensures runs { Runs [] (4 + 4 * length routes.now) (D.state disk.old) (D.state disk.new) }
{
    see(disk, image, wanted)?;
    let there = routes_there(image, routes)?;
    match write_lacking(disk, image, routes, there) {
        Ok(()) => Ok(SLOT_COUNT + routes.len() as u16),
        Err(DiskFailed) => Err(GrowFault::DiskFailed),
    }
}

/// Reads the bytes of a disk that has the header of a twin store of version 1, if that store is wanted.
fn see<D: Disk>(disk: &mut D, image: &mut [u8], wanted: Layout) -> Result<(), GrowFault>
    requires room { 32 ≤ length image.old }
    requires sized { length image.old ≡ (D.state disk.old).size }
    ensures length { length image.new ≡ length image.old }
    ensures runs { Runs [] 2 (D.state disk.old) (D.state disk.new) }
    ensures same { (D.state disk.new).told ≡ (D.state disk.old).told }
    ensures faults { OnOk result ((D.state disk.new).faults ≡ (D.state disk.old).faults) }
    ensures sees { OnOk result (Sees (D.state disk.old) image.new) }
    ensures fits { OnOk result (FitsWanted wanted image.new (D.state disk.old)) }
    ensures refused { IfErr result (NotSeen wanted (D.state disk.old) (D.state disk.new)) }
{
    read_image(disk, image)?;
    match header_beside(disk, image) {
        Ok(there) => take_header(wanted, there),
        Err(DiskFailed) => Err(GrowFault::DiskFailed),
    }
}

/// Refuses a disk that has no header, or that of another store than the wanted one, or of one that can't be grown.
fn take_header(wanted: Layout, there: Option<StoreHeader>) -> Result<(), GrowFault>
    ensures takes { OnOk result (TakesHeader wanted there) }
    ensures refused { IfErr result (RefusesHeader wanted there) }
{
    let Some(header) = there else {
        return Err(GrowFault::NotFormatted);
    };
    if is_first_twin(header.layout) && is_first_twin(wanted) {
        Ok(())
    } else {
        Err(GrowFault::OtherStore(header))
    }
}

/// Whether this is the layout of a twin store of version 1.
fn is_first_twin(layout: Layout) -> bool
    ensures { IsTrue result ↔ (layout ≡ twin_layout One) }
{
    layout.kind == Kind::Twin && layout.version == Version::One
}

/// Reads the bytes of the disk.
fn read_image<D: Disk>(disk: &mut D, image: &mut [u8]) -> Result<(), GrowFault>
    requires { length image.old ≡ (D.state disk.old).size }
    ensures length { length image.new ≡ length image.old }
    ensures runs { Runs [] 1 (D.state disk.old) (D.state disk.new) }
    ensures same { (D.state disk.new).told ≡ (D.state disk.old).told }
    ensures faults { OnOk result ((D.state disk.new).faults ≡ (D.state disk.old).faults) }
    ensures sees { OnOk result (Sees (D.state disk.old) image.new) }
    ensures failed { OnErr result (Rose (D.state disk.old).faults (D.state disk.new).faults) }
    ensures only { IfErr result (λ fault. fault ≡ GrowFault.DiskFailed) }
{
    match disk.read(0, image) {
        Ok(()) => Ok(()),
        Err(DiskFailed) => Err(GrowFault::DiskFailed),
    }
}

/// Writes the cells of the routes from this place on to the store of these bytes, those of the disk, and then the number
/// of all cells, if it is another.
fn write_lacking<D: Disk>(
    disk: &mut D,
    image: &[u8],
    routes: &[Route],
    there: u16,
) -> Result<(), DiskFailed>
    requires few { length routes.now ≤ MOST_ROUTES }
    requires there { there ≤ length routes.now }
    requires room { twin_size (route_cell (length routes.now)) ≤ length image.now }
    requires sized { length image.now ≡ (D.state disk.old).size }
    ensures runs { Runs [] (2 + 4 * length routes.now) (D.state disk.old) (D.state disk.new) }
    ensures faults { OnOk result ((D.state disk.new).faults ≡ (D.state disk.old).faults) }
    ensures failed { OnErr result (Rose (D.state disk.old).faults (D.state disk.new).faults) }
    ensures written { OnOk result (WritesLacking image.now routes.now there (D.state disk.old) (D.state disk.new)) }
    ensures cut { OnErr result (CutsLacking image.now routes.now there (D.state disk.old) (D.state disk.new)) }
{
    write_cells(disk, SLOT_COUNT + there, &routes[usize::from(there)..])?;
    write_number(disk, image, SLOT_COUNT + routes.len() as u16)
}

/// Writes the first copies of the cells of these routes, the first of this number, one after the other.
fn write_cells<D: Disk>(disk: &mut D, cell: u16, routes: &[Route]) -> Result<(), DiskFailed>
    requires few { cell + length routes.now ≤ 1023 }
    requires room { twin_size (cell + length routes.now) ≤ (D.state disk.old).size }
    ensures runs { Runs [] (4 * length routes.now) (D.state disk.old) (D.state disk.new) }
    ensures faults { OnOk result ((D.state disk.new).faults ≡ (D.state disk.old).faults) }
    ensures failed { OnErr result (Rose (D.state disk.old).faults (D.state disk.new).faults) }
    ensures written { OnOk result
        (MakesOfBytes (with_cells cell routes.now) (D.state disk.old) (D.state disk.new)) }
    ensures cut { OnErr result (CutsCellsOnDisk cell routes.now (D.state disk.old) (D.state disk.new)) }
{
    match routes {
        [] => Ok(()),
        [route, rest @ ..] => {
            write_cell(disk, cell, route)?;
            write_cells(disk, cell + 1, rest)
        }
    }
}

/// Writes the first copy of the cell of this route: what stands behind its gate, and then the gate.
fn write_cell<D: Disk>(disk: &mut D, cell: u16, route: &Route) -> Result<(), DiskFailed>
    requires room { twin_size (cell + 1) ≤ (D.state disk.old).size }
    ensures runs { Runs [] 4 (D.state disk.old) (D.state disk.new) }
    ensures faults { OnOk result ((D.state disk.new).faults ≡ (D.state disk.old).faults) }
    ensures failed { OnErr result (Rose (D.state disk.old).faults (D.state disk.new).faults) }
    ensures written { OnOk result
        (MakesOfBytes (with_cell cell route.now) (D.state disk.old) (D.state disk.new)) }
    ensures cut { OnErr result (CutsCellOnDisk cell route.now (D.state disk.old) (D.state disk.new)) }
{
    let at = pair_place(cell);
    let payload = bound_bytes(route.id, route.direction, route.start);
    write_and_sync(disk, at + 1, &marked(0, &payload))?;
    write_and_sync(disk, at, &[LIVE])
}

/// Writes the number of cells into the header, unless it stands there. The header is that of these bytes.
fn write_number<D: Disk>(disk: &mut D, image: &[u8], cells: u16) -> Result<(), DiskFailed>
    requires room { 32 ≤ length image.now }
    requires sized { 32 ≤ (D.state disk.old).size }
    ensures runs { Runs [] 2 (D.state disk.old) (D.state disk.new) }
    ensures faults { OnOk result ((D.state disk.new).faults ≡ (D.state disk.old).faults) }
    ensures failed { OnErr result (Rose (D.state disk.old).faults (D.state disk.new).faults) }
    ensures written { OnOk result (OfBytes (D.state disk.old) (λ x. part 0 32 x ≡ part 0 32 image.now
        → (D.state disk.new).told ≡ Some (firm (with_number cells x)))) }
    ensures cut { OnErr result (CutsNumberOnDisk (D.state disk.old) (D.state disk.new)) }
{
    if has_head(image, cells) {
        return Ok(());
    }
    write_and_sync(disk, 10, &cells.to_be_bytes())
}
