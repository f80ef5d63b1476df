//! How a node is opened over its disk, and closed.
ghost use Rattle.std.specs.Prelude.{◌≡◌, ◌+◌, ◌≤◌, ◌++◌, length, map, IfOk, IfErr};
ghost use Rattle.std.specs.Vec.{vec_len, vec_capacity};
ghost use Rattle.cell_store.specs.Store.{store_size};
ghost use Rattle.any_cells.specs.Either.{layout};
ghost use Rattle.cell_store.specs.declared.kinds.Version.TheVariants.{Two};
ghost use Rattle.freshness_routes.specs.Config.{IsConfig};
ghost use Rattle.bus_world.specs.declared.start.Start.TheVariants.{Format, Attach};
ghost use Rattle.bus_world.specs.Opening.{AttachedTo, NotAttachedTo, MovedTo, NotMovedTo, of_store, of_cells};
ghost use Rattle.bus_world.specs.Starts.{Opened, NotOpened, disks_of};

use crate::start::Start;
use any_cells::{AnyCells, Found, look, migrate, put_first};
use cell_store::{Cells, Kind, Reread, StoreFault, Version};
use cut_disk::{CutDisk, DiskFailed};
use freshness_routes::NodeConfig;
use key_slots::SlotId;
use secoc_node::{AttachFault, Node, first_cells};
use std::alloc::Global;

/// Why a node isn't opened over its disk.
#[derive(Clone, Copy, Debug, PartialEq, Eq, Drop)]
pub(crate) enum OpenFault {
    /// The store isn't written or moved, or what stands on the disk isn't read, or isn't a store of this node.
    Store(Reread),
    /// What was read has no slot in this slot's cell.
    BadSlot(SlotId),
    /// What was read doesn't have the bound of its route in this cell.
    BadBound(u16),
    /// The disk has fewer bytes than the store needs.
    TooSmall,
    /// There was no memory.
    Memory,
}

/// A disk that is handed back, and why.
#[derive(Drop)]
pub(crate) struct Unopened<T> {
    pub(crate) disk: T,
    pub(crate) fault: OpenFault,
}

/// Opens the node of this configuration over its disk, as this start does.
pub(crate) fn open_node<D: CutDisk>(
    alloc: Global,
    kind: Kind,
    version: Version,
    config: &NodeConfig,
    start: Start,
    disk: D,
) -> Result<Node<AnyCells<D>>, Unopened<D>>
    requires { IsConfig config.now × (store_size (layout kind version) (14 + length config.now.routes) ≤
        (D.state disk).size) }
    ensures opened { IfOk result (Opened start kind version config.now (D.state disk)) }
    ensures refused { IfErr result (λ u. NotOpened start kind version config.now (D.state disk)
        (D.state u.disk) u.fault) }
{
    let Ok(config) = config.copy(alloc) else {
        let fault = OpenFault::Memory;
        return Err(Unopened { disk, fault });
    };
    match start {
        Start::Format => open_new(alloc, kind, version, config, disk),
        Start::Attach => open_found(alloc, kind, version, config, disk),
    }
}

/// Opens the node over what is found on the disk: a blank disk is formatted, and an older store is moved.
fn open_found<D: CutDisk>(
    alloc: Global,
    kind: Kind,
    version: Version,
    config: NodeConfig,
    disk: D,
) -> Result<Node<AnyCells<D>>, Unopened<D>>
    requires { IsConfig config × (store_size (layout kind version) (14 + length config.routes) ≤ (D.state disk).size) }
    ensures opened { IfOk result (Opened Attach kind version config (D.state disk)) }
    ensures refused { IfErr result (λ u. NotOpened Attach kind version config (D.state disk) (D.state u.disk) u.fault) }
{
    let mut disk = disk;
    match look(&mut disk, kind, version, cells_of(&config)) {
        Ok(Found::Blank) => open_new(alloc, kind, version, config, disk),
        Ok(Found::Standing) => attach(alloc, kind, version, config, disk),
        Ok(Found::Older) => open_older(alloc, kind, config, disk),
        Ok(Found::Foreign) => {
            let fault = OpenFault::Store(Reread::NotFormatted);
            Err(Unopened { disk, fault })
        }
        Err(DiskFailed) => {
            let fault = OpenFault::Store(Reread::DiskFailed);
            Err(Unopened { disk, fault })
        }
    }
}

/// Moves the store of a node to version 2, and opens the node over it.
fn open_older<D: CutDisk>(
    alloc: Global,
    kind: Kind,
    config: NodeConfig,
    disk: D,
) -> Result<Node<AnyCells<D>>, Unopened<D>>
    requires { IsConfig config × (store_size (layout kind Two) (14 + length config.routes) ≤ (D.state disk).size) }
    ensures opened { IfOk result (MovedTo kind config (D.state disk)) }
    ensures refused { IfErr result (λ u. NotMovedTo kind config (D.state disk) (D.state u.disk) u.fault) }
{
    match migrate(alloc, disk, kind, cells_of(&config)) {
        Ok(disk) => attach(alloc, kind, Version::Two, config, disk),
        Err(refused) => Err(Unopened {
            disk: refused.disk,
            fault: open_fault(refused.fault),
        }),
    }
}

/// The number of cells of a node with this configuration.
fn cells_of(config: &NodeConfig) -> u16
    ensures cells { result ≡ 14 + length config.now.routes }
    ensures most { result ≤ 270 }
{
    14 + config.routes.as_slice().len() as u16
}

/// Formats the disk as a store of the first cells of a node with this configuration, and opens the node over it.
fn open_new<D: CutDisk>(
    alloc: Global,
    kind: Kind,
    version: Version,
    config: NodeConfig,
    disk: D,
) -> Result<Node<AnyCells<D>>, Unopened<D>>
    requires { IsConfig config × (store_size (layout kind version) (14 + length config.routes) ≤ (D.state disk).size) }
    ensures opened { IfOk result (Opened Format kind version config (D.state disk)) }
    ensures refused { IfErr result (λ u. NotOpened Format kind version config (D.state disk) (D.state u.disk) u.fault) }
{
    let mut cells = [[0; 32]; 270];
    let count = first_cells(&config, &mut cells);
    match AnyCells::format_as(disk, kind, version, &cells[..count]) {
        Ok(disk) => attach(alloc, kind, version, config, disk),
        Err(refused) => Err(Unopened {
            disk: refused.disk,
            fault: open_fault(refused.fault),
        }),
    }
}

/// Opens a node over its store.
fn attach<D: CutDisk>(
    alloc: Global,
    kind: Kind,
    version: Version,
    config: NodeConfig,
    disk: D,
) -> Result<Node<AnyCells<D>>, Unopened<D>>
    requires { IsConfig config × (store_size (layout kind version) (14 + length config.routes) ≤ (D.state disk).size) }
    ensures opened { IfOk result (AttachedTo kind version config (D.state disk)) }
    ensures refused { IfErr result (λ u. NotAttachedTo kind version config (D.state disk) (D.state u.disk) u.fault) }
{
    match AnyCells::attach_as(alloc, disk, kind, version, cells_of(&config)) {
        Ok(cells) => match Node::attach(alloc, config, cells) {
            Ok(node) => Ok(node),
            Err(refused) => Err(Unopened {
                disk: refused.cells.release(),
                fault: attach_fault(&refused.fault),
            }),
        },
        Err(unread) => Err(Unopened {
            disk: unread.disk,
            fault: open_fault(unread.fault),
        }),
    }
}

/// Why a store isn't opened.
fn open_fault(fault: StoreFault) -> OpenFault
    ensures { result ≡ of_store fault }
{
    match fault {
        StoreFault::DiskFailed => OpenFault::Store(Reread::DiskFailed),
        StoreFault::NotFormatted => OpenFault::Store(Reread::NotFormatted),
        StoreFault::Damaged(place) => OpenFault::Store(Reread::Damaged(place)),
        StoreFault::TooSmall => OpenFault::TooSmall,
        StoreFault::Memory => OpenFault::Memory,
    }
}

/// Why cells are no node's.
fn attach_fault(fault: &AttachFault) -> OpenFault
    ensures { result ≡ of_cells fault.now }
{
    match fault {
        AttachFault::BadSlot(slot) => OpenFault::BadSlot(*slot),
        AttachFault::BadBound(cell) => OpenFault::BadBound(*cell),
        AttachFault::Memory => OpenFault::Memory,
    }
}

/// Gives the disks of these nodes back at the beginning of the list, in their order. There is room for them, and it
/// takes no memory.
pub fn close_nodes<D: CutDisk>(nodes: Vec<Node<AnyCells<D>>>, disks: &mut Vec<D>)
    requires { vec_len disks.old + vec_len nodes ≤ vec_capacity disks.old }
    ensures { map D.state disks.new.items ≡ disks_of nodes.items ++ map D.state disks.old.items }
{
    let mut nodes = nodes;
    while let Some(node) = nodes.pop() {
        put_first(disks, node.release().release());
    }
    nodes.destroy_empty();
}
