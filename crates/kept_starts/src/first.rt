//! The look at the disk of the one node of a bus, before the node is started there.
ghost use Rattle.std.specs.Prelude.{◌≡◌, ◌↔◌, ◌≤◌, length, map, IsTrue, IfErr, OnOk};
ghost use Rattle.cut_disk.specs.Calls.{AsBefore};
ghost use Rattle.std.specs.Prelude.{Some};
ghost use Rattle.cut_disk.specs.State.{Told};
ghost use Rattle.disk_looks.specs.declared.looks.Seen.TheVariants.{Older};
ghost use Rattle.kept_starts.specs.LookedAt.{LookedAt, NotKept, FailsToKeep, KeepsTold, HasStoreRoom, size_in_bus, cells_in_bus};
ghost use Rattle.kept_starts.specs.LookedAt.{KeepsOlder, HoldsOldCells, FailsToKeepWithin, SeenInBus, look_calls, cells_calls};
ghost use Rattle.kept_starts.specs.LookedAt.{keep_fault_of_store, keep_fault_of_cells, config_in_bus};
ghost use Rattle.freshness_routes.specs.Config.{IsConfig};
ghost use Rattle.bus_world.specs.Starts.{HasRoom};

use crate::unfinished::look_at_unfinished;
use any_cells::{AnyCells, put_first, store_size};
use bus_config::BusConfig;
use cell_store::{Cells, StoreFault, Version};
use cut_disk::Disk;
use disk_looks::{LookFault, Seen, look_whole};
use freshness_routes::NodeConfig;
use key_slots::SlotId;
use secoc_node::{AttachFault, Node};
use std::alloc::Global;
use store_growing::StoreHeader;

/// Why a start doesn't go on over the disk of the node. The disk was read, and not written.
#[derive(Clone, Copy, Debug, PartialEq, Eq, Drop)]
pub enum KeepFault {
    /// The header of this store stands there, of another kind, version or number of cells.
    OtherStore(StoreHeader),
    /// No header of a store stands there, and a byte is neither zero nor what a cut within the first format of the node's
    /// store leaves.
    NotFormatted,
    /// The node's store stands there in version 1, which a start would move, and this place of it is damaged.
    Damaged(u16),
    /// It stands there, and this slot's cell holds no slot.
    BadSlot(SlotId),
    /// It stands there, and this cell doesn't hold the bound of its route.
    BadBound(u16),
    /// A call of the disk failed.
    DiskFailed,
    /// There was no memory.
    Memory,
}

/// Looks at the first of these disks, if it has room for the store of the bus's one node. Ok if there is no such disk,
/// or if its bytes are all zeros, or what a cut within the first format of the node's store left of zeros, or have that
/// store, also one in version 1 for a bus of version 2. Such a store is moved by the start, so its cells are read here:
/// they have to be the node's. It writes nothing. The disks are in their places again.
pub fn look_first<D: Disk>(
    alloc: Global,
    bus: &BusConfig,
    disks: &mut Vec<D>,
) -> Result<(), KeepFault>
    requires { length bus.now.nodes ≡ 1 }
    ensures looked { OnOk result (LookedAt bus.now (map D.state disks.old.items) (map D.state disks.new.items)) }
    ensures unlooked { OnOk result (¬ HasRoom bus.now (map D.state disks.old.items) → disks.new ≡ disks.old) }
    ensures refused { IfErr result (NotKept bus.now (map D.state disks.old.items) (map D.state disks.new.items)) }
{
    if !has_room(bus, disks.as_slice()) {
        return Ok(());
    }
    let disk = disks.remove(0);
    let (disk, outcome) = look_at(alloc, bus, disk);
    put_first(disks, disk);
    outcome
}

/// Whether there is a disk with room for the store of the bus's one node.
fn has_room<D: Disk>(bus: &BusConfig, disks: &[D]) -> bool
    requires { length bus.now.nodes ≡ 1 }
    ensures { IsTrue result ↔ HasStoreRoom bus.now (map D.state disks.now) }
{
    if disks.is_empty() {
        return false;
    }
    disks[0].size() >= size_in_bus(bus)
}

/// The number of bytes of the store of the bus's one node.
fn size_in_bus(bus: &BusConfig) -> u64
    requires { length bus.now.nodes ≡ 1 }
    ensures { result ≡ size_in_bus bus.now }
{
    store_size(bus.kind(), bus.version(), cells_in_bus(bus))
}

/// The number of its cells.
fn cells_in_bus(bus: &BusConfig) -> u16
    requires { length bus.now.nodes ≡ 1 }
    ensures cells { result ≡ cells_in_bus bus.now }
    ensures most { result ≤ 270 }
{
    let nodes = bus.nodes();
    let node = &nodes[0];
    14 + node.config.routes.as_slice().len() as u16
}

/// The configuration of the bus's one node.
pub(crate) fn node_config(bus: &BusConfig) -> &NodeConfig
    requires { length bus.now.nodes ≡ 1 }
    ensures config { result.now ≡ config_in_bus bus.now }
    ensures good { IsConfig result.now }
{
    let nodes = bus.nodes();
    &nodes[0].config
}

/// The same of a disk with room for the store, which is handed back.
fn look_at<D: Disk>(alloc: Global, bus: &BusConfig, disk: D) -> (D, Result<(), KeepFault>)
    requires one { length bus.now.nodes ≡ 1 }
    requires room { size_in_bus bus.now ≤ (D.state disk).size }
    ensures as_before { OnOk result.1 (AsBefore (look_calls bus.now) (D.state disk) (D.state result.0)) }
    ensures keeps { OnOk result.1 (KeepsTold bus.now (D.state disk)) }
    ensures keeps_older { OnOk result.1 (KeepsOlder bus.now (D.state disk)) }
    ensures refused { IfErr result.1 (FailsToKeep bus.now (D.state disk) (D.state result.0)) }
{
    let mut disk = disk;
    match look_whole(
        alloc,
        &mut disk,
        bus.kind(),
        bus.version(),
        cells_in_bus(bus),
    ) {
        Ok(seen) => kept_as(alloc, bus, disk, seen),
        Err(LookFault::DiskFailed) => (disk, Err(KeepFault::DiskFailed)),
        Err(LookFault::Memory) => (disk, Err(KeepFault::Memory)),
    }
}

/// Whether a start goes on over what was seen on the disk.
fn kept_as<D: Disk>(
    alloc: Global,
    bus: &BusConfig,
    disk: D,
    seen: Seen,
) -> (D, Result<(), KeepFault>)
    requires one { length bus.now.nodes ≡ 1 }
    requires room { size_in_bus bus.now ≤ (D.state disk).size }
    requires seen { (t : Told) → (D.state disk).told ≡ Some t → SeenInBus bus.now t.bytes seen }
    ensures as_before { OnOk result.1 (AsBefore (cells_calls bus.now) (D.state disk) (D.state result.0)) }
    ensures keeps { OnOk result.1 (KeepsTold bus.now (D.state disk)) }
    ensures keeps_older { OnOk result.1 (KeepsOlder bus.now (D.state disk)) }
    ensures refused { IfErr result.1
        (FailsToKeepWithin (cells_calls bus.now) bus.now (D.state disk) (D.state result.0)) }
{
    match seen {
        Seen::Unused | Seen::Standing => (disk, Ok(())),
        Seen::Older => look_at_older(alloc, bus, disk),
        Seen::Other(there) => (disk, Err(KeepFault::OtherStore(there))),
        Seen::Neither => look_at_unfinished(alloc, bus, disk),
    }
}

/// Reads the cells of the node's store in version 1, which a start would move: they have to be the node's.
fn look_at_older<D: Disk>(alloc: Global, bus: &BusConfig, disk: D) -> (D, Result<(), KeepFault>)
    requires one { length bus.now.nodes ≡ 1 }
    requires room { size_in_bus bus.now ≤ (D.state disk).size }
    requires older { (t : Told) → (D.state disk).told ≡ Some t → SeenInBus bus.now t.bytes Older }
    ensures as_before { OnOk result.1 (AsBefore (cells_calls bus.now) (D.state disk) (D.state result.0)) }
    ensures holds { OnOk result.1 (HoldsOldCells bus.now (D.state disk)) }
    ensures refused { IfErr result.1
        (FailsToKeepWithin (cells_calls bus.now) bus.now (D.state disk) (D.state result.0)) }
{
    let Ok(config) = node_config(bus).copy(alloc) else {
        return (disk, Err(KeepFault::Memory));
    };
    match AnyCells::attach_as(alloc, disk, bus.kind(), Version::One, cells_in_bus(bus)) {
        Ok(cells) => match Node::attach(alloc, config, cells) {
            Ok(node) => (node.release().release(), Ok(())),
            Err(refused) => {
                let fault = cells_fault(&refused.fault);
                (refused.cells.release(), Err(fault))
            }
        },
        Err(unread) => (unread.disk, Err(store_fault(unread.fault))),
    }
}

/// Why a store in version 1 isn't read.
fn store_fault(fault: StoreFault) -> KeepFault
    ensures { result ≡ keep_fault_of_store fault }
{
    match fault {
        StoreFault::DiskFailed => KeepFault::DiskFailed,
        StoreFault::NotFormatted | StoreFault::TooSmall => KeepFault::NotFormatted,
        StoreFault::Damaged(place) => KeepFault::Damaged(place),
        StoreFault::Memory => KeepFault::Memory,
    }
}

/// Why its cells are no node's.
fn cells_fault(fault: &AttachFault) -> KeepFault
    ensures { result ≡ keep_fault_of_cells fault.now }
{
    match fault {
        AttachFault::BadSlot(slot) => KeepFault::BadSlot(*slot),
        AttachFault::BadBound(cell) => KeepFault::BadBound(*cell),
        AttachFault::Memory => KeepFault::Memory,
    }
}
