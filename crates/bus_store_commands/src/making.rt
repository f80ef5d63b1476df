//! A node's store on a disk: made if the disk is unused, and found if it stands there.
ghost use Rattle.std.specs.Prelude.{◌≡◌, ◌≤◌, ◌+◌, length, Some, IfOk, IfErr};
ghost use Rattle.any_cells.specs.Either.{layout};
ghost use Rattle.any_cells.specs.Looking.{IsFound};
ghost use Rattle.any_cells.specs.declared.looking.Found.TheVariants.{Blank, Standing};
ghost use Rattle.cell_store.specs.Store.{store_size};
ghost use Rattle.cut_disk.specs.State.{Told};
ghost use Rattle.freshness_routes.specs.Config.{IsConfig};
ghost use Rattle.bus_store_commands.specs.NodeStores.{StoreMade, StoreUnmade, fault_of_cells};
ghost use Rattle.bus_store_commands.specs.NodeStores.{IsUnused, NamesOther, fault_of_look};

use any_cells::{AnyCells, Found, look, store_size};
use cell_store::{Cells, Kind, StoreFault, Version};
use cut_disk::{Disk, DiskFailed};
use disk_looks::{LookFault, is_zeroed};
use freshness_routes::NodeConfig;
use key_slots::SlotId;
use secoc_node::{AttachFault, Node, first_cells};
use std::alloc::Global;
use store_growing::{StoreHeader, header_on};

/// Why a node's store isn't made.
#[derive(Clone, Copy, Debug, PartialEq, Eq, Drop)]
pub enum MakeFault {
    /// The disk failed or has no room, a byte isn't zero and no store's header stands there, the node's store there is
    /// damaged, or memory is out.
    Store(StoreFault),
    /// The header of this store stands there, of another kind, version or number of cells.
    OtherStore(StoreHeader),
    /// The node's store stands there, and this slot's cell holds no slot.
    BadSlot(SlotId),
    /// It stands there, and this cell doesn't hold the bound of its route.
    BadBound(u16),
}

/// A disk that is handed back, and why the node's store isn't made there.
#[derive(Drop)]
pub struct Unmade<D> {
    /// The disk.
    pub disk: D,
    /// The cause.
    pub fault: MakeFault,
}

/// Makes the store of a node with this configuration on the disk, of this kind and version, if all bytes of the disk
/// are zeros: with the cells of a new node, as the node's first start would. The node's store that stands there whole
/// is only read, and so is anything else, which is refused.
///
/// Errors, in this order: `TooSmall`; `DiskFailed` of the look; `OtherStore` and `NotFormatted`; of blank headers
/// `Memory`, `DiskFailed` of the bytes, `OtherStore` and `NotFormatted` if one isn't zero, and `DiskFailed` of the
/// format; of the node's store that stands, `Memory`, `DiskFailed`, `Damaged`, `BadSlot` and `BadBound`.
pub fn make_store<D: Disk>(
    alloc: Global,
    kind: Kind,
    version: Version,
    config: &NodeConfig,
    disk: D,
) -> Result<D, Unmade<D>>
    requires { IsConfig config.now }
    ensures made { IfOk result (λ d. StoreMade kind version config.now (D.state disk) (D.state d)) }
    ensures refused { IfErr result (λ u. StoreUnmade kind version config.now (D.state disk) (D.state u.disk) u.fault) }
{
    if disk.size() < store_size(kind, version, cells_of(config)) {
        let fault = MakeFault::Store(StoreFault::TooSmall);
        return Err(Unmade { disk, fault });
    }
    make_in_room(alloc, kind, version, config, disk)
}

/// The number of cells of a node with this configuration.
pub(crate) fn cells_of(config: &NodeConfig) -> u16
    ensures cells { result ≡ 14 + length config.now.routes }
    ensures most { result ≤ 270 }
{
    14 + config.routes.as_slice().len() as u16
}

/// The same if there is room on the disk.
fn make_in_room<D: Disk>(
    alloc: Global,
    kind: Kind,
    version: Version,
    config: &NodeConfig,
    mut disk: D,
) -> Result<D, Unmade<D>>
    requires config { IsConfig config.now }
    requires room { store_size (layout kind version) (14 + length config.now.routes) ≤ (D.state disk).size }
    ensures made { IfOk result (λ d. StoreMade kind version config.now (D.state disk) (D.state d)) }
    ensures refused { IfErr result (λ u. StoreUnmade kind version config.now (D.state disk) (D.state u.disk) u.fault) }
{
    match look(&mut disk, kind, version, cells_of(config)) {
        Ok(Found::Blank) => make_blank(alloc, kind, version, config, disk),
        Ok(Found::Standing) => find_standing(alloc, kind, version, config, disk),
        Ok(_) => Err(refuse(disk)),
        Err(DiskFailed) => {
            let fault = MakeFault::Store(StoreFault::DiskFailed);
            Err(Unmade { disk, fault })
        }
    }
}

/// Refuses a disk that is neither unused nor has the node's store: by the store whose header stands there, if one does.
fn refuse<D: Disk>(mut disk: D) -> Unmade<D>
    requires { 32 ≤ (D.state disk).size }
    ensures { NamesOther (D.state disk) (D.state result.disk) result.fault }
{
    match header_on(&mut disk) {
        Ok(Some(there)) => {
            let fault = MakeFault::OtherStore(there);
            Unmade { disk, fault }
        }
        Ok(None) => {
            let fault = MakeFault::Store(StoreFault::NotFormatted);
            Unmade { disk, fault }
        }
        Err(DiskFailed) => {
            let fault = MakeFault::Store(StoreFault::DiskFailed);
            Unmade { disk, fault }
        }
    }
}

/// Makes the store on a disk whose headers are blank, if all bytes are zeros.
fn make_blank<D: Disk>(
    alloc: Global,
    kind: Kind,
    version: Version,
    config: &NodeConfig,
    mut disk: D,
) -> Result<D, Unmade<D>>
    requires config { IsConfig config.now }
    requires room { store_size (layout kind version) (14 + length config.now.routes) ≤ (D.state disk).size }
    requires blank { (t : Told) → (D.state disk).told ≡ Some t
        → IsFound kind version (14 + length config.now.routes) t.bytes Blank }
    ensures made { IfOk result (λ d. StoreMade kind version config.now (D.state disk) (D.state d)) }
    ensures refused { IfErr result (λ u. StoreUnmade kind version config.now (D.state disk) (D.state u.disk) u.fault) }
{
    match is_zeroed(alloc, &mut disk) {
        Ok(true) => make_new(kind, version, config, disk),
        Ok(false) => Err(refuse(disk)),
        Err(fault) => Err(Unmade {
            disk,
            fault: MakeFault::Store(look_fault(fault)),
        }),
    }
}

/// Why the bytes of a disk weren't read, as a fault of a store.
fn look_fault(fault: LookFault) -> StoreFault
    ensures { result ≡ fault_of_look fault }
{
    match fault {
        LookFault::DiskFailed => StoreFault::DiskFailed,
        LookFault::Memory => StoreFault::Memory,
    }
}

/// Formats an unused disk as a store of the first cells of a node with this configuration.
fn make_new<D: Disk>(
    kind: Kind,
    version: Version,
    config: &NodeConfig,
    disk: D,
) -> Result<D, Unmade<D>>
    requires config { IsConfig config.now }
    requires room { store_size (layout kind version) (14 + length config.now.routes) ≤ (D.state disk).size }
    requires unused { (t : Told) → (D.state disk).told ≡ Some t → IsUnused kind version config.now t.bytes }
    ensures made { IfOk result (λ d. StoreMade kind version config.now (D.state disk) (D.state d)) }
    ensures refused { IfErr result (λ u. StoreUnmade kind version config.now (D.state disk) (D.state u.disk) u.fault) }
{
    let mut cells = [[0; 32]; 270];
    let count = first_cells(config, &mut cells);
    match AnyCells::format_as(disk, kind, version, &cells[..count]) {
        Ok(disk) => Ok(disk),
        Err(refused) => Err(Unmade {
            disk: refused.disk,
            fault: MakeFault::Store(refused.fault),
        }),
    }
}

/// Reads the store of a node with this configuration, whose header stands on the disk.
fn find_standing<D: Disk>(
    alloc: Global,
    kind: Kind,
    version: Version,
    config: &NodeConfig,
    disk: D,
) -> Result<D, Unmade<D>>
    requires config { IsConfig config.now }
    requires room { store_size (layout kind version) (14 + length config.now.routes) ≤ (D.state disk).size }
    requires standing { (t : Told) → (D.state disk).told ≡ Some t
        → IsFound kind version (14 + length config.now.routes) t.bytes Standing }
    ensures made { IfOk result (λ d. StoreMade kind version config.now (D.state disk) (D.state d)) }
    ensures refused { IfErr result (λ u. StoreUnmade kind version config.now (D.state disk) (D.state u.disk) u.fault) }
{
    let Ok(config) = config.copy(alloc) else {
        let fault = MakeFault::Store(StoreFault::Memory);
        return Err(Unmade { disk, fault });
    };
    match AnyCells::attach_as(alloc, disk, kind, version, cells_of(&config)) {
        Ok(cells) => match Node::attach(alloc, config, cells) {
            Ok(node) => Ok(node.release().release()),
            Err(refused) => Err(Unmade {
                disk: refused.cells.release(),
                fault: attach_fault(&refused.fault),
            }),
        },
        Err(unread) => Err(Unmade {
            disk: unread.disk,
            fault: MakeFault::Store(unread.fault),
        }),
    }
}

/// Why cells are no node's.
fn attach_fault(fault: &AttachFault) -> MakeFault
    ensures { result ≡ fault_of_cells fault.now }
{
    match fault {
        AttachFault::BadSlot(slot) => MakeFault::BadSlot(*slot),
        AttachFault::BadBound(cell) => MakeFault::BadBound(*cell),
        AttachFault::Memory => MakeFault::Store(StoreFault::Memory),
    }
}
