//! How a world starts, and how it ends.
ghost use Rattle.std.specs.Prelude.{◌≡◌, ◌+◌, ◌≤◌, ◌<◌, [], length, map, drop, MatchResult, IfOk, IfErr};
ghost use Rattle.std.specs.Prelude.{OnOk};
ghost use Rattle.std.specs.Vec.{vec_len, vec_capacity};
ghost use Rattle.any_cells.specs.Either.{layout};
ghost use Rattle.cell_store.specs.Store.{store_size as size_of};
ghost use Rattle.bus_world.specs.declared.start.Start.{Start};
ghost use Rattle.bus_world.specs.Starts.{cells_in, HasRoom, FindsRoom, OpenedFirst, OpensNodes, OpensTo, NotStarted};
ghost use Rattle.bus_world.specs.Starts.{fault_of_node as fault_numbered};
ghost use Rattle.bus_world.specs.StartRows.{start_row};

use crate::history::History;
use crate::opening::{OpenFault, close_nodes, open_node};
use crate::world::World;
use any_cells::{AnyCells, put_first, store_size};
use bus_config::BusConfig;
use cell_store::Reread;
use cut_disk::CutDisk;
use freshness_routes::NodeConfig;
use key_slots::SlotId;
use secoc_node::Node;
use std::alloc::Global;

/// What a world makes of its disks when it starts.
#[derive(Clone, Copy, Debug, PartialEq, Eq, Drop)]
pub enum Start {
    /// Each disk is formatted with the first cells of its node.
    Format,
    /// Each node goes on where its disk stands. A disk that is blank is formatted. A store of the node is attached; one
    /// in version 1 is first moved to version 2, if the bus has that. Anything else is refused, and isn't written.
    Attach,
}

/// Why a world doesn't start. A node has its number, counted from 1.
#[derive(Clone, Copy, Debug, PartialEq, Eq, Drop)]
pub enum StartFault {
    /// There are fewer disks than nodes.
    TooFew,
    /// The disk of this node has fewer bytes than its store needs.
    TooSmall(u8),
    /// The store of this node isn't written or moved, or what stands on its disk isn't read, or isn't a store of the
    /// node.
    Store(u8, Reread),
    /// What was read from this node's disk has no slot in this slot's cell.
    BadSlot(u8, SlotId),
    /// What was read from this node's disk doesn't have the bound of its route in this cell.
    BadBound(u8, u16),
    /// There was no memory.
    Memory,
}

impl<D: CutDisk> World<D> {
    ghost use Rattle.std.specs.Prelude.{◌≡◌, ◌+◌, ◌≤◌, ◌++◌, length, map, drop, IfOk, IfErr, OnOk};
    ghost use Rattle.std.specs.Vec.{vec_len, vec_capacity};
    ghost use Rattle.bus_machine.specs.Bus.{SoundBus};
    ghost use Rattle.bus_world.specs.Starts.{Started, NotStarted, disks_of};
    ghost use Rattle.bus_world.specs.StartRows.{start_row};
    ghost use Rattle.bus_world.specs.Worlds.{world_of};

    /// The first world of a bus, over one disk a node from the beginning of `disks`, with room for the lines of so many
    /// events.
    ///
    /// Numbers and sizes of the disks decide first: `TooFew`, and `TooSmall` with the first such node, come before any
    /// call of a disk, also if there is no memory for these lines. Then node after node is opened, as the start says
    /// ([`open_nodes`]); a store that is moved is moved before its cells are looked at. After a refusal all disks are
    /// back in `disks`, in their order. After `Ok` there is room in `disks` for those that were taken.
    pub fn start(
        alloc: Global,
        bus: &BusConfig,
        disks: &mut Vec<D>,
        events: u32,
        start: Start,
    ) -> Result<World<D>, StartFault>
        ensures started { IfOk result (Started start bus.now events (map D.state disks.old.items)) }
        ensures sound { IfOk result (λ world. SoundBus (world_of world)) }
        ensures rest { OnOk result (map D.state disks.new.items
            ≡ drop (length bus.now.nodes) (map D.state disks.old.items)) }
        ensures room { OnOk result (vec_len disks.new + length bus.now.nodes ≤ vec_capacity disks.new) }
        ensures refused { IfErr result (NotStarted start bus.now (map D.state disks.old.items)
            (map D.state disks.new.items)) }
        ensures unread { IfErr result (λ fault. (start_row fault).status ≡ 9 → disks.new ≡ disks.old) }
    {
        let Ok(history) = History::new(alloc, events) else {
            return Err(without_records(bus, disks.as_slice()));
        };
        match open_nodes(alloc, bus, disks, start) {
            Ok(nodes) => Ok(World { nodes, history }),
            Err(fault) => Err(fault),
        }
    }

    /// The disks are back at the beginning of `disks`, in their order. It takes no memory.
    pub fn finish(self, disks: &mut Vec<D>)
        requires { vec_len disks.old + length self.nodes ≤ vec_capacity disks.old }
        ensures { map D.state disks.new.items ≡ disks_of self.nodes ++ map D.state disks.old.items }
    {
        let World { nodes, history: _ } = self;
        close_nodes(nodes, disks);
    }
}

/// The nodes of a bus, each opened over a disk from the beginning of `disks` as the start says. A world has them with
/// its records. `TooFew` and `TooSmall` come before any call of a disk. After a refusal all disks are back in `disks`,
/// in their order. After `Ok` there is room in `disks` for those that were taken; [`close_nodes`] puts them back.
pub fn open_nodes<D: CutDisk>(
    alloc: Global,
    bus: &BusConfig,
    disks: &mut Vec<D>,
    start: Start,
) -> Result<Vec<Node<AnyCells<D>>>, StartFault>
    ensures opened { IfOk result (λ nodes. OpensNodes start bus.now (map D.state disks.old.items) nodes.items) }
    ensures rest { OnOk result (map D.state disks.new.items
        ≡ drop (length bus.now.nodes) (map D.state disks.old.items)) }
    ensures room { OnOk result (vec_len disks.new + length bus.now.nodes ≤ vec_capacity disks.new) }
    ensures refused { IfErr result (NotStarted start bus.now (map D.state disks.old.items)
        (map D.state disks.new.items)) }
    ensures unread { IfErr result (λ fault. (start_row fault).status ≡ 9 → disks.new ≡ disks.old) }
{
    match find_room(bus, disks.as_slice()) {
        Ok(()) => open_in_room(alloc, bus, disks, start),
        Err(fault) => Err(fault),
    }
}

/// Why a world isn't started if there is no memory for its lines: missing and small disks are refused before that.
fn without_records<D: CutDisk>(bus: &BusConfig, disks: &[D]) -> StartFault
    ensures { (start : Start) → NotStarted start bus.now (map D.state disks.now) (map D.state disks.now) result }
{
    match find_room(bus, disks) {
        Ok(()) => StartFault::Memory,
        Err(fault) => fault,
    }
}

/// The same if there is room on the disks.
fn open_in_room<D: CutDisk>(
    alloc: Global,
    bus: &BusConfig,
    disks: &mut Vec<D>,
    start: Start,
) -> Result<Vec<Node<AnyCells<D>>>, StartFault>
    requires room { HasRoom bus.now (map D.state disks.old.items) }
    ensures opened { IfOk result (λ nodes. OpensNodes start bus.now (map D.state disks.old.items) nodes.items) }
    ensures rest { OnOk result (map D.state disks.new.items
        ≡ drop (length bus.now.nodes) (map D.state disks.old.items)) }
    ensures room { OnOk result (vec_len disks.new + length bus.now.nodes ≤ vec_capacity disks.new) }
    ensures refused { IfErr result (NotStarted start bus.now (map D.state disks.old.items)
        (map D.state disks.new.items)) }
{
    let Ok(mut nodes) = Vec::with_capacity(alloc, bus.nodes().len()) else {
        return Err(StartFault::Memory);
    };
    match open_all(alloc, bus, disks, start, &mut nodes) {
        Ok(()) => Ok(nodes),
        Err(fault) => {
            close_nodes(nodes, disks);
            Err(fault)
        }
    }
}

/// Whether there is a disk for each node, with room for its store.
fn find_room<D: CutDisk>(bus: &BusConfig, disks: &[D]) -> Result<(), StartFault>
    ensures { MatchResult result (λ _. HasRoom bus.now (map D.state disks.now))
        (FindsRoom bus.now (map D.state disks.now)) }
{
    let nodes = bus.nodes();
    if disks.len() < nodes.len() {
        return Err(StartFault::TooFew);
    }
    for (place, node) in nodes.iter().enumerate() {
        if disks[place].size() < size_of_store(bus, &node.config) {
            return Err(StartFault::TooSmall(number_of(place)));
        }
    }
    Ok(())
}

/// The number of bytes of the store of a node with this configuration.
fn size_of_store(bus: &BusConfig, config: &NodeConfig) -> u64
    ensures { result ≡ size_of (layout bus.now.kind bus.now.version) (cells_in config.now) }
{
    let cells = 14 + config.routes.as_slice().len() as u16;
    store_size(bus.kind(), bus.version(), cells)
}

/// The number of the node at a place.
fn number_of(place: usize) -> u8
    requires { place < 8 }
    ensures { result ≡ place + 1 }
{
    place as u8 + 1
}

/// Opens each node over the first disk that is left.
fn open_all<D: CutDisk>(
    alloc: Global,
    bus: &BusConfig,
    disks: &mut Vec<D>,
    start: Start,
    nodes: &mut Vec<Node<AnyCells<D>>>,
) -> Result<(), StartFault>
    requires room { HasRoom bus.now (map D.state disks.old.items) }
    requires none { nodes.old.items ≡ [] }
    requires reserved { length bus.now.nodes ≤ vec_capacity nodes.old }
    ensures opened { MatchResult result
        (λ _. OpenedFirst start (length bus.now.nodes) bus.now (map D.state disks.old.items) nodes.new.items)
        (OpensTo start bus.now (map D.state disks.old.items) (map D.state disks.new.items) nodes.new.items) }
    ensures rest { OnOk result (map D.state disks.new.items
        ≡ drop (length bus.now.nodes) (map D.state disks.old.items)) }
    ensures room { vec_len disks.new + vec_len nodes.new ≤ vec_capacity disks.new }
{
    for (place, node) in bus.nodes().iter().enumerate() {
        let disk = disks.remove(0);
        match open_node(alloc, bus.kind(), bus.version(), &node.config, start, disk) {
            Ok(node) => nodes.push_reserved(node),
            Err(unopened) => {
                put_first(disks, unopened.disk);
                return Err(fault_of_node(number_of(place), &unopened.fault));
            }
        }
    }
    Ok(())
}

/// The fault of the node with this number.
fn fault_of_node(number: u8, fault: &OpenFault) -> StartFault
    ensures { result ≡ fault_numbered number fault.now }
{
    match fault {
        OpenFault::Store(reread) => StartFault::Store(number, *reread),
        OpenFault::BadSlot(slot) => StartFault::BadSlot(number, *slot),
        OpenFault::BadBound(cell) => StartFault::BadBound(number, *cell),
        OpenFault::TooSmall => StartFault::TooSmall(number),
        OpenFault::Memory => StartFault::Memory,
    }
}
