//! A gateway over the first disk.
ghost use Rattle.std.specs.Prelude.{◌≡◌, ◌≤◌, ◌∷◌, ◌^◌, ◌<◌, length, map, All};
ghost use Rattle.bus_world.specs.Turns.{CanBeDone};
ghost use Rattle.secoc_gateway.specs.Pairs.{AreGood};
ghost use Rattle.gateway_commands.specs.Steps.{IsWholeJob, PrintsTurns, DoesGateway};

use crate::job::GatewayJob;
use crate::laws::gateways_are_runs;
use crate::texts::GatewayTexts;
use bus_port::Sink;
use bus_script::Event;
use bus_world::{Start, close_nodes, open_nodes, start_refusal};
use cell_store::CutCells;
use cut_disk::CutDisk;
use program_edge::tell_refusal;
use run_driver::{Unwritten, print_run, status_of_run};
use secoc_gateway::{Gateway, gateway_turns_keep};
use secoc_node::Node;
use std::alloc::Global;

/// Opens the node over the first disk, which is formatted. Steps a gateway over it through the events, writes the line
/// of each, and hands the disk back. After a text that isn't written no further event is done.
pub fn do_job<K: Sink, D: CutDisk>(
    alloc: Global,
    job: GatewayJob,
    sink: &mut K,
    disks: &mut Vec<D>,
) -> u8
    requires { IsWholeJob job }
    ensures { DoesGateway (disks.new ≡ disks.old) job.bus job.pairs.items job.events.items
        (record { before = map D.state disks.old.items; after = map D.state disks.new.items })
        (record { before = K.state sink.old; after = K.state sink.new; status = result }) }
{
    gateways_are_runs();
    gateway_turns_keep();
    let GatewayJob { bus, pairs, events } = job;
    let mut nodes = match open_nodes(alloc, &bus, disks, Start::Format) {
        Ok(nodes) => nodes,
        Err(fault) => return tell_refusal(sink, &start_refusal(&fault)),
    };
    let node = nodes.take_last();
    let (node, printed) = print_turns(alloc, node, pairs, events.as_slice(), sink);
    nodes.push_reserved(node);
    close_nodes(nodes, disks);
    status_of_run(printed)
}

// Steps a gateway over this node through the events, and writes the line of each. The node is handed back.
fn print_turns<C: CutCells, K: Sink>(
    alloc: Global,
    node: Node<C>,
    pairs: Vec<(u16, u16)>,
    events: &[Event],
    sink: &mut K,
) -> (Node<C>, Result<(), Unwritten>)
    requires good { AreGood node.node.config.routes pairs.items }
    requires few { length events.now < 2 ^ 32 }
    requires ready { All CanBeDone events.now }
    ensures { PrintsTurns node pairs.items events.now (K.state sink.old) (K.state sink.new) result.0 result.1 }
{
    let mut gateway = Gateway::of_good_pairs(node, pairs);
    let printed = print_run::<Gateway<C>, GatewayTexts, K>(alloc, &mut gateway, events, sink);
    (gateway.release(), printed)
}
