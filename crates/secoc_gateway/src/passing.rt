//! One arrival: what a node accepts under one Data ID, it sends under another.
ghost use Rattle.std.specs.Prelude.{◌≡◌, ◌+◌, ◌≤◌, ℕ, List, length, take};
ghost use Rattle.freshness_routes.specs.declared.routes.Direction.TheVariants.{Sends, Receives};
ghost use Rattle.bus_machine.specs.declared.events.Event.TheVariants.{Inject};
ghost use Rattle.bus_machine.specs.Node.{HasRoute, place_of, counter_at};
ghost use Rattle.secoc_node.specs.State.{IsCovered};
ghost use Rattle.secoc_gateway.specs.Gateway.{EventStep, PassesOn};
ghost use Rattle.secoc_gateway.specs.Turns.{EventTurn};
ghost use Rattle.secoc_gateway.specs.Arrivals.{arrival_line, IfForwarded, IfNotForwarded, IfSpent};
ghost use Rattle.secoc_gateway.specs.Arrivals.{IfNothingDone, CanForward, IsForwardedWith};
ghost use Rattle.secoc_gateway.specs.Relayed.{DepartsIn, ServedArrival};

use crate::arrival::Arrival;
use cell_store::Cells;
use secoc_node::{Node, NodeFault, Reception};

/// The first bytes, so many of them.
pub fn front(bytes: &[u8], len: u8) -> &[u8]
    requires { len ≤ length bytes.now }
    ensures { result.now ≡ take len bytes.now }
{
    &bytes[..usize::from(len)]
}

/// Receives a PDU under a Data ID, and if it is accepted sends its payload under another: the PDU that departs stands
/// at the beginning of `out`, whose rest is as before. Errors: those of the reception.
pub fn pass_on<C: Cells>(
    node: &mut Node<C>,
    id: u16,
    second: u16,
    pdu: &[u8],
    out: &mut [u8; 64],
) -> Result<Arrival, NodeFault>
    requires receives { HasRoute node.old.node id Receives }
    requires sends { HasRoute node.old.node second Sends }
    ensures step { (place : ℕ) → PassesOn EventStep second node.old.node (Inject place id pdu.now)
        (arrival_line id second out.new result) node.new.node }
    // the same of what the node knows of its store and disk: one turn of the node, or two
    ensures turn { (place : ℕ) → PassesOn EventTurn second node.old (Inject place id pdu.now)
        (arrival_line id second out.new result) node.new }
    ensures departs { IfForwarded result (DepartsIn pdu.now out.old out.new) }
    ensures unwritten { IfNotForwarded result (out.new ≡ out.old) }
    ensures arrival_covered { IfSpent result (IsCovered node.new id Receives) }
    ensures departure_covered { IfForwarded result (λ sent. IsCovered node.new second Sends sent.freshness) }
    ensures untouched { IfNothingDone result (node.new ≡ node.old) }
    ensures forwards { (payload : List ℕ) (v : ℕ) → CanForward node.old id second pdu.now payload v
        → IsForwardedWith result v (counter_at node.old.node (place_of node.old.node second Sends) + 1) }
    ensures serves { ServedArrival node.old node.new result }
{
    match node.receive(id, pdu) {
        Ok(Reception::Accepted { freshness, len }) => {
            let payload = front(pdu, len);
            match node.send(second, payload, out) {
                Ok(sent) => Ok(Arrival::Forwarded { freshness, sent }),
                Err(fault) => Ok(Arrival::Dropped { freshness, fault }),
            }
        }
        Ok(Reception::FreshnessFailure) => Ok(Arrival::FreshnessFailure),
        Ok(Reception::VerificationFailure) => Ok(Arrival::VerificationFailure),
        Err(fault) => Err(fault),
    }
}
