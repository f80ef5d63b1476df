//! The line of the machine that tells what came of an arrival.
ghost use Rattle.std.specs.Prelude.{◌≡◌, ◌≤◌};
ghost use Rattle.secoc_gateway.specs.Arrivals.{arrival_line, IfForwarded};

use crate::GatewayLine;
use crate::arrival::Arrival;
use crate::passing::front;
use basics::Pdu;
use bus_machine::Line;
use bus_world::refusal_of;
use secoc_node::NodeFault;

/// The line of an arrival under the first Data ID of a pair: what departs under the second stands at the beginning of
/// `out`.
pub fn line_of(
    id: u16,
    second: u16,
    answer: &Result<Arrival, NodeFault>,
    out: &[u8; 64],
) -> GatewayLine
    requires { IfForwarded answer.now (λ sent. sent.len ≤ 64) }
    ensures { result ≡ arrival_line id second out.now answer.now }
{
    match answer {
        Ok(Arrival::Forwarded { freshness, sent }) => GatewayLine::Forwarded {
            id,
            freshness: *freshness,
            sent_id: second,
            sent_freshness: sent.freshness,
            pdu: Pdu::of(front(out, sent.len)).unwrap(),
        },
        Ok(Arrival::Dropped { freshness, fault }) => GatewayLine::Dropped {
            id,
            freshness: *freshness,
            refusal: refusal_of(*fault),
        },
        Ok(Arrival::FreshnessFailure) => GatewayLine::OfNode(Line::FreshnessFailure),
        Ok(Arrival::VerificationFailure) => GatewayLine::OfNode(Line::VerificationFailure),
        Err(fault) => GatewayLine::OfNode(Line::Refused(refusal_of(*fault))),
    }
}
