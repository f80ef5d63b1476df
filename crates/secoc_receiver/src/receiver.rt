//! What a receiver says of a PDU, and why it says nothing.
ghost use Rattle.std.specs.Prelude.{◌≡◌, ◌↔◌, ◌%◌, ◌<◌, ℕ, List, false, Option, None, Err, IfOk, IfErr, OnOk, OnErr};
ghost use Rattle.std.specs.Prelude.{IsErrOf};
ghost use Rattle.secoc_receiver.specs.Words.{slot_at, usable, Mac, key_in, is_good, IsFrame, Secured, Ahead, Verdict};
ghost use Rattle.secoc_receiver.specs.Words.{Receives, KeepsBound, MovesTo, KeepsRoute, ServesRoute, Node, first_of};
ghost use Rattle.secoc_receiver.specs.Words.{receiver_refusals, receives, NodeStep, IsReceiverRoute, AcceptsPdu};
ghost use Rattle.secoc_receiver.specs.Words.{refusal_of_receive, line_of_receive, after_receive, outcome_in};
ghost use Rattle.secoc_receiver.specs.Words.{IfAccepted, IfNotAccepted, IfUnmoved, FaultedAt, FaultedWith};
ghost use Rattle.secoc_receiver.specs.Words.{ComesThrough};

use cell_store::Cells;
use freshness_manager::{PutFailed, Rx};
use freshness_routes::Route;
use key_slots::Erc;
use secured_pdu::{Judgement, split};
use she_engine::Engine;

/// What a receiver says of a PDU of 5 to 64 bytes.
#[derive(Clone, Copy, Debug, PartialEq, Eq)]
pub enum Reception {
    /// The PDU is authentic with a freshness ahead of the counter.
    Accepted {
        /// The freshness, all 64 bits.
        freshness: u64,
        /// The length of the payload in bytes, 1 to 60: the PDU begins with the payload.
        len: u8,
    },
    /// No freshness within the window has the low byte of the PDU.
    FreshnessFailure,
    /// The authenticator is another one.
    VerificationFailure,
}

/// Why nothing is said of a PDU. The first that applies is answered.
#[derive(Clone, Copy, Debug, PartialEq, Eq)]
pub enum ReceiveFault {
    /// The PDU has not 5 to 64 bytes.
    BadLength,
    /// The engine refuses a MAC under the route's key.
    Key(Erc),
    /// The PDU is authentic, and the disk failed as this bound was put. After the next power-up the bound is the old
    /// one or this.
    Faulted {
        /// The bound that was to be put.
        bound: u64,
    },
}

/// Receives a PDU: it asks for the key first, then the freshness, then the authenticator. Only then it puts a new
/// bound, if the old one doesn't cover the freshness. If it is accepted, the freshness becomes the counter. The
/// receiver is that of the route. Errors: the first of `BadLength`, `Key` and `Faulted` that applies, and `Faulted`
/// only if the disk failed. Unless the PDU is accepted the receiver is as before. A refusal and a failed verdict make
/// no call of the disk.
pub fn receive<C: Cells>(
    engine: &Engine,
    rx: &mut Rx,
    cells: &mut C,
    route: &Route,
    pdu: &[u8],
) -> Result<Reception, ReceiveFault>
    requires whole { (C.state cells.old).broken ≡ false }
    requires kept { KeepsBound (C.state cells.old).cells rx.old.place rx.old.id Receives rx.old.bound }
    requires route { IsReceiverRoute route.now rx.old }
    ensures refusal { first_of (receiver_refusals engine.now.slots (is_good engine.now.boot) route.now pdu.now)
        ≡ refusal_of_receive result }
    ensures bad_length { IsErrOf result ReceiveFault.BadLength ↔ (¬ IsFrame pdu.now) }
    ensures verdict { IfOk result
        (λ said. Verdict (key_in (slot_at engine.now.slots route.now.slot)) route.now.id rx.old.counter
        route.now.window pdu.now (outcome_in pdu.now said)) }
    ensures accepted { IfAccepted result
        (λ v len. AcceptsPdu v len pdu.now rx.old rx.new (C.state cells.old) (C.state cells.new)) }
    ensures as_before { IfNotAccepted result (rx.new ≡ rx.old) }
    ensures untouched { IfUnmoved result (C.state cells.new ≡ C.state cells.old) }
    ensures faulted { (bound : ℕ) → result ≡ Err (ReceiveFault.Faulted bound)
        → FaultedAt bound engine.now rx.old route.now pdu.now (C.state cells.old) (C.state cells.new) }
    ensures store { KeepsRoute rx.new.place rx.new.id Receives rx.new.bound
        (C.state cells.old) (C.state cells.new) result }
    ensures honest { (payload : List ℕ) (v : ℕ)
        → usable engine.now.slots route.now.slot (is_good engine.now.boot) Mac ≡ None
        → Secured (key_in (slot_at engine.now.slots route.now.slot)) route.now.id payload v pdu.now
        → Ahead rx.old.counter route.now.window (v % 256) v
        → ComesThrough payload v result (C.state cells.old) (C.state cells.new) }
    ensures step { (node : Node) (source : Option ℕ)
        → ServesRoute node route.now Receives rx.old.counter rx.old.bound engine.now.slots engine.now.boot
        → NodeStep node (receives route.now.id pdu.now) (line_of_receive route.now.id pdu.now source result)
        (after_receive node route.now.id result) }
{
    let Some(parts) = split(pdu) else {
        return Err(ReceiveFault::BadLength);
    };
    let key = match engine.mac_key(route.slot) {
        Ok(key) => key,
        Err(refusal) => return Err(ReceiveFault::Key(refusal)),
    };
    match key.judge(route.id, rx.counter(), rx.window(), &parts) {
        Judgement::Accepted(freshness) => accept(rx, cells, freshness, parts.payload.len() as u8),
        Judgement::FreshnessFailure => Ok(Reception::FreshnessFailure),
        Judgement::VerificationFailure => Ok(Reception::VerificationFailure),
    }
}

// Accepts a freshness above the counter, and with it a payload of this length.
fn accept<C: Cells>(
    rx: &mut Rx,
    cells: &mut C,
    freshness: u64,
    len: u8,
) -> Result<Reception, ReceiveFault>
    requires whole { (C.state cells.old).broken ≡ false }
    requires kept { KeepsBound (C.state cells.old).cells rx.old.place rx.old.id Receives rx.old.bound }
    requires above { rx.old.counter < freshness }
    ensures said { IfOk result (λ said. said ≡ Reception.Accepted freshness len) }
    ensures moved { OnOk result (MovesTo freshness rx.old rx.new (C.state cells.old) (C.state cells.new)) }
    ensures failed { IfErr result
        (λ fault. FaultedWith fault rx.old freshness (C.state cells.old) (C.state cells.new)) }
    ensures as_before { OnErr result (rx.new ≡ rx.old) }
    ensures store { KeepsRoute rx.new.place rx.new.id Receives rx.new.bound
        (C.state cells.old) (C.state cells.new) result }
{
    match rx.commit(cells, freshness) {
        Ok(()) => Ok(Reception::Accepted { freshness, len }),
        Err(PutFailed { bound }) => Err(ReceiveFault::Faulted { bound }),
    }
}
