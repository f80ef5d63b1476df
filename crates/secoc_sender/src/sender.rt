//! A send, and why one isn't made.
ghost use Rattle.std.specs.Prelude.{◌≡◌, ◌↔◌, ℕ, false, Err, IfOk, IfSome, OnErr, IsErrOf};
ghost use Rattle.key_slots.specs.Slots.{slot_at};
ghost use Rattle.memory_update.specs.Loading.{key_in};
ghost use Rattle.secure_boot.specs.Booting.{is_good};
ghost use Rattle.secured_pdu.specs.Frame.{IsPayload};
ghost use Rattle.freshness_routes.specs.declared.routes.Direction.TheVariants.{Sends};
ghost use Rattle.freshness_manager.specs.Counters.{KeepsBound};
ghost use Rattle.freshness_manager.specs.Changing.{MovesOn, FailsDue, KeepsRoute, due_of_sender};
ghost use Rattle.bus_machine.specs.Handlers.{ServesRoute};
ghost use Rattle.bus_machine.specs.Node.{Node};
ghost use Rattle.bus_machine.specs.Steps.{first_of, sender_refusals, sends, NodeStep};
ghost use Rattle.secoc_sender.specs.Sending.{IsSenderRoute, IsSent, refusal_of_send, line_of_send, after_send};

use cell_store::Cells;
use freshness_manager::{Tx, TxFault};
use freshness_routes::Route;
use key_slots::Erc;
use she_engine::Engine;

/// A payload that was sent.
#[derive(Clone, Copy, Debug, PartialEq, Eq)]
pub struct Sent {
    /// The freshness, all 64 bits.
    pub freshness: u64,
    /// The length of the PDU in bytes, 5 to 64.
    pub len: u8,
}

/// Why a payload isn't sent. The first that applies is answered.
#[derive(Clone, Copy, Debug, PartialEq, Eq)]
pub enum SendFault {
    /// The payload has not 1 to 60 bytes.
    BadLength,
    /// The engine refuses a MAC under the route's key.
    Key(Erc),
    /// The counter stands at 2^64 - 1, the greatest freshness.
    Exhausted,
    /// The disk failed as this bound was put. After the next power-up the bound is the old one or this.
    Faulted {
        /// The bound that was to be put.
        bound: u64,
    },
}

/// Sends a payload under the freshness above the counter, which becomes the counter: the Secured I-PDU stands at the
/// beginning of `out`. The sender is that of the route. Errors: the first of `BadLength`, `Key`, `Exhausted` and
/// `Faulted` that applies, and `Faulted` only if the disk failed. After each of them `out` and the sender are as
/// before, and no call of the disk was made except for `Faulted`.
pub fn send<C: Cells>(
    engine: &Engine,
    tx: &mut Tx,
    cells: &mut C,
    route: &Route,
    payload: &[u8],
    out: &mut [u8; 64],
) -> Result<Sent, SendFault>
    requires whole { (C.state cells.old).broken ≡ false }
    requires kept { KeepsBound (C.state cells.old).cells tx.old.place tx.old.id Sends tx.old.bound }
    requires route { IsSenderRoute route.now tx.old }
    ensures refusal { first_of
        (sender_refusals engine.now.slots (is_good engine.now.boot) route.now tx.old.counter payload.now)
        ≡ refusal_of_send result }
    ensures sent { IfOk result (IsSent (key_in (slot_at engine.now.slots route.now.slot)) route.now.id payload.now
        out.old out.new) }
    ensures moved { IfOk result
        (λ sent. MovesOn sent.freshness tx.old tx.new (C.state cells.old) (C.state cells.new)) }
    ensures untouched { IfSome (refusal_of_send result) (λ _. C.state cells.new ≡ C.state cells.old) }
    ensures bad_length { IsErrOf result SendFault.BadLength ↔ (¬ IsPayload payload.now) }
    ensures faulted { (bound : ℕ) → result ≡ Err (SendFault.Faulted bound)
        → FailsDue tx.old.place tx.old.id Sends (due_of_sender tx.old) bound (C.state cells.old) (C.state cells.new) }
    ensures as_before { OnErr result (tx.new ≡ tx.old) }
    ensures unwritten { OnErr result (out.new ≡ out.old) }
    ensures store { KeepsRoute tx.new.place tx.new.id Sends tx.new.bound
        (C.state cells.old) (C.state cells.new) result }
    ensures step { (node : Node)
        → ServesRoute node route.now Sends tx.old.counter tx.old.bound engine.now.slots engine.now.boot
        → NodeStep node (sends route.now.id payload.now) (line_of_send route.now.id result out.new)
        (after_send node route.now.id result) }
{
    if payload.is_empty() || payload.len() > 60 {
        return Err(SendFault::BadLength);
    }
    let key = match engine.mac_key(route.slot) {
        Ok(key) => key,
        Err(refusal) => return Err(SendFault::Key(refusal)),
    };
    match tx.next(cells) {
        Ok(freshness) => {
            let len = key.build(route.id, payload, freshness, out).unwrap() as u8;
            Ok(Sent { freshness, len })
        }
        Err(TxFault::Exhausted) => Err(SendFault::Exhausted),
        Err(TxFault::PutFailed { bound }) => Err(SendFault::Faulted { bound }),
    }
}
