//! A node in all its lives.
ghost use Rattle.std.specs.Prelude.{◌≡◌, ◌≢◌, ◌<◌, ◌≤◌, ◌+◌, ◌^◌, ◌↔◌, ℕ, List, length, drop, not, true, false};
ghost use Rattle.std.specs.Prelude.{Option, IfOk, IfErr, OnOk, OnErr, IsErrOf, MatchOption, MatchResult};
ghost use Rattle.secoc_node.specs.Words.{ArmsStop, ArmsFail, CutAndRead, Settled, IsImage, Update, Builds, Sends};
ghost use Rattle.secoc_node.specs.Words.{Receives, Kept, HasRoute, place_of, counter_at, powered, Sound, sends};
ghost use Rattle.secoc_node.specs.Words.{receives, loads, keys, boots, cuts, NodeStep, SentLine, IsInTime};
ghost use Rattle.secoc_node.specs.Words.{IsHeard, CellsOf, IsKept, FitsNow, TellsFitting, IsCovered, Served};
ghost use Rattle.secoc_node.specs.Words.{AttachCause, ComesUp, StaysDown, sent_line, received_line, loaded_line};
ghost use Rattle.secoc_node.specs.Words.{keyed_line, boot_line, cut_line, IfAcceptedWith, IfLeftAlone};
ghost use Rattle.freshness_routes.specs.declared.config.TheConstants.{MOST_ROUTES};

use crate::counters::RouteCounter;
use crate::faults::{AttachFault, CutFault, NodeFault, NodeRefused};
use crate::known::Known;
use cell_store::{Cells, CutCells};
use cut_disk::Torn;
use freshness_manager::{Direction, NodeConfig, Route};
use memory_update::{Reply, Request};
use secoc_receiver::{ReceiveFault, Reception, receive};
use secoc_sender::{SendFault, Sent, send};
use she_engine::LoadFault;
use std::alloc::Global;
use std::marker::Model;

/// A node over a store of cells: it sends, receives, loads keys and boots, loses power and comes up again. Contracts
/// see the machine's node and the state of the store. The node is always sound, and while it is up its store has the
/// cells of what it keeps.
#[derive(Drop)]
pub struct Node<C: Cells> {
    known: Known,
    cells: C,
}

impl<C: Cells> Model for Node<C> {
    ghost use Rattle.secoc_node.specs.State.{NodeState};

    ghost Value = { NodeState };

    ghost use Rattle.secoc_node.specs.Keeping.{state_in, IsNode};

    ghost view = { λ n. state_in n.known (C.state n.cells) };

    ghost invariant = { λ n. IsNode n.known (C.state n.cells) };
}

impl<C: Cells> Node<C> {
    /// The node with this configuration over its cells: one for each of the fourteen slots, and then one for each
    /// route's bound. It is up, no boot was made, and each counter is its bound. Errors, in their order: `BadSlot`,
    /// `BadBound` and `Memory`; the cells are then handed back as they were.
    pub fn attach(alloc: Global, config: NodeConfig, cells: C) -> Result<Node<C>, NodeRefused<C>>
        requires count { length (C.state cells).cells ≡ 14 + length config.routes }
        requires whole { (C.state cells).broken ≡ false }
        ensures up { IfOk result (λ n. n.node ≡ powered config n.node.kept) }
        ensures kept { IfOk result (λ n. (C.state cells).cells ≡ CellsOf config n.node.kept) }
        ensures store { IfOk result (λ n. n.store ≡ C.state cells) }
        ensures sound { IfOk result (λ n. Sound n.node) }
        ensures fits { Settled (C.state cells) → IfOk result FitsNow }
        ensures cause { IfErr result (λ r. AttachCause config.routes (C.state cells).cells r.fault) }
        ensures handed_back { IfErr result (λ r. C.state r.cells ≡ C.state cells) }
        ensures of_kept { (kept : Kept) → IsKept config kept → (C.state cells).cells ≡ CellsOf config kept
            → MatchResult result (λ n. n.node ≡ powered config kept) (λ r. r.fault ≡ AttachFault.Memory) }
    {
        match Known::attach(alloc, config, &cells) {
            Ok(known) => Ok(Node { known, cells }),
            Err(fault) => Err(NodeRefused { cells, fault }),
        }
    }

    /// Sends a payload of 1 to 60 bytes under a Data ID: its Secured I-PDU (AUTOSAR SecOC, profile 1) stands at the
    /// beginning of `out`, whose rest is as before. Errors, in their order: `Down`, `NoRoute`, `BadLength`, `Key`,
    /// `Exhausted`, `Faulted`. After each of them `out` is as before, and except for `Faulted` so is all else, and no
    /// call of the disk was made.
    pub fn send(&mut self, id: u16, payload: &[u8], out: &mut [u8; 64]) -> Result<Sent, NodeFault>
        ensures step { NodeStep self.old.node (sends id payload.now) (sent_line id out.new result) self.new.node }
        ensures length { IfOk result (λ sent. sent.len ≡ length payload.now + 4) }
        ensures within { IfOk result (λ sent. sent.len ≤ 64) }
        ensures rest { IfOk result (λ sent. drop sent.len out.new ≡ drop sent.len out.old) }
        ensures covered { IfOk result (λ sent. IsCovered self.new id Sends sent.freshness) }
        // what is covered of the routes that receive stays so, whatever came of the send
        ensures others { (other freshness : ℕ) → IsCovered self.old other Receives freshness
            → IsCovered self.new other Receives freshness }
        ensures untouched { IfErr result (λ fault. fault ≢ NodeFault.Faulted → self.new ≡ self.old) }
        ensures unwritten { OnErr result (out.new ≡ out.old) }
        ensures no_route { IsErrOf result NodeFault.NoRoute
            ↔ ((self.old.node.up ≡ true) × (¬ HasRoute self.old.node id Sends)) }
        ensures serves { Served self.old self.new result }
    {
        if !self.known.up {
            return Err(NodeFault::Down);
        }
        let Some((place, route)) = self.known.route(id, Direction::Sends) else {
            return Err(NodeFault::NoRoute);
        };
        let RouteCounter::Sends(tx) = &mut self.known.counters[place] else {
            unreachable!();
        };
        match send(
            &self.known.engine,
            tx,
            &mut self.cells,
            &route,
            payload,
            out,
        ) {
            Ok(sent) => Ok(sent),
            Err(SendFault::BadLength) => Err(NodeFault::BadLength),
            Err(SendFault::Key(refusal)) => Err(NodeFault::Key(refusal)),
            Err(SendFault::Exhausted) => Err(NodeFault::Exhausted),
            Err(SendFault::Faulted { bound }) => Err(self.known.fail_at(place, bound)),
        }
    }

    /// Receives a PDU of 5 to 64 bytes under a Data ID. An accepted payload is a prefix of the PDU. Errors, in their
    /// order: `Down`, `NoRoute`, `BadLength`, `Key`, `Faulted`. After each of them but `Faulted`, and after the two
    /// failures, all is as before, and no call of the disk was made.
    pub fn receive(&mut self, id: u16, pdu: &[u8]) -> Result<Reception, NodeFault>
        ensures step { (source : Option ℕ)
            → NodeStep self.old.node (receives id pdu.now) (received_line id pdu.now source result) self.new.node }
        ensures length { IfAcceptedWith result (λ freshness len. len + 4 ≡ length pdu.now) }
        ensures covered { IfAcceptedWith result (λ freshness len. IsCovered self.new id Receives freshness) }
        ensures honest { (sent : SentLine) (source : Option ℕ) → sent.id ≡ id → sent.pdu ≡ pdu.now
            → IsInTime self.old.node sent (place_of self.old.node id Receives) → sent.freshness < 2 ^ 64
            → IsHeard sent (received_line id pdu.now source result) }
        ensures untouched { IfLeftAlone result (self.new ≡ self.old) }
        ensures no_route { IsErrOf result NodeFault.NoRoute
            ↔ ((self.old.node.up ≡ true) × (¬ HasRoute self.old.node id Receives)) }
        ensures serves { Served self.old self.new result }
    {
        if !self.known.up {
            return Err(NodeFault::Down);
        }
        let Some((place, route)) = self.known.route(id, Direction::Receives) else {
            return Err(NodeFault::NoRoute);
        };
        let RouteCounter::Receives(rx) = &mut self.known.counters[place] else {
            unreachable!();
        };
        match receive(&self.known.engine, rx, &mut self.cells, &route, pdu) {
            Ok(said) => Ok(said),
            Err(ReceiveFault::BadLength) => Err(NodeFault::BadLength),
            Err(ReceiveFault::Key(refusal)) => Err(NodeFault::Key(refusal)),
            Err(ReceiveFault::Faulted { bound }) => Err(self.known.fail_at(place, bound)),
        }
    }

    /// Loads the key of a request into its slot, and confirms it (SHE specification, memory update protocol). Errors:
    /// `Down`, then `Key` with the first refusal that applies, then `Faulted`. After the first two all is as before,
    /// and no call of the disk was made. If the request was built of an update, the load is the machine's step for that
    /// update, too.
    pub fn load(&mut self, request: &Request) -> Result<Reply, NodeFault>
        ensures step { NodeStep self.old.node (loads request.now) (loaded_line result) self.new.node }
        // of the request that was built of an update: what the machine answers to that update
        ensures keyed { (update : Update) (authkey : List ℕ) → Builds request.now authkey update
            → NodeStep self.old.node (keys update authkey) (keyed_line update.id result) self.new.node }
        ensures untouched { IfErr result (λ fault. fault ≢ NodeFault.Faulted → self.new ≡ self.old) }
        ensures serves { Served self.old self.new result }
    {
        if !self.known.up {
            return Err(NodeFault::Down);
        }
        match self.known.engine.load_key(&mut self.cells, request) {
            Ok(reply) => Ok(reply),
            Err(LoadFault::Refused(refusal)) => Err(NodeFault::Key(refusal)),
            Err(LoadFault::Faulted) => Err(self.known.fail()),
        }
    }

    /// Decides the secure boot of this life with an image of 1 to 65,536 bytes (SHE specification, secure booting).
    /// Errors: `Down`, then `Key`, and then the node is as before. No call of the disk is made.
    pub fn boot(&mut self, image: &[u8]) -> Result<bool, NodeFault>
        requires { IsImage image.now }
        ensures step { NodeStep self.old.node (boots image.now) (boot_line result) self.new.node }
        ensures untouched { OnErr result (self.new ≡ self.old) }
        ensures store { self.new.store ≡ self.old.store }
        ensures down { IsErrOf result NodeFault.Down ↔ self.old.node.up ≡ false }
        ensures fits { FitsNow self.old → FitsNow self.new }
        ensures sound { Sound self.new.node }
    {
        if !self.known.up {
            return Err(NodeFault::Down);
        }
        match self.known.engine.boot(image) {
            Ok(good) => Ok(good),
            Err(refusal) => Err(NodeFault::Key(refusal)),
        }
    }

    /// The counter of the route with this Data ID and direction: the last freshness that was sent or accepted, or the
    /// bound at which it began. `None` exactly if there is no such route. Whatever was called before and answered, the
    /// node is sound.
    pub fn counter(&self, id: u16, direction: Direction) -> Option<u64>
        ensures value { MatchOption result (¬ HasRoute self.now.node id direction)
            (λ v. HasRoute self.now.node id direction
            × (v ≡ counter_at self.now.node (place_of self.now.node id direction))) }
        ensures sound { Sound self.now.node }
    {
        let (place, _route) = self.known.route(id, direction)?;
        Some(self.known.counters[place].freshness())
    }

    /// The routes of the node in their order, at most 256.
    pub fn routes(&self) -> &[Route]
        ensures value { result.now ≡ self.now.node.config.routes }
        ensures few { length result.now ≤ MOST_ROUTES }
    {
        self.known.config.routes.as_slice()
    }

    /// Whether the node serves no call until its power is cut: a call of its disk failed, or a power cut was refused,
    /// since it was last powered up. Whatever was called before and answered, the node is sound.
    pub fn is_down(&self) -> bool
        ensures down { result ≡ not self.now.node.up }
        ensures sound { Sound self.now.node }
    {
        !self.known.up
    }

    /// Gives the cells back. Nothing is written.
    pub fn release(self) -> C
        ensures { C.state result ≡ self.store }
    {
        self.cells
    }
}

impl<C: CutCells> Node<C> {
    /// Cuts the power and powers up again, from a node that is up as from one that is down: the cells are read anew, so
    /// that the bytes of the disk stand for them, each counter is its bound, and no boot was made. Errors: `Store` if
    /// the store isn't read, then `BadSlot`, then `BadBound`. The node is then down, and what it knows is as before.
    /// Over a disk that tells its bytes, and fits the node, only the disk itself can fail. It adds at most 68 entries
    /// and one a cell to a past, with the cut's mark alone.
    pub fn power_cut(&mut self, torn: Torn) -> Result<(), CutFault>
        ensures step { TellsFitting self.old → NodeStep self.old.node cuts (cut_line result) self.new.node }
        ensures up { OnOk result (ComesUp self.old self.new) }
        ensures refused { IfErr result (StaysDown self.old self.new) }
        ensures disk { CutAndRead torn (68 + (14 + length self.old.node.config.routes)) self.old.store.disk
            self.new.store.disk }
        ensures layout { self.new.store.layout ≡ self.old.store.layout }
        ensures fits { FitsNow self.old → FitsNow self.new }
        ensures sound { Sound self.new.node }
    {
        self.known.up = false;
        if let Err(fault) = self.cells.power_cut(torn) {
            return Err(CutFault::Store(fault));
        }
        self.known.power_up(&self.cells)
    }

    /// Passes on to the disk: from the call of this number on, 1 for the next, each call of the disk fails until the
    /// power is cut.
    pub fn stop_at(&mut self, calls: u64)
        requires { 1 ≤ calls }
        ensures rest { self.new ≡ record self.old { store = record self.old.store { disk = self.new.store.disk } } }
        ensures arms { ArmsStop calls self.old.store.disk self.new.store.disk }
        ensures fits { FitsNow self.old → FitsNow self.new }
        ensures sound { Sound self.new.node }
    {
        self.cells.stop_at(calls);
    }

    /// Passes on to the disk: the call of this number, 1 for the next, fails.
    pub fn fail_at(&mut self, calls: u64)
        requires { 1 ≤ calls }
        ensures rest { self.new ≡ record self.old { store = record self.old.store { disk = self.new.store.disk } } }
        ensures arms { ArmsFail calls self.old.store.disk self.new.store.disk }
        ensures fits { FitsNow self.old → FitsNow self.new }
        ensures sound { Sound self.new.node }
    {
        self.cells.fail_at(calls);
    }
}
