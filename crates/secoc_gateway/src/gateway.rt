//! A gateway over a node.
ghost use Rattle.std.specs.Prelude.{◌≡◌, ◌≢◌, ◌<◌, ◌≤◌, ◌+◌, ◌^◌, ◌↔◌, ℕ, List, length, not, true, false, Some, None};
ghost use Rattle.std.specs.Prelude.{Option, IsSome, IfOk, IfErr, OnOk, OnErr, IsErrOf, MatchOption};
ghost use Rattle.secoc_gateway.specs.Words.{ArmsStop, ArmsFail, CutAndRead, IsImage, Update, Builds, Sends, Receives};
ghost use Rattle.secoc_gateway.specs.Words.{Inject, HasRoute, place_of, counter_at, Sound, receives, loads, keys};
ghost use Rattle.secoc_gateway.specs.Words.{boots, cuts, NodeStep, SentLine, IsInTime, IsHeard, FitsNow, TellsFitting};
ghost use Rattle.secoc_gateway.specs.Words.{IsCovered, Served, ComesUp, StaysDown, received_line, loaded_line};
ghost use Rattle.secoc_gateway.specs.Words.{keyed_line, boot_line, cut_line, IfAcceptedWith, IfLeftAlone, second_in};
ghost use Rattle.secoc_gateway.specs.Words.{departs_under, EventStep, GatewayStep, over, AreGood, IsLowestBad};
ghost use Rattle.secoc_gateway.specs.Words.{CanBeDone, EventTurn, GatewayTurn, arrival_line, IfForwarded};
ghost use Rattle.secoc_gateway.specs.Words.{IfNotForwarded, IfSpent, IfNothingDone, CanForward};
ghost use Rattle.secoc_gateway.specs.Words.{IsForwardedWith, DepartsIn, ServedArrival};

use crate::GatewayLine;
use crate::arrival::{Arrival, PairRefused};
use crate::lines::line_of;
use crate::pairs::{lowest_bad, second_of};
use crate::passing::pass_on;
use bus_machine::Event;
use bus_world::own_turn;
use cell_store::CutCells;
use cut_disk::Torn;
use freshness_manager::Direction;
use memory_update::{Reply, Request};
use run_driver::Machine;
use secoc_node::{CutFault, Node, NodeFault, Reception};
use std::marker::Model;

/// A gateway: a node, and pairs of Data IDs. It receives the first of a pair, and sends the second. Contracts see the
/// state of the node and the pairs. The pairs are always good: the node has their routes, and no two have one Data ID
/// at one place.
#[derive(Drop)]
pub struct Gateway<C: CutCells> {
    node: Node<C>,
    pairs: Vec<(u16, u16)>,
}

impl<C: CutCells> Model for Gateway<C> {
    ghost use Rattle.secoc_gateway.specs.State.{GatewayState};

    ghost Value = { GatewayState };

    ghost use Rattle.secoc_gateway.specs.Pairs.{AreGood};

    ghost view = { λ g. record { node = g.node.node; store = g.node.store; pairs = g.pairs.items } };

    ghost invariant = { λ g. AreGood g.node.node.config.routes g.pairs.items };
}

impl<C: CutCells> Gateway<C> {
    /// The gateway over this node with these pairs. If one of them isn't good, the lowest that isn't is named, and the
    /// node is handed back as it was.
    pub fn new(node: Node<C>, pairs: Vec<(u16, u16)>) -> Result<Gateway<C>, PairRefused<C>>
        ensures over { IfOk result (λ g. over g ≡ node) }
        ensures pairs { IfOk result (λ g. g.pairs ≡ pairs.items) }
        ensures good { OnOk result (AreGood node.node.config.routes pairs.items) }
        ensures lowest { IfErr result (λ r. (place : ℕ) × (r.pair ≡ place + 1)
            × IsLowestBad node.node.config.routes pairs.items place) }
        ensures handed_back { IfErr result (λ r. r.node ≡ node) }
    {
        match lowest_bad(node.routes(), pairs.as_slice()) {
            None => Ok(Gateway::of_good_pairs(node, pairs)),
            Some(place) => Err(PairRefused {
                node,
                pair: place + 1,
            }),
        }
    }

    /// The gateway over this node with pairs that it takes: [`lowest_bad`] found none among them.
    pub fn of_good_pairs(node: Node<C>, pairs: Vec<(u16, u16)>) -> Gateway<C>
        requires { AreGood node.node.config.routes pairs.items }
        ensures over { over result ≡ node }
        ensures pairs { result.pairs ≡ pairs.items }
    {
        Gateway { node, pairs }
    }

    /// The Data ID under which departs what arrives under this one; `None` if this is the first of no pair.
    pub fn second(&self, id: u16) -> Option<u16>
        ensures { result ≡ second_in self.now.pairs id }
    {
        second_of(self.pairs.as_slice(), id)
    }

    /// Receives a PDU of 5 to 64 bytes under the first Data ID of a pair, and if it is accepted sends its payload under
    /// the second. The PDU that departs stands at the beginning of `out`, whose rest is as before. If nothing is
    /// forwarded `out` is as before. Errors: those of the reception, in their order `Down`, `BadLength`, `Key` and
    /// `Faulted`.
    pub fn arrive(&mut self, id: u16, pdu: &[u8], out: &mut [u8; 64]) -> Result<Arrival, NodeFault>
        requires paired { IsSome (second_in self.old.pairs id) }
        ensures step { (place second : ℕ) → second_in self.old.pairs id ≡ Some second
            → GatewayStep EventStep self.old.pairs self.old.node (Inject place id pdu.now)
            (arrival_line id second out.new result) self.new.node }
        // the same of what the node knows of its store and disk: one turn of the node, or two
        ensures turn { (place second : ℕ) → second_in self.old.pairs id ≡ Some second
            → GatewayStep EventTurn self.old.pairs (over self.old) (Inject place id pdu.now)
            (arrival_line id second out.new result) (over self.new) }
        ensures departs { IfForwarded result (DepartsIn pdu.now out.old out.new) }
        ensures unwritten { IfNotForwarded result (out.new ≡ out.old) }
        // the freshness of what was accepted is at most the bound in its route's cell, and so is that of what departed
        ensures arrival_covered { IfSpent result (IsCovered (over self.new) id Receives) }
        ensures departure_covered { (second : ℕ) → second_in self.old.pairs id ≡ Some second
            → IfForwarded result (λ sent. IsCovered (over self.new) second Sends sent.freshness) }
        ensures untouched { IfNothingDone result (self.new ≡ self.old) }
        ensures forwards { (second : ℕ) (payload : List ℕ) (v : ℕ) → second_in self.old.pairs id ≡ Some second
            → CanForward (over self.old) id second pdu.now payload v
            → IsForwardedWith result v (counter_at self.old.node (place_of self.old.node second Sends) + 1) }
        ensures serves { ServedArrival (over self.old) (over self.new) result }
        ensures pairs { self.new.pairs ≡ self.old.pairs }
    {
        let second = self.second(id).unwrap();
        pass_on(&mut self.node, id, second, pdu, out)
    }

    /// Does an event of the node, and gives its line: a PDU that is injected under the first Data ID of a pair arrives
    /// as at [`Gateway::arrive`], and any other event is the node's own. It takes no memory.
    pub fn turn(&mut self, event: &Event) -> GatewayLine
        requires { CanBeDone event.now }
        ensures { GatewayTurn self.old event.now result self.new }
    {
        match event {
            Event::Inject { id, pdu, .. } => match self.second(*id) {
                Some(second) => self.pass(*id, second, pdu.bytes()),
                None => self.own(event),
            },
            Event::Send { .. } => self.own(event),
            Event::Deliver { .. } => self.own(event),
            Event::Load { .. } => self.own(event),
            Event::Key { .. } => self.own(event),
            Event::Boot { .. } => self.own(event),
            Event::Cut { .. } => self.own(event),
            Event::Stop { .. } => self.own(event),
            Event::Fail { .. } => self.own(event),
        }
    }

    // What comes of an event that lets nothing depart.
    fn own(&mut self, event: &Event) -> GatewayLine
        requires fields { CanBeDone event.now }
        requires own { departs_under self.old.pairs event.now ≡ None }
        ensures { GatewayTurn self.old event.now result self.new }
    {
        GatewayLine::OfNode(own_turn(&mut self.node, event))
    }

    // What comes of an arrival under the first Data ID of a pair, whose second one this is.
    fn pass(&mut self, id: u16, second: u16, pdu: &[u8]) -> GatewayLine
        requires { second_in self.old.pairs id ≡ Some second }
        ensures step { (place : ℕ) → GatewayStep EventTurn self.old.pairs (over self.old) (Inject place id pdu.now)
            result (over self.new) }
        ensures pairs { self.new.pairs ≡ self.old.pairs }
    {
        let mut out = [0; 64];
        let answer = self.arrive(id, pdu, &mut out);
        line_of(id, second, &answer, &out)
    }

    /// Receives a PDU of 5 to 64 bytes under a Data ID. An accepted payload is a prefix of the PDU. Errors, in their
    /// order: `Down`, `NoRoute`, `BadLength`, `Key`, `Faulted`. After each of them but `Faulted`, and after the two
    /// failures, all is as before, and no call of the disk was made.
    pub fn receive(&mut self, id: u16, pdu: &[u8]) -> Result<Reception, NodeFault>
        ensures step { (source : Option ℕ)
            → NodeStep self.old.node (receives id pdu.now) (received_line id pdu.now source result) self.new.node }
        ensures length { IfAcceptedWith result (λ freshness len. len + 4 ≡ length pdu.now) }
        ensures covered { IfAcceptedWith result (λ freshness len. IsCovered (over self.new) id Receives freshness) }
        ensures honest { (sent : SentLine) (source : Option ℕ) → sent.id ≡ id → sent.pdu ≡ pdu.now
            → IsInTime self.old.node sent (place_of self.old.node id Receives) → sent.freshness < 2 ^ 64
            → IsHeard sent (received_line id pdu.now source result) }
        ensures untouched { IfLeftAlone result (self.new ≡ self.old) }
        ensures no_route { IsErrOf result NodeFault.NoRoute
            ↔ ((self.old.node.up ≡ true) × (¬ HasRoute self.old.node id Receives)) }
        ensures serves { Served (over self.old) (over self.new) result }
        ensures pairs { self.new.pairs ≡ self.old.pairs }
    {
        self.node.receive(id, pdu)
    }

    /// Loads the key of a request into its slot, and confirms it (SHE specification, memory update protocol). Errors:
    /// `Down`, then `Key` with the first refusal that applies, then `Faulted`. After the first two all is as before,
    /// and no call of the disk was made.
    pub fn load(&mut self, request: &Request) -> Result<Reply, NodeFault>
        ensures step { NodeStep self.old.node (loads request.now) (loaded_line result) self.new.node }
        // of the request that was built of an update: what the machine answers to that update
        ensures keyed { (update : Update) (authkey : List ℕ) → Builds request.now authkey update
            → NodeStep self.old.node (keys update authkey) (keyed_line update.id result) self.new.node }
        ensures untouched { IfErr result (λ fault. fault ≢ NodeFault.Faulted → self.new ≡ self.old) }
        ensures serves { Served (over self.old) (over self.new) result }
        ensures pairs { self.new.pairs ≡ self.old.pairs }
    {
        self.node.load(request)
    }

    /// Decides the secure boot of this life with an image of 1 to 65,536 bytes (SHE specification, secure booting).
    /// Errors: `Down`, then `Key`, and then the node is as before. No call of the disk is made.
    pub fn boot(&mut self, image: &[u8]) -> Result<bool, NodeFault>
        requires { IsImage image.now }
        ensures step { NodeStep self.old.node (boots image.now) (boot_line result) self.new.node }
        ensures untouched { OnErr result (self.new ≡ self.old) }
        ensures store { self.new.store ≡ self.old.store }
        ensures down { IsErrOf result NodeFault.Down ↔ self.old.node.up ≡ false }
        ensures fits { FitsNow (over self.old) → FitsNow (over self.new) }
        ensures sound { Sound self.new.node }
        ensures pairs { self.new.pairs ≡ self.old.pairs }
    {
        self.node.boot(image)
    }

    /// The counter of the route with this Data ID and direction: the last freshness that was sent or accepted, or the
    /// bound at which it began. `None` exactly if there is no such route. Whatever was called before and answered, the
    /// node is sound.
    pub fn counter(&self, id: u16, direction: Direction) -> Option<u64>
        ensures value { MatchOption result (¬ HasRoute self.now.node id direction)
            (λ v. HasRoute self.now.node id direction
            × (v ≡ counter_at self.now.node (place_of self.now.node id direction))) }
        ensures sound { Sound self.now.node }
    {
        self.node.counter(id, direction)
    }

    /// Whether the node serves no call until its power is cut: a call of its disk failed, or a power cut was refused,
    /// since it was last powered up. Whatever was called before and answered, the node is sound.
    pub fn is_down(&self) -> bool
        ensures down { result ≡ not self.now.node.up }
        ensures sound { Sound self.now.node }
    {
        self.node.is_down()
    }

    /// Cuts the power and powers up again, from a node that is up as from one that is down: the cells are read anew, so
    /// that the bytes of the disk stand for them, each counter is its bound, and no boot was made. Errors: `Store` if
    /// the store isn't read, then `BadSlot`, then `BadBound`. The node is then down, and what it knows is as before.
    /// Over a disk that tells its bytes, and fits the node, only the disk itself can fail.
    pub fn power_cut(&mut self, torn: Torn) -> Result<(), CutFault>
        ensures step { TellsFitting (over self.old) → NodeStep self.old.node cuts (cut_line result) self.new.node }
        ensures up { OnOk result (ComesUp (over self.old) (over self.new)) }
        ensures refused { IfErr result (StaysDown (over self.old) (over self.new)) }
        ensures disk { CutAndRead torn (68 + (14 + length self.old.node.config.routes)) self.old.store.disk
            self.new.store.disk }
        ensures layout { self.new.store.layout ≡ self.old.store.layout }
        ensures fits { FitsNow (over self.old) → FitsNow (over self.new) }
        ensures sound { Sound self.new.node }
        ensures pairs { self.new.pairs ≡ self.old.pairs }
    {
        self.node.power_cut(torn)
    }

    /// Passes on to the disk: from the call of this number on, 1 for the next, each call of the disk fails until the
    /// power is cut.
    pub fn stop_at(&mut self, calls: u64)
        requires { 1 ≤ calls }
        ensures rest { self.new ≡ record self.old { store = record self.old.store { disk = self.new.store.disk } } }
        ensures arms { ArmsStop calls self.old.store.disk self.new.store.disk }
        ensures fits { FitsNow (over self.old) → FitsNow (over self.new) }
        ensures sound { Sound self.new.node }
    {
        self.node.stop_at(calls);
    }

    /// Passes on to the disk: the call of this number, 1 for the next, fails.
    pub fn fail_at(&mut self, calls: u64)
        requires { 1 ≤ calls }
        ensures rest { self.new ≡ record self.old { store = record self.old.store { disk = self.new.store.disk } } }
        ensures arms { ArmsFail calls self.old.store.disk self.new.store.disk }
        ensures fits { FitsNow (over self.old) → FitsNow (over self.new) }
        ensures sound { Sound self.new.node }
    {
        self.node.fail_at(calls);
    }

    /// Gives the node back. Nothing is written.
    pub fn release(self) -> Node<C>
        ensures { result ≡ over self }
    {
        self.node
    }
}

impl<C: CutCells> Machine for Gateway<C> {
    ghost use Rattle.secoc_gateway.specs.State.{GatewayState};
    ghost use Rattle.secoc_gateway.specs.Turns.{GatewayTurn, AreReady};

    type Command = Event;

    type Line = GatewayLine;

    ghost State = { GatewayState };

    ghost state = { λ gateway. gateway };

    ghost steps = { GatewayTurn };

    ghost ready = { AreReady };

    fn step(&mut self, command: &Event) -> GatewayLine {
        self.turn(command)
    }
}
