//! The world of a bus.
ghost use Rattle.std.specs.Prelude.{◌≡◌};

use crate::history::History;
use crate::turns::{node_of, take_turn};
use any_cells::AnyCells;
use bus_machine::{Event, Line, every_line_is_one};
use cut_disk::CutDisk;
use run_driver::Machine;
use secoc_node::Node;
use std::marker::Model;

/// The nodes of a bus over their disks, and the lines that were sent on it. Contracts see the states of the nodes and
/// their disks, how many events there were and may be, and the lines that were sent. Each node is always sound, also
/// over a disk that doesn't tell its bytes.
///
/// A step takes no memory. It finds the line that a `deliver` names by halving. It finds the event that sent what is
/// accepted along few links: that there are few is measured, and no clause says it.
#[derive(Drop)]
pub struct World<D: CutDisk> {
    pub(crate) nodes: Vec<Node<AnyCells<D>>>,
    pub(crate) history: History,
}

impl<D: CutDisk> Model for World<D> {
    ghost use Rattle.bus_world.specs.Worlds.{BusState};

    ghost Value = { BusState };

    ghost view = { λ w. record
        { nodes = w.nodes.items; events = w.history.events; most = w.history.most; sent = w.history.lines } };

    ghost use Rattle.std.specs.Prelude.{map};
    ghost use Rattle.bus_machine.specs.Bus.{SoundBus};

    ghost invariant = { λ w. SoundBus (record {
      nodes = map (λ n. n.node) w.nodes.items;
      events = w.history.events;
      sent = w.history.lines;
    }) };
}

impl<D: CutDisk> World<D> {
    ghost use Rattle.std.specs.Prelude.{◌≡◌, ◌<◌, length};
    ghost use Rattle.bus_machine.specs.Bus.{SoundBus};
    ghost use Rattle.bus_world.specs.Worlds.{world_of, IsEventOf, BusTurn, HearsInTime, Turned, NodeHears};

    /// Does an event, and gives its line. It takes no memory.
    pub fn step(&mut self, event: &Event) -> Line
        requires of_bus { IsEventOf (length self.old.nodes) event.now }
        requires room { self.old.events < self.old.most }
        ensures turn { BusTurn self.old event.now result self.new }
        ensures honest { HearsInTime self.old event.now result self.new }
        ensures sound { SoundBus (world_of self.new) }
    {
        let line = self.turn(event);
        every_line_is_one(&line);
        self.history.note(&line);
        line
    }

    /// Lets the event's node take its turn.
    fn turn(&mut self, event: &Event) -> Line
        requires of_bus { IsEventOf (length self.old.nodes) event.now }
        ensures turned { Turned self.old event.now result self.new }
        ensures honest { NodeHears self.old event.now result }
    {
        let place = node_of(event) as usize;
        take_turn(&mut self.nodes[place], event, Some(&self.history))
    }
}

impl<D: CutDisk> Machine for World<D> {
    ghost use Rattle.bus_world.specs.Worlds.{BusState, BusTurn, IsReady};

    type Command = Event;

    type Line = Line;

    ghost State = { BusState };

    ghost state = { λ world. world };

    ghost steps = { BusTurn };

    ghost ready = { IsReady };

    fn step(&mut self, command: &Event) -> Line {
        World::step(self, command)
    }
}
