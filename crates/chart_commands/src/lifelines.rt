//! Where the lifeline of a node is drawn up, and where it is drawn down.
ghost use Rattle.std.specs.Prelude.{◌≡◌};
ghost use Rattle.chart_commands.specs.Lifelines.{line_turn as turn_of_line, refusal_turn as turn_of_refusal, life_turn as turn_of_life};

use crate::marks::node_of;
use crate::places::row_axis;
use bus_machine::{Event, Line, Refusal};

/// How the life of a node turns.
#[derive(Clone, Copy, Debug, PartialEq, Eq, Drop)]
pub enum LifeTurn {
    /// The node goes down.
    Falls,
    /// Its power was cut, and it is up.
    Rises,
}

/// A part of a lifeline, from one height to another, in pixels.
#[derive(Clone, Copy, Debug, PartialEq, Eq, Drop)]
pub struct Stretch {
    /// Whether the node is down there.
    pub down: bool,
    /// Where it begins.
    pub from: u64,
    /// Where it ends.
    pub to: u64,
}

/// How the life of the node at this place turns by an event and its line, if it does.
pub fn life_turn(node: u8, event: &Event, line: &Line) -> Option<LifeTurn>
    ensures { result ≡ turn_of_life node event.now line.now }
{
    if node_of(event) == node {
        line_turn(line)
    } else {
        None
    }
}

// How the life of a line's node turns.
fn line_turn(line: &Line) -> Option<LifeTurn>
    ensures { result ≡ turn_of_line line.now }
{
    match line {
        Line::Up => Some(LifeTurn::Rises),
        Line::Refused(refusal) => refusal_turn(refusal),
        _ => None,
    }
}

// How the life of a refusal's node turns.
fn refusal_turn(refusal: &Refusal) -> Option<LifeTurn>
    ensures { result ≡ turn_of_refusal refusal.now }
{
    match refusal {
        Refusal::MemoryFailure
        | Refusal::NotFormatted
        | Refusal::Damaged(_)
        | Refusal::BadSlot(_)
        | Refusal::BadBound(_) => Some(LifeTurn::Falls),
        _ => None,
    }
}

/// A lifeline that is being drawn: whether the node is down, and the height at which the stretch began that isn't
/// ended.
#[derive(Clone, Copy, Debug, PartialEq, Eq, Drop)]
pub struct Life {
    /// Whether the node is down.
    pub down: bool,
    /// Where the last stretch begins.
    pub from: u64,
}

impl Life {
    ghost use Rattle.std.specs.Prelude.{◌≡◌, ℕ, List, ◌∷◌, false};
    ghost use Rattle.std.specs.List.{cons_option};
    ghost use Rattle.chart_commands.specs.declared.lifelines.LifeTurn.{LifeTurn};
    ghost use Rattle.chart_commands.specs.Lifelines.{stretch, stretches};
    ghost use Rattle.chart_commands.specs.Places.{lifeline_top};

    /// A lifeline at its beginning: the node is up.
    pub fn first() -> Life
        ensures { result ≡ record { down = false; from = lifeline_top } }
    {
        Life {
            down: false,
            from: 120,
        }
    }

    /// Goes on by a turn in the row with this number, from 1, and gives the stretch that it ends, if it ends one.
    pub fn turn(&mut self, row: u32, turn: LifeTurn) -> Option<Stretch>
        ensures { (turns : List (ℕ × LifeTurn)) (end : ℕ)
            → stretches self.old.down self.old.from ((row, turn) ∷ turns) end
            ≡ cons_option result (stretches self.new.down self.new.from turns end) }
    {
        let axis = row_axis(row);
        match (self.down, turn) {
            (false, LifeTurn::Falls) => Some(self.end_at(axis, true, axis)),
            (false, LifeTurn::Rises) => Some(self.end_at(axis - 14, false, axis + 14)),
            (true, LifeTurn::Falls) => None,
            (true, LifeTurn::Rises) => Some(self.end_at(axis, false, axis + 14)),
        }
    }

    /// The stretch that is drawn last, to this height.
    pub fn end(self, bottom: u64) -> Stretch
        ensures { result ≡ stretch self.down self.from bottom }
    {
        Stretch {
            down: self.down,
            from: self.from,
            to: bottom,
        }
    }

    // Ends the stretch at one height, and begins one at another, with the node down or up.
    fn end_at(&mut self, to: u64, down: bool, from: u64) -> Stretch
        ensures ended { result ≡ stretch self.old.down self.old.from to }
        ensures begun { self.new ≡ record { down = down; from = from } }
    {
        let ended = self.end(to);
        *self = Life { down, from };
        ended
    }
}
