//! Lines that are counted into a value.
ghost use Rattle.std.specs.Prelude.{◌≡◌, ℕ, ◌+◌, ◌^◌, ◌<◌, List, [], ◌∷◌, length};
ghost use Rattle.run_driver.specs.Counted.{CountsLine, Counted};

use crate::machine::{Consumer, Machine, drive};
use std::convert::Infallible;

/// A value that lines are counted into, one after another.
pub trait Tally<L> {
    /// What is known of it between two lines.
    ghost State: { Type 0 };

    ghost state: { Self → State };

    /// The line with this number may be counted next.
    ghost ready: { Self → ℕ → Type 0 } = { λ _ _. Unit {0} };

    /// What a line makes of it.
    ghost counts: { State → L → State };

    /// Counts a line, whose number is `number`, from 1.
    fn count(&mut self, number: u32, line: L)
        requires { ready self.old number }
        ensures ready { ready self.new (number + 1) }
        ensures counts { state self.new ≡ counts (state self.old) line };
}

/// Counts each line.
#[derive(Drop)]
struct Counter<'a, T> {
    tally: &'a mut T,
}

impl<'a, L, T: Tally<L>> Consumer<L> for Counter<'a, T> {
    type Refusal = Infallible;

    ghost State = { T.State };

    ghost state = { λ counter. T.state counter.tally.now };

    ghost ready = { λ counter number. T.ready counter.tally.now number };

    ghost borrows = { λ counter. counter.tally.ghost_name ∷ [] };

    ghost takes = { CountsLine T.counts };

    fn take(&mut self, number: u32, line: L) -> Result<(), Infallible> {
        self.tally.count(number, line);
        Ok(())
    }
}

/// Does all commands in their order, and counts the line of each before the next command is done.
pub fn count_run<M: Machine, T: Tally<M::Line>>(
    machine: &mut M,
    commands: &[M::Command],
    tally: &mut T,
)
    requires few { length commands.now < 2 ^ 32 }
    requires ready { M.ready machine.old commands.now }
    requires tally_ready { T.ready tally.old 1 }
    ensures borrows { M.borrows machine.new ≡ M.borrows machine.old }
    ensures counted { Counted M.steps T.counts (M.state machine.old) (M.state machine.new) (T.state tally.old)
        (T.state tally.new) commands.now }
{
    let mut counter = Counter { tally };
    match drive(machine, commands, &mut counter) {
        Ok(()) => {}
        Err(never) => match never {},
    }
}
