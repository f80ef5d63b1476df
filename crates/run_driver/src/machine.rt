//! Machines, consumers of their lines, and the driver.
ghost use Rattle.std.specs.Prelude.{◌≡◌, ℕ, ◌+◌, ◌^◌, ◌<◌, List, [], ◌∷◌, length, OnOk, Result};
ghost use Rattle.run_driver.specs.Driven.{Driven};

/// A machine that does one command after another and tells a line for each.
pub trait Machine {
    type Command;

    type Line: Drop;

    /// What is known of a machine between two commands.
    ghost State: { Type 0 };

    ghost state: { Self → State };

    /// From this state the command may tell this line and lead to that state.
    ghost steps: { State → Self.Command → Self.Line → State → Type 0 };

    /// It may be given these commands, in this order.
    ghost ready: { Self → List Self.Command → Type 0 } = { λ _ _. Unit {0} };

    /// The names of the borrows that it holds, and keeps.
    ghost borrows: { Self → List ℕ } = { λ _. [] };

    /// Does a command. It takes no memory.
    fn step(&mut self, command: &Self::Command) -> Self::Line
        requires { (rest : List Self.Command) × ready self.old (command.now ∷ rest) }
        ensures ready { (rest : List Self.Command) → ready self.old (command.now ∷ rest) → ready self.new rest }
        ensures borrows { borrows self.new ≡ borrows self.old }
        ensures step { steps (state self.old) command.now result (state self.new) };
}

/// What lines are handed to, one after another.
pub trait Consumer<L> {
    /// Why a line was refused.
    type Refusal: Drop;

    /// What is known of a consumer between two lines.
    ghost State: { Type 0 };

    ghost state: { Self → State };

    /// The line with this number may be handed to it.
    ghost ready: { Self → ℕ → Type 0 } = { λ _ _. Unit {0} };

    /// The names of the borrows that it holds, and keeps.
    ghost borrows: { Self → List ℕ } = { λ _. [] };

    /// From this state the line with this number leads to that state, with this answer.
    ghost takes: { State → ℕ → L → State → Result (Unit {0}) Self.Refusal → Type 0 };

    /// Takes up a line with its number, from 1, or refuses it.
    fn take(&mut self, number: u32, line: L) -> Result<(), Self::Refusal>
        requires { ready self.old number }
        ensures ready { OnOk result (ready self.new (number + 1)) }
        ensures borrows { borrows self.new ≡ borrows self.old }
        ensures takes { takes (state self.old) number line (state self.new) result };
}

/// Does the commands in their order, and hands on the line of each, with its number, before the next
/// command is done. After a line that is refused no further command is done.
pub fn drive<M: Machine, T: Consumer<M::Line>>(
    machine: &mut M,
    commands: &[M::Command],
    consumer: &mut T,
) -> Result<(), T::Refusal>
    requires few { length commands.now < 2 ^ 32 }
    requires machine_ready { M.ready machine.old commands.now }
    requires consumer_ready { T.ready consumer.old 1 }
    ensures machine_borrows { M.borrows machine.new ≡ M.borrows machine.old }
    ensures consumer_borrows { T.borrows consumer.new ≡ T.borrows consumer.old }
    ensures driven { Driven M.steps T.takes (M.state machine.old) (M.state machine.new) (T.state consumer.old)
        (T.state consumer.new) commands.now result }
{
    let mut number = 0u32;
    for command in commands {
        number += 1;
        let line = machine.step(command);
        match consumer.take(number, line) {
            Ok(()) => {}
            Err(refusal) => return Err(refusal),
        }
    }
    Ok(())
}
