//! Machines as the laws see them.
ghost use Rattle.std.specs.Prelude.{ℕ, List, Bool};
ghost use Rattle.machine_runs.specs.Run.{Moment};

/// What a machine may do.
pub trait Steps {
    type Command;

    type Line;

    /// What is known of the machine between two commands.
    ghost State: { Type 0 };

    /// From this state the command may tell this line and lead to that state.
    ghost steps: { State → Self.Command → Self.Line → State → Type 0 };
}

/// A claim about the runs of a machine.
pub trait Claim {
    type Command;

    type Line;

    ghost State: { Type 0 };

    ghost steps: { State → Self.Command → Self.Line → State → Type 0 };

    /// What may hold of the moments so far and the state after them.
    ghost holds: { List (Moment Self.Command Self.Line State) → State → Type 0 };
}

/// A machine that is seen as another one, which tells the same lines.
pub trait View {
    type Command;

    type Line;

    ghost State: { Type 0 };

    ghost steps: { State → Self.Command → Self.Line → State → Type 0 };

    type SeenCommand;

    ghost SeenState: { Type 0 };

    ghost seen_steps: { SeenState → Self.SeenCommand → Self.Line → SeenState → Type 0 };

    /// What a command is for the other machine.
    ghost command: { Self.Command → Self.SeenCommand };

    /// What a state is for the other machine.
    ghost state: { State → SeenState };

    /// What holds of the states that runs reach.
    ghost holds: { State → Type 0 };
}

/// A machine each of whose steps is made of steps of another one.
pub trait Composite {
    type Command;

    type Line;

    ghost State: { Type 0 };

    ghost steps: { State → Self.Command → Self.Line → State → Type 0 };

    type PartCommand;

    type PartLine;

    ghost PartState: { Type 0 };

    ghost part_steps: { PartState → Self.PartCommand → Self.PartLine → PartState → Type 0 };

    /// The moments of the other machine that a moment from this state is made of.
    ghost parts: { State → Moment Self.Command Self.Line State
        → List (Moment Self.PartCommand Self.PartLine PartState) };

    /// What a state is for the other machine.
    ghost state: { State → PartState };

    /// What holds of the states that runs reach.
    ghost holds: { State → Type 0 };
}

/// A machine made of members, each of whose commands concerns one of them.
pub trait Members {
    type Command;

    type Line;

    ghost State: { Type 0 };

    ghost steps: { State → Self.Command → Self.Line → State → Type 0 };

    /// The acts of a member.
    type Act;

    ghost Member: { Type 0 };

    ghost member_steps: { Member → Self.Act → Self.Line → Member → Type 0 };

    /// The members of a state, in their order.
    ghost members: { State → List Member };

    /// The place of the member that a command concerns, from 0.
    ghost place: { Self.Command → ℕ };

    /// What the command tells that member to do, in this state.
    ghost act: { State → Self.Command → Self.Act };
}

/// A machine whose lines tell failures, and whose state counts them.
pub trait Faults {
    type Command;

    type Line;

    ghost State: { Type 0 };

    ghost steps: { State → Self.Command → Self.Line → State → Type 0 };

    /// The line tells a failure.
    ghost fails: { Self.Line → Bool };

    /// The count of faults, which stands still at 2^64 - 1.
    ghost count: { State → ℕ };

    /// The command makes a later failure possible.
    ghost arms: { Self.Command → Bool };

    /// Nothing is armed.
    ghost quiet: { State → Type 0 };
}

/// A machine whose state keeps a record of its past.
pub trait Past {
    type Command;

    type Line;

    ghost State: { Type 0 };

    ghost steps: { State → Self.Command → Self.Line → State → Type 0 };

    ghost Entry: { Type 0 };

    /// The record, the oldest entry first.
    ghost past: { State → List Entry };

    /// The record may be this at the start of a run.
    ghost begins: { State → List Entry → Type 0 };

    /// To this record the moment may add these entries.
    ghost adds: { List Entry → Moment Self.Command Self.Line State → List Entry → Type 0 };

    /// What holds of the states that runs reach.
    ghost holds: { State → Type 0 };
}
