//! Laws of the runs of a machine over one disk.
ghost use Rattle.std.specs.Prelude.{◌≡◌, ℕ, Bool, Option, Some, List};
ghost use Rattle.machine_runs.specs.Run.{Moment, Run, seen_as};
ghost use Rattle.cut_disk.specs.declared.Mark.{Mark};
ghost use Rattle.cut_disk.specs.State.{DiskState, Told, Entry};
ghost use Rattle.store_keeping.specs.DiskTurns.{DiskTurn, OpenedDisk, TellsBytes, TracedSince, FailuresTold};

/// A machine over one disk, which is seen in its state: one of many, or its only one.
pub trait OverDisk {
    type Command;

    type Line;

    /// What is known between two commands, the disk's state with it.
    ghost State: { Type 0 };

    ghost steps: { State → Self.Command → Self.Line → State → Type 0 };

    /// What a state is without disks.
    ghost Seen: { Type 0 };

    ghost seen: { State → Seen };

    /// The disk, as the state has it.
    ghost disk: { State → DiskState };

    /// The mark that a command leaves in the disk's past: none if it reads, writes and syncs alone.
    ghost mark: { Self.Command → Option Mark };

    /// The most calls of the disk that a command makes, by the state after it.
    ghost most: { Seen → Self.Command → ℕ };

    /// The line of the command tells a failure of the disk.
    ghost fails: { Self.Command → Self.Line → Bool };

    /// A state of the disk fits this state.
    ghost fits: { Seen → Told → Type 0 };

    /// What holds of the states that runs reach.
    ghost holds: { State → Type 0 };
}

/// If each step is a turn of the disk, the lines of a run that tell a failure are at most the rise of its count. A
/// quiet disk gives none before something arms it, and stays quiet if nothing does.
pub fn failures_of_a_run_are_counted<M: OverDisk>()
    ensures { (few : ℕ) (before : DiskState) (start now : M.State) (moments : List (Moment M.Command M.Line M.State))
        → ((s : M.State) (c : M.Command) (l : M.Line) (t : M.State) → M.holds s → M.steps s c l t
        → DiskTurn (M.mark c) (M.most (M.seen t) c) (M.fails c l) (M.disk s) (M.disk t) × M.holds t)
        → OpenedDisk few before (M.disk start) → M.holds start → Run M.steps start moments now
        → FailuresTold M.mark M.fails (seen_as (λ c. c) M.seen moments) before (M.disk now) }
{}

/// The entries that a run adds to a past are traced, if each step is a turn of the disk and the disk tells bytes that
/// fit. Each command's entries are few and have its mark, and the last of them fits.
pub fn past_of_a_disk_is_traced<M: OverDisk>()
    ensures { (few : ℕ) (before : DiskState) (start now : M.State) (moments : List (Moment M.Command M.Line M.State))
        → ((s : M.State) (c : M.Command) (l : M.Line) (t : M.State) → M.holds s → M.steps s c l t
        → DiskTurn (M.mark c) (M.most (M.seen t) c) (M.fails c l) (M.disk s) (M.disk t) × M.holds t)
        → ((s : M.State) → M.holds s → TellsBytes (M.fits (M.seen s)) (M.disk s))
        → OpenedDisk few before (M.disk start) → M.holds start → Run M.steps start moments now
        → (all : List Entry) → (M.disk now).past ≡ Some all
        → TracedSince M.mark M.most M.fits (M.seen start) (seen_as (λ c. c) M.seen moments) before all }
{}
