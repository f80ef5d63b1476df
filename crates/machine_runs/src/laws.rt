//! Laws of runs: each function has an empty body, and its contract is the law.
ghost use Rattle.std.specs.Prelude.{◌≡◌, ◌↔◌, ℕ, ◌<◌, Bool, false, List, [], ◌∷◌, ◌++◌, length, get_or};
ghost use Rattle.machine_runs.specs.Run.{Moment, Run, seen_as, made_of};
ghost use Rattle.machine_runs.specs.Members.{MemberSteps, of_member};
ghost use Rattle.machine_runs.specs.Faults.{Counts, FailsWithin, QuietUntilArmed};
ghost use Rattle.machine_runs.specs.Past.{Traced};

use crate::steps::{Claim, Composite, Faults, Members, Past, Steps, View};

/// The empty list is a run, from each state to itself alone.
pub fn no_moment_is_a_run<M: Steps>()
    ensures { (start now : M.State) → (Run M.steps start [] now ↔ (now ≡ start)) }
{}

/// A run and a further moment is a run.
pub fn run_and_a_further_moment_is_a_run<M: Steps>()
    ensures { (start now : M.State) (moments : List (Moment M.Command M.Line M.State))
        (m : Moment M.Command M.Line M.State)
        → Run M.steps start moments now → M.steps now m.command m.line m.after
        → Run M.steps start (moments ++ m ∷ []) m.after }
{}

/// A prefix of a run is a run, and so is the rest, from where the prefix ended.
pub fn front_of_a_run_is_a_run<M: Steps>()
    ensures { (start now : M.State) (front rest : List (Moment M.Command M.Line M.State))
        → Run M.steps start (front ++ rest) now
        → (mid : M.State) × Run M.steps start front mid × Run M.steps mid rest now }
{}

/// What holds of the empty run, and is kept by each step, holds at the end.
pub fn what_each_step_keeps_holds_at_the_end<M: Claim>()
    ensures { (start now : M.State) (moments : List (Moment M.Command M.Line M.State))
        → M.holds [] start
        → ((done : List (Moment M.Command M.Line M.State)) (s : M.State) (m : Moment M.Command M.Line M.State)
        → M.holds done s → M.steps s m.command m.line m.after → M.holds (done ++ m ∷ []) m.after)
        → Run M.steps start moments now → M.holds moments now }
{}

/// If each step is a step of the machine that it is seen as, a run is a run of that machine.
pub fn run_is_a_run_of_the_machine_that_it_is_seen_as<M: View>()
    ensures { (start now : M.State) (moments : List (Moment M.Command M.Line M.State))
        → ((s : M.State) (c : M.Command) (l : M.Line) (t : M.State) → M.holds s → M.steps s c l t
        → M.seen_steps (M.state s) (M.command c) l (M.state t) × M.holds t)
        → M.holds start → Run M.steps start moments now
        → Run M.seen_steps (M.state start) (seen_as M.command M.state moments) (M.state now) }
{}

/// If each step is made of steps of another machine, a run is made of them, and is a run of that machine.
pub fn run_of_made_steps_is_a_run_of_their_parts<M: Composite>()
    ensures { (start now : M.State) (moments : List (Moment M.Command M.Line M.State))
        → ((s : M.State) (m : Moment M.Command M.Line M.State) → M.holds s → M.steps s m.command m.line m.after
        → Run M.part_steps (M.state s) (M.parts s m) (M.state m.after) × M.holds m.after)
        → M.holds start → Run M.steps start moments now
        → Run M.part_steps (M.state start) (made_of M.parts start moments) (M.state now) }
{}

/// If each step is one of the member that its command concerns, a run is, for each member, a run of that member.
pub fn run_is_a_run_of_each_member<M: Members>()
    ensures { (start now : M.State) (moments : List (Moment M.Command M.Line M.State)) (i : ℕ) (d : M.Member)
        → ((s : M.State) (c : M.Command) (l : M.Line) (t : M.State) → M.steps s c l t
        → MemberSteps M.member_steps (M.members s) (M.place c) (M.act s c) l (M.members t))
        → i < length (M.members start) → Run M.steps start moments now
        → Run M.member_steps (get_or (M.members start) i d) (of_member M.members M.place M.act d i start moments)
        (get_or (M.members now) i d) }
{}

/// The failed lines of a run are at most the rise of the count, or it stands at its last value, if each step counts its
/// failure.
pub fn failures_are_within_the_rise_of_the_count<M: Faults>()
    ensures { (start now : M.State) (moments : List (Moment M.Command M.Line M.State))
        → ((s : M.State) (c : M.Command) (l : M.Line) (t : M.State) → M.steps s c l t → Counts M.fails M.count s l t)
        → Run M.steps start moments now → FailsWithin M.fails M.count start moments now }
{}

/// A run from a quiet state doesn't fail before something is armed, if each step from a quiet state that arms nothing
/// stays quiet and doesn't fail.
pub fn run_is_quiet_until_something_is_armed<M: Faults>()
    ensures { (start now : M.State) (moments : List (Moment M.Command M.Line M.State))
        → ((s : M.State) (c : M.Command) (l : M.Line) (t : M.State) → M.quiet s → M.arms c ≡ false → M.steps s c l t
        → M.quiet t × (M.fails l ≡ false))
        → M.quiet start → Run M.steps start moments now → QuietUntilArmed M.arms M.fails moments }
{}

/// If each step adds to the past what its moment may add, the past of a run is traced.
pub fn past_of_a_run_is_traced<M: Past>()
    ensures { (start now : M.State) (moments : List (Moment M.Command M.Line M.State))
        → ((s : M.State) (m : Moment M.Command M.Line M.State) → M.holds s → M.steps s m.command m.line m.after
        → ((part : List M.Entry) × M.adds (M.past s) m part × (M.past m.after ≡ M.past s ++ part)) × M.holds m.after)
        → M.holds start → M.begins start (M.past start) → Run M.steps start moments now
        → Traced M.begins M.adds start moments (M.past now) }
{}
