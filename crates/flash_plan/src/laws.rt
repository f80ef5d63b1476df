//! What follows for a caller: the contract of each function is the law, and its body is empty.
//!
//! A caller makes a plan at power-up, performs each operation that comes next, and reports its outcome. By the contract
//! of [`FlashPlan::did`](crate::FlashPlan::did) each of these turns leads the machine of `flash_laws` on. The power may
//! go at any time, and a new plan is made then.
ghost use Rattle.std.specs.Prelude.{◌≡◌, ℕ, suc, Option, Some, None, IfSome, List, length};
ghost use Rattle.flash_places.specs.Places.{Flash, LooksAll};
ghost use Rattle.flash_places.specs.declared.FlashLine.{FlashLine};
ghost use Rattle.flash_places.specs.declared.FlashLine.TheVariants.{Head};
ghost use Rattle.flash_laws.specs.Logs.{CellList};
ghost use Rattle.flash_laws.specs.Lives.{FlashLayout, FlashMachine, FlashFormatted, IsReadyFlash, Possible, next_bank};
ghost use Rattle.flash_laws.specs.Lives.{ScanFinds, off};
ghost use Rattle.flash_log.specs.Going.{machine, Goes};
ghost use Rattle.flash_plan.specs.declared.operations.FlashOutcome.{FlashOutcome};
ghost use Rattle.flash_plan.specs.declared.operations.Operation.TheVariants.{Erase, Program};
ghost use Rattle.flash_plan.specs.declared.plans.FlashPlan.{FlashPlan};
ghost use Rattle.flash_plan.specs.declared.plans.PlanEnd.TheVariants.{NoStore};
ghost use Rattle.flash_plan.specs.declared.plans.PlanStep.TheVariants.{Ended, Filling};
ghost use Rattle.flash_laws.specs.CutFormats.{CutFormatted};
ghost use Rattle.flash_plan.specs.Formatting.{FormatsAt};
ghost use Rattle.flash_plan.specs.Performing.{DoesOperation};
ghost use Rattle.flash_plan.specs.Telling.{PlaceAnswers, MustErase, IsTold};
ghost use Rattle.flash_plan.specs.Plans.{IsPlanOf, IsIdle, Fails, operation_of, put_in};
ghost use Rattle.flash_plan.specs.Standing.{plan_layout, StandsAt, MovesBy};
ghost use Rattle.flash_plan.specs.Turns.{Turn, PlanTurns, puts_in, IsLived};

/// If the power goes between two operations, or within one, the machine is off at a point that it reaches: a put whose
/// line was being programmed is cut, and nothing else changes a cell. A new plan then stands where the machine is off.
pub fn the_power_may_go()
    ensures between { (n : ℕ) (plan : FlashPlan) (cells scratch : CellList) (at : FlashMachine) (f : Flash)
        → StandsAt (plan_layout plan n) plan cells scratch at f → Goes (plan_layout plan n) at (machine f off) }
    ensures within { (n : ℕ) (plan : FlashPlan) (cells scratch : CellList) (at : FlashMachine) (f g : Flash)
        (outcome : FlashOutcome) → StandsAt (plan_layout plan n) plan cells scratch at f
        → IfSome (operation_of plan cells) (λ it. DoesOperation it outcome f g → Fails it outcome
        → MovesBy (plan_layout plan n) (put_in plan) outcome at (machine g off)) }
{}

/// A caller lives a life of `flash_laws`, over any number of power losses.
pub fn a_caller_lives()
    ensures { (l : FlashLayout) (turns : List Turn) (a b : FlashMachine) → PlanTurns l turns a b → IsLived l a b }
{}

/// A put is there whole or not at all over all lives. The cells of an idle plan are what the puts that were done made
/// of those that were formatted, or of those of an earlier plan that was idle. Each put that was cut is there or not.
pub fn an_idle_plan_has_its_cells()
    ensures formatted { (n : ℕ) (turns : List Turn) (first : CellList) (start at : FlashMachine) (plan : FlashPlan)
        (cells scratch : CellList) (f : Flash) → FlashFormatted (plan_layout plan n) first start
        → PlanTurns (plan_layout plan n) turns start at → StandsAt (plan_layout plan n) plan cells scratch at f
        → IsIdle plan → Possible (puts_in turns) first cells }
    ensures later { (n : ℕ) (earlier turns : List Turn) (first olds : CellList) (start a at : FlashMachine)
        (plan : FlashPlan) (cells scratch : CellList) (f : Flash) → FlashFormatted (plan_layout plan n) first start
        → PlanTurns (plan_layout plan n) earlier start a → IsReadyFlash a olds
        → PlanTurns (plan_layout plan n) turns a at
        → StandsAt (plan_layout plan n) plan cells scratch at f → IsIdle plan → Possible (puts_in turns) olds cells }
{}

/// No plan over a formatted flash ends in `NoStore`, after any number of lives.
pub fn a_formatted_flash_has_a_store()
    ensures { (n : ℕ) (turns : List Turn) (first : CellList) (start at : FlashMachine) (plan : FlashPlan)
        (cells scratch : CellList) (f : Flash) → FlashFormatted (plan_layout plan n) first start
        → PlanTurns (plan_layout plan n) turns start at → StandsAt (plan_layout plan n) plan cells scratch at f
        → plan.step ≡ Ended NoStore → ⊥ }
{}

/// A start erases only if it must (`MustErase`): some place behind the log that counts wasn't read as blank, or the
/// next bank's first place was read as nothing, or as a head that is no older. So a start to which all behind the log
/// is told blank, and which reads that head, goes on in the log and erases nothing. By their contracts
/// [`FlashPlan::start`](crate::FlashPlan::start) makes a plan that is told so, and
/// [`FlashPlan::did`](crate::FlashPlan::did) keeps it one, whatever the answers are.
pub fn a_start_erases_only_if_it_must()
    ensures { (told : PlaceAnswers) (plan : FlashPlan) (cells : CellList) (target : ℕ) → IsTold told plan
        → plan.put ≡ None → operation_of plan cells ≡ Some (Erase target) → (bank : ℕ)
        × ((target ≡ next_bank plan.banks bank) × MustErase told plan.banks plan.places bank plan.best) }
{}

/// If the head of a format, its last operation, fails or is cut, its store is there or none (`flash_laws` says what
/// follows for all lives).
pub fn a_format_may_be_cut_at_its_head()
    ensures { (plan : FlashPlan) (cells : CellList) (f g : Flash) (outcome : FlashOutcome)
        → IsPlanOf (length cells) plan → FormatsAt plan cells f → plan.step ≡ Filling (length cells)
        → Fails (Program 0 0 (Head 1)) outcome → DoesOperation (Program 0 0 (Head 1)) outcome f g
        → CutFormatted (plan_layout plan (length cells)) cells (machine g off) }
{}

/// Once a format has erased all banks, and until its head is programmed, no start finds a store: neither after a loss
/// of power between two operations, nor within the program of a cell.
pub fn a_format_has_no_store_before_its_head()
    ensures between { (plan : FlashPlan) (cells : CellList) (done : ℕ) (f after : Flash)
        (read : ℕ → ℕ → Option FlashLine) → FormatsAt plan cells f → plan.step ≡ Filling done → LooksAll f read after
        → ScanFinds (plan_layout plan (length cells)) read → ⊥ }
    ensures within { (plan : FlashPlan) (cells : CellList) (done : ℕ) (line : FlashLine) (f g after : Flash)
        (outcome : FlashOutcome) (read : ℕ → ℕ → Option FlashLine) → FormatsAt plan cells f → plan.step ≡ Filling done
        → Fails (Program 0 (suc done) line) outcome → DoesOperation (Program 0 (suc done) line) outcome f g
        → LooksAll g read after → ScanFinds (plan_layout plan (length cells)) read → ⊥ }
{}
