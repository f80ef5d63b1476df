//! What the outcome of an operation leads to.
ghost use Rattle.std.specs.Prelude.{◌≡◌, ◌≢◌, ◌+◌, ◌*◌, ◌^◌, ◌<◌, ◌≤◌, ◌⊎◌, ◌↔◌, ℕ, length, true, None, IfSome};
ghost use Rattle.flash_places.specs.Places.{Flash};
ghost use Rattle.flash_laws.specs.Logs.{CellList};
ghost use Rattle.flash_laws.specs.Lives.{FlashMachine};
ghost use Rattle.flash_log.specs.Taking.{last_generation, generation_in};
ghost use Rattle.flash_log.specs.declared.scanning.Best.TheVariants.{NoLog};
ghost use Rattle.flash_plan.specs.Performing.{Performs};
ghost use Rattle.flash_plan.specs.Plans.{IsPlanOf, SameSizes, KeepsPut, IsFailure, failed_plan, operation_of, put_in};
ghost use Rattle.flash_plan.specs.Plans.{step_programmed, step_cleared, step_filled, ReadsAt, ChangesAt};
ghost use Rattle.flash_plan.specs.Plans.{operations_left, put_left, SkipsOlder, ReadsNoHead, FindsNothing};
ghost use Rattle.flash_plan.specs.Wear.{puts_to_bank, erases_by, erase_credit};
ghost use Rattle.flash_plan.specs.Standing.{plan_layout, StandsAt, PlanMovesOn};
ghost use Rattle.flash_plan.specs.Formatting.{FormatsAt};
ghost use Rattle.flash_plan.specs.Telling.{PlaceAnswers, AnswersSo, IsTold};
ghost use Rattle.flash_plan.specs.declared.operations.FlashOutcome.TheVariants.{Answered, Done};
ghost use Rattle.flash_plan.specs.declared.plans.PlanEnd.TheVariants.{Formatted, Failed as end_failed, OtherSizes};
ghost use Rattle.flash_plan.specs.declared.plans.PlanStep.TheVariants.{Heading, Clearing, Ended};

use crate::operations::FlashOutcome;
use crate::plans::{FlashPlan, PlanEnd, PlanStep};
use flash_log::next_bank;
use flash_places::Answer;

/// What comes after a line of a format was programmed.
fn after_filling(done: u16, cells: usize) -> PlanStep
    requires few { cells < 2 ^ 16 }
    ensures is { result ≡ step_filled done cells }
    ensures not_failed { result ≢ Ended end_failed }
    ensures not_other { result ≢ Ended OtherSizes }
{
    if done as usize >= cells {
        return PlanStep::Ended(PlanEnd::Formatted);
    }
    PlanStep::Filling { done: done + 1 }
}

impl FlashPlan {
    /// The operation that comes next failed.
    fn fail(&mut self)
        ensures fails { self.new ≡ failed_plan self.old }
    {
        match self.step {
            PlanStep::Ended(_) => return,
            PlanStep::Ready { .. } => {
                if self.put.is_none() {
                    return;
                }
            }
            _ => {}
        }
        self.step = PlanStep::Ended(PlanEnd::Failed);
        self.put = None;
    }

    /// Whether a read comes next.
    fn reads(&self) -> bool
        ensures { result ≡ true ↔ ReadsAt self.now.step }
    {
        match self.step {
            PlanStep::Heading { .. } => true,
            PlanStep::Copied { .. } => true,
            PlanStep::Puts { .. } => true,
            PlanStep::Free { .. } => true,
            PlanStep::Erasing { .. } => false,
            PlanStep::Copying { .. } => false,
            PlanStep::Ready { .. } => false,
            PlanStep::Clearing { .. } => false,
            PlanStep::Filling { .. } => false,
            PlanStep::Ended(_) => false,
        }
    }

    /// Whether an erase or a program comes next, or nothing and the plan is idle.
    fn writes(&self) -> bool
        ensures { result ≡ true ↔ ChangesAt self.now.step }
    {
        match self.step {
            PlanStep::Heading { .. } => false,
            PlanStep::Copied { .. } => false,
            PlanStep::Puts { .. } => false,
            PlanStep::Free { .. } => false,
            PlanStep::Erasing { .. } => true,
            PlanStep::Copying { .. } => true,
            PlanStep::Ready { .. } => true,
            PlanStep::Clearing { .. } => true,
            PlanStep::Filling { .. } => true,
            PlanStep::Ended(_) => false,
        }
    }

    /// A read answered.
    fn did_read(&mut self, cells: &mut [[u8; 32]], scratch: &mut [[u8; 32]], answer: Answer)
        requires plan { IsPlanOf (length cells.old) self.old }
        requires alike { length scratch.old ≡ length cells.old }
        requires reads { ReadsAt self.old.step }
        ensures plan { IsPlanOf (length cells.old) self.new }
        ensures same { KeepsPut self.old self.new }
        ensures not_failed { self.new.step ≢ Ended end_failed }
        ensures not_other { self.new.step ≢ Ended OtherSizes }
        ensures less { operations_left (length cells.old) self.new < operations_left (length cells.old) self.old }
        ensures steps { (at : FlashMachine) (f g : Flash)
            → StandsAt (plan_layout self.old (length cells.old)) self.old cells.old scratch.old at f
            → IfSome (operation_of self.old cells.old) (λ it. Performs self.old.places it (Answered answer) f g
            → PlanMovesOn (plan_layout self.old (length cells.old)) (put_in self.old) (Answered answer)
            self.new cells.new scratch.new at g) }
        ensures told { (told : PlaceAnswers) → IsTold told self.old → IfSome (operation_of self.old cells.old) (λ it.
            AnswersSo told it (Answered answer) → IsTold told self.new) }
        ensures skips { SkipsOlder self.old.best self.old.step → SkipsOlder self.new.best self.new.step }
        ensures no_head { (bank : ℕ) → self.old.step ≡ Heading bank → generation_in answer ≡ None
            → self.old.best ≡ NoLog → FindsNothing self.new }
    {
        match self.step {
            PlanStep::Heading { bank } => self.after_head(cells, scratch, bank, answer),
            PlanStep::Copied {
                bank,
                generation,
                done,
            } => self.after_copied(cells, scratch, bank, generation, done, answer),
            PlanStep::Puts {
                bank,
                generation,
                place,
            } => self.after_puts(cells, scratch, bank, generation, place, answer),
            PlanStep::Free {
                bank,
                generation,
                next,
                place,
            } => self.after_free(cells, scratch, bank, generation, next, place, answer),
            _ => {}
        }
    }

    /// An erase or a program is done.
    fn did_change(&mut self, cells: &mut [[u8; 32]])
        requires plan { IsPlanOf (length cells.old) self.old }
        requires writes { ChangesAt self.old.step }
        ensures plan { IsPlanOf (length cells.old) self.new }
        ensures sizes { SameSizes self.old self.new }
        ensures not_failed { self.new.step ≢ Ended end_failed }
        ensures not_other { self.new.step ≢ Ended OtherSizes }
        ensures less { (operation_of self.old cells.old ≡ None → ⊥)
            → operations_left (length cells.old) self.new < operations_left (length cells.old) self.old }
        ensures none { operation_of self.old cells.old ≡ None → self.new ≡ self.old }
        ensures formats { (f g : Flash) → FormatsAt self.old cells.old f
            → IfSome (operation_of self.old cells.old) (λ it. Performs self.old.places it Done f g
            → FormatsAt self.new cells.new g) }
        ensures waits { put_in self.old ≡ None → self.new.put ≡ self.old.put }
        ensures taken { put_in self.old ≢ None → self.new.put ≡ None }
        ensures kept { put_in self.old ≡ None → cells.new ≡ cells.old }
        ensures steps { (scratch : CellList) (at : FlashMachine) (f g : Flash)
            → StandsAt (plan_layout self.old (length cells.old)) self.old cells.old scratch at f
            → IfSome (operation_of self.old cells.old) (λ it. Performs self.old.places it Done f g
            → PlanMovesOn (plan_layout self.old (length cells.old)) (put_in self.old) Done
            self.new cells.new scratch at g) }
        ensures told { (told : PlaceAnswers) → IsTold told self.old → IsTold told self.new }
        ensures skips { SkipsOlder self.new.best self.new.step }
        ensures cleared { (bank : ℕ) → self.old.step ≡ Clearing bank → self.new.step ≢ Ended Formatted }
        ensures wear { erases_by (operation_of self.old cells.old) * puts_to_bank self.old.places (length cells.old)
            + erase_credit self.old.places (length cells.old) self.new.step
            ≤ erase_credit self.old.places (length cells.old) self.old.step + put_left (put_in self.old) }
    {
        match self.step {
            PlanStep::Erasing { bank, generation } => {
                self.step = PlanStep::Copying {
                    bank,
                    generation,
                    done: 0,
                };
            }
            PlanStep::Copying {
                bank,
                generation,
                done,
            } => self.step = self.after_program(bank, generation, done, cells.len()),
            PlanStep::Ready {
                bank,
                generation,
                next,
            } => {
                let Some(put) = self.put else {
                    return;
                };
                let payload = put.payload;
                cells[put.cell as usize] = payload;
                self.put = None;
                self.step = PlanStep::Ready {
                    bank,
                    generation,
                    next: next + 1,
                };
            }
            PlanStep::Clearing { bank } => self.step = self.after_clearing(bank),
            PlanStep::Filling { done } => self.step = after_filling(done, cells.len()),
            _ => {}
        }
    }

    /// What comes after a format erased this bank: the next one, bank 0 last, and then the copy.
    fn after_clearing(&self, bank: u8) -> PlanStep
        requires bank { bank < self.now.banks }
        requires sixteen { self.now.banks ≤ 16 }
        ensures is { result ≡ step_cleared self.now.banks bank }
        ensures not_failed { result ≢ Ended end_failed }
        ensures not_other { result ≢ Ended OtherSizes }
        ensures not_formatted { result ≢ Ended Formatted }
    {
        if bank == 0 {
            return PlanStep::Filling { done: 0 };
        }
        PlanStep::Clearing {
            bank: next_bank(self.banks, bank),
        }
    }

    /// What comes after a line of a copy was programmed.
    fn after_program(&self, bank: u8, generation: u64, done: u16, cells: usize) -> PlanStep
        requires bank { bank < self.now.banks }
        requires generation { generation < last_generation }
        requires few { cells < 2 ^ 16 }
        ensures is { result ≡ step_programmed self.now.banks bank generation done cells }
        ensures not_failed { result ≢ Ended end_failed }
        ensures not_other { result ≢ Ended OtherSizes }
    {
        if (done as usize) < cells {
            return PlanStep::Copying {
                bank,
                generation,
                done: done + 1,
            };
        }
        PlanStep::Ready {
            bank: next_bank(self.banks, bank),
            generation: generation + 1,
            next: 1 + cells as u32,
        }
    }

    /// Takes the outcome of the operation that [`FlashPlan::next`] says. If it says none, nothing changes.
    pub fn did(&mut self, cells: &mut [[u8; 32]], scratch: &mut [[u8; 32]], outcome: FlashOutcome)
        requires plan { IsPlanOf (length cells.old) self.old }
        requires alike { length scratch.old ≡ length cells.old }
        ensures plan { IsPlanOf (length cells.old) self.new }
        ensures sizes { SameSizes self.old self.new }
        ensures less { (operation_of self.old cells.old ≡ None → ⊥)
            → operations_left (length cells.old) self.new < operations_left (length cells.old) self.old }
        ensures steps { (at : FlashMachine) (f g : Flash)
            → StandsAt (plan_layout self.old (length cells.old)) self.old cells.old scratch.old at f
            → IfSome (operation_of self.old cells.old) (λ it. Performs self.old.places it outcome f g
            → PlanMovesOn (plan_layout self.old (length cells.old)) (put_in self.old) outcome
            self.new cells.new scratch.new at g) }
        ensures formats { (f g : Flash) → FormatsAt self.old cells.old f
            → IfSome (operation_of self.old cells.old) (λ it. Performs self.old.places it outcome f g
            → FormatsAt self.new cells.new g) }
        ensures told { (told : PlaceAnswers) → IsTold told self.old → IfSome (operation_of self.old cells.old) (λ it.
            AnswersSo told it outcome → IsTold told self.new) }
        ensures skips { SkipsOlder self.old.best self.old.step → SkipsOlder self.new.best self.new.step }
        ensures wear { (ReadsAt self.old.step → ⊥)
            → erases_by (operation_of self.old cells.old) * puts_to_bank self.old.places (length cells.old)
            + erase_credit self.old.places (length cells.old) self.new.step
            ≤ erase_credit self.old.places (length cells.old) self.old.step + put_left (put_in self.old) }
        ensures none { operation_of self.old cells.old ≡ None → self.new ≡ self.old }
        ensures failed { self.new.step ≡ Ended end_failed → (self.old.step ≡ Ended end_failed)
            ⊎ IsFailure (operation_of self.old cells.old) outcome }
        ensures other { self.new.step ≡ Ended OtherSizes → self.old.step ≡ Ended OtherSizes }
        ensures fails { IsFailure (operation_of self.old cells.old) outcome → self.new ≡ failed_plan self.old }
        ensures waits { put_in self.old ≡ None → (IsFailure (operation_of self.old cells.old) outcome → ⊥)
            → self.new.put ≡ self.old.put }
        ensures taken { put_in self.old ≢ None → self.new.put ≡ None }
        ensures kept { (ReadsAt self.old.step → ⊥) → put_in self.old ≡ None → cells.new ≡ cells.old }
        ensures no_head { (bank : ℕ) → self.old.step ≡ Heading bank → ReadsNoHead outcome → self.old.best ≡ NoLog
            → FindsNothing self.new }
        ensures cleared { (bank : ℕ) → self.old.step ≡ Clearing bank → self.new.step ≢ Ended Formatted }
    {
        match outcome {
            FlashOutcome::Answered(answer) => {
                if self.reads() {
                    self.did_read(cells, scratch, answer);
                } else {
                    self.fail();
                }
            }
            FlashOutcome::Done => {
                if self.writes() {
                    self.did_change(cells);
                } else {
                    self.fail();
                }
            }
            FlashOutcome::Failed => self.fail(),
        }
    }
}
