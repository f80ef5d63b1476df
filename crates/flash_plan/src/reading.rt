//! What the answer of a read leads to.
ghost use Rattle.std.specs.Prelude.{◌≡◌, ◌+◌, ◌-◌, ◌*◌, ◌≤◌, ◌≢◌, ◌^◌, ◌<◌, ℕ, List, suc, length, None, IfSome, false};
ghost use Rattle.flash_places.specs.declared.Answer.TheVariants.{Whole};
ghost use Rattle.flash_places.specs.declared.FlashLine.TheVariants.{Entry};
ghost use Rattle.flash_places.specs.Places.{Flash, LooksAt};
ghost use Rattle.flash_places.specs.State.{BlankBehind};
ghost use Rattle.flash_laws.specs.Logs.{CellList};
ghost use Rattle.flash_laws.specs.Lives.{off};
ghost use Rattle.flash_log.specs.Going.{machine};
ghost use Rattle.flash_log.specs.Scanned.{is_past};
ghost use Rattle.flash_log.specs.Taking.{last_generation, generation_in};
ghost use Rattle.flash_log.specs.declared.scanning.Best.{Best};
ghost use Rattle.flash_log.specs.declared.scanning.Best.TheVariants.{NoLog};
ghost use Rattle.flash_plan.specs.Telling.{PlaceAnswers, LogTold, StartTold, StepTold, IsTold};
ghost use Rattle.flash_plan.specs.Plans.{IsPlanOf, StepFits, KeepsPut, SkipsOlder, step_after, step_left};
ghost use Rattle.flash_plan.specs.Plans.{operations_left, HeadsAlone, FindsNothing};
ghost use Rattle.flash_plan.specs.Standing.{plan_layout, StandsAt, BeforeBank, WithinBank, ReadsCopy, ReadsPuts};
ghost use Rattle.flash_plan.specs.Standing.{ReadsBank, ReadsFree, Reaches, ReachesStep};
ghost use Rattle.flash_plan.specs.declared.plans.PlanEnd.TheVariants.{Exhausted, Failed as end_failed, OtherSizes};
ghost use Rattle.flash_plan.specs.declared.plans.PlanStep.TheVariants.{Erasing, Ended};

use crate::plans::{FlashPlan, PlanEnd, PlanStep};
use flash_log::{
    Best, LogEnd, generation_of, is_past, judge, latest_of, make_line, may_go_on, note,
};
use flash_places::{Answer, FlashLine};

/// The payload of the copy of this cell, if that was read.
fn copied_cell(answer: &Answer, cell: u16) -> Option<[u8; 32]>
    ensures some { IfSome result (λ payload. answer.now ≡ Whole (Entry cell payload)) }
    ensures none { result ≡ None → (payload : List ℕ) → answer.now ≢ Whole (Entry cell payload) }
{
    match answer {
        Answer::Whole(FlashLine::Entry(number, payload)) => {
            if *number == cell {
                Some(*payload)
            } else {
                None
            }
        }
        Answer::Whole(FlashLine::Head(_)) => None,
        Answer::Blank => None,
        Answer::Nothing => None,
    }
}

/// A log, behind which not all is blank for sure.
fn not_free(generation: u64, next: u32) -> LogEnd
    ensures { result ≡ record { generation = generation; next = next; is_free = false } }
{
    LogEnd {
        generation,
        next,
        is_free: false,
    }
}

/// What comes after this cell of a copy.
fn after_cell(bank: u8, generation: u64, done: u16, cells: usize) -> PlanStep
    requires inside { done < cells }
    requires few { cells < 2 ^ 16 }
    ensures is { result ≡ step_after bank generation done cells }
    ensures not_failed { result ≢ Ended end_failed }
    ensures not_other { result ≢ Ended OtherSizes }
    ensures skips { (best : Best) → is_past best generation ≡ false → SkipsOlder best result }
{
    if (done as usize) + 1 < cells {
        return PlanStep::Copied {
            bank,
            generation,
            done: done + 1,
        };
    }
    PlanStep::Puts {
        bank,
        generation,
        place: 1 + cells as u32,
    }
}

/// What a log that counts asks for, if it isn't gone on in: it is copied, unless its generation is the last one.
fn renewing(bank: u8, generation: u64) -> PlanStep
    ensures last { generation ≡ last_generation → result ≡ Ended Exhausted }
    ensures copied { generation ≢ last_generation → result ≡ Erasing bank generation }
    ensures next { generation ≢ last_generation → generation < last_generation }
    ensures not_failed { result ≢ Ended end_failed }
    ensures not_other { result ≢ Ended OtherSizes }
    ensures skips { (best : Best) → SkipsOlder best result }
{
    if generation == u64::MAX {
        return PlanStep::Ended(PlanEnd::Exhausted);
    }
    PlanStep::Erasing { bank, generation }
}

impl FlashPlan {
    /// Takes the log of a bank, if it is the latest one so far.
    fn take_log(
        &mut self,
        cells: &mut [[u8; 32]],
        scratch: &[[u8; 32]],
        bank: u8,
        log: Option<LogEnd>,
    )
        requires plan { IsPlanOf (length cells.old) self.old }
        requires alike { length scratch.now ≡ length cells.old }
        requires inside { bank < self.old.banks }
        ensures plan { IsPlanOf (length cells.old) self.new }
        ensures same { KeepsPut self.old self.new }
        ensures takes { (first f : Flash) → WithinBank (length cells.old) bank first f self.old.best self.old.latest
            cells.old (ReadsBank (length cells.old) log scratch.now)
            → BeforeBank (length cells.old) (suc bank) first f self.new.best self.new.latest cells.new }
        ensures told { (told : PlaceAnswers) → StartTold told self.old.places (suc bank) self.old.best self.old.latest
            → LogTold told self.old.places bank log
            → StartTold told self.old.places (suc bank) self.new.best self.new.latest }
        ensures none { log ≡ None → self.new.best ≡ self.old.best }
    {
        let log = match log {
            Some(log) => log,
            None => return,
        };
        let (best, is_new) = judge(self.best, bank, log);
        self.best = best;
        if !is_new {
            return;
        }
        cells.copy_from_slice(scratch);
    }

    /// What comes after all of a bank was read: the next bank, or what the latest log asks for.
    fn after_bank(&self, bank: u8, cells: &[[u8; 32]]) -> PlanStep
        requires plan { IsPlanOf (length cells.now) self.now }
        requires inside { bank < self.now.banks }
        ensures fits { StepFits self.now.banks self.now.places (length cells.now) result None }
        ensures not_failed { result ≢ Ended end_failed }
        ensures not_other { result ≢ Ended OtherSizes }
        ensures skips { SkipsOlder self.now.best result }
        ensures less { step_left self.now.banks self.now.places (length cells.now) None result
            ≤ (self.now.banks - suc bank) * self.now.places + (length cells.now + 2) }
        ensures goes { (first f : Flash) (scratch : CellList)
            → BeforeBank (length cells.now) (suc bank) first f self.now.best self.now.latest cells.now
            → ReachesStep (plan_layout self.now (length cells.now)) self.now.best self.now.latest cells.now scratch
            (machine first off) f result }
        ensures told { (told : PlaceAnswers) → StartTold told self.now.places (suc bank) self.now.best self.now.latest
            → StepTold told self.now.banks self.now.places None self.now.best self.now.latest result }
        ensures no_log { self.now.best ≡ NoLog → HeadsAlone self.now.best result }
    {
        if bank + 1 < self.banks {
            return PlanStep::Heading { bank: bank + 1 };
        }
        match self.best {
            Best::One(log) => {
                let bank = log.bank;
                let generation = log.generation;
                let next = log.next;
                if may_go_on(self.banks, &log, &self.latest) {
                    return PlanStep::Ready {
                        bank,
                        generation,
                        next,
                    };
                }
                renewing(bank, generation)
            }
            Best::NoLog => PlanStep::Ended(PlanEnd::NoStore),
            Best::Tie(_) => PlanStep::Ended(PlanEnd::NoStore),
        }
    }

    /// All that is wanted of a bank was read, and this is its log, if it has one.
    fn leave_bank(
        &mut self,
        cells: &mut [[u8; 32]],
        scratch: &[[u8; 32]],
        bank: u8,
        log: Option<LogEnd>,
    )
        requires plan { IsPlanOf (length cells.old) self.old }
        requires alike { length scratch.now ≡ length cells.old }
        requires reading { self.old.put ≡ None }
        requires inside { bank < self.old.banks }
        ensures plan { IsPlanOf (length cells.old) self.new }
        ensures same { KeepsPut self.old self.new }
        ensures not_failed { self.new.step ≢ Ended end_failed }
        ensures not_other { self.new.step ≢ Ended OtherSizes }
        ensures skips { SkipsOlder self.new.best self.new.step }
        ensures less { operations_left (length cells.old) self.new
            ≤ (self.old.banks - suc bank) * self.old.places + (length cells.old + 2) }
        ensures goes { (first f : Flash)
            → WithinBank (length cells.old) bank first f self.old.best self.old.latest cells.old
            (ReadsBank (length cells.old) log scratch.now)
            → Reaches (plan_layout self.old (length cells.old)) self.new cells.new scratch.now
            (machine first off) f }
        ensures told { (told : PlaceAnswers) → StartTold told self.old.places (suc bank) self.old.best self.old.latest
            → LogTold told self.old.places bank log → IsTold told self.new }
        ensures no_log { log ≡ None → self.old.best ≡ NoLog → FindsNothing self.new }
    {
        self.take_log(cells, scratch, bank, log);
        self.step = self.after_bank(bank, cells);
    }

    /// The head of a bank was read. If it is older than the best log, the rest of the bank isn't wanted.
    pub(crate) fn after_head(
        &mut self,
        cells: &mut [[u8; 32]],
        scratch: &[[u8; 32]],
        bank: u8,
        answer: Answer,
    )
        requires plan { IsPlanOf (length cells.old) self.old }
        requires alike { length scratch.now ≡ length cells.old }
        requires reading { self.old.put ≡ None }
        requires inside { bank < self.old.banks }
        ensures plan { IsPlanOf (length cells.old) self.new }
        ensures same { KeepsPut self.old self.new }
        ensures not_failed { self.new.step ≢ Ended end_failed }
        ensures not_other { self.new.step ≢ Ended OtherSizes }
        ensures skips { SkipsOlder self.new.best self.new.step }
        ensures less { operations_left (length cells.old) self.new
            < (self.old.banks - bank) * self.old.places + (length cells.old + 2) }
        ensures goes { (first f g : Flash)
            → BeforeBank (length cells.old) bank first f self.old.best self.old.latest cells.old
            → LooksAt bank 0 answer f g
            → Reaches (plan_layout self.old (length cells.old)) self.new cells.new scratch.now
            (machine first off) g }
        ensures told { (told : PlaceAnswers) → StartTold told self.old.places bank self.old.best self.old.latest
            → answer ≡ told bank 0 → IsTold told self.new }
        ensures no_head { generation_in answer ≡ None → self.old.best ≡ NoLog → FindsNothing self.new }
    {
        note(&mut self.latest, bank, latest_of(&answer));
        match generation_of(&answer) {
            Some(generation) => {
                if is_past(&self.best, generation) {
                    self.step = self.after_bank(bank, cells);
                    return;
                }
                self.step = PlanStep::Copied {
                    bank,
                    generation,
                    done: 0,
                };
            }
            None => self.leave_bank(cells, scratch, bank, None),
        }
    }

    /// A place of a copy was read.
    pub(crate) fn after_copied(
        &mut self,
        cells: &mut [[u8; 32]],
        scratch: &mut [[u8; 32]],
        bank: u8,
        generation: u64,
        done: u16,
        answer: Answer,
    )
        requires plan { IsPlanOf (length cells.old) self.old }
        requires alike { length scratch.old ≡ length cells.old }
        requires reading { self.old.put ≡ None }
        requires inside { bank < self.old.banks }
        requires done { done < length cells.old }
        ensures plan { IsPlanOf (length cells.old) self.new }
        ensures same { KeepsPut self.old self.new }
        ensures not_failed { self.new.step ≢ Ended end_failed }
        ensures not_other { self.new.step ≢ Ended OtherSizes }
        ensures skips { is_past self.old.best generation ≡ false → SkipsOlder self.new.best self.new.step }
        ensures less { operations_left (length cells.old) self.new
            < (self.old.banks - bank) * self.old.places - suc done + (length cells.old + 2) }
        ensures goes { (first f g : Flash)
            → WithinBank (length cells.old) bank first f self.old.best self.old.latest cells.old
            (ReadsCopy generation done scratch.old)
            → LooksAt bank (suc done) answer f g
            → Reaches (plan_layout self.old (length cells.old)) self.new cells.new scratch.new
            (machine first off) g }
        ensures told { (told : PlaceAnswers) → StartTold told self.old.places (suc bank) self.old.best self.old.latest
            → IsTold told self.new }
    {
        match copied_cell(&answer, done) {
            Some(payload) => {
                scratch[done as usize] = payload;
                self.step = after_cell(bank, generation, done, scratch.len());
            }
            None => self.leave_bank(cells, scratch, bank, None),
        }
    }

    /// From the end of a log on all was read as blank, and this place was the last of it.
    fn after_blank(
        &mut self,
        cells: &mut [[u8; 32]],
        scratch: &[[u8; 32]],
        bank: u8,
        generation: u64,
        next: u32,
        place: u32,
    )
        requires plan { IsPlanOf (length cells.old) self.old }
        requires alike { length scratch.now ≡ length cells.old }
        requires reading { self.old.put ≡ None }
        requires inside { bank < self.old.banks }
        requires place { place < self.old.places }
        ensures plan { IsPlanOf (length cells.old) self.new }
        ensures same { KeepsPut self.old self.new }
        ensures not_failed { self.new.step ≢ Ended end_failed }
        ensures not_other { self.new.step ≢ Ended OtherSizes }
        ensures skips { is_past self.old.best generation ≡ false → SkipsOlder self.new.best self.new.step }
        ensures less { operations_left (length cells.old) self.new
            < (self.old.banks - bank) * self.old.places - place + (length cells.old + 2) }
        ensures goes { (first f : Flash)
            → WithinBank (length cells.old) bank first f self.old.best self.old.latest cells.old
            (ReadsFree (length cells.old) generation next (suc place) scratch.now)
            → BlankBehind self.old.places f
            → Reaches (plan_layout self.old (length cells.old)) self.new cells.new scratch.now
            (machine first off) f }
        ensures told { (told : PlaceAnswers) → StartTold told self.old.places (suc bank) self.old.best self.old.latest
            → next ≤ place → IsTold told self.new }
    {
        let last = self.places - 1;
        if place < last {
            self.step = PlanStep::Free {
                bank,
                generation,
                next,
                place: place + 1,
            };
            return;
        }
        let log = LogEnd {
            generation,
            next,
            is_free: true,
        };
        self.leave_bank(cells, scratch, bank, Some(log));
    }

    /// A place behind the copy was read.
    pub(crate) fn after_puts(
        &mut self,
        cells: &mut [[u8; 32]],
        scratch: &mut [[u8; 32]],
        bank: u8,
        generation: u64,
        place: u32,
        answer: Answer,
    )
        requires plan { IsPlanOf (length cells.old) self.old }
        requires alike { length scratch.old ≡ length cells.old }
        requires reading { self.old.put ≡ None }
        requires inside { bank < self.old.banks }
        requires place { place < self.old.places }
        ensures plan { IsPlanOf (length cells.old) self.new }
        ensures same { KeepsPut self.old self.new }
        ensures not_failed { self.new.step ≢ Ended end_failed }
        ensures not_other { self.new.step ≢ Ended OtherSizes }
        ensures skips { is_past self.old.best generation ≡ false → SkipsOlder self.new.best self.new.step }
        ensures less { operations_left (length cells.old) self.new
            < (self.old.banks - bank) * self.old.places - place + (length cells.old + 2) }
        ensures goes { (first f g : Flash)
            → WithinBank (length cells.old) bank first f self.old.best self.old.latest cells.old
            (ReadsPuts (length cells.old) generation place scratch.old)
            → LooksAt bank place answer f g → BlankBehind self.old.places g
            → Reaches (plan_layout self.old (length cells.old)) self.new cells.new scratch.new
            (machine first off) g }
        ensures told { (told : PlaceAnswers) → StartTold told self.old.places (suc bank) self.old.best self.old.latest
            → answer ≡ told bank place → IsTold told self.new }
    {
        match answer {
            Answer::Whole(line) => {
                make_line(scratch, &line);
                let last = self.places - 1;
                if place < last {
                    self.step = PlanStep::Puts {
                        bank,
                        generation,
                        place: place + 1,
                    };
                    return;
                }
                let log = LogEnd {
                    generation,
                    next: self.places,
                    is_free: true,
                };
                self.leave_bank(cells, scratch, bank, Some(log));
            }
            Answer::Blank => {
                self.after_blank(cells, scratch, bank, generation, place, place);
            }
            Answer::Nothing => {
                let log = not_free(generation, place);
                self.leave_bank(cells, scratch, bank, Some(log));
            }
        }
    }

    /// A place behind a log was read.
    pub(crate) fn after_free(
        &mut self,
        cells: &mut [[u8; 32]],
        scratch: &[[u8; 32]],
        bank: u8,
        generation: u64,
        next: u32,
        place: u32,
        answer: Answer,
    )
        requires plan { IsPlanOf (length cells.old) self.old }
        requires alike { length scratch.now ≡ length cells.old }
        requires reading { self.old.put ≡ None }
        requires inside { bank < self.old.banks }
        requires place { place < self.old.places }
        ensures plan { IsPlanOf (length cells.old) self.new }
        ensures same { KeepsPut self.old self.new }
        ensures not_failed { self.new.step ≢ Ended end_failed }
        ensures not_other { self.new.step ≢ Ended OtherSizes }
        ensures skips { is_past self.old.best generation ≡ false → SkipsOlder self.new.best self.new.step }
        ensures less { operations_left (length cells.old) self.new
            < (self.old.banks - bank) * self.old.places - place + (length cells.old + 2) }
        ensures goes { (first f g : Flash)
            → WithinBank (length cells.old) bank first f self.old.best self.old.latest cells.old
            (ReadsFree (length cells.old) generation next place scratch.now)
            → LooksAt bank place answer f g → BlankBehind self.old.places g
            → Reaches (plan_layout self.old (length cells.old)) self.new cells.new scratch.now
            (machine first off) g }
        ensures told { (told : PlaceAnswers) → StartTold told self.old.places (suc bank) self.old.best self.old.latest
            → next ≤ place → answer ≡ told bank place → IsTold told self.new }
    {
        match answer {
            Answer::Blank => {
                self.after_blank(cells, scratch, bank, generation, next, place);
            }
            Answer::Whole(_) => {
                let log = not_free(generation, next);
                self.leave_bank(cells, scratch, bank, Some(log));
            }
            Answer::Nothing => {
                let log = not_free(generation, next);
                self.leave_bank(cells, scratch, bank, Some(log));
            }
        }
    }
}
