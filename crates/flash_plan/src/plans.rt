//! The plan: its steps, and which operation each asks for.
ghost use Rattle.std.specs.Prelude.{◌≡◌, ◌+◌, ◌-◌, ◌*◌, ◌^◌, ◌<◌, ◌≤◌, ◌↔◌, ℕ, length, true, Some, Err, IfSome, OnOk, OnErr};
ghost use Rattle.flash_places.specs.Places.{Flash};
ghost use Rattle.flash_laws.specs.Logs.{CellList};
ghost use Rattle.flash_laws.specs.Lives.{FlashMachine, off};
ghost use Rattle.flash_log.specs.Going.{machine};
ghost use Rattle.flash_log.specs.Taking.{last_generation};
ghost use Rattle.flash_plan.specs.Performing.{IsWithinFlash, MayBegin};
ghost use Rattle.flash_plan.specs.Plans.{IsPlanOf, StepFits, BestFits, IsIdle, IsFullAt, SameSizes, copy_operation};
ghost use Rattle.flash_plan.specs.Plans.{operation_of, operations_left, FindsNothing};
ghost use Rattle.flash_plan.specs.Standing.{plan_layout, StandsAt};
ghost use Rattle.flash_plan.specs.Formatting.{FormatsAt};
ghost use Rattle.flash_plan.specs.Telling.{PlaceAnswers, IsTold};
ghost use Rattle.flash_plan.specs.declared.plans.PlanPutFault.TheVariants.{NotIdle, Exhausted as put_exhausted};
ghost use Rattle.flash_plan.specs.declared.plans.PlanStep.TheVariants.{Heading, Clearing, Erasing, Ready};

use crate::operations::Operation;
use flash_log::{Best, next_bank};
use flash_places::FlashLine;

/// Why a plan has ended.
#[derive(Clone, Copy, Debug, PartialEq, Eq, Drop)]
pub enum PlanEnd {
    /// No bank holds a log of so many cells that counts.
    NoStore,
    /// The log that counts has the last generation, and can't be copied.
    Exhausted,
    /// An operation failed. A put that was under way may be there after the next start, or not.
    Failed,
    /// A store was made of the cells.
    Formatted,
    /// The head of a bank tells other sizes than those of the caller. A plan doesn't see what a head tells: the crate
    /// that reads its bytes ends it so.
    OtherSizes,
}

/// A cell that takes this payload next.
#[derive(Clone, Copy, Debug, PartialEq, Eq, Drop)]
pub struct WaitingPut {
    pub cell: u16,
    pub payload: [u8; 32],
}

/// Where a plan stands, and so which operation comes next. The log of a bank has its head in place 0, cell i of its
/// copy in place 1 + i, and its puts behind the copy.
#[derive(Clone, Copy, Debug, PartialEq, Eq, Drop)]
pub enum PlanStep {
    /// The head of this bank is read. Banks are read in order: of each its head, and the rest if no log is later so far.
    Heading {
        bank: u8,
    },
    /// The head was of this generation, and so many cells of the copy were read. The next one is read.
    Copied {
        bank: u8,
        generation: u64,
        done: u16,
    },
    /// The copy and the puts before this place were read. The place is read.
    Puts {
        bank: u8,
        generation: u64,
        place: u32,
    },
    /// The log ends before place `next`, and from there to this place all was read as blank. The place is read.
    Free {
        bank: u8,
        generation: u64,
        next: u32,
        place: u32,
    },
    /// This bank holds the log that counts, of this generation. The next one, before it, is erased.
    Erasing {
        bank: u8,
        generation: u64,
    },
    /// So many cells were copied to the next bank. The next cell is programmed; after the last one, the head.
    Copying {
        bank: u8,
        generation: u64,
        done: u16,
    },
    /// The store is ready, and its next line goes to this place. A put that waits is programmed; if none waits, the
    /// plan is idle.
    Ready {
        bank: u8,
        generation: u64,
        next: u32,
    },
    /// A format erases this bank. The last bank comes first, and bank 0 last.
    Clearing {
        bank: u8,
    },
    /// A format has programmed so many cells into bank 0. The next cell is programmed; after the last one, the head.
    Filling {
        done: u16,
    },
    /// No operation comes any more.
    Ended(PlanEnd),
}

/// Why a put isn't taken.
#[derive(Clone, Copy, Debug, PartialEq, Eq, Drop)]
pub enum PlanPutFault {
    /// The plan isn't idle: an operation comes next, or the plan has ended.
    NotIdle,
    /// The bank is full, and its log has the last generation.
    Exhausted,
}

/// A store as a machine. Its caller performs what [`FlashPlan::next`] says, and reports the outcome to
/// [`FlashPlan::did`].
#[derive(Clone, Copy, Debug, PartialEq, Eq, Drop)]
pub struct FlashPlan {
    /// How many banks there are.
    pub banks: u8,
    /// How many places a bank has.
    pub places: u32,
    pub step: PlanStep,
    /// The latest log of the banks that were read.
    pub best: Best,
    /// Of each bank that was read, the generation that no head of it is later than. The last generation says nothing.
    pub latest: [u64; 16],
    /// The put that was taken and isn't done.
    pub put: Option<WaitingPut>,
}

/// What is programmed next of a copy in this bank: a cell, or the head after the last one.
fn copy_operation(bank: u8, generation: u64, done: u16, cells: &[[u8; 32]]) -> Operation
    requires { generation < last_generation }
    ensures { result ≡ copy_operation bank generation done cells.now }
{
    if (done as usize) < cells.len() {
        let line = FlashLine::Entry(done, cells[done as usize]);
        return Operation::Program(bank, 1 + done as u32, line);
    }
    Operation::Program(bank, 0, FlashLine::Head(generation + 1))
}

impl FlashPlan {
    fn has_best(&self) -> bool
        ensures { result ≡ true ↔ BestFits self.now.banks self.now.best }
    {
        match self.best {
            Best::One(log) => log.bank < self.banks,
            Best::NoLog => true,
            Best::Tie(_) => true,
        }
    }

    fn has_put(&self, cells: usize) -> bool
        ensures { result ≡ true ↔ IfSome self.now.put (λ waiting. waiting.cell < cells) }
    {
        match self.put {
            Some(waiting) => (waiting.cell as usize) < cells,
            None => true,
        }
    }

    fn has_step(&self, cells: usize) -> bool
        ensures { result ≡ true ↔ StepFits self.now.banks self.now.places cells self.now.step self.now.put }
    {
        match self.step {
            PlanStep::Heading { bank } => bank < self.banks && self.put.is_none(),
            PlanStep::Copied { bank, done, .. } => {
                bank < self.banks && (done as usize) < cells && self.put.is_none()
            }
            PlanStep::Puts { bank, place, .. } => {
                bank < self.banks && place < self.places && self.put.is_none()
            }
            PlanStep::Free { bank, place, .. } => {
                bank < self.banks && place < self.places && self.put.is_none()
            }
            PlanStep::Erasing { bank, generation } => bank < self.banks && generation < u64::MAX,
            PlanStep::Copying {
                bank,
                generation,
                done,
            } => bank < self.banks && generation < u64::MAX && done as usize <= cells,
            PlanStep::Ready { bank, next, .. } => {
                bank < self.banks && (self.put.is_none() || next < self.places)
            }
            PlanStep::Clearing { bank } => bank < self.banks && self.put.is_none(),
            PlanStep::Filling { done } => done as usize <= cells && self.put.is_none(),
            PlanStep::Ended(_) => true,
        }
    }

    /// A plan at power-up, over a flash of so many banks of so many places.
    pub fn start(banks: u8, places: u32) -> FlashPlan
        requires two { 2 ≤ banks }
        requires sixteen { banks ≤ 16 }
        ensures banks { result.banks ≡ banks }
        ensures places { result.places ≡ places }
        ensures plan { (n : ℕ) → 0 < n → n < 2 ^ 16 → n + 1 < places → IsPlanOf n result }
        ensures left { (n : ℕ) → operations_left n result ≤ banks * places + (n + 2) }
        ensures stands { (n : ℕ) (cells scratch : CellList) (f : Flash)
            → StandsAt (plan_layout result n) result cells scratch (machine f off) f }
        ensures none { result.put ≡ None }
        ensures told { (told : PlaceAnswers) → IsTold told result }
        ensures first { result.step ≡ Heading 0 }
        ensures nothing { FindsNothing result }
    {
        FlashPlan {
            banks,
            places,
            step: PlanStep::Heading { bank: 0 },
            best: Best::NoLog,
            latest: [u64::MAX; 16],
            put: None,
        }
    }

    /// A plan that makes a store of the cells, of generation 1, and leaves every other bank blank. It ends in
    /// [`PlanEnd::Formatted`]; a new plan then starts the store. A power cut within it leaves this store, none, or one
    /// that was there before.
    pub fn format(banks: u8, places: u32) -> FlashPlan
        requires two { 2 ≤ banks }
        requires sixteen { banks ≤ 16 }
        ensures banks { result.banks ≡ banks }
        ensures places { result.places ≡ places }
        ensures plan { (n : ℕ) → 0 < n → n < 2 ^ 16 → n + 1 < places → IsPlanOf n result }
        ensures formats { (cells : CellList) (f : Flash) → FormatsAt result cells f }
        ensures first { result.step ≡ Clearing (banks - 1) }
    {
        FlashPlan {
            banks,
            places,
            step: PlanStep::Clearing { bank: banks - 1 },
            best: Best::NoLog,
            latest: [u64::MAX; 16],
            put: None,
        }
    }

    /// The operation that comes next. None if the plan is idle or has ended.
    pub fn next(&self, cells: &[[u8; 32]]) -> Option<Operation>
        requires plan { IsPlanOf (length cells.now) self.now }
        ensures is { result ≡ operation_of self.now cells.now }
        ensures inside { IfSome result (λ it. IsWithinFlash self.now.banks self.now.places it) }
        ensures blank { (scratch : CellList) (at : FlashMachine) (f : Flash)
            → StandsAt (plan_layout self.now (length cells.now)) self.now cells.now scratch at f
            → IfSome result (λ it. MayBegin it f) }
        ensures formats { (f : Flash) → FormatsAt self.now cells.now f → IfSome result (λ it. MayBegin it f) }
    {
        match self.step {
            PlanStep::Heading { bank } => Some(Operation::Read(bank, 0)),
            PlanStep::Copied { bank, done, .. } => Some(Operation::Read(bank, 1 + done as u32)),
            PlanStep::Puts { bank, place, .. } => Some(Operation::Read(bank, place)),
            PlanStep::Free { bank, place, .. } => Some(Operation::Read(bank, place)),
            PlanStep::Erasing { bank, .. } => Some(Operation::Erase(next_bank(self.banks, bank))),
            PlanStep::Copying {
                bank,
                generation,
                done,
            } => {
                let spare = next_bank(self.banks, bank);
                Some(copy_operation(spare, generation, done, cells))
            }
            PlanStep::Ready { bank, next, .. } => match self.put {
                Some(put) => {
                    let line = FlashLine::Entry(put.cell, put.payload);
                    Some(Operation::Program(bank, next, line))
                }
                None => None,
            },
            PlanStep::Clearing { bank } => Some(Operation::Erase(bank)),
            PlanStep::Filling { done } => Some(copy_operation(0, 0, done, cells)),
            PlanStep::Ended(_) => None,
        }
    }

    /// Whether the numbers of the plan are those of a store of so many cells. What a program keeps of a plan in other
    /// hands, as in C, is to be asked so before it is used.
    pub fn is_plan(&self, cells: usize) -> bool
        ensures { result ≡ true ↔ IsPlanOf cells self.now }
    {
        let sizes = 2 <= self.banks && self.banks <= 16 && 0 < cells && cells < 65536;
        if !sizes || cells as u32 + 1 >= self.places {
            return false;
        }
        self.has_step(cells) && self.has_best() && self.has_put(cells)
    }

    /// Whether nothing comes next and a put may be taken.
    pub fn is_idle(&self) -> bool
        ensures { result ≡ true ↔ IsIdle self.now }
    {
        match self.step {
            PlanStep::Ready { .. } => self.put.is_none(),
            _ => false,
        }
    }

    /// Takes a put, if the plan is idle: this cell takes this payload. It is done once the plan is idle again.
    pub fn put(
        &mut self,
        cells: &[[u8; 32]],
        cell: u16,
        payload: &[u8; 32],
    ) -> Result<(), PlanPutFault>
        requires plan { IsPlanOf (length cells.now) self.old }
        requires cell { cell < length cells.now }
        ensures plan { IsPlanOf (length cells.now) self.new }
        ensures sizes { SameSizes self.old self.new }
        ensures kept { OnErr result (self.new ≡ self.old) }
        ensures not_idle { result ≡ Err NotIdle ↔ (IsIdle self.old → ⊥) }
        ensures exhausted { result ≡ Err put_exhausted
            ↔ (IsIdle self.old × IsFullAt self.old.places self.old.step) }
        ensures waits { OnOk result (self.new.put ≡ Some (record { cell = cell; payload = payload.now })) }
        ensures left { OnOk result (operations_left (length cells.now) self.new ≤ length cells.now + 3) }
        ensures room { (bank generation next : ℕ) → self.old.step ≡ Ready bank generation next
            → next < self.old.places → self.new.step ≡ self.old.step }
        ensures full { OnOk result ((bank generation next : ℕ) → self.old.step ≡ Ready bank generation next
            → self.old.places ≤ next → self.new.step ≡ Erasing bank generation) }
        ensures stands { OnOk result ((scratch : CellList) (at : FlashMachine) (f : Flash)
            → StandsAt (plan_layout self.old (length cells.now)) self.old cells.now scratch at f
            → StandsAt (plan_layout self.old (length cells.now)) self.new cells.now scratch at f) }
    {
        let PlanStep::Ready {
            bank,
            generation,
            next,
        } = self.step
        else {
            return Err(PlanPutFault::NotIdle);
        };
        if self.put.is_some() {
            return Err(PlanPutFault::NotIdle);
        }
        let waiting = Some(WaitingPut {
            cell,
            payload: *payload,
        });
        if next < self.places {
            self.put = waiting;
            return Ok(());
        }
        if generation == u64::MAX {
            return Err(PlanPutFault::Exhausted);
        }
        self.step = PlanStep::Erasing { bank, generation };
        self.put = waiting;
        Ok(())
    }
}
