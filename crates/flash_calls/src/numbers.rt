//! A plan as numbers.
ghost use Rattle.std.specs.Prelude.{◌≡◌};
ghost use Rattle.flash_calls.specs.Numbers.{step_in, best_in, waiting_in, plan_in, sizes_in, head_sizes};

use flash_lines::FlashSizes;
use flash_log::{Best, FoundLog};
use flash_plan::{FlashPlan, PlanEnd, PlanStep, WaitingPut};

/// Sizes that say nothing.
pub(crate) const UNTOLD: FlashSizes = FlashSizes {
    unit: 0,
    banks: 0,
    bank_size: 0,
    cells: 0,
};

/// A step as numbers: its kind, 0 to 12, and what it has. Every other kind is a plan that has failed.
#[derive(Clone, Copy)]
#[repr(C)]
pub struct StepNumbers {
    pub generation: u64,
    pub place: u32,
    pub next: u32,
    pub done: u16,
    pub kind: u8,
    pub bank: u8,
    pub unused: u32,
}

/// The latest log that was found: 0 none, 1 this one; else two of this generation.
#[derive(Clone, Copy)]
#[repr(C)]
pub struct BestNumbers {
    pub generation: u64,
    pub next: u32,
    pub kind: u8,
    pub bank: u8,
    pub is_free: u8,
    pub unused: u8,
}

/// A put that waits, unless `waits` is 0.
#[derive(Clone, Copy)]
#[repr(C)]
pub struct PutNumbers {
    pub bytes: [u8; 32],
    pub cell: u16,
    pub waits: u16,
}

/// A plan as numbers.
#[derive(Clone, Copy)]
#[repr(C)]
pub struct FlashNumbers {
    pub latest: [u64; 16],
    pub step: StepNumbers,
    pub best: BestNumbers,
    pub put: PutNumbers,
    pub places: u32,
    /// How many bytes a bank has.
    pub bank_size: u32,
    /// The unit of the part, in bytes.
    pub unit: u16,
    /// How many cells the store has.
    pub cells: u16,
    pub banks: u8,
    /// 0 unless this start has read a head that tells no sizes. Heads that are programmed then tell none either, so
    /// that software which knows of no sizes still reads them.
    pub is_untold: u8,
    pub unused: [u8; 6],
}

fn step_of(n: &StepNumbers) -> PlanStep
    ensures { result ≡ step_in n.now }
{
    let bank = n.bank;
    let generation = n.generation;
    let place = n.place;
    let next = n.next;
    let done = n.done;
    match n.kind {
        0 => PlanStep::Heading { bank },
        1 => PlanStep::Copied {
            bank,
            generation,
            done,
        },
        2 => PlanStep::Puts {
            bank,
            generation,
            place,
        },
        3 => PlanStep::Free {
            bank,
            generation,
            next,
            place,
        },
        4 => PlanStep::Erasing { bank, generation },
        5 => PlanStep::Copying {
            bank,
            generation,
            done,
        },
        6 => PlanStep::Ready {
            bank,
            generation,
            next,
        },
        7 => PlanStep::Ended(PlanEnd::NoStore),
        8 => PlanStep::Ended(PlanEnd::Exhausted),
        9 => PlanStep::Clearing { bank },
        10 => PlanStep::Filling { done },
        11 => PlanStep::Ended(PlanEnd::Formatted),
        12 => PlanStep::Ended(PlanEnd::OtherSizes),
        _ => PlanStep::Ended(PlanEnd::Failed),
    }
}

fn step_numbers(step: &PlanStep) -> StepNumbers
    ensures { step_in result ≡ step.now }
{
    let mut n = StepNumbers {
        generation: 0,
        place: 0,
        next: 0,
        done: 0,
        kind: 0,
        bank: 0,
        unused: 0,
    };
    match *step {
        PlanStep::Heading { bank } => n.bank = bank,
        PlanStep::Copied {
            bank,
            generation,
            done,
        } => {
            n.kind = 1;
            n.bank = bank;
            n.generation = generation;
            n.done = done;
        }
        PlanStep::Puts {
            bank,
            generation,
            place,
        } => {
            n.kind = 2;
            n.bank = bank;
            n.generation = generation;
            n.place = place;
        }
        PlanStep::Free {
            bank,
            generation,
            next,
            place,
        } => {
            n.kind = 3;
            n.bank = bank;
            n.generation = generation;
            n.next = next;
            n.place = place;
        }
        PlanStep::Erasing { bank, generation } => {
            n.kind = 4;
            n.bank = bank;
            n.generation = generation;
        }
        PlanStep::Copying {
            bank,
            generation,
            done,
        } => {
            n.kind = 5;
            n.bank = bank;
            n.generation = generation;
            n.done = done;
        }
        PlanStep::Ready {
            bank,
            generation,
            next,
        } => {
            n.kind = 6;
            n.bank = bank;
            n.generation = generation;
            n.next = next;
        }
        PlanStep::Clearing { bank } => {
            n.kind = 9;
            n.bank = bank;
        }
        PlanStep::Filling { done } => {
            n.kind = 10;
            n.done = done;
        }
        PlanStep::Ended(PlanEnd::NoStore) => n.kind = 7,
        PlanStep::Ended(PlanEnd::Exhausted) => n.kind = 8,
        PlanStep::Ended(PlanEnd::Formatted) => n.kind = 11,
        PlanStep::Ended(PlanEnd::OtherSizes) => n.kind = 12,
        PlanStep::Ended(PlanEnd::Failed) => n.kind = 13,
    }
    n
}

fn best_of(n: &BestNumbers) -> Best
    ensures { result ≡ best_in n.now }
{
    match n.kind {
        0 => Best::NoLog,
        1 => Best::One(FoundLog {
            bank: n.bank,
            generation: n.generation,
            next: n.next,
            is_free: n.is_free != 0,
        }),
        _ => Best::Tie(n.generation),
    }
}

fn best_numbers(best: &Best) -> BestNumbers
    ensures { best_in result ≡ best.now }
{
    let mut n = BestNumbers {
        generation: 0,
        next: 0,
        kind: 0,
        bank: 0,
        is_free: 0,
        unused: 0,
    };
    match *best {
        Best::NoLog => {}
        Best::One(log) => {
            n.kind = 1;
            n.bank = log.bank;
            n.generation = log.generation;
            n.next = log.next;
            n.is_free = log.is_free as u8;
        }
        Best::Tie(generation) => {
            n.kind = 2;
            n.generation = generation;
        }
    }
    n
}

fn put_of(n: &PutNumbers) -> Option<WaitingPut>
    ensures { result ≡ waiting_in n.now }
{
    if n.waits == 0 {
        return None;
    }
    Some(WaitingPut {
        cell: n.cell,
        payload: n.bytes,
    })
}

fn put_numbers(put: &Option<WaitingPut>) -> PutNumbers
    ensures { waiting_in result ≡ put.now }
{
    match *put {
        Some(put) => {
            let bytes = put.payload;
            PutNumbers {
                bytes,
                cell: put.cell,
                waits: 1,
            }
        }
        None => PutNumbers {
            bytes: [0; 32],
            cell: 0,
            waits: 0,
        },
    }
}

/// The plan that these numbers are.
pub fn plan_of(n: &FlashNumbers) -> FlashPlan
    ensures { result ≡ plan_in n.now }
{
    FlashPlan {
        banks: n.banks,
        places: n.places,
        step: step_of(&n.step),
        best: best_of(&n.best),
        latest: n.latest,
        put: put_of(&n.put),
    }
}

/// The sizes of a part and its store, as these numbers say them.
pub fn sizes_of(n: &FlashNumbers) -> FlashSizes
    ensures { result ≡ sizes_in n.now }
{
    FlashSizes {
        unit: n.unit,
        banks: n.banks,
        bank_size: n.bank_size,
        cells: n.cells,
    }
}

/// What a head tells that is programmed.
pub(crate) fn head_sizes(n: &FlashNumbers) -> FlashSizes
    ensures { result ≡ head_sizes n.now }
{
    if n.is_untold == 0 {
        sizes_of(n)
    } else {
        UNTOLD
    }
}

/// A plan as numbers, for a part and a store of these sizes. The banks are those of the plan.
pub fn numbers_of(plan: &FlashPlan, sizes: &FlashSizes, is_untold: u8) -> FlashNumbers
    ensures plan { plan_in result ≡ plan.now }
    ensures unit { result.unit ≡ sizes.now.unit }
    ensures bank_size { result.bank_size ≡ sizes.now.bank_size }
    ensures cells { result.cells ≡ sizes.now.cells }
    ensures untold { result.is_untold ≡ is_untold }
{
    let latest = plan.latest;
    FlashNumbers {
        latest,
        step: step_numbers(&plan.step),
        best: best_numbers(&plan.best),
        put: put_numbers(&plan.put),
        places: plan.places,
        bank_size: sizes.bank_size,
        unit: sizes.unit,
        cells: sizes.cells,
        banks: plan.banks,
        is_untold,
        unused: [0; 6],
    }
}
