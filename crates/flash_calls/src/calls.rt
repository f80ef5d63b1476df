//! The calls: each takes the plan out of its numbers, and puts it back.
ghost use Rattle.std.specs.Prelude.{◌≡◌, ◌<◌, ◌/◌, ◌↔◌, length, true, MatchOption, MatchResult, OnErr};
ghost use Rattle.flash_lines.specs.Lines.{line_length};
ghost use Rattle.flash_plan.specs.Plans.{IsIdle};
ghost use Rattle.flash_calls.specs.Numbers.{plan_in, sizes_in};
ghost use Rattle.flash_calls.specs.Operations.{IsProgramUnit, IsCallOf, FitsPart};
ghost use Rattle.flash_calls.specs.Calls.{EndsIfOther, IsUntoldAfter};
ghost use Rattle.flash_calls.specs.Calls.{IsLineSize, Begun, FormatBegun, refusal_of, SaysNext, DidMoves, PutTaken};
ghost use Rattle.flash_calls.specs.Calls.{FlashNextRefused, FlashDidRefused, FlashPutRefused};
ghost use Rattle.flash_calls.specs.declared.calls.FlashRefusal.TheVariants.{BadValue};

use crate::numbers::{FlashNumbers, head_sizes, numbers_of, plan_of, sizes_of};
use crate::operations::{FlashOperation, is_other, is_untold, outcome_of, say_operation, told_by};
use flash_lines::{FlashSizes, UnitSize};
use flash_plan::{FlashPlan, PlanEnd, PlanPutFault, PlanStep};

/// Why a call does nothing, or that the plan has ended.
#[derive(Clone, Copy, Debug, PartialEq, Eq, Drop)]
pub enum FlashRefusal {
    /// The two lists of cells have other lengths.
    BadLength,
    /// The numbers are no plan of so many cells, or no part that a store fits.
    BadValue,
    /// No bank holds a store of so many cells, or the head of one tells other sizes.
    NoStore,
    /// The plan isn't idle.
    Busy,
    /// The store was copied as often as it can be.
    Exhausted,
    /// An operation failed.
    Failed,
}

/// How many bytes a line takes on a part of this unit.
fn size_of(unit: u16) -> Option<usize>
    ensures { MatchOption result (IsProgramUnit unit → ⊥) (IsLineSize unit) }
{
    let unit = UnitSize::of(unit)?;
    Some(unit.line_length())
}

/// How many bytes a line takes, if these numbers are a plan of so many cells.
fn call_size(flash: &FlashNumbers, cells: usize) -> Option<usize>
    ensures { MatchOption result (IsCallOf cells flash.now → ⊥)
        (λ size. IsLineSize flash.now.unit size × IsCallOf cells flash.now) }
{
    let size = size_of(flash.unit)?;
    if flash.cells as usize != cells {
        return None;
    }
    if flash.places as u64 * size as u64 >= 4_294_967_296 {
        return None;
    }
    if !plan_of(flash).is_plan(cells) {
        return None;
    }
    Some(size)
}

/// Whether these numbers are a plan of so many cells.
pub fn is_call(flash: &FlashNumbers, cells: usize) -> bool
    ensures { result ≡ true ↔ IsCallOf cells flash.now }
{
    call_size(flash, cells).is_some()
}

/// Whether nothing comes next and a put may be taken.
pub fn is_idle(flash: &FlashNumbers) -> bool
    ensures { result ≡ true ↔ IsIdle (plan_in flash.now) }
{
    plan_of(flash).is_idle()
}

/// How many places a bank has, if a flash of these sizes has room for a store of so many cells.
fn places_of(unit: u16, banks: u8, bank_size: u32, cells: usize) -> Option<u32>
    ensures { MatchOption result (FitsPart unit banks bank_size cells → ⊥) (λ places.
        FitsPart unit banks bank_size cells × (places ≡ bank_size / line_length unit)) }
{
    let size = size_of(unit)?;
    let places = bank_size / size as u32;
    if banks < 2 || banks > 16 || cells < 14 || cells > 270 || (places as usize) < cells + 2 {
        return None;
    }
    Some(places)
}

/// Begins at power-up, over so many banks of so many bytes.
pub fn begin(
    flash: &mut FlashNumbers,
    unit: u16,
    banks: u8,
    bank_size: u32,
    cells: usize,
) -> Result<(), FlashRefusal>
    ensures answer { MatchResult result (λ _. Begun unit banks bank_size cells flash.new)
        (λ refusal. (refusal ≡ BadValue) × (FitsPart unit banks bank_size cells → ⊥)) }
    ensures unchanged { OnErr result (flash.new ≡ flash.old) }
{
    let Some(places) = places_of(unit, banks, bank_size, cells) else {
        return Err(FlashRefusal::BadValue);
    };
    let sizes = FlashSizes {
        unit,
        banks,
        bank_size,
        cells: cells as u16,
    };
    *flash = numbers_of(&FlashPlan::start(banks, places), &sizes, 0);
    Ok(())
}

/// Begins to make a store of cells: all banks are erased.
pub fn take(
    flash: &mut FlashNumbers,
    unit: u16,
    banks: u8,
    bank_size: u32,
    cells: usize,
) -> Result<(), FlashRefusal>
    ensures answer { MatchResult result (λ _. FormatBegun unit banks bank_size cells flash.new)
        (λ refusal. (refusal ≡ BadValue) × (FitsPart unit banks bank_size cells → ⊥)) }
    ensures unchanged { OnErr result (flash.new ≡ flash.old) }
{
    let Some(places) = places_of(unit, banks, bank_size, cells) else {
        return Err(FlashRefusal::BadValue);
    };
    let sizes = FlashSizes {
        unit,
        banks,
        bank_size,
        cells: cells as u16,
    };
    *flash = numbers_of(&FlashPlan::format(banks, places), &sizes, 0);
    Ok(())
}

/// Why nothing comes next of a plan that has ended.
fn refusal_of(step: &PlanStep) -> Option<FlashRefusal>
    ensures { result ≡ refusal_of step.now }
{
    match *step {
        PlanStep::Ended(PlanEnd::NoStore) => Some(FlashRefusal::NoStore),
        PlanStep::Ended(PlanEnd::OtherSizes) => Some(FlashRefusal::NoStore),
        PlanStep::Ended(PlanEnd::Exhausted) => Some(FlashRefusal::Exhausted),
        PlanStep::Ended(PlanEnd::Failed) => Some(FlashRefusal::Failed),
        _ => None,
    }
}

/// Says which operation comes next.
pub fn next(
    flash: &FlashNumbers,
    cells: &[[u8; 32]],
    operation: &mut FlashOperation,
) -> Result<(), FlashRefusal>
    ensures answer { MatchResult result (λ _. SaysNext flash.now cells.now operation.new)
        (FlashNextRefused (length cells.now) flash.now) }
    ensures unchanged { OnErr result (operation.new ≡ operation.old) }
{
    let Some(size) = call_size(flash, cells.len()) else {
        return Err(FlashRefusal::BadValue);
    };
    let plan = plan_of(flash);
    if let Some(refusal) = refusal_of(&plan.step) {
        return Err(refusal);
    }
    let told = head_sizes(flash);
    *operation = say_operation(plan.next(cells), &told, size, plan.places);
    Ok(())
}

/// The numbers of a plan after an operation, with what a head told that was read. A head of other sizes ends the plan.
fn numbers_after(flash: &FlashNumbers, plan: &FlashPlan, told: Option<FlashSizes>) -> FlashNumbers
    ensures plan { EndsIfOther (sizes_in flash.now) told plan.now (plan_in result) }
    ensures unit { result.unit ≡ flash.now.unit }
    ensures bank_size { result.bank_size ≡ flash.now.bank_size }
    ensures cells { result.cells ≡ flash.now.cells }
    ensures untold { IsUntoldAfter flash.now.is_untold told result.is_untold }
{
    let sizes = sizes_of(flash);
    let Some(told) = told else {
        return numbers_of(plan, &sizes, flash.is_untold);
    };
    if is_other(&told, &sizes) {
        let mut ended = *plan;
        ended.step = PlanStep::Ended(PlanEnd::OtherSizes);
        return numbers_of(&ended, &sizes, flash.is_untold);
    }
    let untold = if is_untold(&told) { 1 } else { flash.is_untold };
    numbers_of(plan, &sizes, untold)
}

/// Takes the outcome of the operation that comes next.
pub fn did(
    flash: &mut FlashNumbers,
    cells: &mut [[u8; 32]],
    scratch: &mut [[u8; 32]],
    outcome: u32,
    bytes: &[u8; 128],
) -> Result<(), FlashRefusal>
    ensures answer { MatchResult result (λ _. DidMoves outcome bytes.now flash.old cells.old scratch.old flash.new
        cells.new scratch.new) (FlashDidRefused (length cells.old) (length scratch.old) flash.old) }
    ensures unchanged { OnErr result (flash.new ≡ flash.old) }
    ensures kept { OnErr result ((cells.new ≡ cells.old) × (scratch.new ≡ scratch.old)) }
{
    if scratch.len() != cells.len() {
        return Err(FlashRefusal::BadLength);
    }
    let Some(size) = call_size(flash, cells.len()) else {
        return Err(FlashRefusal::BadValue);
    };
    let mut plan = plan_of(flash);
    let Some(operation) = plan.next(cells) else {
        return Ok(());
    };
    plan.did(
        cells,
        scratch,
        outcome_of(&operation, outcome, &bytes[..size]),
    );
    let told = told_by(&operation, outcome, &bytes[..size]);
    *flash = numbers_after(flash, &plan, told);
    Ok(())
}

/// Takes a put of this cell.
pub fn put(
    flash: &mut FlashNumbers,
    cells: &[[u8; 32]],
    cell: u16,
    payload: &[u8; 32],
) -> Result<(), FlashRefusal>
    ensures answer { MatchResult result (λ _. PutTaken cell payload.now cells.now flash.old flash.new)
        (FlashPutRefused (length cells.now) cell flash.old) }
    ensures unchanged { OnErr result (flash.new ≡ flash.old) }
{
    let Some(_) = call_size(flash, cells.len()) else {
        return Err(FlashRefusal::BadValue);
    };
    if cell as usize >= cells.len() {
        return Err(FlashRefusal::BadValue);
    }
    let mut plan = plan_of(flash);
    match plan.put(cells, cell, payload) {
        Ok(()) => {
            *flash = numbers_of(&plan, &sizes_of(flash), flash.is_untold);
            Ok(())
        }
        Err(PlanPutFault::NotIdle) => Err(FlashRefusal::Busy),
        Err(PlanPutFault::Exhausted) => Err(FlashRefusal::Exhausted),
    }
}
