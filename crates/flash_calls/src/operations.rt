//! Operations with the bytes of their lines.
ghost use Rattle.std.specs.Prelude.{◌≡◌, ◌≢◌, ◌-◌, ◌≤◌, ◌<◌, ◌*◌, ◌^◌, ◌↔◌, ℕ, length, true, IfSome, MatchOption};
ghost use Rattle.std.specs.Prelude.{drop, replicate};
ghost use Rattle.flash_lines.specs.declared.sizes.FlashSizes.{FlashSizes};
ghost use Rattle.flash_places.specs.Places.{Flash};
ghost use Rattle.flash_plan.specs.declared.operations.Operation.TheVariants.{Read};
ghost use Rattle.flash_places.specs.declared.Answer.TheVariants.{Blank};
ghost use Rattle.flash_plan.specs.declared.operations.FlashOutcome.TheVariants.{Answered, Failed};
ghost use Rattle.flash_plan.specs.Performing.{DoesOperation};
ghost use Rattle.flash_plan.specs.Plans.{Fails, ReadsNoHead};
ghost use Rattle.flash_lines.specs.Lines.{TellsSizes};
ghost use Rattle.flash_calls.specs.Operations.{SaysOperation, IsPlaceBelow, GaveRead, DoesBytes, Comes, ReadsHead};
ghost use Rattle.flash_lines.specs.Lines.{untold};
ghost use Rattle.flash_calls.specs.Operations.{IsOtherSize};

use crate::numbers::UNTOLD;
use flash_lines::{FlashSizes, line_bytes, read_line, told_sizes};
use flash_places::Answer;
use flash_plan::{FlashOutcome, Operation};

/// An operation: on this bank, from this byte of it on, so many bytes.
#[derive(Clone, Copy)]
#[repr(C)]
pub struct FlashOperation {
    /// 0 none, 1 a read, 2 an erase of the bank, 3 a program.
    pub kind: u32,
    pub bank: u32,
    pub offset: u32,
    pub length: u32,
    /// The bytes of the line that is programmed, or that was read.
    pub bytes: [u8; 128],
}

/// Says an operation on lines of so many bytes. A head tells these sizes.
pub(crate) fn say_operation(
    operation: Option<Operation>,
    told: &FlashSizes,
    size: usize,
    places: u32,
) -> FlashOperation
    requires least { 44 ≤ size }
    requires most { size ≤ 128 }
    requires small { places * size < 2 ^ 32 }
    requires inside { IfSome operation (IsPlaceBelow places) }
    ensures says { SaysOperation size told.now operation result }
    ensures quiet { result.kind ≢ 3 → result.bytes ≡ replicate 128 0 }
    ensures rest { drop size result.bytes ≡ replicate (128 - size) 0 }
    ensures idle { result.kind ≡ 0 → (result.bank ≡ 0) × ((result.offset ≡ 0) × (result.length ≡ 0)) }
{
    let mut bytes = [0; 128];
    let length = size as u32;
    match operation {
        None => FlashOperation {
            kind: 0,
            bank: 0,
            offset: 0,
            length: 0,
            bytes,
        },
        Some(Operation::Read(bank, place)) => FlashOperation {
            kind: 1,
            bank: bank as u32,
            offset: place * length,
            length,
            bytes,
        },
        Some(Operation::Erase(bank)) => FlashOperation {
            kind: 2,
            bank: bank as u32,
            offset: 0,
            length: 0,
            bytes,
        },
        Some(Operation::Program(bank, place, line)) => {
            line_bytes(told, &line, &mut bytes[..size]);
            FlashOperation {
                kind: 3,
                bank: bank as u32,
                offset: place * length,
                length,
                bytes,
            }
        }
    }
}

/// What a read has answered.
fn answer_of(outcome: u32, bytes: &[u8]) -> FlashOutcome
    requires least { 44 ≤ length bytes.now }
    requires most { length bytes.now ≤ 128 }
    ensures does { (bank place : ℕ) (f g : Flash) → GaveRead bank place outcome bytes.now f g
        → DoesOperation (Read bank place) result f g }
    ensures fails { 2 < outcome → result ≡ Failed }
    ensures blank { outcome ≡ 1 → result ≡ Answered Blank }
    ensures well { (bank place : ℕ) → outcome ≤ 2 → Fails (Read bank place) result → ⊥ }
    ensures no_head { ((told : FlashSizes) → outcome ≡ 0 → TellsSizes bytes.now told → ⊥) → ReadsNoHead result }
{
    match outcome {
        0 => match read_line(bytes) {
            Some(line) => FlashOutcome::Answered(Answer::Whole(line)),
            None => FlashOutcome::Answered(Answer::Nothing),
        },
        1 => FlashOutcome::Answered(Answer::Blank),
        2 => FlashOutcome::Answered(Answer::Nothing),
        _ => FlashOutcome::Failed,
    }
}

/// What came of an operation, by the number and the bytes that the caller reports.
pub(crate) fn outcome_of(operation: &Operation, outcome: u32, bytes: &[u8]) -> FlashOutcome
    requires least { 44 ≤ length bytes.now }
    requires most { length bytes.now ≤ 128 }
    ensures does { (f g : Flash) → DoesBytes operation.now outcome bytes.now f g
        → DoesOperation operation.now result f g }
    ensures comes { Comes operation.now outcome result }
    ensures no_head { (bank : ℕ) → operation.now ≡ Read bank 0
        → ((told : FlashSizes) → ReadsHead operation.now outcome bytes.now told → ⊥) → ReadsNoHead result }
{
    match operation {
        Operation::Read(_, _) => answer_of(outcome, bytes),
        Operation::Erase(_) | Operation::Program(_, _, _) => {
            if outcome == 0 {
                FlashOutcome::Done
            } else {
                FlashOutcome::Failed
            }
        }
    }
}

/// What the head of a bank tells, if it was read.
pub(crate) fn told_by(operation: &Operation, outcome: u32, bytes: &[u8]) -> Option<FlashSizes>
    requires least { 44 ≤ length bytes.now }
    requires most { length bytes.now ≤ 128 }
    ensures { MatchOption result ((told : FlashSizes) → ReadsHead operation.now outcome bytes.now told → ⊥)
        (ReadsHead operation.now outcome bytes.now) }
{
    match operation {
        Operation::Read(_, place) => {
            if *place != 0 || outcome != 0 {
                return None;
            }
            told_sizes(bytes)
        }
        Operation::Erase(_) | Operation::Program(_, _, _) => None,
    }
}

/// Whether two sizes are the same.
fn are_same(a: &FlashSizes, b: &FlashSizes) -> bool
    ensures { result ≡ true ↔ a.now ≡ b.now }
{
    a.unit == b.unit && a.banks == b.banks && a.bank_size == b.bank_size && a.cells == b.cells
}

/// Whether sizes say nothing.
pub(crate) fn is_untold(told: &FlashSizes) -> bool
    ensures { result ≡ true ↔ told.now ≡ untold }
{
    are_same(told, &UNTOLD)
}

/// Whether a head tells the sizes of another store.
pub(crate) fn is_other(told: &FlashSizes, own: &FlashSizes) -> bool
    ensures { result ≡ true ↔ IsOtherSize own.now told.now }
{
    !is_untold(told) && !are_same(told, own)
}
