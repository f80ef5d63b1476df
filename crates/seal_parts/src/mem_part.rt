//! A part in memory.
ghost use Rattle.std.specs.Prelude.{◌≡◌, ◌≢◌, ◌⊎◌, ◌+◌, ◌*◌, ◌%◌, ◌^◌, ◌<◌, ◌≤◌, ℕ, length, get_or, false, true};
ghost use Rattle.std.specs.Prelude.{Some, None, not, is_ok, IfOk, OnOk, OnErr};
ghost use Rattle.basics.specs.FaultCount.{last_count};
ghost use Rattle.seal_parts.specs.Parts.{blank_unit, whole_unit, MayAnswer, MayBeLeft, is_miss, unit_after};
ghost use Rattle.seal_parts.specs.Memory.{unit_in, unit_number, unit_of};
ghost use Rattle.seal_parts.specs.declared.PartClass.TheVariants.{Blanks};
ghost use Rattle.seal_parts.specs.declared.UnitContent.TheVariants.{Mark};

use crate::{PartClass, PartFailed, SealPart, UnitAnswer, UnitContent, UnitKind};
use basics::count_fault;
use cut_disk::Arms;
use std::alloc::{AllocError, Global};

/// What a unit of a part in memory is.
#[derive(Clone, Copy, Debug, PartialEq, Eq, Drop)]
pub struct MemUnit {
    pub content: Option<UnitContent>,
    pub firm: bool,
    /// On a part of guards: the last read of a unit that isn't firm answered nothing.
    pub missed: bool,
}

const BLANK: MemUnit = MemUnit {
    content: None,
    firm: true,
    missed: false,
};

/// A part in memory. Its calls fail exactly if a stop or an arm says so. A program that fails leaves its content, not
/// firm.
#[derive(Drop)]
pub struct MemPart {
    /// The units of the first place of the first bank, then those of its second place, and so on.
    held: Vec<MemUnit>,
    /// Whether the last erase of a bank was done.
    erased: [bool; 16],
    class: PartClass,
    banks: u8,
    places: u16,
    arms: Arms,
    /// How many calls have failed, or the last value of a `u64`.
    faults: u64,
    /// A bit for each read and each erase that fails, the lowest first and then around: 1 for what the part may show,
    /// though it needn't, 0 for what it must.
    pattern: u64,
    ghost sized: { length held.items ≡ banks * (places * 5) },
    ghost two: { 2 ≤ banks },
    ghost few: { banks ≤ 16 },
    ghost counted: { faults ≤ last_count },
    ghost short: { places < 2 ^ 16 },
}

impl MemPart {
    ghost use Rattle.cut_disk.specs.Arming.{no_arms, with_stop, with_fail, after_cut};
    ghost use Rattle.seal_parts.specs.MemPart.{memory_part};

    /// A blank part of this class, none of whose calls fails until one is armed. It shows nothing that it needn't.
    pub fn new(
        alloc: Global,
        class: PartClass,
        banks: u8,
        places: u16,
    ) -> Result<MemPart, AllocError>
        requires two { 2 ≤ banks }
        requires few { banks ≤ 16 }
        ensures class { IfOk result (λ m. (memory_part m).class ≡ class) }
        ensures banks { IfOk result (λ m. (memory_part m).banks ≡ banks) }
        ensures places { IfOk result (λ m. (memory_part m).places ≡ places) }
        ensures arms { IfOk result (λ m. m.arms ≡ no_arms) }
        ensures pattern { IfOk result (λ m. m.pattern ≡ 0) }
        ensures blank { IfOk result (λ m. (bank k : ℕ) (kind : UnitKind)
            → (memory_part m).flash.unit bank k kind ≡ blank_unit) }
        ensures erased { IfOk result (λ m. (bank : ℕ) → bank < 16 → (memory_part m).flash.is_erased bank ≡ true) }
    {
        Ok(MemPart {
            held: vec![in alloc; BLANK; banks as usize * (places as usize * 5)]?,
            erased: [true; 16],
            class,
            banks,
            places,
            arms: Arms::none(),
            faults: 0,
            pattern: 0,
        })
    }

    /// Says what is shown that needn't be.
    pub fn show_by(&mut self, pattern: u64)
        ensures same { memory_part self.new ≡ memory_part self.old }
        ensures pattern { self.new.pattern ≡ pattern }
        ensures arms { self.new.arms ≡ self.old.arms }
    {
        self.pattern = pattern;
    }

    /// From the call of this number on, counted from now, each call fails until the power comes back.
    pub fn stop_at(&mut self, calls: u64)
        ensures same { memory_part self.new ≡ memory_part self.old }
        ensures arms { self.new.arms ≡ with_stop calls self.old.arms }
    {
        self.arms.stop_at(calls);
    }

    /// The call of this number, counted from now, fails.
    pub fn fail_at(&mut self, calls: u64)
        ensures same { memory_part self.new ≡ memory_part self.old }
        ensures arms { self.new.arms ≡ with_fail calls self.old.arms }
    {
        self.arms.fail_at(calls);
    }

    /// The power comes back: a stop is over.
    pub fn power_up(&mut self)
        ensures same { memory_part self.new ≡ memory_part self.old }
        ensures arms { self.new.arms ≡ after_cut self.old.arms }
    {
        self.arms.cut();
    }
}

impl SealPart for MemPart {
    ghost use Rattle.basics.specs.FaultCount.{Rose};
    ghost use Rattle.cut_disk.specs.Arming.{fails, after_call};
    ghost use Rattle.seal_parts.specs.Parts.{MayProgram, FitsUnit, ErasesBank, CutsBankErase, ProgramsUnit};
    ghost use Rattle.seal_parts.specs.Parts.{CutsProgramming};
    ghost use Rattle.seal_parts.specs.Parts.{ReadsUnit, SamePart};
    ghost use Rattle.seal_parts.specs.State.{PartRuns};
    ghost use Rattle.seal_parts.specs.MemPart.{memory_part};
    ghost use Rattle.seal_parts.specs.MemoryLaws.{memory_is_a_part};

    ghost state = { λ part. memory_part part };

    fn class(&self) -> PartClass {
        self.class
    }

    fn banks(&self) -> u8 {
        self.banks
    }

    fn places(&self) -> u32 {
        self.places as u32
    }

    fn erase(&mut self, bank: u8) -> Result<(), PartFailed>
        requires inside { bank < self.old.banks }
        ensures runs { PartRuns (memory_part self.old) (memory_part self.new) }
        ensures count { OnOk result (self.new.faults ≡ self.old.faults) }
        ensures failed { OnErr result (Rose self.old.faults self.new.faults) }
        ensures exactly { is_ok result ≡ not (fails self.old.arms) }
        ensures arms { self.new.arms ≡ after_call self.old.arms }
        ensures done { OnOk result (ErasesBank bank (memory_part self.old).flash (memory_part self.new).flash) }
        ensures cut { OnErr result (CutsBankErase bank (memory_part self.old).flash (memory_part self.new).flash) }
    {
        let units = self.places as usize * 5;
        let start = start_of(bank, self.banks, units);
        if self.arms.count() {
            let shows = next_bit(&mut self.pattern);
            loosen_range(&mut self.held, start, units, shows);
            self.erased[bank as usize] = false;
            count_fault(&mut self.faults);
            return Err(PartFailed);
        }
        blank_range(&mut self.held, start, start + units);
        self.erased[bank as usize] = true;
        Ok(())
    }

    fn program(
        &mut self,
        bank: u8,
        place: u32,
        unit: UnitKind,
        content: &UnitContent,
    ) -> Result<(), PartFailed>
        requires bank_inside { bank < self.old.banks }
        requires place_inside { place < self.old.places }
        requires may { MayProgram self.old.class unit (memory_part self.old).flash bank place }
        requires fits { FitsUnit unit content.now }
        ensures runs { PartRuns (memory_part self.old) (memory_part self.new) }
        ensures count { OnOk result (self.new.faults ≡ self.old.faults) }
        ensures failed { OnErr result (Rose self.old.faults self.new.faults) }
        ensures exactly { is_ok result ≡ not (fails self.old.arms) }
        ensures arms { self.new.arms ≡ after_call self.old.arms }
        ensures done { OnOk result (ProgramsUnit self.old.class bank place unit content.now
            (memory_part self.old).flash (memory_part self.new).flash) }
        ensures cut { OnErr result (CutsProgramming self.old.class bank place unit content.now
            (memory_part self.old).flash (memory_part self.new).flash) }
        ensures left { OnErr result ((memory_part self.new).flash.unit bank place unit
            ≡ record { content = Some content.now; firm = false; missed = false }) }
    {
        let units = self.places as usize * 5;
        let at = start_of(bank, self.banks, units) + (place as usize * 5 + number_of(unit));
        let is_cut = self.arms.count();
        self.held[at] = MemUnit {
            content: Some(*content),
            firm: !is_cut,
            missed: false,
        };
        if is_cut {
            count_fault(&mut self.faults);
            return Err(PartFailed);
        }
        Ok(())
    }

    fn read(&mut self, bank: u8, place: u32, unit: UnitKind) -> Result<UnitAnswer, PartFailed>
        requires bank_inside { bank < self.old.banks }
        requires place_inside { place < self.old.places }
        ensures runs { PartRuns (memory_part self.old) (memory_part self.new) }
        ensures count { OnOk result (self.new.faults ≡ self.old.faults) }
        ensures failed { OnErr result (Rose self.old.faults self.new.faults) }
        ensures exactly { is_ok result ≡ not (fails self.old.arms) }
        ensures arms { self.new.arms ≡ after_call self.old.arms }
        ensures reads { IfOk result (λ answer. ReadsUnit self.old.class bank place unit answer
            (memory_part self.old).flash (memory_part self.new).flash) }
        ensures same { OnErr result (SamePart (memory_part self.old).flash (memory_part self.new).flash) }
    {
        let units = self.places as usize * 5;
        let at = start_of(bank, self.banks, units) + (place as usize * 5 + number_of(unit));
        if self.arms.count() {
            count_fault(&mut self.faults);
            return Err(PartFailed);
        }
        let shows = next_bit(&mut self.pattern);
        let is_erased = self.erased[bank as usize];
        Ok(see(&mut self.held, at, self.class, is_erased, shows))
    }

    ghost is_part = { λ part. memory_is_a_part part.class part.banks part.places part.faults part.erased
        part.held.items part.two part.few part.counted part.short part.sized };
}

/// The lowest bit, which goes to the other end.
fn next_bit(pattern: &mut u64) -> bool {
    let is_set = *pattern % 2 == 1;
    *pattern = pattern.rotate_right(1);
    is_set
}

/// The place of a unit among those of its place.
fn number_of(unit: UnitKind) -> usize
    ensures is { result ≡ unit_number unit }
    ensures below { result < 5 }
{
    match unit {
        UnitKind::Guard => 0,
        UnitKind::SecondGuard => 1,
        UnitKind::Line => 2,
        UnitKind::Confirm => 3,
        UnitKind::SecondConfirm => 4,
    }
}

/// The index of the first unit of a bank of so many units.
fn start_of(bank: u8, banks: u8, units: usize) -> usize
    requires inside { bank < banks }
    requires few { units ≤ 327675 }
    ensures start { result ≡ bank * units }
    ensures fits { result + units ≤ banks * units }
{
    bank as usize * units
}

/// Makes each unit of the range blank.
fn blank_range(held: &mut Vec<MemUnit>, start: usize, end: usize)
    requires in_order { start ≤ end }
    requires inside { end ≤ length held.old.items }
    ensures same { length held.new.items ≡ length held.old.items }
    ensures blank { (k : ℕ) → start ≤ k → k < end → unit_in held.new.items k ≡ blank_unit }
    ensures rest { (k : ℕ) → (k < start) ⊎ (end ≤ k) → unit_in held.new.items k ≡ unit_in held.old.items k }
{
    for i in start..end {
        held[i] = BLANK;
    }
}

/// What an erase that was cut leaves of the unit of this number: its content, or a mark if one fits.
fn left_of(i: usize, content: Option<UnitContent>, shows: bool) -> Option<UnitContent>
    ensures { (result ≡ content) ⊎ ((i % 5 ≢ 2) × (result ≡ Some Mark)) }
{
    if shows && i % 5 != 2 {
        return Some(UnitContent::Mark);
    }
    content
}

/// Leaves each of so many units from one on not firm, with its content or a mark.
fn loosen_range(held: &mut Vec<MemUnit>, start: usize, units: usize, shows: bool)
    requires inside { start + units ≤ length held.old.items }
    ensures same { length held.new.items ≡ length held.old.items }
    ensures contents { (k : ℕ) (kind : UnitKind) → k * 5 + unit_number kind < units → MayBeLeft kind
        (unit_in held.old.items (start + (k * 5 + unit_number kind))).content
        (unit_in held.new.items (start + (k * 5 + unit_number kind))).content }
    ensures rest { (k : ℕ) → (k < start) ⊎ (start + units ≤ k) → unit_in held.new.items k ≡ unit_in held.old.items k }
{
    for i in 0..units {
        let content = left_of(i, held[start + i].content, shows);
        held[start + i] = MemUnit {
            content,
            firm: false,
            missed: false,
        };
    }
}

/// Whether a unit without content is blank.
fn is_blank(unit: &MemUnit) -> bool
    ensures is { result ≡ true → unit.now.content ≡ None → unit_of unit.now ≡ blank_unit }
    ensures isnt { result ≡ false → unit_of unit.now ≢ blank_unit }
{
    unit.firm && !unit.missed
}

/// Whether a unit without content is told as blank: if its bank's erase was done, exactly if it is; else as it comes.
fn is_told_blank(class: PartClass, is_erased: bool, blank: bool, shows: bool) -> bool
    ensures class { result ≡ true → class ≡ Blanks }
    ensures blank { result ≡ true → is_erased ≡ true → blank ≡ true }
    ensures all { class ≡ Blanks → is_erased ≡ true → blank ≡ true → result ≡ true }
{
    match class {
        PartClass::Blanks => {
            if is_erased {
                return blank;
            }
            shows
        }
        PartClass::Guards => false,
        PartClass::Settled => false,
    }
}

/// As what a unit is read: as its content if it is firm, or if a bit shows it.
fn answer_of(unit: &MemUnit, class: PartClass, is_erased: bool, shows: bool) -> UnitAnswer
    ensures { MayAnswer class is_erased (unit_of unit.now) result }
{
    match unit.content {
        Some(content) => {
            if unit.firm || shows {
                return UnitAnswer::Whole(content);
            }
            UnitAnswer::Nothing
        }
        None => {
            if is_told_blank(class, is_erased, is_blank(unit), shows) {
                return UnitAnswer::Blank;
            }
            UnitAnswer::Nothing
        }
    }
}

/// Whether nothing was answered.
fn is_nothing(answer: &UnitAnswer) -> bool
    ensures { result ≡ is_miss answer.now }
{
    match answer {
        UnitAnswer::Whole(_) => false,
        UnitAnswer::Blank => false,
        UnitAnswer::Nothing => true,
    }
}

/// A unit whose content was read, on a part of settled reads.
fn settled(content: UnitContent) -> MemUnit
    ensures { unit_of result ≡ whole_unit content }
{
    MemUnit {
        content: Some(content),
        firm: true,
        missed: false,
    }
}

/// What a read leaves of a unit.
fn left_by(unit: MemUnit, class: PartClass, answer: &UnitAnswer) -> MemUnit
    ensures { unit_of result ≡ unit_after class answer.now (unit_of unit) }
{
    match class {
        PartClass::Guards => {
            if unit.firm {
                return unit;
            }
            MemUnit {
                content: unit.content,
                firm: false,
                missed: is_nothing(answer),
            }
        }
        PartClass::Blanks => unit,
        PartClass::Settled => match answer {
            UnitAnswer::Whole(content) => settled(*content),
            UnitAnswer::Blank => unit,
            UnitAnswer::Nothing => unit,
        },
    }
}

/// Reads the unit at this index.
fn see(
    held: &mut Vec<MemUnit>,
    at: usize,
    class: PartClass,
    is_erased: bool,
    shows: bool,
) -> UnitAnswer
    requires { at < length held.old.items }
    ensures same { length held.new.items ≡ length held.old.items }
    ensures rest { (k : ℕ) → k ≢ at → unit_in held.new.items k ≡ unit_in held.old.items k }
    ensures may { MayAnswer class is_erased (unit_in held.old.items at) result }
    ensures now { unit_in held.new.items at ≡ unit_after class result (unit_in held.old.items at) }
{
    let was = held[at];
    let answer = answer_of(&was, class, is_erased, shows);
    held[at] = left_by(was, class, &answer);
    answer
}
