//! A flash in memory.
ghost use Rattle.std.specs.Prelude.{◌≡◌, ◌≢◌, ◌⊎◌, ◌+◌, ◌*◌, ◌^◌, ◌<◌, ◌≤◌, ℕ, length, true, Some, None, not, is_ok, IfOk, OnOk, OnErr};
ghost use Rattle.basics.specs.FaultCount.{last_count};
ghost use Rattle.flash_places.specs.Places.{blank_place, Looks, line_in};
ghost use Rattle.flash_places.specs.declared.Answer.TheVariants.{Blank};
ghost use Rattle.flash_places.specs.Memory.{flash_place_in};

use crate::{Answer, FlashDevice, FlashFailed, FlashLine};
use basics::count_fault;
use cut_disk::Arms;
use std::alloc::{AllocError, Global};

/// What a place of a flash in memory is.
#[derive(Clone, Copy, Debug, PartialEq, Eq, Drop)]
pub struct MemPlace {
    pub content: Option<FlashLine>,
    pub firm: bool,
}

const BLANK: MemPlace = MemPlace {
    content: None,
    firm: true,
};

/// A flash in memory. Its calls fail exactly if a stop or an arm says so. An erase that fails leaves every place of its
/// bank with its content, not firm. A program that fails leaves the line, not firm.
#[derive(Drop)]
pub struct MemFlash {
    /// The places of the first bank, then those of the second, and so on.
    held: Vec<MemPlace>,
    banks: u8,
    places: u16,
    arms: Arms,
    /// How many calls have failed, or the last value of a `u64`.
    faults: u64,
    /// What the places that aren't firm are read as, a bit for each read, the lowest first and then around: 1 for
    /// their content, 0 for nothing.
    pattern: u64,
    /// Whether a blank place is read as `Blank`.
    tells_blank: bool,
    ghost sized: { length held.items ≡ banks * places },
    ghost two: { 2 ≤ banks },
    ghost few: { banks ≤ 16 },
    ghost counted: { faults ≤ last_count },
    ghost short: { places < 2 ^ 16 },
}

impl MemFlash {
    ghost use Rattle.cut_disk.specs.Arming.{no_arms, with_stop, with_fail, after_cut};
    ghost use Rattle.flash_places.specs.State.{FlashState};
    ghost use Rattle.flash_places.specs.Memory.{flash_of};
    ghost use Rattle.flash_places.specs.MemFlash.{memory_state, telling_blank};

    /// A blank flash, none of whose calls fails until one is armed. Its places that aren't firm are read as nothing,
    /// and the blank ones as `Nothing`.
    pub fn new(alloc: Global, banks: u8, places: u16) -> Result<MemFlash, AllocError>
        requires two { 2 ≤ banks }
        requires few { banks ≤ 16 }
        ensures banks { IfOk result (λ m. (memory_state m).banks ≡ banks) }
        ensures places { IfOk result (λ m. (memory_state m).places ≡ places) }
        ensures arms { IfOk result (λ m. m.arms ≡ no_arms) }
        ensures blank { IfOk result (λ m. (bank k : ℕ) → (memory_state m).flash bank k ≡ blank_place) }
    {
        Ok(MemFlash {
            held: vec![in alloc; BLANK; banks as usize * places as usize]?,
            banks,
            places,
            arms: Arms::none(),
            faults: 0,
            pattern: 0,
            tells_blank: false,
        })
    }

    /// Says what places that aren't firm are read as, and whether reads answer `Blank`.
    pub fn answer_by(&mut self, pattern: u64, tells_blank: bool)
        ensures same { memory_state self.new ≡ telling_blank tells_blank (memory_state self.old) }
        ensures pattern { self.new.pattern ≡ pattern }
        ensures blank { self.new.tells_blank ≡ tells_blank }
        ensures arms { self.new.arms ≡ self.old.arms }
    {
        self.pattern = pattern;
        self.tells_blank = tells_blank;
    }

    /// From the call of this number on, counted from now, each call fails until the power comes back.
    pub fn stop_at(&mut self, calls: u64)
        ensures same { memory_state self.new ≡ memory_state self.old }
        ensures arms { self.new.arms ≡ with_stop calls self.old.arms }
    {
        self.arms.stop_at(calls);
    }

    /// The call of this number, counted from now, fails.
    pub fn fail_at(&mut self, calls: u64)
        ensures same { memory_state self.new ≡ memory_state self.old }
        ensures arms { self.new.arms ≡ with_fail calls self.old.arms }
    {
        self.arms.fail_at(calls);
    }

    /// The power comes back: a stop is over.
    pub fn power_up(&mut self)
        ensures same { memory_state self.new ≡ memory_state self.old }
        ensures arms { self.new.arms ≡ after_cut self.old.arms }
    {
        self.arms.cut();
    }
}

impl FlashDevice for MemFlash {
    ghost use Rattle.basics.specs.FaultCount.{Rose};
    ghost use Rattle.cut_disk.specs.Arming.{fails, after_call};
    ghost use Rattle.flash_places.specs.Places.{Flash, SameFlash, Erases, CutsErase, Programs, CutsProgram, LooksAt};
    ghost use Rattle.flash_places.specs.State.{FlashRuns};
    ghost use Rattle.flash_places.specs.MemFlash.{memory_state};
    ghost use Rattle.flash_places.specs.MemoryLaws.{memory_is_a_flash};

    ghost state = { λ device. memory_state device };

    fn banks(&self) -> u8 {
        self.banks
    }

    fn places(&self) -> u32 {
        self.places as u32
    }

    fn erase(&mut self, bank: u8) -> Result<(), FlashFailed>
        requires inside { bank < self.old.banks }
        ensures runs { FlashRuns (memory_state self.old) (memory_state self.new) }
        ensures count { OnOk result (self.new.faults ≡ self.old.faults) }
        ensures failed { OnErr result (Rose self.old.faults self.new.faults) }
        ensures exactly { is_ok result ≡ not (fails self.old.arms) }
        ensures arms { self.new.arms ≡ after_call self.old.arms }
        ensures done { OnOk result (Erases bank (memory_state self.old).flash (memory_state self.new).flash) }
        ensures cut { OnErr result (CutsErase bank (memory_state self.old).flash (memory_state self.new).flash) }
    {
        let start = start_of(bank, self.banks, self.places);
        let end = start + self.places as usize;
        if self.arms.count() {
            loosen_range(&mut self.held, start, end);
            count_fault(&mut self.faults);
            return Err(FlashFailed);
        }
        blank_range(&mut self.held, start, end);
        Ok(())
    }

    fn program(&mut self, bank: u8, place: u32, line: &FlashLine) -> Result<(), FlashFailed>
        requires bank_inside { bank < self.old.banks }
        requires place_inside { place < self.old.places }
        requires blank { (memory_state self.old).flash bank place ≡ blank_place }
        ensures runs { FlashRuns (memory_state self.old) (memory_state self.new) }
        ensures count { OnOk result (self.new.faults ≡ self.old.faults) }
        ensures failed { OnErr result (Rose self.old.faults self.new.faults) }
        ensures exactly { is_ok result ≡ not (fails self.old.arms) }
        ensures arms { self.new.arms ≡ after_call self.old.arms }
        ensures done { OnOk result
            (Programs bank place line.now (memory_state self.old).flash (memory_state self.new).flash) }
        ensures cut { OnErr result
            (CutsProgram bank place line.now (memory_state self.old).flash (memory_state self.new).flash) }
    {
        let at = start_of(bank, self.banks, self.places) + place as usize;
        if self.arms.count() {
            self.held[at] = MemPlace {
                content: Some(*line),
                firm: false,
            };
            count_fault(&mut self.faults);
            return Err(FlashFailed);
        }
        self.held[at] = MemPlace {
            content: Some(*line),
            firm: true,
        };
        Ok(())
    }

    fn look(&mut self, bank: u8, place: u32) -> Result<Answer, FlashFailed>
        requires bank_inside { bank < self.old.banks }
        requires place_inside { place < self.old.places }
        ensures runs { FlashRuns (memory_state self.old) (memory_state self.new) }
        ensures count { OnOk result (self.new.faults ≡ self.old.faults) }
        ensures failed { OnErr result (Rose self.old.faults self.new.faults) }
        ensures exactly { is_ok result ≡ not (fails self.old.arms) }
        ensures arms { self.new.arms ≡ after_call self.old.arms }
        ensures looks { IfOk result (λ answer.
            LooksAt bank place answer (memory_state self.old).flash (memory_state self.new).flash) }
        ensures told { IfOk result (λ answer. self.old.tells_blank ≡ true
            → (memory_state self.old).flash bank place ≡ blank_place → answer ≡ Blank) }
        ensures same { OnErr result (SameFlash (memory_state self.old).flash (memory_state self.new).flash) }
    {
        let at = start_of(bank, self.banks, self.places) + place as usize;
        if self.arms.count() {
            count_fault(&mut self.faults);
            return Err(FlashFailed);
        }
        let is_seen = self.pattern % 2 == 1;
        self.pattern = self.pattern.rotate_right(1);
        Ok(see(&mut self.held, at, is_seen, self.tells_blank))
    }

    ghost is_flash = { λ device. memory_is_a_flash device.banks device.places device.faults device.tells_blank
        device.held.items device.two device.few device.counted device.short };
}

/// The index of the first place of a bank.
fn start_of(bank: u8, banks: u8, places: u16) -> usize
    requires { bank < banks }
    ensures start { result ≡ bank * places }
    ensures fits { result + places ≤ banks * places }
{
    bank as usize * places as usize
}

/// Makes each place of the range blank.
fn blank_range(held: &mut Vec<MemPlace>, start: usize, end: usize)
    requires in_order { start ≤ end }
    requires inside { end ≤ length held.old.items }
    ensures same { length held.new.items ≡ length held.old.items }
    ensures blank { (k : ℕ) → start ≤ k → k < end → flash_place_in held.new.items k ≡ blank_place }
    ensures rest { (k : ℕ) → (k < start) ⊎ (end ≤ k) → flash_place_in held.new.items k ≡ flash_place_in held.old.items k }
{
    for i in start..end {
        held[i] = BLANK;
    }
}

/// Leaves each place of the range with its content, not firm.
fn loosen_range(held: &mut Vec<MemPlace>, start: usize, end: usize)
    requires in_order { start ≤ end }
    requires inside { end ≤ length held.old.items }
    ensures same { length held.new.items ≡ length held.old.items }
    ensures contents { (k : ℕ) → (flash_place_in held.new.items k).content ≡ (flash_place_in held.old.items k).content }
    ensures rest { (k : ℕ) → (k < start) ⊎ (end ≤ k) → flash_place_in held.new.items k ≡ flash_place_in held.old.items k }
{
    for i in start..end {
        let content = held[i].content;
        held[i] = MemPlace {
            content,
            firm: false,
        };
    }
}

/// Reads the place at this index. One that isn't firm is read as its content if it is to be seen.
fn see(held: &mut Vec<MemPlace>, at: usize, is_seen: bool, tells_blank: bool) -> Answer
    requires { at < length held.old.items }
    ensures same { length held.new.items ≡ length held.old.items }
    ensures rest { (k : ℕ) → k ≢ at → flash_place_in held.new.items k ≡ flash_place_in held.old.items k }
    ensures looks { Looks (flash_place_in held.old.items at) (line_in result) (flash_place_in held.new.items at) }
    ensures is_blank { result ≡ Blank → flash_place_in held.old.items at ≡ blank_place }
    ensures told { tells_blank ≡ true → flash_place_in held.old.items at ≡ blank_place → result ≡ Blank }
{
    let was = held[at];
    match was.content {
        Some(line) => {
            if was.firm {
                return Answer::Whole(line);
            }
            if !is_seen {
                return Answer::Nothing;
            }
            held[at] = MemPlace {
                content: Some(line),
                firm: true,
            };
            Answer::Whole(line)
        }
        None => {
            if was.firm && tells_blank {
                return Answer::Blank;
            }
            Answer::Nothing
        }
    }
}
