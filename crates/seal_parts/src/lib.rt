//! NOR flash whose reads need not settle, by what a part or its driver promises.
//!
//! A [`SealPart`] has 2 to 16 banks of equally many places. A place has five **units**: two guards, a line and two
//! confirms. A guard and a confirm are **marks**: always the same bytes. A unit is read as its content, or as nothing.
//! If its program or its bank's erase was cut, each read may answer anew, for ever. What a part promises beside is its
//! [`PartClass`]. It says what may be programmed (`MayProgram`), what a read may answer (`MayAnswer`) and what a read
//! leaves (`unit_after`), and nothing else.
//!
//! What no store on such a part can do stands in [`laws`]. [`MemPart`] is a part in memory that plays each class.
#![tactic(auto)]

ghost use Rattle.std.specs.Prelude.{◌≡◌, ◌<◌, IfOk, OnOk, OnErr};
ghost use Rattle.basics.specs.FaultCount.{Rose};
ghost use Rattle.seal_parts.specs.Parts.{MayProgram, FitsUnit, ErasesBank, CutsBankErase, ProgramsUnit};
ghost use Rattle.seal_parts.specs.Parts.{CutsProgramming};
ghost use Rattle.seal_parts.specs.Parts.{ReadsUnit, SamePart};
ghost use Rattle.seal_parts.specs.State.{PartState, PartRuns, IsPart};

pub mod laws;
mod mem_part;

pub use mem_part::{MemPart, MemUnit};

/// An erase, a program or a read failed, or the power went within it.
#[derive(Clone, Copy, Debug, PartialEq, Eq, Drop)]
pub struct PartFailed;

/// What a part or its driver promises, beside what all promise.
#[derive(Clone, Copy, Debug, PartialEq, Eq, Drop)]
pub enum PartClass {
    /// A guard whose program was cut may be programmed again, if its last read answered nothing. If that is done, it is
    /// firm.
    Guards,
    /// `Blank` is answered of each blank unit of a bank whose erase was done, and of no other unit of such a bank.
    Blanks,
    /// A content that a start has read is read ever after.
    Settled,
}

/// The units of a place, in the order in which they are programmed.
#[derive(Clone, Copy, Debug, PartialEq, Eq, Drop)]
pub enum UnitKind {
    Guard,
    SecondGuard,
    Line,
    Confirm,
    SecondConfirm,
}

/// What a deed does.
#[derive(Clone, Copy, Debug, PartialEq, Eq, Drop)]
pub enum DeedBody {
    /// The bank counts.
    Opens,
    /// The cell of this number has these bytes from now on.
    Puts(u16, [u8; 32]),
    /// The store goes on in this bank, under this generation.
    Moves(u8, u64),
    /// There is no store yet.
    IsNew,
}

/// A deed of the log of a bank.
#[derive(Clone, Copy, Debug, PartialEq, Eq, Drop)]
pub struct LogDeed {
    /// The place of the deed that this one follows, or none: it follows the copy.
    pub prev: Option<u32>,
    pub body: DeedBody,
}

/// What a line says: a cell of the copy, or a deed.
#[derive(Clone, Copy, Debug, PartialEq, Eq, Drop)]
pub enum LineBody {
    Copies(u16, [u8; 32]),
    Does(LogDeed),
}

/// A line carries the generation of its bank.
#[derive(Clone, Copy, Debug, PartialEq, Eq, Drop)]
pub struct SealLine {
    pub generation: u64,
    pub body: LineBody,
}

/// What a unit holds.
#[derive(Clone, Copy, Debug, PartialEq, Eq, Drop)]
pub enum UnitContent {
    Mark,
    Holds(SealLine),
}

/// What a read of a unit answers.
#[derive(Clone, Copy, Debug, PartialEq, Eq, Drop)]
pub enum UnitAnswer {
    /// This content, whole.
    Whole(UnitContent),
    /// The unit is blank. Only a part of blanks answers so.
    Blank,
    Nothing,
}

/// A part of 2 to 16 banks of equally many places, both numbered from 0.
///
/// Each driver owes: a program that is done leaves the unit whole and firm; an erase that is done leaves all units of
/// its bank blank; no operation changes another unit. A line is answered only if it was programmed there since the last
/// erase that was done, or stood there when an erase was cut: its check value buys this. A mark may be answered in a
/// bank whose erase was cut. And what the class says.
pub trait SealPart {
    /// What the part means.
    ghost state: { Self → PartState };

    /// What it promises.
    fn class(&self) -> PartClass
        ensures { result ≡ (state self.now).class };

    /// How many banks there are.
    fn banks(&self) -> u8
        ensures { result ≡ (state self.now).banks };

    /// How many places a bank has.
    fn places(&self) -> u32
        ensures { result ≡ (state self.now).places };

    /// Erases a bank.
    fn erase(&mut self, bank: u8) -> Result<(), PartFailed>
        requires inside { bank < (state self.old).banks }
        ensures runs { PartRuns (state self.old) (state self.new) }
        ensures count { OnOk result ((state self.new).faults ≡ (state self.old).faults) }
        ensures failed { OnErr result (Rose (state self.old).faults (state self.new).faults) }
        ensures done { OnOk result (ErasesBank bank (state self.old).flash (state self.new).flash) }
        ensures cut { OnErr result (CutsBankErase bank (state self.old).flash (state self.new).flash) };

    /// Programs a unit: a mark, or a line.
    fn program(
        &mut self,
        bank: u8,
        place: u32,
        unit: UnitKind,
        content: &UnitContent,
    ) -> Result<(), PartFailed>
        requires bank_inside { bank < (state self.old).banks }
        requires place_inside { place < (state self.old).places }
        requires may { MayProgram (state self.old).class unit (state self.old).flash bank place }
        requires fits { FitsUnit unit content.now }
        ensures runs { PartRuns (state self.old) (state self.new) }
        ensures count { OnOk result ((state self.new).faults ≡ (state self.old).faults) }
        ensures failed { OnErr result (Rose (state self.old).faults (state self.new).faults) }
        ensures done { OnOk result (ProgramsUnit (state self.old).class bank place unit content.now
            (state self.old).flash (state self.new).flash) }
        ensures cut { OnErr result (CutsProgramming (state self.old).class bank place unit content.now
            (state self.old).flash (state self.new).flash) };

    /// Reads a unit.
    fn read(&mut self, bank: u8, place: u32, unit: UnitKind) -> Result<UnitAnswer, PartFailed>
        requires bank_inside { bank < (state self.old).banks }
        requires place_inside { place < (state self.old).places }
        ensures runs { PartRuns (state self.old) (state self.new) }
        ensures count { OnOk result ((state self.new).faults ≡ (state self.old).faults) }
        ensures failed { OnErr result (Rose (state self.old).faults (state self.new).faults) }
        ensures reads { IfOk result (λ answer. ReadsUnit (state self.old).class bank place unit answer
            (state self.old).flash (state self.new).flash) }
        ensures same { OnErr result (SamePart (state self.old).flash (state self.new).flash) };

    /// What holds of every part.
    ghost is_part: { (part : Self) → IsPart (state part) };
}
