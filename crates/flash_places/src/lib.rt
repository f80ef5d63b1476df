//! Flash whose banks are erased whole and whose places are programmed once between two erases.
//!
//! A [`FlashDevice`] has 2 to 16 banks of equally many places. A place holds a line or none, and is firm or not. It is
//! read as its content or as nothing: a firm one always as its content, one that isn't firm as either, anew, until a
//! read has answered the content. A failed call, or a loss of power, leaves places that need not be firm. Only a blank
//! place is programmed: that is a `requires`. Each call that fails raises the count of faults, or finds it at its last
//! value. An Ok leaves the count as it was, so no failure is hidden and none is invented. What a driver owes stands at
//! the trait. [`MemFlash`] is a flash in memory: its calls are made to fail, and a pattern of bits says as what its
//! places that aren't firm are read.
#![tactic(auto)]

ghost use Rattle.std.specs.Prelude.{◌≡◌, ◌<◌, true, IfOk, OnOk, OnErr};
ghost use Rattle.basics.specs.FaultCount.{Rose};
ghost use Rattle.flash_places.specs.Places.{blank_place, Erases, CutsErase, Programs, CutsProgram, LooksAt, SameFlash};
ghost use Rattle.flash_places.specs.State.{FlashState, FlashRuns, IsFlash};
ghost use Rattle.flash_places.specs.declared.Answer.TheVariants.{Blank};

mod mem_flash;

pub use mem_flash::{MemFlash, MemPlace};

/// An erase, a program or a read failed, or the power went within it.
#[derive(Clone, Copy, Debug, PartialEq, Eq, Drop)]
pub struct FlashFailed;

/// What a place holds: the head of a log with its generation, or what a cell of this number is from then on.
#[derive(Clone, Copy, Debug, PartialEq, Eq, Drop)]
pub enum FlashLine {
    Head(u64),
    Entry(u16, [u8; 32]),
}

/// What a checked read answers.
#[derive(Clone, Copy, Debug, PartialEq, Eq, Drop)]
pub enum Answer {
    /// This line, whole.
    Whole(FlashLine),
    /// The place is blank for sure.
    Blank,
    /// No line, and the place need not be blank.
    Nothing,
}

/// A flash of 2 to 16 banks of equally many places, both numbered from 0.
///
/// A **bank** is what is erased at once: one sector or several. A **place** holds one line of a log: as many program
/// units as a line needs. To a proof a place is (`FlashPlace`)
///
/// - its **content**, a line or none, and
/// - whether it is **firm**.
///
/// A place is read as its content, or as nothing. If it is firm it is always read as its content. If it isn't, each
/// read may answer the content or nothing, anew, until a read has answered the content: then the place is firm.
///
/// | Operation | Ok | `FlashFailed`, or the power goes |
/// |---|---|---|
/// | erase of a bank | each place is blank and firm | each has its content or none, and need not be firm |
/// | program of a blank place | it holds the line, firm | it has the line or none, and need not be firm |
/// | checked read | see below | no place changes |
///
/// A read answers `Whole` with the content, and the place is firm from then on; `Blank`, and then the place is blank;
/// or `Nothing`, and then it is blank or not firm. At the last two it is as before.
///
/// A place that isn't blank is never programmed. Every other place is as before. Unit sizes, the value of erased bytes,
/// ECC and the check of a line belong to the driver below. A driver owes:
///
/// - **No forged line.** A read answers a line only if it was programmed in that place since the last erase that was
///   done, or stood there when an erase was cut. The check value of a line buys this, together with the part's ECC.
/// - **Settled reads.** What a read answered is there and stays until the next erase. Parts with margin reads have this
///   in hardware.
/// - **`Blank` is believed.** A driver answers it only if the part's blank check shows an erase that was done and no
///   program since, begun or not. A driver of a part without such a check answers `Nothing`. A store then begins each
///   life with an erase, and needs no blank check at all. `tells_blank` says whether each blank place is read so.
/// - No operation disturbs another place.
pub trait FlashDevice {
    /// What the flash means.
    ghost state: { Self → FlashState };

    /// How many banks there are.
    fn banks(&self) -> u8
        ensures { result ≡ (state self.now).banks };

    /// How many places a bank has.
    fn places(&self) -> u32
        ensures { result ≡ (state self.now).places };

    /// Erases a bank.
    fn erase(&mut self, bank: u8) -> Result<(), FlashFailed>
        requires inside { bank < (state self.old).banks }
        ensures runs { FlashRuns (state self.old) (state self.new) }
        ensures count { OnOk result ((state self.new).faults ≡ (state self.old).faults) }
        ensures failed { OnErr result (Rose (state self.old).faults (state self.new).faults) }
        ensures done { OnOk result (Erases bank (state self.old).flash (state self.new).flash) }
        ensures cut { OnErr result (CutsErase bank (state self.old).flash (state self.new).flash) };

    /// Programs a place that is blank.
    fn program(&mut self, bank: u8, place: u32, line: &FlashLine) -> Result<(), FlashFailed>
        requires bank_inside { bank < (state self.old).banks }
        requires place_inside { place < (state self.old).places }
        requires blank { (state self.old).flash bank place ≡ blank_place }
        ensures runs { FlashRuns (state self.old) (state self.new) }
        ensures count { OnOk result ((state self.new).faults ≡ (state self.old).faults) }
        ensures failed { OnErr result (Rose (state self.old).faults (state self.new).faults) }
        ensures done { OnOk result (Programs bank place line.now (state self.old).flash (state self.new).flash) }
        ensures cut { OnErr result (CutsProgram bank place line.now (state self.old).flash (state self.new).flash) };

    /// Reads a place, checked: a line that is answered is there, whole, and stays.
    fn look(&mut self, bank: u8, place: u32) -> Result<Answer, FlashFailed>
        requires bank_inside { bank < (state self.old).banks }
        requires place_inside { place < (state self.old).places }
        ensures runs { FlashRuns (state self.old) (state self.new) }
        ensures count { OnOk result ((state self.new).faults ≡ (state self.old).faults) }
        ensures failed { OnErr result (Rose (state self.old).faults (state self.new).faults) }
        ensures looks { IfOk result (λ answer.
            LooksAt bank place answer (state self.old).flash (state self.new).flash) }
        ensures told { IfOk result (λ answer. (state self.old).tells_blank ≡ true
            → (state self.old).flash bank place ≡ blank_place → answer ≡ Blank) }
        ensures same { OnErr result (SameFlash (state self.old).flash (state self.new).flash) };

    /// What holds of every flash.
    ghost is_flash: { (device : Self) → IsFlash (state device) };
}
