//! Reading a part of blanks: each unit once. Its guards are never programmed, and aren't read.
ghost use Rattle.std.specs.Prelude.{◌≡◌, ◌*◌, ◌<◌, ℕ, length, true, if◌then◌else◌, IfOk, OnOk, OnErr};
ghost use Rattle.basics.specs.FaultCount.{Rose};
ghost use Rattle.seal_parts.specs.declared.PartClass.TheVariants.{Blanks};
ghost use Rattle.seal_parts.specs.State.{PartRuns};
ghost use Rattle.seal_logs.specs.Reads.{reads_in};
ghost use Rattle.seal_laws.specs.Writes.{reads_mark, reads_of, line_read, may_be_begun};
ghost use Rattle.seal_store.specs.Reading.{IsPlaceRead, ArePlacesRead};

use seal_logs::{LogSizes, PlaceRead};
use seal_parts::{PartFailed, SealLine, SealPart, UnitAnswer, UnitContent, UnitKind};

/// Whether a mark is read.
fn is_mark(answer: &UnitAnswer) -> bool
    ensures { result ≡ reads_mark answer.now }
{
    match answer {
        UnitAnswer::Whole(content) => match content {
            UnitContent::Mark => true,
            UnitContent::Holds(_) => false,
        },
        UnitAnswer::Blank => false,
        UnitAnswer::Nothing => false,
    }
}

/// The line that is read, if one is.
fn line_in(answer: &UnitAnswer) -> Option<SealLine>
    ensures { result ≡ line_read answer.now }
{
    match answer {
        UnitAnswer::Whole(content) => match content {
            UnitContent::Mark => None,
            UnitContent::Holds(line) => Some(*line),
        },
        UnitAnswer::Blank => None,
        UnitAnswer::Nothing => None,
    }
}

/// Whether a line isn't told blank: its place may have been begun.
fn is_begun(line: &UnitAnswer) -> bool
    ensures { (guard second : UnitAnswer) → result ≡ may_be_begun Blanks guard second line.now }
{
    match line {
        UnitAnswer::Whole(_) => true,
        UnitAnswer::Blank => false,
        UnitAnswer::Nothing => true,
    }
}

/// Whether one of two confirms is read.
fn is_confirmed(confirm: &UnitAnswer, last: &UnitAnswer) -> bool
    ensures { result ≡ (if reads_mark confirm.now then true else reads_mark last.now) }
{
    if is_mark(confirm) {
        return true;
    }
    is_mark(last)
}

/// What is kept of the answers of a line and of two confirms.
fn kept_of(line: &UnitAnswer, confirm: &UnitAnswer, last: &UnitAnswer) -> PlaceRead
    ensures { (answers : UnitKind → UnitAnswer) → answers UnitKind.Line ≡ line.now
        → answers UnitKind.Confirm ≡ confirm.now → answers UnitKind.SecondConfirm ≡ last.now
        → result ≡ reads_of Blanks (λ b k. answers) 0 0 }
{
    PlaceRead {
        line: line_in(line),
        is_begun: is_begun(line),
        is_confirmed: is_confirmed(confirm, last),
        is_closed: is_mark(last),
    }
}

/// Reads the units of a place, and leaves all as it was.
fn read_place<P: SealPart>(part: &mut P, bank: u8, place: u32) -> Result<PlaceRead, PartFailed>
    requires class { (P.state part.old).class ≡ Blanks }
    requires bank_inside { bank < (P.state part.old).banks }
    requires place_inside { place < (P.state part.old).places }
    ensures runs { PartRuns (P.state part.old) (P.state part.new) }
    ensures count { OnOk result ((P.state part.new).faults ≡ (P.state part.old).faults) }
    ensures failed { OnErr result (Rose (P.state part.old).faults (P.state part.new).faults) }
    ensures same { (P.state part.new).flash ≡ (P.state part.old).flash }
    ensures reads { IfOk result (λ read. IsPlaceRead (P.state part.old).flash bank place read) }
{
    let line = part.read(bank, place, UnitKind::Line)?;
    let confirm = part.read(bank, place, UnitKind::Confirm)?;
    let last = part.read(bank, place, UnitKind::SecondConfirm)?;
    Ok(kept_of(&line, &confirm, &last))
}

/// Reads the places of a bank.
fn read_bank<P: SealPart>(
    part: &mut P,
    sizes: LogSizes,
    bank: u8,
    reads: &mut [PlaceRead],
) -> Result<(), PartFailed>
    requires class { (P.state part.old).class ≡ Blanks }
    requires banks { sizes.banks ≡ (P.state part.old).banks }
    requires places { sizes.places ≡ (P.state part.old).places }
    requires inside { bank < sizes.banks }
    requires fits { length reads.old ≡ sizes.banks * sizes.places }
    ensures runs { PartRuns (P.state part.old) (P.state part.new) }
    ensures count { OnOk result ((P.state part.new).faults ≡ (P.state part.old).faults) }
    ensures failed { OnErr result (Rose (P.state part.old).faults (P.state part.new).faults) }
    ensures same { (P.state part.new).flash ≡ (P.state part.old).flash }
    ensures reads { OnOk result ((k : ℕ) → k < sizes.places
        → IsPlaceRead (P.state part.old).flash bank k (reads_in sizes reads.new bank k)) }
    ensures others { OnOk result ((b k : ℕ) → b < bank → k < sizes.places
        → reads_in sizes reads.new b k ≡ reads_in sizes reads.old b k) }
{
    let start = bank as usize * sizes.places as usize;
    for place in 0..sizes.places {
        reads[start + place as usize] = read_place(part, bank, place)?;
    }
    Ok(())
}

/// Reads all places, bank by bank, and leaves all as it was. `reads` has those of bank 0, then those of bank 1, and so
/// on.
pub fn read_all<P: SealPart>(
    part: &mut P,
    sizes: LogSizes,
    reads: &mut [PlaceRead],
) -> Result<(), PartFailed>
    requires class { (P.state part.old).class ≡ Blanks }
    requires banks { sizes.banks ≡ (P.state part.old).banks }
    requires places { sizes.places ≡ (P.state part.old).places }
    requires fits { length reads.old ≡ sizes.banks * sizes.places }
    ensures runs { PartRuns (P.state part.old) (P.state part.new) }
    ensures count { OnOk result ((P.state part.new).faults ≡ (P.state part.old).faults) }
    ensures failed { OnErr result (Rose (P.state part.old).faults (P.state part.new).faults) }
    ensures same { (P.state part.new).flash ≡ (P.state part.old).flash }
    ensures reads { OnOk result (ArePlacesRead sizes (P.state part.old).flash (reads_in sizes reads.new)) }
{
    for bank in 0..sizes.banks {
        read_bank(part, sizes, bank, reads)?;
    }
    Ok(())
}
