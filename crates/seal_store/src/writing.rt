//! Writing deeds and copies.
ghost use Rattle.std.specs.Prelude.{◌≡◌, ◌<◌, ◌≤◌, ◌^◌, ◌+◌, suc, length, OnOk, OnErr};
ghost use Rattle.basics.specs.FaultCount.{Rose};
ghost use Rattle.seal_parts.specs.declared.PartClass.TheVariants.{Blanks};
ghost use Rattle.seal_parts.specs.State.{PartRuns};
ghost use Rattle.seal_parts.specs.Designs.{DoesPartWrites, CutsPartWrites, MayDoPartWrites};
ghost use Rattle.seal_laws.specs.Writes.{deed_writes, copy_writes, opening_writes, move_writes, first_writes, put_writes};
ghost use Rattle.seal_laws.specs.Writes.{seal_line, deed_of, last_after, bank_after as next_bank_of};

use seal_laws::{SealPoint, SealSizes};
use seal_logs::LogSizes;
use seal_parts::{
    DeedBody, LineBody, LogDeed, PartFailed, SealLine, SealPart, UnitContent, UnitKind,
};

/// The line of a deed.
pub(crate) fn line_of(generation: u64, prev: Option<u32>, body: DeedBody) -> SealLine
    ensures { result ≡ seal_line generation (deed_of prev body) }
{
    SealLine {
        generation,
        body: LineBody::Does(LogDeed { prev, body }),
    }
}

/// The bank that takes the next copy.
pub(crate) fn bank_after(sizes: LogSizes, bank: u8) -> u8
    requires { bank < sizes.banks }
    ensures is { result ≡ next_bank_of sizes.banks bank }
    ensures inside { result < sizes.banks }
{
    if bank + 1 < sizes.banks {
        return bank + 1;
    }
    0
}

/// Programs a deed: its line and its confirms, each done before the next is begun.
pub fn write_deed<P: SealPart>(
    part: &mut P,
    bank: u8,
    place: u32,
    line: SealLine,
) -> Result<(), PartFailed>
    requires class { (P.state part.old).class ≡ Blanks }
    requires inside { bank < (P.state part.old).banks }
    requires place_inside { place < (P.state part.old).places }
    requires may { MayDoPartWrites Blanks (deed_writes Blanks bank place line) (P.state part.old).flash }
    ensures runs { PartRuns (P.state part.old) (P.state part.new) }
    ensures count { OnOk result ((P.state part.new).faults ≡ (P.state part.old).faults) }
    ensures failed { OnErr result (Rose (P.state part.old).faults (P.state part.new).faults) }
    ensures does { OnOk result (DoesPartWrites Blanks (deed_writes Blanks bank place line)
        (P.state part.old).flash (P.state part.new).flash) }
    ensures cuts { OnErr result (CutsPartWrites Blanks (deed_writes Blanks bank place line)
        (P.state part.old).flash (P.state part.new).flash) }
{
    part.program(bank, place, UnitKind::Line, &UnitContent::Holds(line))?;
    part.program(bank, place, UnitKind::Confirm, &UnitContent::Mark)?;
    part.program(bank, place, UnitKind::SecondConfirm, &UnitContent::Mark)
}

/// Erases a bank, and makes a copy of the cells in it.
pub fn write_copy<P: SealPart>(
    part: &mut P,
    bank: u8,
    generation: u64,
    cells: &[[u8; 32]],
) -> Result<(), PartFailed>
    requires class { (P.state part.old).class ≡ Blanks }
    requires inside { bank < (P.state part.old).banks }
    requires room { length cells.now ≤ (P.state part.old).places }
    requires few { length cells.now < 2 ^ 16 }
    ensures runs { PartRuns (P.state part.old) (P.state part.new) }
    ensures count { OnOk result ((P.state part.new).faults ≡ (P.state part.old).faults) }
    ensures failed { OnErr result (Rose (P.state part.old).faults (P.state part.new).faults) }
    ensures does { OnOk result (DoesPartWrites Blanks (copy_writes bank generation cells.now)
        (P.state part.old).flash (P.state part.new).flash) }
    ensures cuts { OnErr result (CutsPartWrites Blanks (copy_writes bank generation cells.now)
        (P.state part.old).flash (P.state part.new).flash) }
{
    part.erase(bank)?;
    for i in 0..cells.len() {
        let line = SealLine {
            generation,
            body: LineBody::Copies(i as u16, cells[i]),
        };
        part.program(bank, i as u32, UnitKind::Line, &UnitContent::Holds(line))?;
    }
    Ok(())
}

/// Programs so many deeds that open a bank, from this place on.
fn write_openings<P: SealPart>(part: &mut P, point: SealPoint) -> Result<(), PartFailed>
    requires class { (P.state part.old).class ≡ Blanks }
    requires inside { point.bank < (P.state part.old).banks }
    requires places_inside { point.next + point.lacking ≤ (P.state part.old).places }
    requires may { MayDoPartWrites Blanks
        (opening_writes Blanks point.bank point.generation point.next point.last point.lacking)
        (P.state part.old).flash }
    ensures runs { PartRuns (P.state part.old) (P.state part.new) }
    ensures count { OnOk result ((P.state part.new).faults ≡ (P.state part.old).faults) }
    ensures failed { OnErr result (Rose (P.state part.old).faults (P.state part.new).faults) }
    ensures does { OnOk result (DoesPartWrites Blanks
        (opening_writes Blanks point.bank point.generation point.next point.last point.lacking)
        (P.state part.old).flash (P.state part.new).flash) }
    ensures cuts { OnErr result (CutsPartWrites Blanks
        (opening_writes Blanks point.bank point.generation point.next point.last point.lacking)
        (P.state part.old).flash (P.state part.new).flash) }
{
    let mut last = point.last;
    for i in 0..point.lacking {
        let line = line_of(point.generation, last, DeedBody::Opens);
        write_deed(part, point.bank, point.next + i, line)?;
        last = Some(point.next + i);
    }
    Ok(())
}

/// The place of the last deed once the bank is opened.
fn last_opened(point: &SealPoint) -> Option<u32>
    requires { point.now.next + point.now.lacking < 2 ^ 32 }
    ensures { result ≡ last_after point.now.next point.now.last point.now.lacking }
{
    if point.lacking == 0 {
        return point.last;
    }
    Some(point.next + point.lacking - 1)
}

/// Makes a copy of these cells in the next bank, and then the deed that moves the store there. The deeds that the bank
/// lacks of two come first.
pub(crate) fn write_move<P: SealPart>(
    part: &mut P,
    sizes: SealSizes,
    point: SealPoint,
    cells: &[[u8; 32]],
) -> Result<(), PartFailed>
    requires class { (P.state part.old).class ≡ Blanks }
    requires banks { sizes.log.banks ≡ (P.state part.old).banks }
    requires inside { point.bank < sizes.log.banks }
    requires place { point.next + point.lacking < (P.state part.old).places }
    requires generation { suc point.generation < 2 ^ 64 }
    requires room { length cells.now ≤ (P.state part.old).places }
    requires few { length cells.now < 2 ^ 16 }
    requires may { MayDoPartWrites Blanks (move_writes Blanks sizes point cells.now) (P.state part.old).flash }
    ensures runs { PartRuns (P.state part.old) (P.state part.new) }
    ensures count { OnOk result ((P.state part.new).faults ≡ (P.state part.old).faults) }
    ensures failed { OnErr result (Rose (P.state part.old).faults (P.state part.new).faults) }
    ensures does { OnOk result (DoesPartWrites Blanks (move_writes Blanks sizes point cells.now)
        (P.state part.old).flash (P.state part.new).flash) }
    ensures cuts { OnErr result (CutsPartWrites Blanks (move_writes Blanks sizes point cells.now)
        (P.state part.old).flash (P.state part.new).flash) }
{
    let to = bank_after(sizes.log, point.bank);
    let generation = point.generation + 1;
    let last = last_opened(&point);
    let line = line_of(point.generation, last, DeedBody::Moves(to, generation));
    write_openings(part, point)?;
    write_copy(part, to, generation, cells)?;
    write_deed(part, point.bank, point.next + point.lacking, line)
}

/// Programs the deed that puts a cell.
pub(crate) fn write_put<P: SealPart>(
    part: &mut P,
    point: SealPoint,
    cell: u16,
    payload: [u8; 32],
) -> Result<(), PartFailed>
    requires class { (P.state part.old).class ≡ Blanks }
    requires inside { point.bank < (P.state part.old).banks }
    requires place { point.next < (P.state part.old).places }
    requires may { MayDoPartWrites Blanks (put_writes Blanks point cell payload) (P.state part.old).flash }
    ensures runs { PartRuns (P.state part.old) (P.state part.new) }
    ensures count { OnOk result ((P.state part.new).faults ≡ (P.state part.old).faults) }
    ensures failed { OnErr result (Rose (P.state part.old).faults (P.state part.new).faults) }
    ensures does { OnOk result (DoesPartWrites Blanks (put_writes Blanks point cell payload)
        (P.state part.old).flash (P.state part.new).flash) }
    ensures cuts { OnErr result (CutsPartWrites Blanks (put_writes Blanks point cell payload)
        (P.state part.old).flash (P.state part.new).flash) }
{
    let line = line_of(point.generation, point.last, DeedBody::Puts(cell, payload));
    write_deed(part, point.bank, point.next, line)
}

/// Programs the deeds and the copy of a first store, from this place of bank 0 on.
pub(crate) fn write_first<P: SealPart>(
    part: &mut P,
    first: u32,
    cells: &[[u8; 32]],
) -> Result<(), PartFailed>
    requires class { (P.state part.old).class ≡ Blanks }
    requires two { 2 ≤ (P.state part.old).banks }
    requires place { first + 3 ≤ (P.state part.old).places }
    requires room { length cells.now ≤ (P.state part.old).places }
    requires few { length cells.now < 2 ^ 16 }
    requires may { MayDoPartWrites Blanks (first_writes Blanks first cells.now) (P.state part.old).flash }
    ensures runs { PartRuns (P.state part.old) (P.state part.new) }
    ensures count { OnOk result ((P.state part.new).faults ≡ (P.state part.old).faults) }
    ensures failed { OnErr result (Rose (P.state part.old).faults (P.state part.new).faults) }
    ensures does { OnOk result (DoesPartWrites Blanks (first_writes Blanks first cells.now)
        (P.state part.old).flash (P.state part.new).flash) }
{
    let one = line_of(1, None, DeedBody::IsNew);
    let two = line_of(1, Some(first), DeedBody::IsNew);
    let three = line_of(1, Some(first + 1), DeedBody::Moves(1, 2));
    write_deed(part, 0, first, one)?;
    write_deed(part, 0, first + 1, two)?;
    write_copy(part, 1, 2, cells)?;
    write_deed(part, 0, first + 2, three)
}
