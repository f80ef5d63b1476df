//! A part in memory plays each class.
ghost use Rattle.std.specs.Prelude.{◌≡◌, IfOk};
ghost use Rattle.seal_parts.specs.MemPart.{memory_part};

use seal_parts::{MemPart, PartClass, SealPart, UnitAnswer, UnitContent, UnitKind};
use std::alloc::Global;
use std::process::Abort;
use std::test::Fail;

const MARK: UnitAnswer = UnitAnswer::Whole(UnitContent::Mark);

/// As what a guard is read whose program was cut, twice.
struct CutRow {
    class: PartClass,
    /// The lowest bit is for the first read.
    shows: u64,
    reads: [Option<UnitAnswer>; 2],
}

const CUTS: [CutRow; 6] = [
    CutRow {
        class: PartClass::Guards,
        shows: 1,
        reads: [Some(MARK), Some(UnitAnswer::Nothing)],
    },
    CutRow {
        class: PartClass::Guards,
        shows: 2,
        reads: [Some(UnitAnswer::Nothing), Some(MARK)],
    },
    CutRow {
        class: PartClass::Blanks,
        shows: 1,
        reads: [Some(MARK), Some(UnitAnswer::Nothing)],
    },
    CutRow {
        class: PartClass::Blanks,
        shows: 0,
        reads: [Some(UnitAnswer::Nothing), Some(UnitAnswer::Nothing)],
    },
    CutRow {
        class: PartClass::Settled,
        shows: 1,
        reads: [Some(MARK), Some(MARK)],
    },
    CutRow {
        class: PartClass::Settled,
        shows: 2,
        reads: [Some(UnitAnswer::Nothing), Some(MARK)],
    },
];

/// A part with a guard whose program was cut.
fn with_cut_guard(alloc: Global, class: PartClass) -> Result<MemPart, Fail>
    ensures banks { IfOk result (λ part. (memory_part part).banks ≡ 2) }
    ensures places { IfOk result (λ part. (memory_part part).places ≡ 3) }
{
    let mut part = MemPart::new(alloc, class, 2, 3)?;
    part.fail_at(1);
    match part.program(1, 2, UnitKind::Guard, &UnitContent::Mark) {
        Ok(()) => Err(Fail::from("not cut")),
        Err(_) => Ok(part),
    }
}

/// Reads that guard twice.
fn read_guard(part: &mut MemPart, shows: u64) -> [Option<UnitAnswer>; 2]
    requires banks { (memory_part part.old).banks ≡ 2 }
    requires places { (memory_part part.old).places ≡ 3 }
{
    part.show_by(shows);
    let first = part.read(1, 2, UnitKind::Guard).ok();
    [first, part.read(1, 2, UnitKind::Guard).ok()]
}

#[test]
fn reads_of_a_cut_guard_settle_or_not(rt: HostRuntime) -> Result<(), Fail> {
    for row in &CUTS {
        let mut part = with_cut_guard(rt.alloc(), row.class)?;
        assert_eq!(rt; read_guard(&mut part, row.shows), row.reads);
    }
    Ok(())
}

/// A bank whose erase is cut shows a mark that nobody programmed, and after an erase it's blank.
#[test]
fn an_erase_that_was_cut_may_show_marks(rt: HostRuntime) -> Result<(), Fail> {
    let mut part = MemPart::new(rt.alloc(), PartClass::Blanks, 2, 3)?;
    let blank = part.read(0, 1, UnitKind::Confirm).ok();
    assert_eq!(rt; blank, Some(UnitAnswer::Blank));
    part.stop_at(1);
    part.show_by(3);
    assert!(rt; part.erase(0).is_err());
    part.power_up();
    let shown = part.read(0, 1, UnitKind::Confirm).ok();
    assert_eq!(rt; shown, Some(MARK));
    assert!(rt; part.erase(0).is_ok());
    let blank = part.read(0, 1, UnitKind::Confirm).ok();
    assert_eq!(rt; blank, Some(UnitAnswer::Blank));
    Ok(())
}
