//! Starts of a store, and what it refuses.
ghost use Rattle.std.specs.Prelude.{◌≡◌, ◌<◌, length, IfOk};
ghost use Rattle.flash_places.specs.MemFlash.{memory_state};
ghost use Rattle.flash_log.specs.Stores.{IsStoreOf};

use flash_log::{AttachFault, FlashLog, PutFault, attach, format};
use flash_places::{Answer, FlashDevice, FlashLine, MemFlash};
use std::alloc::Global;
use std::process::Abort;
use std::test::Fail;

/// A flash of three banks of eight places, with a store of two cells.
fn fresh_flash(alloc: Global) -> Result<MemFlash, Fail>
    ensures { IfOk result (λ flash. (memory_state flash).places ≡ 8) }
{
    let mut flash = MemFlash::new(alloc, 3, 8)?;
    match format(&mut flash, &[[1; 32], [2; 32]]) {
        Ok(()) => Ok(flash),
        Err(_) => Err(Fail::from("not formatted")),
    }
}

/// Attaches the store of two cells, and says what the second one has.
fn start(flash: &mut MemFlash) -> Result<(FlashLog, [u8; 32]), AttachFault>
    requires { 3 < (memory_state flash.old).places }
    ensures { (memory_state flash.new).places ≡ (memory_state flash.old).places }
{
    let mut cells = [[0; 32]; 2];
    let mut scratch = [[0; 32]; 2];
    let store = attach(flash, &mut cells, &mut scratch)?;
    Ok((store, cells[1]))
}

#[test]
fn a_start_goes_on_only_if_blank_places_are_told(rt: HostRuntime) -> Result<(), Fail> {
    let mut flash = fresh_flash(rt.alloc())?;
    flash.answer_by(0, true);
    let first = start(&mut flash);
    let second = start(&mut flash);
    assert_eq!(rt; first, second);
    flash.answer_by(0, false);
    let third = start(&mut flash);
    assert!(rt; third != second);
    Ok(())
}

#[test]
fn a_flash_without_a_log_has_no_store(rt: HostRuntime) -> Result<(), Fail> {
    let mut flash = MemFlash::new(rt.alloc(), 2, 8)?;
    assert_eq!(rt; start(&mut flash), Err(AttachFault::NoStore));
    Ok(())
}

/// Attaches, and puts while an operation fails, once more, and in a new start.
fn put_thrice(flash: &mut MemFlash) -> Result<[Result<(), PutFault>; 3], AttachFault>
    requires { 3 < (memory_state flash.old).places }
    ensures { (memory_state flash.new).places ≡ (memory_state flash.old).places }
{
    let mut cells = [[0; 32]; 2];
    let mut scratch = [[0; 32]; 2];
    let mut store = attach(flash, &mut cells, &mut scratch)?;
    flash.fail_at(1);
    let failed = store.put(flash, &mut cells, 1, &[7; 32]);
    let refused = store.put(flash, &mut cells, 1, &[7; 32]);
    let mut store = attach(flash, &mut cells, &mut scratch)?;
    let done = store.put(flash, &mut cells, 1, &[8; 32]);
    Ok([failed, refused, done])
}

#[test]
fn a_store_waits_for_a_start_after_a_failed_put(rt: HostRuntime) -> Result<(), Fail> {
    let mut flash = fresh_flash(rt.alloc())?;
    let ends = [Err(PutFault::Failed), Err(PutFault::NotReady), Ok(())];
    assert_eq!(rt; put_thrice(&mut flash), Ok(ends));
    assert!(rt; start(&mut flash).is_ok_and(|it| it.1 == [8; 32]));
    Ok(())
}

/// Puts while a second call fails.
fn put_alone(
    flash: &mut MemFlash,
    store: &mut FlashLog,
    cells: &mut [[u8; 32]],
) -> Result<(), PutFault>
    requires two { length cells.old ≡ 2 }
    requires store { IsStoreOf store.old (length cells.old) (memory_state flash.old) }
    ensures store { IsStoreOf store.new (length cells.old) (memory_state flash.new) }
{
    flash.fail_at(2);
    store.put(flash, cells, 1, &[7; 32])
}

/// Puts so six times: five places stand behind a copy of two cells.
fn put_six(flash: &mut MemFlash) -> Result<[Result<(), PutFault>; 6], AttachFault>
    requires { 3 < (memory_state flash.old).places }
{
    let mut cells = [[0; 32]; 2];
    let mut scratch = [[0; 32]; 2];
    let mut store = attach(flash, &mut cells, &mut scratch)?;
    Ok([
        put_alone(flash, &mut store, &mut cells),
        put_alone(flash, &mut store, &mut cells),
        put_alone(flash, &mut store, &mut cells),
        put_alone(flash, &mut store, &mut cells),
        put_alone(flash, &mut store, &mut cells),
        put_alone(flash, &mut store, &mut cells),
    ])
}

#[test]
fn a_put_is_one_call_unless_the_bank_is_full(rt: HostRuntime) -> Result<(), Fail> {
    let mut flash = fresh_flash(rt.alloc())?;
    let one = Ok(());
    let ends = [one, one, one, one, one, Err(PutFault::Failed)];
    assert_eq!(rt; put_six(&mut flash), Ok(ends));
    Ok(())
}

/// A flash of which the program of place 2 of bank 1 was cut.
fn with_cut_program(alloc: Global) -> Result<MemFlash, Fail>
    ensures banks { IfOk result (λ flash. (memory_state flash).banks ≡ 2) }
    ensures places { IfOk result (λ flash. (memory_state flash).places ≡ 4) }
{
    let mut flash = MemFlash::new(alloc, 2, 4)?;
    flash.fail_at(1);
    match flash.program(1, 2, &FlashLine::Head(7)) {
        Ok(()) => Err(Fail::from("not cut")),
        Err(_) => Ok(flash),
    }
}

/// One of which that place was programmed, and then the erase of its bank was cut.
fn with_cut_erase(alloc: Global) -> Result<MemFlash, Fail>
    ensures banks { IfOk result (λ flash. (memory_state flash).banks ≡ 2) }
    ensures places { IfOk result (λ flash. (memory_state flash).places ≡ 4) }
{
    let mut flash = MemFlash::new(alloc, 2, 4)?;
    if flash.program(1, 2, &FlashLine::Head(7)).is_err() {
        return Err(Fail::from("not programmed"));
    }
    flash.fail_at(1);
    match flash.erase(1) {
        Ok(()) => Err(Fail::from("not cut")),
        Err(_) => Ok(flash),
    }
}

/// What the place is read as, first by a read that sees nothing of what was cut, and then by one that sees it.
fn read_twice(flash: &mut MemFlash) -> [Option<Answer>; 2]
    requires banks { (memory_state flash.old).banks ≡ 2 }
    requires places { (memory_state flash.old).places ≡ 4 }
{
    flash.answer_by(0, true);
    let first = flash.look(1, 2).ok();
    flash.answer_by(1, true);
    [first, flash.look(1, 2).ok()]
}

#[test]
fn a_place_that_was_cut_is_seen_or_not(rt: HostRuntime) -> Result<(), Fail> {
    let both = [
        Some(Answer::Nothing),
        Some(Answer::Whole(FlashLine::Head(7))),
    ];
    let mut flash = with_cut_program(rt.alloc())?;
    assert_eq!(rt; read_twice(&mut flash), both);
    let mut flash = with_cut_erase(rt.alloc())?;
    assert_eq!(rt; read_twice(&mut flash), both);
    Ok(())
}
