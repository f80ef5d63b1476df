//! Histories of a plan: lives that stop at each operation, in recovery too, whatever the places that were cut are read
//! as.
ghost use Rattle.std.specs.Prelude.{◌≡◌, ◌<◌, ◌≤◌, length};
ghost use Rattle.flash_places.specs.MemFlash.{memory_state};
ghost use Rattle.flash_plan.specs.Plans.{IsPlanOf};
ghost use Rattle.flash_plan.specs.Standing.{plan_layout};
ghost use Rattle.flash_plan.specs.Turns.{IsStanding};

use flash_log::format;
use flash_places::{FlashDevice, MemFlash};
use flash_plan::{FlashPlan, PlanEnd, PlanStep, run_plan};
use std::alloc::Global;
use std::process::Abort;
use std::test::Fail;

/// What fills each of two cells: what was put for sure, and what the last put that failed would have made of it.
#[derive(Clone, Copy, Drop)]
struct Filled {
    sure: [u8; 2],
    cut: [u8; 2],
}

/// How a life ended.
#[derive(Clone, Copy, PartialEq, Eq, Drop)]
enum Life {
    /// An operation failed.
    Stopped,
    /// All puts were done.
    Whole,
    /// A cell has what nobody put, or a plan ended without a failure.
    Odd,
}

/// Whether a cell has what it may have.
fn fits(cell: &[u8; 32], sure: u8, cut: u8) -> bool {
    *cell == [sure; 32] || *cell == [cut; 32]
}

/// Starts a plan, and performs what it says until it is idle or has ended.
fn start(flash: &mut MemFlash, cells: &mut [[u8; 32]], scratch: &mut [[u8; 32]]) -> FlashPlan
    requires two { length cells.old ≡ 2 }
    requires alike { length scratch.old ≡ length cells.old }
    requires room { 3 < (memory_state flash.old).places }
    ensures plan { IsPlanOf (length cells.old) result }
    ensures banks { result.banks ≡ (memory_state flash.new).banks }
    ensures places { result.places ≡ (memory_state flash.new).places }
    ensures same { (memory_state flash.new).places ≡ (memory_state flash.old).places }
    ensures stands { IsStanding (plan_layout result (length cells.new)) result cells.new scratch.new
        (memory_state flash.new).flash }
{
    let mut plan = FlashPlan::start(flash.banks(), flash.places());
    run_plan(flash, &mut plan, cells, scratch);
    plan
}

/// Puts into a cell, and performs what the plan says until it is idle or has ended.
fn put(
    flash: &mut MemFlash,
    plan: &mut FlashPlan,
    cells: &mut [[u8; 32]],
    scratch: &mut [[u8; 32]],
    cell: u8,
    value: u8,
) -> bool
    requires two { length cells.old ≡ 2 }
    requires alike { length scratch.old ≡ length cells.old }
    requires cell { cell < 2 }
    requires plan { IsPlanOf (length cells.old) plan.old }
    requires banks { plan.old.banks ≡ (memory_state flash.old).banks }
    requires places { plan.old.places ≡ (memory_state flash.old).places }
    requires stands { IsStanding (plan_layout plan.old (length cells.old)) plan.old cells.old scratch.old
        (memory_state flash.old).flash }
    ensures plan { IsPlanOf (length cells.old) plan.new }
    ensures banks { plan.new.banks ≡ (memory_state flash.new).banks }
    ensures places { plan.new.places ≡ (memory_state flash.new).places }
    ensures same { (memory_state flash.new).places ≡ (memory_state flash.old).places }
    ensures stands { IsStanding (plan_layout plan.new (length cells.new)) plan.new cells.new scratch.new
        (memory_state flash.new).flash }
{
    match plan.put(cells, cell as u16, &[value; 32]) {
        Ok(()) => {
            run_plan(flash, plan, cells, scratch);
            plan.is_idle() && cells[cell as usize] == [value; 32]
        }
        Err(_) => false,
    }
}

/// Puts into the two cells in turn.
fn put_some(
    flash: &mut MemFlash,
    plan: &mut FlashPlan,
    cells: &mut [[u8; 32]],
    scratch: &mut [[u8; 32]],
    known: &mut Filled,
    first: u8,
    puts: u8,
) -> Life
    requires two { length cells.old ≡ 2 }
    requires alike { length scratch.old ≡ length cells.old }
    requires plan { IsPlanOf (length cells.old) plan.old }
    requires banks { plan.old.banks ≡ (memory_state flash.old).banks }
    requires places { plan.old.places ≡ (memory_state flash.old).places }
    requires stands { IsStanding (plan_layout plan.old (length cells.old)) plan.old cells.old scratch.old
        (memory_state flash.old).flash }
    requires small { first ≤ 100 }
    requires few { puts ≤ 5 }
    ensures same { (memory_state flash.new).places ≡ (memory_state flash.old).places }
{
    for k in 0..puts {
        let cell = k % 2;
        let value = first + k;
        known.cut[cell as usize] = value;
        if !put(flash, plan, cells, scratch, cell, value) {
            if plan.step == PlanStep::Ended(PlanEnd::Failed) {
                return Life::Stopped;
            }
            return Life::Odd;
        }
        known.sure[cell as usize] = value;
    }
    Life::Whole
}

/// One life: the power comes back, a plan starts, its cells are looked at, and puts are done. If `stop` isn't 0, each
/// operation from that one on fails.
fn live(flash: &mut MemFlash, known: &mut Filled, stop: u64, first: u8, puts: u8) -> Life
    requires room { 3 < (memory_state flash.old).places }
    requires small { first ≤ 100 }
    requires few { puts ≤ 5 }
    ensures places { (memory_state flash.new).places ≡ (memory_state flash.old).places }
{
    let mut cells = [[0; 32]; 2];
    let mut scratch = [[0; 32]; 2];
    flash.power_up();
    if stop > 0 {
        flash.stop_at(stop);
    }
    let mut plan = start(flash, &mut cells, &mut scratch);
    if plan.step == PlanStep::Ended(PlanEnd::Failed) {
        return Life::Stopped;
    }
    let one = fits(&cells[0], known.sure[0], known.cut[0]);
    let other = fits(&cells[1], known.sure[1], known.cut[1]);
    if !plan.is_idle() || !one || !other {
        return Life::Odd;
    }
    let now = [cells[0][0], cells[1][0]];
    *known = Filled {
        sure: now,
        cut: now,
    };
    put_some(
        flash,
        &mut plan,
        &mut cells,
        &mut scratch,
        known,
        first,
        puts,
    )
}

/// The next of a row of numbers whose bits are mixed (xorshift).
fn scrambled(seed: u64) -> u64 {
    let a = seed ^ (seed << 13);
    let b = a ^ (a >> 7);
    b ^ (b << 17)
}

/// Two lives that stop at these operations, and two that don't: whether nothing was lost. The places that aren't firm
/// are read in each life as other bits say.
fn is_whole(
    alloc: Global,
    banks: u8,
    tells_blank: bool,
    stops: [u64; 4],
    seed: u64,
) -> Result<bool, Fail>
    requires two { 2 ≤ banks }
    requires few { banks ≤ 16 }
{
    let mut flash = MemFlash::new(alloc, banks, 6)?;
    if format(&mut flash, &[[1; 32], [2; 32]]).is_err() {
        return Ok(false);
    }
    let mut known = Filled {
        sure: [1, 2],
        cut: [1, 2],
    };
    let mut bits = seed;
    for life in 0..4u8 {
        bits = scrambled(bits);
        flash.answer_by(bits, tells_blank);
        let stop = stops[life as usize];
        let puts = (bits >> 40) % 6;
        let end = live(&mut flash, &mut known, stop, 10 + 10 * life, puts as u8);
        if end == Life::Odd || stop == 0 && end == Life::Stopped {
            return Ok(false);
        }
    }
    Ok(true)
}

/// Whether nothing is lost, at each pair of stops among the first operations of two lives.
fn is_whole_at_all(alloc: Global, banks: u8, tells_blank: bool) -> Result<bool, Fail>
    requires two { 2 ≤ banks }
    requires few { banks ≤ 16 }
{
    for history in 0..2400u64 {
        let stops = [1 + history % 40, 1 + history / 40, 0, 0];
        let seed = 0x2545_f491_4f6c_dd1d + history;
        if !is_whole(alloc, banks, tells_blank, stops, seed)? {
            return Ok(false);
        }
    }
    Ok(true)
}

/// Formats a flash with two cells: whether a plan says that it is done.
fn is_formatted(flash: &mut MemFlash, cells: &mut [[u8; 32]], scratch: &mut [[u8; 32]]) -> bool
    requires two { length cells.old ≡ 2 }
    requires alike { length scratch.old ≡ length cells.old }
    requires room { 3 < (memory_state flash.old).places }
    ensures same { (memory_state flash.new).places ≡ (memory_state flash.old).places }
{
    let mut plan = FlashPlan::format(flash.banks(), flash.places());
    run_plan(flash, &mut plan, cells, scratch);
    plan.step == PlanStep::Ended(PlanEnd::Formatted)
}

/// Formats a flash, and starts a store on it: what the cells are.
fn format_and_start(flash: &mut MemFlash) -> Option<[[u8; 32]; 2]>
    requires room { 3 < (memory_state flash.old).places }
{
    let mut cells = [[1; 32], [2; 32]];
    let mut scratch = [[0; 32]; 2];
    if !is_formatted(flash, &mut cells, &mut scratch) {
        return None;
    }
    cells = [[0; 32]; 2];
    let plan = start(flash, &mut cells, &mut scratch);
    if plan.is_idle() { Some(cells) } else { None }
}

#[test]
fn a_plan_formats_a_flash(rt: HostRuntime) -> Result<(), Fail> {
    let mut flash = MemFlash::new(rt.alloc(), 3, 8)?;
    assert_eq!(rt; format_and_start(&mut flash), Some([[1; 32], [2; 32]]));
    Ok(())
}

#[test]
fn no_stop_of_a_plan_loses_a_put_on_two_banks(rt: HostRuntime) -> Result<(), Fail> {
    assert!(rt; is_whole_at_all(rt.alloc(), 2, false)?);
    assert!(rt; is_whole_at_all(rt.alloc(), 2, true)?);
    Ok(())
}

#[test]
fn no_stop_of_a_plan_loses_a_put_on_sixteen_banks(rt: HostRuntime) -> Result<(), Fail> {
    assert!(rt; is_whole_at_all(rt.alloc(), 16, false)?);
    assert!(rt; is_whole_at_all(rt.alloc(), 16, true)?);
    Ok(())
}
