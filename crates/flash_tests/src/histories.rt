//! Histories of a store: lives that stop at each operation, in recovery too, whatever the places that were cut are read
//! as.
ghost use Rattle.std.specs.Prelude.{◌≡◌, ◌<◌, ◌≤◌, length};
ghost use Rattle.flash_places.specs.MemFlash.{memory_state};
ghost use Rattle.flash_log.specs.Stores.{IsStoreOf};

use flash_log::{AttachFault, FlashLog, PutFault, attach, format};
use flash_places::MemFlash;
use std::alloc::Global;
use std::process::Abort;
use std::test::Fail;

/// What fills each of two cells: what was put for sure, and what the last put that failed would have made of it.
#[derive(Clone, Copy, Drop)]
struct Known {
    sure: [u8; 2],
    cut: [u8; 2],
}

/// How a life ended.
#[derive(Clone, Copy, PartialEq, Eq, Drop)]
enum End {
    /// An operation failed.
    Stopped,
    /// All puts were done.
    Whole,
    /// A cell has what nobody put, or a call was refused without a failure.
    Odd,
}

/// Whether a cell has what it may have.
fn may_have(cell: &[u8; 32], sure: u8, cut: u8) -> bool {
    *cell == [sure; 32] || *cell == [cut; 32]
}

/// Puts into the two cells in turn: a bank of six places has room for three puts behind a copy.
fn put_some(
    flash: &mut MemFlash,
    store: &mut FlashLog,
    cells: &mut [[u8; 32]],
    known: &mut Known,
    first: u8,
    puts: u8,
) -> End
    requires two { length cells.old ≡ 2 }
    requires store { IsStoreOf store.old (length cells.old) (memory_state flash.old) }
    requires small { first ≤ 100 }
    requires few { puts ≤ 5 }
    ensures places { (memory_state flash.new).places ≡ (memory_state flash.old).places }
{
    for k in 0..puts {
        let cell = k % 2;
        let value = first + k;
        known.cut[cell as usize] = value;
        match store.put(flash, cells, cell as u16, &[value; 32]) {
            Ok(()) => known.sure[cell as usize] = value,
            Err(PutFault::Failed) => return End::Stopped,
            Err(_) => return End::Odd,
        }
    }
    End::Whole
}

/// One life: the power comes back, the store is attached, its cells are looked at, and puts are done. If `stop` isn't
/// 0, each operation from that one on fails.
fn live(flash: &mut MemFlash, known: &mut Known, stop: u64, first: u8, puts: u8) -> End
    requires room { 3 < (memory_state flash.old).places }
    requires small { first ≤ 100 }
    requires few { puts ≤ 5 }
    ensures places { (memory_state flash.new).places ≡ (memory_state flash.old).places }
{
    let mut cells = [[0; 32]; 2];
    let mut scratch = [[0; 32]; 2];
    flash.power_up();
    if stop > 0 {
        flash.stop_at(stop);
    }
    let mut store = match attach(flash, &mut cells, &mut scratch) {
        Ok(store) => store,
        Err(AttachFault::Failed) => return End::Stopped,
        Err(_) => return End::Odd,
    };
    let one = may_have(&cells[0], known.sure[0], known.cut[0]);
    let other = may_have(&cells[1], known.sure[1], known.cut[1]);
    if !one || !other {
        return End::Odd;
    }
    let now = [cells[0][0], cells[1][0]];
    *known = Known {
        sure: now,
        cut: now,
    };
    put_some(flash, &mut store, &mut cells, known, first, puts)
}

/// The next of a row of numbers whose bits are mixed (xorshift).
fn mixed(seed: u64) -> u64 {
    let a = seed ^ (seed << 13);
    let b = a ^ (a >> 7);
    b ^ (b << 17)
}

/// Two lives that stop at these operations, and two that don't: whether nothing was lost. The places that aren't firm are
/// read in each life as other bits say.
fn is_kept(
    alloc: Global,
    banks: u8,
    tells_blank: bool,
    stops: [u64; 4],
    seed: u64,
) -> Result<bool, Fail>
    requires two { 2 ≤ banks }
    requires few { banks ≤ 16 }
{
    let mut flash = MemFlash::new(alloc, banks, 6)?;
    if format(&mut flash, &[[1; 32], [2; 32]]).is_err() {
        return Ok(false);
    }
    let mut known = Known {
        sure: [1, 2],
        cut: [1, 2],
    };
    let mut bits = seed;
    for life in 0..4u8 {
        bits = mixed(bits);
        flash.answer_by(bits, tells_blank);
        let stop = stops[life as usize];
        let puts = (bits >> 40) % 6;
        let end = live(&mut flash, &mut known, stop, 10 + 10 * life, puts as u8);
        if end == End::Odd || stop == 0 && end == End::Stopped {
            return Ok(false);
        }
    }
    Ok(true)
}

/// Whether nothing is lost, at each pair of stops among the first operations of two lives.
fn is_kept_at_all(alloc: Global, banks: u8, tells_blank: bool) -> Result<bool, Fail>
    requires two { 2 ≤ banks }
    requires few { banks ≤ 16 }
{
    for history in 0..19200u64 {
        let stops = [1 + history % 30, 1 + history / 30 % 20, 0, 0];
        if !is_kept(
            alloc,
            banks,
            tells_blank,
            stops,
            0x2545_f491_4f6c_dd1d + history,
        )? {
            return Ok(false);
        }
    }
    Ok(true)
}

#[test]
fn no_stop_loses_a_put_on_two_banks(rt: HostRuntime) -> Result<(), Fail> {
    assert!(rt; is_kept_at_all(rt.alloc(), 2, false)?);
    assert!(rt; is_kept_at_all(rt.alloc(), 2, true)?);
    Ok(())
}

#[test]
fn no_stop_loses_a_put_on_three_banks(rt: HostRuntime) -> Result<(), Fail> {
    assert!(rt; is_kept_at_all(rt.alloc(), 3, false)?);
    assert!(rt; is_kept_at_all(rt.alloc(), 3, true)?);
    Ok(())
}

#[test]
fn no_stop_loses_a_put_on_sixteen_banks(rt: HostRuntime) -> Result<(), Fail> {
    assert!(rt; is_kept_at_all(rt.alloc(), 16, false)?);
    assert!(rt; is_kept_at_all(rt.alloc(), 16, true)?);
    Ok(())
}
