//! Making a copy of the log that counts.
ghost use Rattle.std.specs.Prelude.{◌≡◌, ◌+◌, ◌^◌, ◌<◌, ◌≤◌, suc, ℕ, length, OnOk, OnErr};
ghost use Rattle.basics.specs.FaultCount.{Rose};
ghost use Rattle.flash_places.specs.Places.{SameOthers};
ghost use Rattle.flash_places.specs.State.{FlashRuns};
ghost use Rattle.flash_laws.specs.Lives.{next_bank, copying, ready, off, FlashFormatted};
ghost use Rattle.flash_log.specs.Going.{machine, layout_on, Goes, HoldsCopy, Renews, CutsRenew, BlankFrom};

use flash_places::{FlashDevice, FlashFailed, FlashLine};

/// The bank that takes the next copy: the one before, or the last one.
pub fn next_bank(banks: u8, bank: u8) -> u8
    requires inside { bank < banks }
    ensures is { result ≡ next_bank banks bank }
    ensures below { result < banks }
{
    if bank == 0 { banks - 1 } else { bank - 1 }
}

/// Programs a copy of these cells into the next bank, which is blank, and its head last.
fn copy_log<D: FlashDevice>(
    device: &mut D,
    bank: u8,
    generation: u64,
    cells: &[[u8; 32]],
) -> Result<(), FlashFailed>
    requires inside { bank < (D.state device.old).banks }
    requires room { length cells.now < (D.state device.old).places }
    requires few { length cells.now < 2 ^ 16 }
    requires next { generation + 1 < 2 ^ 64 }
    requires blank { BlankFrom (D.state device.old).flash (next_bank (D.state device.old).banks bank) 0 }
    ensures runs { FlashRuns (D.state device.old) (D.state device.new) }
    ensures count { OnOk result ((D.state device.new).faults ≡ (D.state device.old).faults) }
    ensures failed { OnErr result (Rose (D.state device.old).faults (D.state device.new).faults) }
    ensures others { SameOthers (next_bank (D.state device.old).banks bank) (D.state device.old).flash
        (D.state device.new).flash }
    ensures copy { OnOk result (HoldsCopy (D.state device.new).flash (next_bank (D.state device.old).banks bank)
        (suc generation) cells.now) }
    ensures done { OnOk result (Goes (layout_on (D.state device.old) (length cells.now))
        (machine (D.state device.old).flash (copying bank generation cells.now 0))
        (machine (D.state device.new).flash (ready (next_bank (D.state device.old).banks bank) (suc generation)
        cells.now (suc (length cells.now))))) }
    ensures cut { OnErr result (Goes (layout_on (D.state device.old) (length cells.now))
        (machine (D.state device.old).flash (copying bank generation cells.now 0))
        (machine (D.state device.new).flash off)) }
{
    let spare = next_bank(device.banks(), bank);
    for i in 0..cells.len() {
        let line = FlashLine::Entry(i as u16, cells[i]);
        device.program(spare, 1 + i as u32, &line)?;
    }
    device.program(spare, 0, &FlashLine::Head(generation + 1))
}

/// Erases the next bank, and makes the next log in it.
pub(crate) fn renew<D: FlashDevice>(
    device: &mut D,
    bank: u8,
    generation: u64,
    cells: &[[u8; 32]],
) -> Result<(), FlashFailed>
    requires inside { bank < (D.state device.old).banks }
    requires room { length cells.now < (D.state device.old).places }
    requires few { length cells.now < 2 ^ 16 }
    requires next { generation + 1 < 2 ^ 64 }
    ensures runs { FlashRuns (D.state device.old) (D.state device.new) }
    ensures count { OnOk result ((D.state device.new).faults ≡ (D.state device.old).faults) }
    ensures failed { OnErr result (Rose (D.state device.old).faults (D.state device.new).faults) }
    ensures others { SameOthers (next_bank (D.state device.old).banks bank) (D.state device.old).flash
        (D.state device.new).flash }
    ensures copy { OnOk result (HoldsCopy (D.state device.new).flash (next_bank (D.state device.old).banks bank)
        (suc generation) cells.now) }
    ensures done { OnOk result (Renews (layout_on (D.state device.old) (length cells.now)) bank generation cells.now
        (D.state device.old).flash (D.state device.new).flash) }
    ensures cut { OnErr result (CutsRenew (layout_on (D.state device.old) (length cells.now)) bank generation cells.now
        (D.state device.old).flash (D.state device.new).flash) }
{
    device.erase(next_bank(device.banks(), bank))?;
    copy_log(device, bank, generation, cells)
}

/// Makes a log of these cells in bank 0, of generation 1, and leaves every other bank blank. A power cut within it
/// leaves this store, none, or one that was there before.
pub fn format<D: FlashDevice>(device: &mut D, cells: &[[u8; 32]]) -> Result<(), FlashFailed>
    requires room { length cells.now < (D.state device.old).places }
    requires few { length cells.now < 2 ^ 16 }
    ensures runs { FlashRuns (D.state device.old) (D.state device.new) }
    ensures count { OnOk result ((D.state device.new).faults ≡ (D.state device.old).faults) }
    ensures failed { OnErr result (Rose (D.state device.old).faults (D.state device.new).faults) }
    ensures formatted { OnOk result (FlashFormatted (layout_on (D.state device.old) (length cells.now)) cells.now
        (machine (D.state device.new).flash off)) }
{
    for bank in 1..device.banks() {
        device.erase(bank)?;
    }
    renew(device, 1, 0, cells)
}
