//! Reading the banks at power-up.
ghost use Rattle.std.specs.Prelude.{◌≡◌, ◌+◌, ◌^◌, ◌<◌, ◌≤◌, suc, ℕ, length, slice_set, [], ◌∷◌, true, false, Ok, None, IfOk, IfSome, OnOk, OnErr};
ghost use Rattle.basics.specs.FaultCount.{Rose};
ghost use Rattle.flash_places.specs.Places.{SameFlash, SameOthers, blank_place};
ghost use Rattle.flash_places.specs.State.{FlashRuns};
ghost use Rattle.flash_laws.specs.Logs.{copy_lines, after_lines};
ghost use Rattle.flash_log.specs.Going.{BlankFrom};
ghost use Rattle.flash_log.specs.Taking.{NoLaterHead, NotesHead, latest_head, generation_in, LooksLine, places_behind, from_place, Taken, TakesNoCopy, TakesSome, TakesPuts, ReadsLog, ReadsBankPart};

use flash_places::{Answer, FlashDevice, FlashFailed, FlashLine};

/// The generation of a log, and where it ends.
#[derive(Clone, Copy, Debug, PartialEq, Eq, Drop)]
pub struct LogEnd {
    pub generation: u64,
    /// The place after its last line.
    pub next: u32,
    /// Whether each place from there on is blank for sure.
    pub is_free: bool,
}

/// What was read of a bank.
#[derive(Clone, Copy, Drop)]
pub(crate) struct BankRead {
    /// The bank has no head of a later generation, unless this is the last one.
    pub(crate) latest: u64,
    /// Its log, if it is whole.
    pub(crate) log: Option<LogEnd>,
}

/// Where the puts of a bank end.
#[derive(Clone, Copy, Drop)]
struct PutsEnd {
    next: u32,
    /// Whether the place is blank for sure, or behind the bank.
    is_blank: bool,
}

/// The line of a place.
fn look_line<D: FlashDevice>(
    device: &mut D,
    bank: u8,
    place: u32,
) -> Result<Option<FlashLine>, FlashFailed>
    requires bank_inside { bank < (D.state device.old).banks }
    requires place_inside { place < (D.state device.old).places }
    ensures runs { FlashRuns (D.state device.old) (D.state device.new) }
    ensures count { OnOk result ((D.state device.new).faults ≡ (D.state device.old).faults) }
    ensures failed { OnErr result (Rose (D.state device.old).faults (D.state device.new).faults) }
    ensures looks { IfOk result (λ answer.
        LooksLine bank place answer (D.state device.old).flash (D.state device.new).flash) }
    ensures same { OnErr result (SameFlash (D.state device.old).flash (D.state device.new).flash) }
{
    match device.look(bank, place) {
        Ok(Answer::Whole(line)) => Ok(Some(line)),
        Ok(_) => Ok(None),
        Err(failed) => Err(failed),
    }
}

/// Puts these bytes into a cell, if there is one of this number.
fn set_cell(cells: &mut [[u8; 32]], cell: u16, payload: &[u8; 32])
    ensures { cells.new ≡ slice_set cells.old cell payload.now }
{
    if (cell as usize) < cells.len() {
        cells[cell as usize] = *payload;
    }
}

/// Makes of the cells what a line says.
pub fn make_line(cells: &mut [[u8; 32]], line: &FlashLine)
    ensures { cells.new ≡ after_lines (line.now ∷ []) cells.old }
{
    match line {
        FlashLine::Entry(cell, payload) => set_cell(cells, *cell, payload),
        FlashLine::Head(_) => {}
    }
}

/// Reads the places behind the head of a bank: whether they hold a copy of so many cells.
fn read_copy<D: FlashDevice>(
    device: &mut D,
    bank: u8,
    cells: &mut [[u8; 32]],
) -> Result<bool, FlashFailed>
    requires inside { bank < (D.state device.old).banks }
    requires room { length cells.old < (D.state device.old).places }
    requires few { length cells.old < 2 ^ 16 }
    ensures runs { FlashRuns (D.state device.old) (D.state device.new) }
    ensures count { OnOk result ((D.state device.new).faults ≡ (D.state device.old).faults) }
    ensures failed { OnErr result (Rose (D.state device.old).faults (D.state device.new).faults) }
    ensures head { (D.state device.new).flash bank 0 ≡ (D.state device.old).flash bank 0 }
    ensures others { SameOthers bank (D.state device.old).flash (D.state device.new).flash }
    ensures copy { result ≡ Ok true → Taken (places_behind ((D.state device.old).flash bank))
        (places_behind ((D.state device.new).flash bank)) (copy_lines 0 cells.new) }
    ensures none { result ≡ Ok false → TakesNoCopy (length cells.old) (places_behind ((D.state device.old).flash bank))
        (places_behind ((D.state device.new).flash bank)) }
    ensures part { OnErr result (TakesSome (places_behind ((D.state device.old).flash bank))
        (places_behind ((D.state device.new).flash bank))) }
{
    for i in 0..cells.len() {
        match look_line(device, bank, 1 + i as u32)? {
            Some(FlashLine::Entry(cell, payload)) => {
                if cell as usize != i {
                    return Ok(false);
                }
                cells[i] = payload;
            }
            Some(FlashLine::Head(_)) => return Ok(false),
            None => return Ok(false),
        }
    }
    Ok(true)
}

/// Reads the puts behind the copy of a bank, and says where they end.
fn read_puts<D: FlashDevice>(
    device: &mut D,
    bank: u8,
    cells: &mut [[u8; 32]],
) -> Result<PutsEnd, FlashFailed>
    requires inside { bank < (D.state device.old).banks }
    requires room { length cells.old < (D.state device.old).places }
    requires few { length cells.old < 2 ^ 16 }
    ensures runs { FlashRuns (D.state device.old) (D.state device.new) }
    ensures count { OnOk result ((D.state device.new).faults ≡ (D.state device.old).faults) }
    ensures failed { OnErr result (Rose (D.state device.old).faults (D.state device.new).faults) }
    ensures before { (k : ℕ) → k ≤ length cells.old
        → (D.state device.new).flash bank k ≡ (D.state device.old).flash bank k }
    ensures others { SameOthers bank (D.state device.old).flash (D.state device.new).flash }
    ensures puts { IfOk result (λ end. TakesPuts (length cells.old)
        (from_place (D.state device.old).flash bank (1 + length cells.old))
        (from_place (D.state device.new).flash bank (1 + length cells.old)) cells.old cells.new end.next) }
    ensures blank { IfOk result (λ end. end.is_blank ≡ true
        → (D.state device.new).flash bank end.next ≡ blank_place) }
    ensures told { IfOk result (λ end. (D.state device.old).tells_blank ≡ true
        → (D.state device.new).flash bank end.next ≡ blank_place → end.is_blank ≡ true) }
    ensures part { OnErr result (TakesSome (from_place (D.state device.old).flash bank (1 + length cells.old))
        (from_place (D.state device.new).flash bank (1 + length cells.old))) }
{
    let places = device.places();
    for place in 1 + cells.len() as u32..places {
        match device.look(bank, place)? {
            Answer::Whole(line) => make_line(cells, &line),
            Answer::Blank => {
                return Ok(PutsEnd {
                    next: place,
                    is_blank: true,
                });
            }
            Answer::Nothing => {
                return Ok(PutsEnd {
                    next: place,
                    is_blank: false,
                });
            }
        }
    }
    Ok(PutsEnd {
        next: places,
        is_blank: true,
    })
}

/// Whether each place from the end of the puts on is blank for sure.
fn read_free<D: FlashDevice>(device: &mut D, bank: u8, end: PutsEnd) -> Result<bool, FlashFailed>
    requires inside { bank < (D.state device.old).banks }
    requires blank { end.is_blank ≡ true → (D.state device.old).flash bank end.next ≡ blank_place }
    requires told { (D.state device.old).tells_blank ≡ true
        → (D.state device.old).flash bank end.next ≡ blank_place → end.is_blank ≡ true }
    ensures runs { FlashRuns (D.state device.old) (D.state device.new) }
    ensures count { OnOk result ((D.state device.new).faults ≡ (D.state device.old).faults) }
    ensures failed { OnErr result (Rose (D.state device.old).faults (D.state device.new).faults) }
    ensures before { (k : ℕ) → k ≤ end.next
        → (D.state device.new).flash bank k ≡ (D.state device.old).flash bank k }
    ensures others { SameOthers bank (D.state device.old).flash (D.state device.new).flash }
    ensures looks { ReadsBankPart ((D.state device.old).flash bank) ((D.state device.new).flash bank) }
    ensures free { result ≡ Ok true → BlankFrom (D.state device.new).flash bank end.next }
    ensures told { IfOk result (λ is_free. (D.state device.old).tells_blank ≡ true
        → BlankFrom (D.state device.new).flash bank end.next → is_free ≡ true) }
{
    if !end.is_blank {
        return Ok(false);
    }
    for place in end.next..device.places() {
        match device.look(bank, place)? {
            Answer::Blank => {}
            Answer::Whole(_) => return Ok(false),
            Answer::Nothing => return Ok(false),
        }
    }
    Ok(true)
}

/// The generation that no head of a bank is later than, as its first place was read.
pub fn latest_of(head: &Answer) -> u64
    ensures { result ≡ latest_head head.now }
{
    match head {
        Answer::Whole(FlashLine::Head(generation)) => *generation,
        Answer::Whole(FlashLine::Entry(_, _)) => 0,
        Answer::Blank => 0,
        Answer::Nothing => u64::MAX,
    }
}

/// The generation of a bank's head, as its first place was read.
pub fn generation_of(head: &Answer) -> Option<u64>
    ensures { result ≡ generation_in head.now }
{
    match head {
        Answer::Whole(FlashLine::Head(generation)) => Some(*generation),
        Answer::Whole(FlashLine::Entry(_, _)) => None,
        Answer::Blank => None,
        Answer::Nothing => None,
    }
}

/// Reads a bank: its log and the log's cells, if it is whole.
pub(crate) fn read_log<D: FlashDevice>(
    device: &mut D,
    bank: u8,
    cells: &mut [[u8; 32]],
) -> Result<BankRead, FlashFailed>
    requires inside { bank < (D.state device.old).banks }
    requires room { length cells.old < (D.state device.old).places }
    requires few { length cells.old < 2 ^ 16 }
    ensures runs { FlashRuns (D.state device.old) (D.state device.new) }
    ensures count { OnOk result ((D.state device.new).faults ≡ (D.state device.old).faults) }
    ensures failed { OnErr result (Rose (D.state device.old).faults (D.state device.new).faults) }
    ensures others { SameOthers bank (D.state device.old).flash (D.state device.new).flash }
    ensures log { IfOk result (λ read. ReadsLog (length cells.old) read.log cells.new
        ((D.state device.old).flash bank) ((D.state device.new).flash bank)) }
    ensures free { IfOk result (λ read. IfSome read.log (λ log. log.is_free ≡ true
        → BlankFrom (D.state device.new).flash bank log.next)) }
    ensures told { IfOk result (λ read. IfSome read.log (λ log. (D.state device.old).tells_blank ≡ true
        → BlankFrom (D.state device.new).flash bank log.next → log.is_free ≡ true)) }
    ensures latest { IfOk result (λ read. NoLaterHead ((D.state device.new).flash bank 0) read.latest) }
    ensures noted { IfOk result (λ read. (D.state device.old).tells_blank ≡ true
        → NotesHead ((D.state device.new).flash bank 0) read.latest) }
    ensures part { OnErr result (ReadsBankPart ((D.state device.old).flash bank) ((D.state device.new).flash bank)) }
{
    let head = device.look(bank, 0)?;
    let latest = latest_of(&head);
    match generation_of(&head) {
        Some(generation) => {
            if !read_copy(device, bank, cells)? {
                return Ok(BankRead { latest, log: None });
            }
            let end = read_puts(device, bank, cells)?;
            let is_free = read_free(device, bank, end)?;
            let log = Some(LogEnd {
                generation,
                next: end.next,
                is_free,
            });
            Ok(BankRead { latest, log })
        }
        None => Ok(BankRead { latest, log: None }),
    }
}
