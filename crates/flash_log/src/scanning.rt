//! Reading all banks, and finding the log that counts.
ghost use Rattle.std.specs.Prelude.{◌≡◌, ◌≢◌, ◌^◌, ◌<◌, suc, ℕ, length, get_or, true, Ok, None, IfOk, IfSome, OnOk, OnErr};
ghost use Rattle.basics.specs.FaultCount.{Rose};
ghost use Rattle.flash_places.specs.Places.{Flash, SameOthers};
ghost use Rattle.flash_places.specs.State.{FlashRuns};
ghost use Rattle.flash_laws.specs.Lives.{Scans, found, off};
ghost use Rattle.flash_log.specs.Going.{machine, layout_on, Goes, BlankFrom};
ghost use Rattle.flash_log.specs.Taking.{ReadsBankPart, NoLaterHead, NotesHead};
ghost use Rattle.flash_log.specs.Scanned.{ScannedTo, NoLogCounts, FreeBest, ToldBest, NoLaterHeads, NotesHeads, judged, is_newest, is_past};

use crate::reading::{LogEnd, read_log};
use flash_places::{FlashDevice, FlashFailed};

/// A log and its bank.
#[derive(Clone, Copy, Debug, PartialEq, Eq, Drop)]
pub struct FoundLog {
    pub bank: u8,
    pub generation: u64,
    /// The place after its last line.
    pub next: u32,
    /// Whether each place of its bank from there on is blank for sure.
    pub is_free: bool,
}

/// The latest log of the banks that were read.
#[derive(Clone, Copy, Debug, PartialEq, Eq, Drop)]
pub enum Best {
    NoLog,
    One(FoundLog),
    /// Two logs have this generation.
    Tie(u64),
}

/// What one bank more has shown.
#[derive(Clone, Copy, Drop)]
struct Judged {
    best: Best,
    /// The bank has no head of a later generation, unless this is the last one.
    latest: u64,
}

/// The best of some banks and one more, and whether it is the new one.
pub fn judge(best: Best, bank: u8, log: LogEnd) -> (Best, bool)
    ensures best { result.0 ≡ judged best bank log }
    ensures newest { result.1 ≡ is_newest best log }
{
    let new = Best::One(FoundLog {
        bank,
        generation: log.generation,
        next: log.next,
        is_free: log.is_free,
    });
    match best {
        Best::NoLog => (new, true),
        Best::One(old) => {
            if old.generation < log.generation {
                (new, true)
            } else if old.generation == log.generation {
                (Best::Tie(log.generation), false)
            } else {
                (best, false)
            }
        }
        Best::Tie(generation) => {
            if generation < log.generation {
                (new, true)
            } else {
                (best, false)
            }
        }
    }
}

/// Whether a log of this generation is older than the best, so that its bank needn't be read.
pub fn is_past(best: &Best, generation: u64) -> bool
    ensures { result ≡ is_past best.now generation }
{
    match best {
        Best::NoLog => false,
        Best::One(log) => generation < log.generation,
        Best::Tie(tie) => generation < *tie,
    }
}

/// Reads one bank more. If its log is the latest, its cells are taken.
fn read_bank<D: FlashDevice>(
    device: &mut D,
    bank: u8,
    best: Best,
    cells: &mut [[u8; 32]],
    scratch: &mut [[u8; 32]],
) -> Result<Judged, FlashFailed>
    requires alike { length scratch.old ≡ length cells.old }
    requires inside { bank < (D.state device.old).banks }
    requires room { length cells.old < (D.state device.old).places }
    requires few { length cells.old < 2 ^ 16 }
    ensures runs { FlashRuns (D.state device.old) (D.state device.new) }
    ensures count { OnOk result ((D.state device.new).faults ≡ (D.state device.old).faults) }
    ensures failed { OnErr result (Rose (D.state device.old).faults (D.state device.new).faults) }
    ensures others { SameOthers bank (D.state device.old).flash (D.state device.new).flash }
    ensures scanned { IfOk result (λ more. (first : Flash)
        → ScannedTo (length cells.old) bank first (D.state device.old).flash best cells.old
        → ScannedTo (length cells.old) (suc bank) first (D.state device.new).flash more.best cells.new) }
    ensures free { IfOk result (λ more. (first : Flash)
        → ScannedTo (length cells.old) bank first (D.state device.old).flash best cells.old
        → FreeBest (D.state device.old).flash best → FreeBest (D.state device.new).flash more.best) }
    ensures told { IfOk result (λ more. (first : Flash) → (D.state device.old).tells_blank ≡ true
        → ScannedTo (length cells.old) bank first (D.state device.old).flash best cells.old
        → ToldBest (D.state device.old).flash best → ToldBest (D.state device.new).flash more.best) }
    ensures latest { IfOk result (λ more. NoLaterHead ((D.state device.new).flash bank 0) more.latest) }
    ensures noted { IfOk result (λ more. (D.state device.old).tells_blank ≡ true
        → NotesHead ((D.state device.new).flash bank 0) more.latest) }
    ensures part { OnErr result (ReadsBankPart ((D.state device.old).flash bank) ((D.state device.new).flash bank)) }
{
    let read = read_log(device, bank, scratch)?;
    let latest = read.latest;
    match read.log {
        Some(log) => {
            let (better, is_new) = judge(best, bank, log);
            if !is_new {
                return Ok(Judged {
                    best: better,
                    latest,
                });
            }
            cells.copy_from_slice(scratch);
            Ok(Judged {
                best: better,
                latest,
            })
        }
        None => Ok(Judged { best, latest }),
    }
}

/// Notes which generation no head of a bank is later than.
pub fn note(latest: &mut [u64; 16], bank: u8, generation: u64)
    requires inside { bank < 16 }
    ensures here { get_or latest.new bank 0 ≡ generation }
    ensures others { (x : ℕ) → x ≢ bank → get_or latest.new x 0 ≡ get_or latest.old x 0 }
{
    latest[bank as usize] = generation;
}

/// Reads all banks, and finds the log that counts and its cells. `latest` is then noted of each bank.
pub(crate) fn scan<D: FlashDevice>(
    device: &mut D,
    latest: &mut [u64; 16],
    cells: &mut [[u8; 32]],
    scratch: &mut [[u8; 32]],
) -> Result<Option<FoundLog>, FlashFailed>
    requires alike { length scratch.old ≡ length cells.old }
    requires room { length cells.old < (D.state device.old).places }
    requires few { length cells.old < 2 ^ 16 }
    ensures runs { FlashRuns (D.state device.old) (D.state device.new) }
    ensures count { OnOk result ((D.state device.new).faults ≡ (D.state device.old).faults) }
    ensures failed { OnErr result (Rose (D.state device.old).faults (D.state device.new).faults) }
    ensures scanned { IfOk result (λ o. IfSome o (λ log. Scans (layout_on (D.state device.old) (length cells.old))
        (machine (D.state device.old).flash off)
        (machine (D.state device.new).flash (found log.bank log.generation cells.new log.next)))) }
    ensures found { IfOk result (λ o. IfSome o (λ log. Goes (layout_on (D.state device.old) (length cells.old))
        (machine (D.state device.old).flash off)
        (machine (D.state device.new).flash (found log.bank log.generation cells.new log.next)))) }
    ensures inside { IfOk result (λ o. IfSome o (λ log. log.bank < (D.state device.old).banks)) }
    ensures free { IfOk result (λ o. IfSome o (λ log. log.is_free ≡ true
        → BlankFrom (D.state device.new).flash log.bank log.next)) }
    ensures told { IfOk result (λ o. IfSome o (λ log. (D.state device.old).tells_blank ≡ true
        → BlankFrom (D.state device.new).flash log.bank log.next → log.is_free ≡ true)) }
    ensures noted { OnOk result ((D.state device.old).tells_blank ≡ true
        → NotesHeads (D.state device.new).flash (D.state device.old).banks latest.new) }
    ensures latest { OnOk result (NoLaterHeads (D.state device.new).flash (D.state device.old).banks latest.new) }
    ensures none { result ≡ Ok None → NoLogCounts (layout_on (D.state device.old) (length cells.old))
        (D.state device.old).flash (D.state device.new).flash }
    ensures off { Goes (layout_on (D.state device.old) (length cells.old)) (machine (D.state device.old).flash off)
        (machine (D.state device.new).flash off) }
{
    let mut best = Best::NoLog;
    for bank in 0..device.banks() {
        let more = read_bank(device, bank, best, cells, scratch)?;
        note(latest, bank, more.latest);
        best = more.best;
    }
    match best {
        Best::One(log) => Ok(Some(log)),
        Best::NoLog => Ok(None),
        Best::Tie(_) => Ok(None),
    }
}
