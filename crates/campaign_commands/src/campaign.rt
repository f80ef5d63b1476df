//! A campaign over disks.
ghost use Rattle.std.specs.Prelude.{◌≡◌, ◌<◌, ◌≤◌, ◌+◌, map, MatchResult};
ghost use Rattle.std.specs.Vec.{vec_len};
ghost use Rattle.cut_disk.specs.State.{DiskState};
ghost use Rattle.program_edge.specs.Rows.{row_of};
ghost use Rattle.campaign_commands.specs.Opening.{LedgerOpened, ledger_size};
ghost use Rattle.campaign_commands.specs.Rows.{OverFirst, too_small_text};
ghost use Rattle.campaign_commands.specs.Steps.{AreScriptCommands, HasDisk, LacksDisk, DoesOnDisk, DoesCampaign};

use crate::laws::campaigns_are_runs;
use crate::opening::open_ledger;
use crate::push_ledger_line;
use crate::refusals::{no_disk_refusal, no_ledger_refusal, small_disk_refusal};
use crate::station::Station;
use any_cells::{AnyCells, put_first, store_size};
use bus_port::{Memory, Sink};
use cell_store::{Cells, Kind, Version};
use cut_disk::CutDisk;
use key_campaign::{Ledger, LedgerCommand, LedgerLine};
use program_edge::{Refusal, tell_refusal};
use run_driver::{LineText, print_run, status_of_run};
use std::alloc::{AllocError, Global};

/// How the lines of a campaign are written.
struct Texts;

impl LineText<LedgerLine> for Texts {
    ghost use Rattle.campaign_commands.specs.LedgerTexts.{ledger_line_text};

    ghost text = { ledger_line_text };

    fn append(
        _alloc: Global,
        number: u32,
        line: &LedgerLine,
        out: &mut Vec<u8>,
    ) -> Result<(), Memory> {
        match push_ledger_line(out, number, line) {
            Ok(()) => Ok(()),
            Err(AllocError) => Err(Memory),
        }
    }
}

/// The campaign of these commands over the ledger on the first disk, which is then back in its place. If there is no
/// disk, or the first is too small, no disk is touched. After a text that isn't written no further command is done.
pub fn campaign<K: Sink, D: CutDisk>(
    alloc: Global,
    commands: &[LedgerCommand],
    sink: &mut K,
    disks: &mut Vec<D>,
) -> u8
    requires { AreScriptCommands commands.now }
    ensures { DoesCampaign (disks.new ≡ disks.old) commands.now
        (record { before = map D.state disks.old.items; after = map D.state disks.new.items })
        (record { before = K.state sink.old; after = K.state sink.new; status = result }) }
{
    match find_disk(disks.as_slice()) {
        Ok(()) => on_first_disk(alloc, commands, sink, disks),
        Err(refusal) => tell_refusal(sink, &refusal),
    }
}

/// Whether there is a disk, and the first has the bytes that a ledger needs; or the refusal that says what is missing.
fn find_disk<D: CutDisk>(disks: &[D]) -> Result<(), Refusal>
    ensures { MatchResult result (λ _. HasDisk (map D.state disks.now)) (LacksDisk (map D.state disks.now)) }
{
    match disks {
        [] => Err(no_disk_refusal()),
        [first, ..] => check_size(first),
    }
}

/// Whether a disk has the bytes that a ledger needs.
#[tactic(auto, unfolding(key_campaign::specs::Entries::place_count))]
fn check_size<D: CutDisk>(disk: &D) -> Result<(), Refusal>
    ensures { MatchResult result (λ _. ledger_size ≤ (D.state disk.now).size)
        (λ row. ((D.state disk.now).size < ledger_size) × (row ≡ row_of 9 too_small_text)) }
{
    let size = disk.size();
    let wanted = store_size(Kind::Twin, Version::One, 256);
    if size < wanted {
        return Err(small_disk_refusal());
    }
    Ok(())
}

/// The campaign over the first disk, which is then back in its place.
fn on_first_disk<K: Sink, D: CutDisk>(
    alloc: Global,
    commands: &[LedgerCommand],
    sink: &mut K,
    disks: &mut Vec<D>,
) -> u8
    requires are_commands { AreScriptCommands commands.now }
    requires some { 0 < vec_len disks.old }
    ensures { OverFirst (record { before = map D.state disks.old.items; after = map D.state disks.new.items })
        (λ before after. DoesOnDisk commands.now before after
        (record { before = K.state sink.old; after = K.state sink.new; status = result })) }
{
    let disk = disks.remove(0);
    let (disk, status) = on_disk(alloc, commands, sink, disk);
    put_first(disks, disk);
    status
}

/// The campaign over one disk, which is handed back.
fn on_disk<K: Sink, D: CutDisk>(
    alloc: Global,
    commands: &[LedgerCommand],
    sink: &mut K,
    disk: D,
) -> (D, u8)
    requires { AreScriptCommands commands.now }
    ensures { DoesOnDisk commands.now (D.state disk) (D.state result.0)
        (record { before = K.state sink.old; after = K.state sink.new; status = result.1 }) }
{
    match open_ledger(alloc, disk) {
        Ok(ledger) => over_ledger(alloc, commands, sink, ledger),
        Err(none) => {
            let refusal = no_ledger_refusal(alloc, none.cause);
            (none.disk, tell_refusal(sink, &refusal))
        }
    }
}

/// The campaign over a ledger that was opened; its disk is handed back.
fn over_ledger<K: Sink, D: CutDisk>(
    alloc: Global,
    commands: &[LedgerCommand],
    sink: &mut K,
    ledger: Ledger<AnyCells<D>>,
) -> (D, u8)
    requires { AreScriptCommands commands.now }
    ensures { (before : DiskState) → LedgerOpened before ledger → DoesOnDisk commands.now before (D.state result.0)
        (record { before = K.state sink.old; after = K.state sink.new; status = result.1 }) }
{
    campaigns_are_runs();
    let mut station = Station::of(ledger);
    let printed = print_run::<Station<AnyCells<D>>, Texts, K>(alloc, &mut station, commands, sink);
    (station.release().release(), status_of_run(printed))
}
