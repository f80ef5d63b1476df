//! The program `campaign`.
ghost use Rattle.std.specs.Prelude.{◌≡◌, drop, map, string_bytes};
ghost use Rattle.campaign_commands.specs.Rows.{EndsCampaign};
ghost use Rattle.campaign_commands.specs.Campaigns.{RunsCampaign};

use crate::campaign::campaign;
use crate::inputs::prepare;
use bus_port::{Sink, Source};
use cut_disk::CutDisk;
use program_edge::tell_refusal;
use std::alloc::Global;

/// Runs the script of a campaign over the ledger on the first disk, and gives the status that the program ends with.
/// The arguments are those after the program's name, two: of the script and of the disk. All reading of the script
/// comes before all use of the disk; a disk whose first 32 bytes are zero is formatted as a ledger without entries.
/// Each line is written as soon as its command is done.
///
/// The statuses are looked for in the order 2, then 5, 8 and 4 of the script, then 9 and 10 of the disk. A sink that
/// fails makes the status 6, whatever was to be printed, and no further command is done. Out of memory, 7, prints
/// nothing more.
pub fn run_campaign<T: Source, K: Sink, D: CutDisk>(
    alloc: Global,
    words: &[String],
    script: &mut T,
    sink: &mut K,
    disks: &mut Vec<D>,
) -> u8
    // `RunsCampaign` of specs/Campaigns.antt has a member for each promise, in the order of the table of answers.
    ensures promises { RunsCampaign (disks.new ≡ disks.old)
        (record {
          words = map string_bytes words.now;
          script = record { before = T.state script.old; after = T.state script.new };
        })
        (record { before = map D.state disks.old.items; after = map D.state disks.new.items })
        (record { before = K.state sink.old; after = K.state sink.new; status = result }) }

    // The program prints a row of the table; or the first commands of a valid script were done. Over a disk that tells
    // its bytes, none of them loose, these are one run of the machine. One record has all that holds of it: `is_a_run`,
    // `disks`, `failures`, `counters_rise`, `builds`, `taken`, `confirmed_by_a_reply`, `none_goes` and
    // `few_are_skipped`.
    ensures campaigned { EndsCampaign (disks.new ≡ disks.old)
        (record {
          words = map string_bytes words.now;
          script = record { before = T.state script.old; after = T.state script.new };
        })
        (record { before = map D.state disks.old.items; after = map D.state disks.new.items })
        (record { before = K.state sink.old; after = K.state sink.new; status = result }) }
{
    match prepare(alloc, words, script) {
        Ok(commands) => campaign(alloc, commands.as_slice(), sink, disks),
        Err(refusal) => tell_refusal(sink, &refusal),
    }
}
