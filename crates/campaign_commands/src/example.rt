//! The example of a campaign.
ghost use Rattle.std.specs.Prelude.{◌≡◌, ◌≤◌, ◌^◌, ◌∷◌, [], map, IfOk};
ghost use Rattle.cut_disk.specs.Memory.{disk_of};
ghost use Rattle.cut_disk.specs.MemDisk.{contents};
ghost use Rattle.campaign_commands.specs.Rows.{CampaignInputs, CampaignDisks};
ghost use Rattle.campaign_commands.specs.Examples.{Campaigns, IsExampleCampaign, zero_disk};

use crate::run::run_campaign;
use bus_port::{Sink, TextSource};
use cut_disk::MemDisk;
use program_edge::NO_MEMORY;
use std::alloc::{AllocError, Global};

/// The example of a memory update in the SHE specification: it is issued, confirmed, and confirmed again.
const EXAMPLE: &[u8] =
    b"issue 000000000000000000000000000001 4 1 00000 0f0e0d0c0b0a09080706050403020100 000102030405060708090a0b0c0d0e0f
confirm 000000000000000000000000000001 4 1 0f0e0d0c0b0a09080706050403020100 00000000000000000000000000000141b472e8d8727d70d57295e74849a27917 820d8d95dc11b4668878160cb2a4e23e
confirm 000000000000000000000000000001 4 1 0f0e0d0c0b0a09080706050403020100 00000000000000000000000000000141b472e8d8727d70d57295e74849a27917 820d8d95dc11b4668878160cb2a4e23e
show 000000000000000000000000000001 5
";

/// Runs the example over a blank disk in memory, as [`run_campaign`] does. Its two arguments and its script take no
/// memory.
pub fn run_example<K: Sink>(alloc: Global, sink: &mut K) -> u8
    ensures { (i : CampaignInputs) × (d : CampaignDisks) × IsExampleCampaign i d
        × Campaigns i d (record { before = K.state sink.old; after = K.state sink.new; status = result }) }
{
    let Ok(mut disks) = one_disk(alloc, 65_536) else {
        return NO_MEMORY;
    };
    let words = [String::new(alloc), String::new(alloc)];
    let mut script = TextSource::new(EXAMPLE);
    run_campaign(alloc, &words, &mut script, sink, &mut disks)
}

/// One disk of so many zero bytes.
#[tactic(auto, unfolding(crate::specs::Examples::zero_disk))]
fn one_disk(alloc: Global, size: usize) -> Result<Vec<MemDisk>, AllocError>
    requires { size ≤ 2 ^ 24 }
    ensures { IfOk result (λ disks. map (λ disk. disk_of (contents disk)) disks.items ≡ zero_disk size ∷ []) }
{
    let Ok(disk) = MemDisk::new(alloc, size) else {
        return Err(AllocError);
    };
    let mut disks = Vec::new(alloc);
    disks.push(disk)?;
    Ok(disks)
}
