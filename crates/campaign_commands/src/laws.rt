//! What holds of every campaign over a disk that tells its bytes, put together from the laws of the crates below.
ghost use Rattle.campaign_commands.specs.Headline.{CampaignsAreRuns};

use key_campaign::{
    entries_are_confirmed_by_a_reply, few_counters_are_skipped, issued_counters_rise,
    issued_requests_are_allowed, issued_requests_build_their_updates, no_entry_goes_away,
};

/// What was done of a campaign over a disk that tells its bytes, none of them loose, is one run of the machine with all
/// of `Campaigned`.
pub fn campaigns_are_runs()
    ensures { CampaignsAreRuns }
{
    issued_counters_rise();
    issued_requests_build_their_updates();
    issued_requests_are_allowed();
    entries_are_confirmed_by_a_reply();
    no_entry_goes_away();
    few_counters_are_skipped();
}
