//! What holds of every run of an endpoint over a disk that tells its bytes, put together from the laws of the crates
//! below.
ghost use Rattle.endpoint_commands.specs.Headline.{EndpointsAreRuns};

use bus_laws::{
    accepted_freshness_rises, all_freshness_is_covered, events_determine_lines, keys_are_kept,
    no_freshness_is_sent_twice, runs_are_authentic,
};
use bus_world::starts_go_on_at_a_first_world;

/// What was done of an endpoint over disks that tell their bytes, none of them loose, is one run of the machine with
/// all of `OneEndpointRun`.
pub fn endpoints_are_runs()
    ensures { EndpointsAreRuns }
{
    starts_go_on_at_a_first_world();
    all_freshness_is_covered();
    accepted_freshness_rises();
    runs_are_authentic();
    no_freshness_is_sent_twice();
    keys_are_kept();
    events_determine_lines();
}
