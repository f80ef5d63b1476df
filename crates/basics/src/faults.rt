//! Counts of faults, of sources, sinks and disks.
//!
//! A count has 64 bits. It rises by one when a call fails, never falls, and stands still at its last value. A
//! count that rose has risen ever after: it is greater, or at its last value. Below its last value a count
//! that is the same didn't rise.
ghost use Rattle.std.specs.Prelude.{◌≡◌, ◌⊎◌, ℕ, ◌<◌, ◌≤◌, ◌↔◌};
ghost use Rattle.basics.specs.FaultCount.{last_count, counted, Rose};

/// Counts one fault more.
pub fn count_fault(faults: &mut u64)
    ensures count { faults.new ≡ counted faults.old }
    ensures rose { Rose faults.old faults.new }
    ensures later { faults.old ≤ faults.new }
{
    *faults = faults.saturating_add(1);
}

/// Below its last value a count that rose is greater than before.
pub fn a_rise_is_seen()
    ensures { (before after : ℕ) → after < last_count → Rose before after → before < after }
{}

/// A count that has risen stays risen, since it never falls.
pub fn a_rise_stays()
    ensures { (first before after last : ℕ) → first ≤ before → Rose before after → after ≤ last → Rose first last }
{}

/// A count that is the same below its last value didn't rise.
pub fn the_same_count_did_not_rise()
    ensures { (count : ℕ) → count < last_count → ¬ Rose count count }
{}
