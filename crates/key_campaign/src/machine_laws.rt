//! Each function has an empty body, and its contract is the law. A run begins at a sound ledger with nothing pending.
ghost use Rattle.key_campaign.specs.Claims.{LedgerStepsKeepSound, LedgerRunsAreSound, RunsCountersRise, RunsBuildUpdates, RunsAreAllowed, RunsKeepEntries, RunsConfirmByReply, RunsSkipFew};

/// A step keeps a ledger sound: 256 places, no two of them for one unit and slot. Each entry has a unit, a slot and a
/// counter as the ledger's cells have them. A pending change moves it forward.
pub fn steps_keep_ledgers_sound()
    ensures { LedgerStepsKeepSound }
{}

/// So is the ledger at the end of a run.
pub fn ledgers_of_runs_are_sound()
    ensures { LedgerRunsAreSound }
{}

/// The counters that are issued for one unit and slot strictly rise, across power cuts.
pub fn issued_counters_rise()
    ensures { RunsCountersRise }
{}

/// Each request that is issued builds the update with its counter.
pub fn issued_requests_build_their_updates()
    ensures { RunsBuildUpdates }
{}

/// An engine of its unit allows each request that is issued, if the target's counter is below and the authorising key
/// is the given one. None of the first four refusals may apply.
pub fn issued_requests_are_allowed()
    ensures { RunsAreAllowed }
{}

/// No entry that was there at the start of a run, or after one of its moments, goes away, and no counter of it falls.
pub fn no_entry_goes_away()
    ensures { RunsKeepEntries }
{}

/// An entry is confirmed with a counter only if it was so at first, or a command carried a reply that confirms an
/// update with it.
pub fn entries_are_confirmed_by_a_reply()
    ensures { RunsConfirmByReply }
{}

/// A counter that is issued is at most one more than the last one, plus one for each issue since that failed with the
/// disk.
pub fn few_counters_are_skipped()
    ensures { RunsSkipFew }
{}
