//! Each function has an empty body, and its contract is the law. A run begins at any first world, as that of a bus is.
ghost use Rattle.bus_laws.specs.Laws.{BusesBeginFirst, BusesBeginWithTheirNodes, StepsKeepSound, RunsAreSound, RunsAreCovered, RunsRise, RunsAreAuthentic, RunsAreSingle, RunsKeepKeys, RunsSettleKeys, CutsSkipLittle, HonestIsHeard, SameKeyIsHonest, RunsGoOn, EventsHaveRuns, LinesDetermineWorlds, EventsDetermineLines};

/// The first world of a bus is a first world, in which no Data ID is sent by two nodes.
pub fn buses_begin_first()
    ensures { BusesBeginFirst }
{}

/// The first world of a bus has its nodes in their order, with empty slots, bounds equal to the starts, and no boot.
pub fn buses_begin_with_their_nodes()
    ensures { BusesBeginWithTheirNodes }
{}

/// A step keeps a node sound: counters within their bounds, slots as the code has them, and a pending change that
/// moves forward what is kept.
pub fn steps_keep_nodes_sound()
    ensures { StepsKeepSound }
{}

/// Every node of a run is sound.
pub fn runs_are_sound()
    ensures { RunsAreSound }
{}

/// Each freshness that was sent or accepted so far is at most the kept bound of its route, and at most its counter.
pub fn all_freshness_is_covered()
    ensures { RunsAreCovered }
{}

/// Freshness accepted by one node under one Data ID strictly rises.
pub fn accepted_freshness_rises()
    ensures { RunsRise }
{}

/// Each accepted PDU is secured under the key that its route's slot held, usable. If `from` names an event whose slot
/// held that key, it is the PDU that was sent.
pub fn runs_are_authentic()
    ensures { RunsAreAuthentic }
{}

/// Freshness sent under one Data ID strictly rises, if no Data ID is sent by two nodes.
pub fn no_freshness_is_sent_twice()
    ensures { RunsAreSingle }
{}

/// No acknowledged update of a slot is undone but by a later one, no slot's counter falls, and no filled slot becomes
/// empty.
pub fn keys_are_kept()
    ensures { RunsKeepKeys }
{}

/// From a world in which no change of a node is pending, as after its power-up, its slots change only by updates of
/// later events. An update that failed before and that the power-up dropped is gone for good.
pub fn dropped_updates_are_gone()
    ensures { RunsSettleKeys }
{}

/// A cut lets a sender skip at most its reserve, and a receiver less than its reserve. This counts from its counter, or
/// from the freshness of the PDU whose call failed.
pub fn cuts_skip_little()
    ensures { CutsSkipLittle }
{}

/// A delivered PDU that comes in time is accepted as it was sent, or the disk failed.
pub fn honest_pdus_are_accepted()
    ensures { HonestIsHeard }
{}

/// The key that the sender's slot held at the send secures the PDU: if the receiver's slot holds that key and is
/// usable, a PDU that comes in time is accepted.
pub fn same_key_is_honest()
    ensures { SameKeyIsHonest }
{}

/// No run is stuck: each event of a node of the bus has a line and a world after it, and one if no disk fails.
pub fn runs_go_on()
    ensures { RunsGoOn }
{}

/// So each list of events has a run in which no disk fails.
pub fn events_have_runs()
    ensures { EventsHaveRuns }
{}

/// The events and lines of a run, and what a node kept at each cut that found a change pending, determine every world.
pub fn lines_determine_worlds()
    ensures { LinesDetermineWorlds }
{}

/// Without cuts, and if no disk fails, the events determine every line and every world.
pub fn events_determine_lines()
    ensures { EventsDetermineLines }
{}
