//! Each function has an empty body, and its contract is the law. A run begins at any sound node, as the first node of a
//! bus is. It may have power cuts and failures of the disk anywhere.
ghost use Rattle.secoc_gateway.specs.MachineLaws.{RunsForwardWhatArrived, ArrivalsRise, DeparturesRise, RunsStaySound};
ghost use Rattle.secoc_gateway.specs.MachineLaws.{RunsAreOfTheNode};

/// Each PDU that was forwarded is secured under the key of the second Data ID's route just then, with the payload of
/// this very event's arrival. That arrival was secured under the key of the first Data ID's route.
pub fn forwards_what_arrived()
    ensures { RunsForwardWhatArrived }
{}

/// The freshness of what arrives under one Data ID strictly rises, over all that was forwarded, dropped or accepted: no
/// freshness is forwarded twice, and payloads keep their order.
pub fn arrivals_rise()
    ensures { ArrivalsRise }
{}

/// The freshness of what departs under one Data ID strictly rises.
pub fn departures_rise()
    ensures { DeparturesRise }
{}

/// The node of a gateway is sound after each of its runs.
pub fn stays_sound()
    ensures { RunsStaySound }
{}

/// A run of a gateway is a run of its node, part by part. Each event is one step of the node. It is two exactly if a
/// PDU that arrived under the first Data ID of a pair was accepted: this arrival, and the send of its payload under the
/// pair's second.
pub fn runs_are_of_the_node()
    ensures { RunsAreOfTheNode }
{}
