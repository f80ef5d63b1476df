//! What holds of the turns of gateways: each function has an empty body, and its contract is the law.
ghost use Rattle.secoc_gateway.specs.Laws.{GatewayTurnsKeep, GatewayTurnsAreOfTheNode};

/// What each turn of a gateway keeps, an arrival under a pair's first Data ID as any other event. It is a step of the
/// machine, tells whether the disk failed, and makes at most so many calls of it. If a line of the node tells that
/// nothing was done, the disk didn't fail and no power was cut, all is as it was.
pub fn gateway_turns_keep()
    ensures { GatewayTurnsKeep }
{}

/// Turns of a gateway are turns of its node, part by part. Each event is one turn of the node. It is two exactly if a
/// PDU that arrived under the first Data ID of a pair was accepted: this arrival, and the send of its payload under the
/// pair's second.
pub fn gateway_turns_are_of_the_node()
    ensures { GatewayTurnsAreOfTheNode }
{}
