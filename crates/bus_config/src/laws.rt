//! Laws of named buses: the contract of each function is the law, and its body is empty.
ghost use Rattle.bus_config.specs.Laws.{NamedBusesAreBuses, NamesTellNodes};

/// The configurations of the nodes are a bus of the machine.
pub fn named_buses_are_buses()
    ensures { NamedBusesAreBuses }
{}

/// A node is found under its own name, and what is found has the name that was asked for.
pub fn names_tell_nodes()
    ensures { NamesTellNodes }
{}
