//! What holds in every reachable world of a wire, whatever its nodes did before.
//! The functions have nothing to do: each is there for its contract.
ghost use Rattle.iox_laws.specs.WeaveWorlds.Endings.{EachComesToItsEnd};
ghost use Rattle.iox_laws.specs.WeaveWorlds.GoingOn.{NeverStuck};
ghost use Rattle.iox_laws.specs.WeaveWorlds.OnWires.{PortsHaveOwnNumbers, ReachableIsOnWire, ServedIsReachable};
ghost use Rattle.iox_laws.specs.WeaveWorlds.Receipts.{ReceivesItsOwn};
ghost use Rattle.iox_laws.specs.WeaveWorlds.Waits.{OnlyOverflowEvicts};

/// The states that a service reaches with its own nodes are among those that it and its hub reach.
pub fn services_reach_states_of_hubs()
    ensures { ServedIsReachable }
{}

/// A service and its hub give each port a number of its own, so that the laws of the ledger hold in
/// every reachable world.
pub fn worlds_are_on_a_wire()
    ensures numbers { PortsHaveOwnNumbers }
    ensures on_wire { ReachableIsOnWire }
{}

/// A call under way of a living node always has a moment that may come, or may end.
pub fn calls_are_never_stuck()
    ensures { NeverStuck }
{}

/// A living node can end its call without any other node: no call waits for another node.
pub fn calls_come_to_their_end()
    ensures { EachComesToItsEnd }
{}

/// A sender's call may evict on a way only where messages overflow.
pub fn only_overflow_evicts()
    ensures { OnlyOverflowEvicts }
{}

/// What is received came to its receiver on its lane, and a response names its request.
pub fn each_receives_its_own()
    ensures { ReceivesItsOwn }
{}
