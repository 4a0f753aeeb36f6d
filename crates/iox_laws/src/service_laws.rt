//! What a caller of a service may rely on, whatever was asked before.
//! The functions have nothing to do: each is there for its contract.
ghost use Rattle.iox_laws.specs.ServiceLaws.Cleaning.{CleanupsAreReleases, ReleasesAscend};
ghost use Rattle.iox_laws.specs.ServiceLaws.Closing.{ClosedServicesAreBare, ClosedWithTheLastNode};
ghost use Rattle.iox_laws.specs.ServiceLaws.Closing.{NothingIsForTheGone, NothingIsInHand};
ghost use Rattle.iox_laws.specs.ServiceLaws.Closing.{NothingIsOwedToTheGone, PortsAreOfNodes};
ghost use Rattle.iox_laws.specs.ServiceLaws.Listings.{ClientsAreListed, NodesAreListed};
ghost use Rattle.iox_laws.specs.ServiceLaws.Listings.{ServersAreListed};
ghost use Rattle.iox_laws.specs.ServiceLaws.Refusing.{RefusedCommandLeaves, RefusedJoinsChangeNothing};
ghost use Rattle.iox_laws.specs.ServiceLaws.Refusing.{RefusedPortCommandLeaves};

/// A listing names exactly the nodes, clients or servers that there are, each once, ascending, and
/// changes nothing.
pub fn listings_are_exact()
    ensures nodes { NodesAreListed }
    ensures clients { ClientsAreListed }
    ensures servers { ServersAreListed }
{}

/// A refused join changes nothing: no node is added, and no number is used up.
pub fn refused_joins_change_nothing()
    ensures { RefusedJoinsChangeNothing }
{}

/// A refused command leaves the state unchanged, but for three cases. A loan or a send that fails
/// got back what was given back. A refused send has its loan no longer. A receive at its limit
/// dropped stale messages.
pub fn refused_commands_leave_the_state()
    ensures of_ports { RefusedPortCommandLeaves }
    ensures of_services { RefusedCommandLeaves }
{}

/// A cleanup does what the dead node would do if it lived: it releases the node's values in
/// ascending order, and then the node leaves.
pub fn cleanups_are_releases()
    ensures same { CleanupsAreReleases }
    ensures ascending { ReleasesAscend }
{}

/// Between calls nothing waits for a port that is gone, and nothing of it is outstanding.
pub fn the_gone_have_nothing()
    ensures received { NothingIsForTheGone }
    ensures sent { NothingIsOwedToTheGone }
    ensures in_hand { NothingIsInHand }
{}

/// A service that only its own nodes use closes with its last node, and has nothing left then.
pub fn closed_services_are_bare()
    ensures last { ClosedWithTheLastNode }
    ensures bare { ClosedServicesAreBare }
    ensures ports { PortsAreOfNodes }
{}
