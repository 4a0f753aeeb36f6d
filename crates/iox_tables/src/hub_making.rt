//! What the making of a port, the release of its value and its disconnection do to the tables of a
//! hub, and that this is the machine's.
//! The functions have nothing to do: each is there for its contract.
ghost use Rattle.iox_tables.specs.HubMaking.Disconnections.{DisconnectionsAreShown, ReleasesAreShown};
ghost use Rattle.iox_tables.specs.HubMaking.Disconnections.{UnusedIsTold};
ghost use Rattle.iox_tables.specs.HubMaking.FreePools.{FreePoolsMayChange, FreePoolsMayGo};
ghost use Rattle.iox_tables.specs.HubMaking.FreePools.{NewPoolsArePut};
ghost use Rattle.iox_tables.specs.HubMaking.LaneSums.{GoneLanesCount, NewLanesCount, NewPipesCount};
ghost use Rattle.iox_tables.specs.HubMaking.OneByOne.{NewPipesHaveRoom, PortsGoOneByOne, RoomAlwaysStays};
ghost use Rattle.iox_tables.specs.HubMaking.NewPorts.{EachMakingIsShown};
ghost use Rattle.iox_tables.specs.HubMaking.Wires.{GonePortsLeaveOthers, NewPortsAreConnected};
ghost use Rattle.iox_tables.specs.HubMaking.Wires.{ReleasesKeepOthers};
ghost use Rattle.iox_tables.specs.HubMaking.Reached.{MakingsAreReached, StartsAreReached};
ghost use Rattle.iox_tables.specs.HubMaking.Starts.{EachStartIsShown};
ghost use Rattle.iox_tables.specs.HubMaking.WholeReleases.{LoansEnd, PendingsEnd, PortsEnd, RequestsEnd};
ghost use Rattle.iox_tables.specs.HubMaking.WholeReleases.{RequestSendsEnd, RequestSendsOverEnd};
ghost use Rattle.iox_tables.specs.HubMaking.WholeReleases.{ResponsesEnd, ResponseSendsEnd};
ghost use Rattle.iox_tables.specs.HubMaking.WholeReleases.{ResponseSendsOverEnd, SpentRequestsEnd};
ghost use Rattle.iox_tables.specs.HubMaking.WholeReleases.{UnawaitedEnd};
ghost use Rattle.iox_tables.specs.HubMaking.Worked.{OneOfEachIsMade, RequestsGoWithClients};

/// The disconnection of a port is the machine's, and so is the test that decides on it.
pub fn disconnections()
    ensures alone { DisconnectionsAreShown }
    ensures tested { ReleasesAreShown }
    ensures told { UnusedIsTold }
{}

/// The releases of handles and of ports' own values are the machine's, with the disconnection that
/// may follow.
pub fn whole_releases()
    ensures loans { LoansEnd }
    ensures pendings { PendingsEnd }
    ensures responses { ResponsesEnd }
    ensures requests { RequestsEnd }
    ensures ports { PortsEnd }
{}

/// So are the sends of requests and responses.
pub fn whole_sends()
    ensures spent { SpentRequestsEnd }
    ensures requests { RequestSendsEnd }
    ensures requests_over { RequestSendsOverEnd }
    ensures unawaited { UnawaitedEnd }
    ensures responses { ResponseSendsEnd }
    ensures responses_over { ResponseSendsOverEnd }
{}

/// A pool that nobody has messages of may become another one, and may go: the state stays.
pub fn pools()
    ensures change { FreePoolsMayChange }
    ensures go { FreePoolsMayGo }
    ensures put { NewPoolsArePut }
{}

/// The making of a port is the machine's command: the same refusals, and the state that the tables
/// then show.
pub fn makings()
    ensures { EachMakingIsShown }
{}

/// Ports stay connected as they were: once one is gone, and once one is new.
pub fn wires()
    ensures gone { GonePortsLeaveOthers }
    ensures released { ReleasesKeepOthers }
    ensures new { NewPortsAreConnected }
{}

/// How sums over all lanes change as a port goes, and as one is new.
pub fn lanes()
    ensures gone { GoneLanesCount }
    ensures new { NewLanesCount }
    ensures pipes { NewPipesCount }
{}

/// Code removes the first of a number, and connects one pipe after another where there is room:
/// that comes to the same.
pub fn steps_of_code()
    ensures removals { PortsGoOneByOne }
    ensures room { NewPipesHaveRoom }
    ensures stays { RoomAlwaysStays }
{}

/// The tables with no port show the machine's first state.
pub fn starts()
    ensures { EachStartIsShown }
{}

/// The states as a hub starts, and once a port is made, can be reached.
pub fn reached()
    ensures starts { StartsAreReached }
    ensures makings { MakingsAreReached }
{}

/// Worked tables: one client and one server are made, and the client goes; a request that waits
/// goes with its client.
pub fn worked()
    ensures made { OneOfEachIsMade }
    ensures goes { RequestsGoWithClients }
{}
