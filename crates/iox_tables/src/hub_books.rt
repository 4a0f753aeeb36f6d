//! What is so of the tables of a hub between calls, and that calls keep it. The functions have
//! nothing to do: each is there for its contract.
ghost use Rattle.iox_tables.specs.HubBooks.Changes.{EachLaneCounts, OneLaneCounts};
ghost use Rattle.iox_tables.specs.HubBooks.Changes.{SameLanesCountTheSame, VisitsKeepUses};
ghost use Rattle.iox_tables.specs.HubBooks.Changes.{AddedHandlesCount, ChangedHandlesCount};
ghost use Rattle.iox_tables.specs.HubBooks.Changes.{DroppedHandlesCount};
ghost use Rattle.iox_tables.specs.HubBooks.Changes.{HoldersCanBeCounted, UsesAreBounded};
ghost use Rattle.iox_tables.specs.HubBooks.Keeps.{RequestDeliveriesKeepOrder, RequestsKeepOrder};
ghost use Rattle.iox_tables.specs.HubBooks.Keeps.{ResponseDeliveriesKeepOrder, ResponsesKeepOrder};
ghost use Rattle.iox_tables.specs.HubBooks.Keeps.{BarePoolsShowTheSame};
ghost use Rattle.iox_tables.specs.HubBooks.Keeps.{EachHasItsTargets};
ghost use Rattle.iox_tables.specs.HubBooks.Keeps.{LittleChangesKeepOrder};
ghost use Rattle.iox_tables.specs.HubBooks.Keeps.{LoanReleasesKeepOrder, PendingReleasesKeepOrder};
ghost use Rattle.iox_tables.specs.HubBooks.Keeps.{RequestReleasesKeepOrder, ResponseReleasesKeepOrder};
ghost use Rattle.iox_tables.specs.HubBooks.Premises.{EachIsOnceOnItsLane, FreeSlotsAreNotShown};
ghost use Rattle.iox_tables.specs.HubBooks.Premises.{ReceivedAreHeld, RequestsMayBeSent};
ghost use Rattle.iox_tables.specs.HubBooks.Premises.{ResponsesMayBeSent};
ghost use Rattle.iox_tables.specs.HubBooks.Premises.{DryPoolsAreUsedUp, KeptAreUsed};
ghost use Rattle.iox_tables.specs.HubBooks.Reached.{EachCallIsReached};
ghost use Rattle.iox_tables.specs.HubBooks.Rooms.{RequestsTakeTheirRoom, ResponsesTakeTheirRoom};
ghost use Rattle.iox_tables.specs.HubBooks.Worked.{TwoHaveTheRequest};
ghost use Rattle.iox_tables.specs.HubLending.Emptying.{EmptyingKeepsOrder};

/// As lanes change, sums over all lanes change by what those lanes count. Visits move messages
/// within their lanes.
pub fn lanes_count()
    ensures one { OneLaneCounts }
    ensures several { EachLaneCounts }
    ensures same { SameLanesCountTheSame }
    ensures visits { VisitsKeepUses }
{}

/// As a handle is added, changed or dropped, sums over all handles change by what it counts.
pub fn handles_count()
    ensures adds { AddedHandlesCount }
    ensures changes { ChangedHandlesCount }
    ensures drops { DroppedHandlesCount }
{}

/// How many holders a slot may have, that they can be counted, and that they are not shown.
pub fn holders()
    ensures bounded { UsesAreBounded }
    ensures counted { HoldersCanBeCounted }
    ensures hidden { BarePoolsShowTheSame }
{}

/// What the laws of a hub's calls ask is so where its tables are in order: no message is on a lane
/// twice, loans may be sent, what is received is held, and what nobody has is not shown.
pub fn premises()
    ensures once { EachIsOnceOnItsLane }
    ensures requests { RequestsMayBeSent }
    ensures responses { ResponsesMayBeSent }
    ensures held { ReceivedAreHeld }
    ensures free { FreeSlotsAreNotShown }
{}

/// A port keeps as many messages as slots of its pool are used: the pool is dry exactly if none is
/// unused.
pub fn pools()
    ensures kept { KeptAreUsed }
    ensures dry { DryPoolsAreUsedUp }
{}

/// A call of a hub is a whole call of the machine, and what it leads to can be reached.
pub fn calls()
    ensures { EachCallIsReached }
{}

/// Receives keep the tables in order, and take the room of the handles that they make.
pub fn receives()
    ensures requests { RequestsKeepOrder }
    ensures responses { ResponsesKeepOrder }
    ensures request_room { RequestsTakeTheirRoom }
    ensures response_room { ResponsesTakeTheirRoom }
{}

/// Releases of handles keep the tables in order.
pub fn releases()
    ensures loans { LoanReleasesKeepOrder }
    ensures pendings { PendingReleasesKeepOrder }
    ensures responses { ResponseReleasesKeepOrder }
    ensures requests { RequestReleasesKeepOrder }
{}

/// Loans that are delivered keep the tables in order: a request becomes a pending response, and a
/// response ends. All servers, or one client, are such ways.
pub fn deliveries()
    ensures targets { EachHasItsTargets }
    ensures requests { RequestDeliveriesKeepOrder }
    ensures responses { ResponseDeliveriesKeepOrder }
{}

/// So does a sender that gets back what was given back, and so do changes of request states and of
/// what no slot and no handle sees.
pub fn smaller_changes()
    ensures empties { EmptyingKeepsOrder }
    ensures others { LittleChangesKeepOrder }
{}

/// Worked tables: they are in order, and not so with one holder more.
pub fn worked()
    ensures { TwoHaveTheRequest }
{}
