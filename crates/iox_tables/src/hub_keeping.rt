//! Tables of a hub that are in order stay so as ports come and go.
//! The functions have nothing to do: each is there for its contract.
ghost use Rattle.iox_tables.specs.HubKeeping.Connected.{ConnectedMayGo, NothingIsKept};
ghost use Rattle.iox_tables.specs.HubKeeping.Connected.{OrderIsReadyForPorts, PlacesBecomeFree};
ghost use Rattle.iox_tables.specs.HubKeeping.Hubs.{HubsDropPools, HubsReleasePorts};
ghost use Rattle.iox_tables.specs.HubKeeping.Hubs.{HubsStart, HubsTakePorts};
ghost use Rattle.iox_tables.specs.HubKeeping.Keeps.{DisconnectionsKeepOrder, MakingsKeepOrder};
ghost use Rattle.iox_tables.specs.HubKeeping.Keeps.{PoolsMayGo, StartsAreInOrder, ValuesKeepOrder};
ghost use Rattle.iox_tables.specs.HubKeeping.Worked.{OneHasTheRequest, TwoPortsAreInOrder};

/// A hub is in order as it starts.
pub fn starts()
    ensures { StartsAreInOrder }
{}

/// It stays so as a port's own value is released.
pub fn values()
    ensures { ValuesKeepOrder }
{}

/// Where a hub is in order, a port may be made, in each place that is free for its pool, and each
/// connected port may go. Where a service keeps nothing of ports that are gone, no port has pipes
/// from them.
pub fn places()
    ensures goes { ConnectedMayGo }
    ensures none { NothingIsKept }
    ensures ready { OrderIsReadyForPorts }
    ensures free { PlacesBecomeFree }
{}

/// A hub stays in order as a port is made.
pub fn makings()
    ensures { MakingsKeepOrder }
{}

/// It stays so as a port goes of which nothing is left, and as a pool goes that nobody has messages
/// of.
pub fn disconnections()
    ensures ports { DisconnectionsKeepOrder }
    ensures pools { PoolsMayGo }
{}

/// A hub is one from its start on, and stays one as a port is made, as a port's own value is
/// released, and as a pool goes that nobody has messages of.
pub fn hubs()
    ensures start { HubsStart }
    ensures ports { HubsTakePorts }
    ensures releases { HubsReleasePorts }
    ensures pools { HubsDropPools }
{}

/// Worked tables: two ports are made, and a server goes while a request waits for it.
pub fn worked()
    ensures two { TwoPortsAreInOrder }
    ensures one { OneHasTheRequest }
{}
