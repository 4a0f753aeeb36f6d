//! What loans do to tables of a hub that are in order: they stay so.
//! The functions have nothing to do: each is there for its contract.
ghost use Rattle.iox_tables.specs.HubLending.Choosing.{FreeLanesAreOwn, FreeSlotsHaveLanes};
ghost use Rattle.iox_tables.specs.HubLending.Choosing.{FreeSlotsMayTakeLoans, HoldersMayComeBackFirst};
ghost use Rattle.iox_tables.specs.HubLending.Emptying.{DryPoolsHaveHolders, EmptyingKeepsOrder};
ghost use Rattle.iox_tables.specs.HubLending.Emptying.{GettingBackKeepsOrder};
ghost use Rattle.iox_tables.specs.HubLending.Filling.{FillingsKeepLoans, KindsMayChange};
ghost use Rattle.iox_tables.specs.HubLending.Filling.{LoansAreOfOneHandle, WritesKeepLoans};
ghost use Rattle.iox_tables.specs.HubLending.Keeping.{HeldSlotsAreKept};
ghost use Rattle.iox_tables.specs.HubLending.Lending.{LoansKeepOrder};
ghost use Rattle.iox_tables.specs.HubLending.Premises.{FreeSlotsAreUnused, HandlesAreOnNodes};
ghost use Rattle.iox_tables.specs.HubLending.Premises.{PortsAreReadyToLend};
ghost use Rattle.iox_tables.specs.HubLending.WholeLoans.{FreeSlotsAreLent, FullPoolsRefuse};
ghost use Rattle.iox_tables.specs.HubLending.Worked.{ClientMayNotLend, ServerMayLend};

/// What the laws of loans ask is so where the tables are in order.
pub fn premises()
    ensures nodes { HandlesAreOnNodes }
    ensures ports { PortsAreReadyToLend }
    ensures free { FreeSlotsAreUnused }
{}

/// A port keeps exactly the slots of its pool that somebody has.
pub fn keeping()
    ensures { HeldSlotsAreKept }
{}

/// A port may get back all that was given back; and its pool is dry exactly where somebody then has
/// each slot.
pub fn emptying()
    ensures lanes { EmptyingKeepsOrder }
    ensures port { GettingBackKeepsOrder }
    ensures dry { DryPoolsHaveHolders }
{}

/// A loan that is made keeps the tables in order.
pub fn lending()
    ensures { LoansKeepOrder }
{}

/// Which slot and which lane a loan may take, and that its tables show what the machine makes.
pub fn choosing()
    ensures slots { FreeSlotsMayTakeLoans }
    ensures some { FreeSlotsHaveLanes }
    ensures lanes { FreeLanesAreOwn }
    ensures shown { HoldersMayComeBackFirst }
{}

/// Only a loan's handle has its message, and as a write or its holder fills it the tables stay in
/// order.
pub fn filling()
    ensures alone { LoansAreOfOneHandle }
    ensures kinds { KindsMayChange }
    ensures writes { WritesKeepLoans }
    ensures fills { FillingsKeepLoans }
{}

/// A loan is the machine's whole call, whichever free slot it takes, and its tables are in order.
pub fn whole_loans()
    ensures refused { FullPoolsRefuse }
    ensures made { FreeSlotsAreLent }
{}

/// Worked tables: one port may lend, another may not.
pub fn worked()
    ensures server { ServerMayLend }
    ensures client { ClientMayNotLend }
{}
