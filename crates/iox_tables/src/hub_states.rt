//! How the tables of a hub show the state of the machine that copies messages, and that what a hub
//! does with its lanes is what the machine does. The functions have nothing to do: each is there
//! for its contract.
ghost use Rattle.iox_tables.specs.HubStates.Steps.{OneLaneIsOneWay, OneStateIsOneWay, OthersMayChange};
ghost use Rattle.iox_tables.specs.HubStates.Steps.{DeliveriesAreShown, EmptyingIsShown, PushesAreShown};
ghost use Rattle.iox_tables.specs.HubStates.Steps.{ClosesAreShown, HintsAreShown, OpensAreShown};
ghost use Rattle.iox_tables.specs.HubStates.Steps.{FullIsShown, WaitingIsShown};
ghost use Rattle.iox_tables.specs.HubStates.Changes.{OldestMayGoFirst};
ghost use Rattle.iox_tables.specs.HubStates.Places.{PlacesAreOfNumbers, RanksAreOfSenders};
ghost use Rattle.iox_tables.specs.HubStates.Receives.{ResponsesAreReceived, ServersReceive};
ghost use Rattle.iox_tables.specs.HubStates.Receives.{VisitsAreOfBoth};
ghost use Rattle.iox_tables.specs.HubStates.Sends.{PushingSendsAreShown, SendsAreShown};
ghost use Rattle.iox_tables.specs.HubStates.Ends.{EachCountIsShown, EachGiveBackIsShown};
ghost use Rattle.iox_tables.specs.HubStates.Ends.{EachHandleIsShown, FreeSlotsMayChange};
ghost use Rattle.iox_tables.specs.HubStates.Ends.{HoldersAreNotShown};
ghost use Rattle.iox_tables.specs.HubStates.Names.{EachHandleIsNamed, EachPortIsNamed};
ghost use Rattle.iox_tables.specs.HubStates.Releases.{LoansAreReleased, PendingsAreReleased};
ghost use Rattle.iox_tables.specs.HubStates.Releases.{PortsAreReleased};
ghost use Rattle.iox_tables.specs.HubStates.Releases.{RequestsAreReleased, ResponsesAreReleased};
ghost use Rattle.iox_tables.specs.HubStates.Worked.{ServerReceivesOnce};
ghost use Rattle.iox_tables.specs.HubStates.Asks.{LendingIsShown, LoansAreHandedOut};
ghost use Rattle.iox_tables.specs.HubStates.Asks.{PendingsAreTold, ServersAreTold};
ghost use Rattle.iox_tables.specs.HubStates.Sendings.{HintsAreGiven, RequestsAreSent};
ghost use Rattle.iox_tables.specs.HubStates.Sendings.{RequestsAreSentOver, ResponsesAreSent};
ghost use Rattle.iox_tables.specs.HubStates.Sendings.{ResponsesAreSentOver, SpentRequestsAreRefused};
ghost use Rattle.iox_tables.specs.HubStates.Sendings.{StatesAreShown, UnawaitedGoToNobody};

/// A change of one lane, or of one request state, changes what one way has, and nothing else.
pub fn one_change_is_of_one_way()
    ensures lanes { OneLaneIsOneWay }
    ensures states { OneStateIsOneWay }
{}

/// Code changes a pipe by its rank and a port by its place: that is the first of its number.
pub fn places()
    ensures ranks { RanksAreOfSenders }
    ensures ports { PlacesAreOfNumbers }
{}

/// A message that is on no lane may become another one: what lanes show stays.
pub fn others_may_change()
    ensures { OthersMayChange }
{}

/// What a sender does with its lanes is what the machine does on their ways: it gets all back, and
/// delivers, with overflow and without; and the same ways are full.
pub fn steps_of_senders()
    ensures empties { EmptyingIsShown }
    ensures delivers { DeliveriesAreShown }
    ensures pushes { PushesAreShown }
    ensures full { FullIsShown }
{}

/// Where a lane is full, its oldest message may be pushed out before the new one is delivered.
pub fn oldest_may_go_first()
    ensures { OldestMayGoFirst }
{}

/// Opens, closes and hints of request states are the machine's; so is the answer whether something
/// waits.
pub fn steps_of_states()
    ensures opens { OpensAreShown }
    ensures closes { ClosesAreShown }
    ensures hints { HintsAreShown }
    ensures waits { WaitingIsShown }
{}

/// The receives of servers and of pending responses are the machine's: the same reply, and the
/// state that the tables then show.
pub fn receives()
    ensures servers { ServersReceive }
    ensures responses { ResponsesAreReceived }
    ensures both { VisitsAreOfBoth }
{}

/// Sends are the machine's up to their end, with overflow and without.
pub fn sends()
    ensures plain { SendsAreShown }
    ensures pushing { PushingSendsAreShown }
{}

/// What ends of calls do is the machine's: handles and counts, and what is given back. A free slot
/// may become another message, and holders are not shown.
pub fn ends_of_calls()
    ensures handles { EachHandleIsShown }
    ensures counts { EachCountIsShown }
    ensures slots { FreeSlotsMayChange }
    ensures holders { HoldersAreNotShown }
    ensures gives_back { EachGiveBackIsShown }
{}

/// What a number names, and whether a call of it is refused by name, is the machine's.
pub fn names()
    ensures handles { EachHandleIsNamed }
    ensures ports { EachPortIsNamed }
{}

/// The releases of handles and of ports' own values are the machine's, up to the disconnection of
/// the port.
pub fn releases()
    ensures loans { LoansAreReleased }
    ensures pendings { PendingsAreReleased }
    ensures responses { ResponsesAreReleased }
    ensures requests { RequestsAreReleased }
    ensures ports { PortsAreReleased }
{}

/// The sends of requests are the machine's whole calls, with overflow and without.
pub fn requests_are_sent()
    ensures plain { RequestsAreSent }
    ensures over { RequestsAreSentOver }
    ensures spent { SpentRequestsAreRefused }
{}

/// The sends of responses are the machine's whole calls, up to the disconnection of the server.
pub fn responses_are_sent()
    ensures plain { ResponsesAreSent }
    ensures over { ResponsesAreSentOver }
    ensures unawaited { UnawaitedGoToNobody }
{}

/// A hint is the machine's whole call; what a question looks at is what the tables have.
pub fn hints()
    ensures given { HintsAreGiven }
    ensures states { StatesAreShown }
{}

/// Whether something waits is told as the machine tells it.
pub fn questions()
    ensures servers { ServersAreTold }
    ensures pendings { PendingsAreTold }
{}

/// Loans are the machine's, from their tests on: all is got back, the pool decides, and the loan is
/// handed out.
pub fn loans()
    ensures lends { LendingIsShown }
    ensures hands_out { LoansAreHandedOut }
{}

/// Worked tables: what the laws ask is so there, and a server receives.
pub fn worked()
    ensures { ServerReceivesOnce }
{}
