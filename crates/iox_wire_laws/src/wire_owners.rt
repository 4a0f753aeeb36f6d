//! What a call on a wire owns stays its own, also where a release closes its request states; pushes
//! find room, and borrowed messages are counted.
//! The functions have nothing to do: each is there for its contract.
ghost use Rattle.iox_wire_laws.specs.WireOwners.Borrowed.{CountsTellLimits, EndsKeepBorrowed};
ghost use Rattle.iox_wire_laws.specs.WireOwners.Borrowed.{OwnPartsKeepBorrowed};
ghost use Rattle.iox_wire_laws.specs.WireOwners.FirmOwners.{CallsBeginFirmly, FirmOwnersGoOn};
ghost use Rattle.iox_wire_laws.specs.WireOwners.FirmOwners.{FirmOwnersStay, OthersLeaveFirm};
ghost use Rattle.iox_wire_laws.specs.WireOwners.Pushes.{DeliveriesAreNotRefused, PushesAreTold};
ghost use Rattle.iox_wire_laws.specs.WireOwners.Releases.{MomentsLeaveStates, OpenedStatesAreOwn};
ghost use Rattle.iox_wire_laws.specs.WireOwners.Releases.{OthersLeaveStates, ReleasesBeginAsOwners};
ghost use Rattle.iox_wire_laws.specs.WireOwners.RequestStates.{OnlyClientsOpen, OthersOpenNothing};
ghost use Rattle.iox_wire_laws.specs.WireOwners.SentStates.{AccessesLeaveOpened, OthersLeaveOpened};
ghost use Rattle.iox_wire_laws.specs.WireOwners.SentStates.{AccessesLeaveStates, SentRequestsHaveStates};
ghost use Rattle.iox_wire_laws.specs.WireOwners.WorkedOwners.{WorkedAreReleased, WorkedHaveOwnStates};
ghost use Rattle.iox_wire_laws.specs.WireOwners.WorkedOwners.{WorkedHaveRoom, WorkedIsFirm};

/// A request state is opened only by its client's node.
pub fn clients_open_their_states()
    ensures opened { OnlyClientsOpen }
    ensures others { OthersOpenNothing }
{}

/// A beat of another node leaves what a call owns firmly, at every place.
pub fn others_leave_what_is_firm()
    ensures { OthersLeaveFirm }
{}

/// After an access of its own a call owns its next place as firmly.
pub fn firm_owners_go_on()
    ensures steps { FirmOwnersStay }
    ensures shown { FirmOwnersGoOn }
{}

/// A call of a ready node that begins as the owner of its first place owns it firmly.
pub fn calls_begin_as_firm_owners()
    ensures calls { CallsBeginFirmly }
    ensures releases { ReleasesBeginAsOwners }
{}

/// The request states of a pending response name no other request, whatever others do.
pub fn pending_responses_have_own_states()
    ensures others { OthersLeaveStates }
    ensures moments { MomentsLeaveStates }
    ensures opened { OpenedStatesAreOwn }
    ensures accesses { AccessesLeaveStates }
{}

/// A push never finds its queue full, unless messages overflow.
pub fn pushes_find_room()
    ensures room { DeliveriesAreNotRefused }
    ensures told { PushesAreTold }
{}

/// What a send opened names its request or is closed, until its pending response is released.
pub fn sent_requests_have_own_states()
    ensures accesses { AccessesLeaveOpened }
    ensures others { OthersLeaveOpened }
    ensures sent { SentRequestsHaveStates }
{}

/// On the worked wire handles are as releases ask, a close is owned, and returns have room.
pub fn worked_owners()
    ensures released { WorkedAreReleased }
    ensures states { WorkedHaveOwnStates }
    ensures firm { WorkedIsFirm }
    ensures room { WorkedHaveRoom }
{}

/// A node's counts of borrowed messages stay the machine's as its calls end.
pub fn borrowed_messages_are_counted()
    ensures limits { CountsTellLimits }
    ensures own { OwnPartsKeepBorrowed }
    ensures ends { EndsKeepBorrowed }
{}
