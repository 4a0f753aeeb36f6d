//! When a wire shows a run of the machine, and that it keeps showing one.
//! The functions have nothing to do: each is there for its contract.
#![tactic(auto)]

ghost use Rattle.iox_wire_weaves.specs.CountLaws.{KeptIsTold, OutstandingIsTold};
ghost use Rattle.iox_wire_weaves.specs.Events.{SlotsTellEvents};
ghost use Rattle.iox_wire_weaves.specs.HandleBounds.{NodesHaveFewHandles};
ghost use Rattle.iox_wire_weaves.specs.KeptSlots.{PoolsFitWhatIsKept};
ghost use Rattle.iox_wire_weaves.specs.Laws.{BeginsShow, CallsAreSaid, DeathsShow, RefusalsAreShown};
ghost use Rattle.iox_wire_weaves.specs.Laws.{HandlesStand, ReadsAreWithin};
ghost use Rattle.iox_wire_weaves.specs.Laws.{NodesAreKnown, StepsAreSafe, StepsShow, WiresOpen};

mod refusal;

pub use iox_wire_nodes::{
    Asked, BeginError, CopyReply, HandleCall, LendReply, Lists, NodeCall, NodeError, NodePayload,
    NodeReply, PlanPort, ReceiveReply, RequestReply, RespondReply, ResponseCopyReply, SeatReply,
    StoredNode, WirePlan, WireTerms, WordMap, WordMapNewError,
};
pub use refusal::WireRefusal;

/// A wire that opens shows a run without a beat.
pub fn wires_open()
    ensures { WiresOpen }
{}

/// A living node accesses a word of the wire.
pub fn steps_are_safe()
    ensures { StepsAreSafe }
{}

/// After a step of a node the wire shows the run that continues so.
pub fn steps_show()
    ensures { StepsShow }
{}

/// After a death the wire shows the run with that beat.
pub fn deaths_show()
    ensures { DeathsShow }
{}

/// A call is refused for the machine's reason.
pub fn refusals_are_shown()
    ensures { RefusalsAreShown }
{}

/// What a node is asked for is the call that the machine reads, and that its own tables tell.
pub fn calls_are_said()
    ensures { CallsAreSaid }
{}

/// After the begin of a call the wire shows the run with that beat.
pub fn begins_show()
    ensures { BeginsShow }
{}

/// What a call relies on of the node that begins it.
pub fn nodes_are_known()
    ensures { NodesAreKnown }
{}

/// Each handle of a node between calls is what it may be on the wire.
pub fn handles_stand()
    ensures { HandlesStand }
{}

/// A living node has no more handles than its ports may have together, wherever it is in its call.
pub fn nodes_have_few_handles()
    ensures { NodesHaveFewHandles }
{}

/// The messages that a living node's port keeps are those in its slots in use, and all other slots
/// of its pool are free.
pub fn pools_fit_what_is_kept()
    ensures { PoolsFitWhatIsKept }
{}

/// A read tells no more words than a message takes in its slot.
pub fn reads_are_within()
    ensures { ReadsAreWithin }
{}

/// The desk of a port tells how many messages the port keeps, and how many are outstanding on each
/// way, whether its node lives or is dead.
pub fn desks_tell()
    ensures kept { KeptIsTold }
    ensures outstanding { OutstandingIsTold }
{}

/// The slots of an access tell its event, with the serials of what they hold.
pub fn slots_tell_events()
    ensures { SlotsTellEvents }
{}
