//! Callers of the laws, proved only from their clauses.
ghost use Rattle.iceoryx2_ports.specs.HubConnected.{KeepsNone};
ghost use Rattle.iceoryx2_ports.specs.HubGone.{KeepsFewGone, KeepsNoGone};
ghost use Rattle.iceoryx2_ports.specs.HubHistories.{AreAsDelivered, ComeAtMostOnce};
ghost use Rattle.iceoryx2_ports.specs.HubHistories.{ComeAtTheirRequest, ComeInOrder, WereSent};
ghost use Rattle.iceoryx2_ports.specs.HubLimits.{BorrowsHold, BuffersHold};
ghost use Rattle.iceoryx2_ports.specs.HubLoans.{LoansSucceed};
ghost use Rattle.iceoryx2_ports.specs.HubSlots.{SlotsAreOfHolders};
ghost use Rattle.iceoryx2_ports.specs.Hubs.{IsReached};

use crate::laws::{
    borrows_hold, buffers_hold, few_are_kept_of_the_gone, loans_succeed, messages_are_as_delivered,
    messages_come_at_most_once, messages_come_at_their_request, messages_come_in_order,
    messages_were_sent, nothing_is_kept_of_the_gone, slots_are_of_holders,
};
use crate::{Backpressure, Hub, Payload, Words};

/// What holds of all messages of a hub, whatever history led to its state.
pub fn knows_its_messages<Q: Payload, QH: Words, P: Payload, PH: Words, H: Backpressure>(
    hub: &Hub<Q, QH, P, PH, H>,
)
    ensures reached { IsReached hub.now }
    ensures once { ComeAtMostOnce hub.now }
    ensures order { ComeInOrder hub.now }
    ensures delivered { AreAsDelivered hub.now }
    ensures sent { WereSent hub.now }
    ensures request { ComeAtTheirRequest hub.now }
{
    messages_come_at_most_once(hub);
    messages_come_in_order(hub);
    messages_are_as_delivered(hub);
    messages_were_sent(hub);
    messages_come_at_their_request(hub);
}

/// How many messages there may be, who has them, and how much is kept of ports that are gone.
pub fn knows_its_limits<Q: Payload, QH: Words, P: Payload, PH: Words, H: Backpressure>(
    hub: &Hub<Q, QH, P, PH, H>,
)
    ensures buffers { BuffersHold hub.now.control.tables }
    ensures borrows { BorrowsHold hub.now }
    ensures slots { SlotsAreOfHolders hub.now.control.tables }
    ensures gone { KeepsFewGone hub.now.control.tables }
    ensures none { KeepsNone hub.now.control.tables.settings → KeepsNoGone hub.now.control.tables }
{
    buffers_hold(hub);
    borrows_hold(hub);
    slots_are_of_holders(hub);
    few_are_kept_of_the_gone(hub);
    nothing_is_kept_of_the_gone(hub);
}

/// Which loans succeed, and that no call of a node with full pools runs out of messages.
pub fn knows_its_loans<Q: Payload, QH: Words, P: Payload, PH: Words, H: Backpressure>(
    hub: &Hub<Q, QH, P, PH, H>,
)
    ensures reached { IsReached hub.now }
    ensures made { LoansSucceed hub.now }
{
    loans_succeed(hub);
}
